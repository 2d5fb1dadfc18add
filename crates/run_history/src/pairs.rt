// Which request an output answers, if the user chooses: output N answers request N, or the first request of its value.
ghost use Rattle.std.specs.Prelude.{◌≡◌, ℕ, ℤ, ◌++◌, ◌∷◌, [], OnOk, take, drop, option_to_list, if◌then◌else◌};
ghost use Rattle.std.specs.Ordering.{int_eq};
ghost use Rattle.run_history.specs.Answers.{answers_at, answers_from};
ghost use Rattle.run_history.specs.Pairs.{clocks_for, clocks_of, waiting_in};

use crate::answers::AnswerList;
use crate::happenings::Happening;
use crate::history::HistoryError;
use schedule_log::Item;
use std::alloc::Global;
use std::collections::{BTreeMap, VecDeque};

/// The numbers of the requests of each value without an answer, the oldest first.
type Unanswered = BTreeMap<i32, VecDeque<u64>>;

/// How outputs are paired with requests.
#[derive(Clone, Copy)]
pub enum Pairing {
    /// Output N answers the N-th request that came.
    First,
    /// An output answers the first request of its value that came and has no answer.
    Value,
}

/// The answers to requests so far.
#[derive(Drop)]
pub struct Pairs {
    alloc: Global,
    /// How outputs are paired with requests.
    pub pairing: Pairing,
    /// The number of requests that came.
    pub came: u64,
    /// The number of outputs.
    pub put: u64,
    /// The requests of each value without an answer, in order.
    pub unanswered: Unanswered,
    /// The requests that the segment in progress answers.
    pub under_way: Vec<u64>,
    /// The answers to requests.
    pub answers: AnswerList,
}

impl Pairs {
    ghost use Rattle.std.specs.Prelude.{◌≡◌, ℕ, ℤ, List, ◌+◌, ◌++◌, ◌∷◌, [], OnOk, take, drop, if◌then◌else◌};
    ghost use Rattle.std.specs.Ordering.{int_eq};
    ghost use Rattle.run_history.specs.Answers.{answers_at, answers_from};
    ghost use Rattle.run_history.specs.Pairs.{answers_with, came_item, came_with, clocks_of, first_with, puts_with, value_with, waiting_in, waiting_item, waiting_with};
    ghost use Rattle.run_history.specs.PairedRuns.{ArePairsByOrder, ArePairsByValue};
    ghost use Rattle.run_history.specs.declared.happenings.Happening.{Happening};
    ghost use Rattle.run_history.specs.declared.pairs.Pairing.TheVariants.{First, Value};

    /// Returns the state before the first entry. It doesn't allocate.
    pub fn new(alloc: Global, pairing: Pairing) -> Pairs
        ensures pairing { result.pairing ≡ pairing }
        ensures put { result.put ≡ 0 }
        ensures came { result.came ≡ 0 }
        ensures unanswered { (value : ℤ) → waiting_in result.unanswered value ≡ [] }
        ensures by_order { pairing ≡ First → ArePairsByOrder [] result }
        ensures by_value { pairing ≡ Value → ArePairsByValue [] result }
        ensures under_way { result.under_way.items ≡ [] }
        ensures answers { (request : ℕ) → answers_at result.answers request ≡ None }
    {
        Pairs {
            alloc,
            pairing,
            came: 0,
            put: 0,
            unanswered: BTreeMap::new(alloc),
            under_way: Vec::new(alloc),
            answers: AnswerList::new(alloc),
        }
    }

    /// Adds the happening of the next entry. After an error the contents are unspecified.
    pub fn add(&mut self, told: Happening) -> Result<(), HistoryError>
        ensures pairing { self.new.pairing ≡ self.old.pairing }
        ensures put { OnOk result (self.new.put ≡ puts_with told self.old.put) }
        ensures came { OnOk result (self.new.came ≡ came_with told self.old.came) }
        ensures unanswered { (value : ℤ) → self.old.pairing ≡ Value → OnOk result (waiting_in self.new.unanswered value ≡ waiting_with told self.old.came value (waiting_in self.old.unanswered value)) }
        ensures value { self.old.pairing ≡ Value → OnOk result (self.new.under_way.items ≡ value_with told (λ value. waiting_in self.old.unanswered value) self.old.under_way.items) }
        ensures first { self.old.pairing ≡ First → OnOk result (self.new.under_way.items ≡ first_with told self.old.put self.old.under_way.items) }
        ensures answers { (request : ℕ) → OnOk result (answers_at self.new.answers request ≡ answers_with request told self.old.under_way.items (answers_at self.old.answers request)) }
        ensures by_order { (before : List Happening) → self.old.pairing ≡ First → ArePairsByOrder before self.old → OnOk result (ArePairsByOrder (before ++ told ∷ []) self.new) }
        ensures by_value { (before : List Happening) → self.old.pairing ≡ Value → ArePairsByValue before self.old → OnOk result (ArePairsByValue (before ++ told ∷ []) self.new) }
    {
        self.take(told)?;
        Ok(())
    }

    /// Adds the happening, as `add` does.
    fn take(&mut self, told: Happening) -> Result<(), HistoryError>
        ensures pairing { self.new.pairing ≡ self.old.pairing }
        ensures put { OnOk result (self.new.put ≡ puts_with told self.old.put) }
        ensures came { OnOk result (self.new.came ≡ came_with told self.old.came) }
        ensures unanswered { (value : ℤ) → self.old.pairing ≡ Value → OnOk result (waiting_in self.new.unanswered value ≡ waiting_with told self.old.came value (waiting_in self.old.unanswered value)) }
        ensures value { self.old.pairing ≡ Value → OnOk result (self.new.under_way.items ≡ value_with told (λ value. waiting_in self.old.unanswered value) self.old.under_way.items) }
        ensures first { self.old.pairing ≡ First → OnOk result (self.new.under_way.items ≡ first_with told self.old.put self.old.under_way.items) }
        ensures answers { (request : ℕ) → OnOk result (answers_at self.new.answers request ≡ answers_with request told self.old.under_way.items (answers_at self.old.answers request)) }
    {
        match told {
            Happening::Came { item, .. } => self.come(item),
            Happening::Lost { .. } => Ok(()),
            Happening::Started { .. } => Ok(()),
            Happening::Waited(_) => Ok(()),
            Happening::Put { value, .. } => self.note(value),
            Happening::Ran { segment, .. } => self.answer_all(segment.ended),
            Happening::Nothing => Ok(()),
        }
    }

    /// Takes up a request or a message that came.
    fn come(&mut self, item: Item) -> Result<(), HistoryError>
        ensures pairing { self.new.pairing ≡ self.old.pairing }
        ensures put { self.new.put ≡ self.old.put }
        ensures came { OnOk result (self.new.came ≡ came_item item self.old.came) }
        ensures unanswered { (value : ℤ) → self.old.pairing ≡ Value → OnOk result (waiting_in self.new.unanswered value ≡ waiting_item item self.old.came value (waiting_in self.old.unanswered value)) }
        ensures under_way { self.new.under_way.items ≡ self.old.under_way.items }
        ensures answers { self.new.answers ≡ self.old.answers }
    {
        match item {
            Item::Arrive { value } => self.come_with(value),
            Item::Data { .. } => Ok(()),
        }
    }

    /// Takes up a request with that value.
    fn come_with(&mut self, value: i32) -> Result<(), HistoryError>
        ensures pairing { self.new.pairing ≡ self.old.pairing }
        ensures put { self.new.put ≡ self.old.put }
        ensures came { OnOk result (self.new.came ≡ self.old.came + 1) }
        ensures unanswered { (other : ℤ) → self.old.pairing ≡ Value → OnOk result (waiting_in self.new.unanswered other ≡ if int_eq value other then waiting_in self.old.unanswered other ++ self.old.came ∷ [] else waiting_in self.old.unanswered other) }
        ensures under_way { self.new.under_way.items ≡ self.old.under_way.items }
        ensures answers { self.new.answers ≡ self.old.answers }
    {
        let request = self.came;
        let Some(came) = request.checked_add(1) else {
            return Err(HistoryError::Count);
        };
        self.came = came;
        match self.pairing {
            Pairing::First => Ok(()),
            Pairing::Value => join(&mut self.unanswered, self.alloc, value, request),
        }
    }

    /// Takes up a word that was put.
    fn note(&mut self, value: i32) -> Result<(), HistoryError>
        ensures pairing { self.new.pairing ≡ self.old.pairing }
        ensures put { OnOk result (self.new.put ≡ self.old.put + 1) }
        ensures came { self.new.came ≡ self.old.came }
        ensures unanswered { (other : ℤ) → self.old.pairing ≡ Value → OnOk result (waiting_in self.new.unanswered other ≡ if int_eq value other then drop 1 (waiting_in self.old.unanswered other) else waiting_in self.old.unanswered other) }
        ensures value { self.old.pairing ≡ Value → OnOk result (self.new.under_way.items ≡ self.old.under_way.items ++ take 1 (waiting_in self.old.unanswered value)) }
        ensures first { self.old.pairing ≡ First → OnOk result (self.new.under_way.items ≡ self.old.under_way.items ++ self.old.put ∷ []) }
        ensures answers { self.new.answers ≡ self.old.answers }
    {
        let place = self.put;
        let Some(put) = place.checked_add(1) else {
            return Err(HistoryError::Count);
        };
        self.put = put;
        let answered = match self.pairing {
            Pairing::First => Some(place),
            Pairing::Value => take_oldest(&mut self.unanswered, value),
        };
        match answered {
            None => Ok(()),
            Some(request) => match self.under_way.push(request) {
                Ok(()) => Ok(()),
                Err(_) => Err(HistoryError::Memory),
            },
        }
    }

    /// Takes up the end of the segment in progress: its outputs have this clock.
    fn answer_all(&mut self, at: u64) -> Result<(), HistoryError>
        ensures pairing { self.new.pairing ≡ self.old.pairing }
        ensures put { self.new.put ≡ self.old.put }
        ensures came { self.new.came ≡ self.old.came }
        ensures unanswered { self.new.unanswered ≡ self.old.unanswered }
        ensures under_way { OnOk result (self.new.under_way.items ≡ []) }
        ensures answers { (request : ℕ) → OnOk result (answers_at self.new.answers request ≡ answers_from (answers_at self.old.answers request) (clocks_of request at self.old.under_way.items)) }
    {
        add_all(&mut self.answers, self.under_way.as_slice(), at)?;
        self.under_way.clear();
        Ok(())
    }
}

/// Adds a request of that value to those without an answer.
fn join(
    unanswered: &mut Unanswered,
    alloc: Global,
    value: i32,
    request: u64,
) -> Result<(), HistoryError>
    ensures { (other : ℤ) → OnOk result (waiting_in unanswered.new other ≡ if int_eq value other then waiting_in unanswered.old other ++ request ∷ [] else waiting_in unanswered.old other) }
{
    if let Some(queue) = unanswered.get_mut(&value) {
        return match queue.push_back(request) {
            Ok(()) => Ok(()),
            Err(_) => Err(HistoryError::Memory),
        };
    }
    let mut queue = VecDeque::new(alloc);
    let Ok(()) = queue.push_back(request) else {
        return Err(HistoryError::Memory);
    };
    match unanswered.insert(value, queue) {
        Ok(_) => Ok(()),
        Err(_) => Err(HistoryError::Memory),
    }
}

/// Removes and returns the oldest request of that value without an answer, which is answered now.
fn take_oldest(unanswered: &mut Unanswered, value: i32) -> Option<u64>
    ensures oldest { option_to_list result ≡ take 1 (waiting_in unanswered.old value) }
    ensures others { (other : ℤ) → waiting_in unanswered.new other ≡ if int_eq value other then drop 1 (waiting_in unanswered.old other) else waiting_in unanswered.old other }
{
    match unanswered.get_mut(&value) {
        Some(queue) => queue.pop_front(),
        None => None,
    }
}

/// Adds one answer to each of these requests, at that clock.
#[tactic(auto, using(crate::proofs::Paired::answers_more))]
fn add_all(answers: &mut AnswerList, requests: &[u64], at: u64) -> Result<(), HistoryError>
    ensures { (request : ℕ) → OnOk result (answers_at answers.new request ≡ answers_from (answers_at answers.old request) (clocks_of request at requests.now)) }
{
    for request in requests {
        answers.add(*request as usize, at)?;
    }
    Ok(())
}
