// The numbers of a whole log.
ghost use Rattle.std.specs.Prelude.{◌≡◌, ℕ, List, ◌∷◌, ◌++◌, IfOk, Err, map};
ghost use Rattle.std.specs.List.{AllByRecursion};
ghost use Rattle.cap_text.specs.TextLines.{lines_of};
ghost use Rattle.schedule_log.specs.EntryRanges.{FitsEntry, IsLogLine};
ghost use Rattle.schedule_log.specs.EntryText.{entry_text, log_text};
ghost use Rattle.schedule_log.specs.declared.entries.Entry.{Entry};
ghost use Rattle.run_history.specs.Happenings.{happenings};
ghost use Rattle.run_history.specs.Known.{known_after};
ghost use Rattle.run_history.specs.Numbers.{IsNumbersOf};
ghost use Rattle.run_history.specs.Sights.{Sight, sights};

use crate::answering::{Answerer, Answering};
use crate::happenings::Happening;
use crate::history::{History, HistoryError};
use crate::numbers::Numbers;
use cap_text::Lines;
use report_figures::Window;
use schedule_log::{Entry, LogError, read_entry};
use std::alloc::Global;
use thiserror::Error;

/// Why a log has no numbers.
#[derive(Clone, Copy, Debug, Error)]
pub enum ReadError {
    /// A line isn't that of an entry.
    #[error("a line is not that of a log")]
    Line,
    /// A clock or a count would be 2^64 or more, a request would be answered 2^32 times, or a wait would end before it
    /// began. This happens in no run.
    #[error("a clock, a count or a length of time is out of range")]
    Count,
    /// Out of memory.
    #[error("out of memory")]
    Memory,
}

impl From<HistoryError> for ReadError {
    ghost use Rattle.run_history.specs.Reading.{by_history};

    ghost from_gives = { λ refusal error. error ≡ by_history refusal };

    fn from(refusal: HistoryError) -> ReadError {
        match refusal {
            HistoryError::Count => ReadError::Count,
            HistoryError::Memory => ReadError::Memory,
        }
    }
}

/// An observer of a log while it is read.
pub trait Watch {
    ghost use Rattle.std.specs.Prelude.{List, [], ◌∷◌, ◌++◌, OnOk};
    ghost use Rattle.run_history.specs.Sights.{Sight};

    // What holds of it after it has seen these, one after another.
    ghost has_seen: { List Sight → Self → Type 0 };

    /// Sees the next entry and its happening: once as it is, and once with the request for which a segment's thread
    /// works as the one that it serves, if that is known. An error ends the reading.
    fn see(&mut self, entry: &Entry, told: Happening, named: Happening) -> Result<(), HistoryError>
        ensures { (before : List Sight) → has_seen before self.old → OnOk result (has_seen (before ++ record { entry = entry.now; told = told; named = named } ∷ []) self.new) };
}

/// The result of reading a log: its numbers, and what is known at its end.
#[derive(Drop)]
pub struct Reading {
    /// The numbers of the run.
    pub numbers: Numbers,
    /// What is known at the end of the log.
    pub history: History,
}

/// The state of reading a log.
#[derive(Drop)]
struct Course<'a> {
    history: History,
    numbers: Numbers,
    answerer: Answerer<'a>,
}

/// Returns the numbers of the run that has this log, with this number of chunks and these outputs as the answers.
/// `accepts` has at each site's number whether its call is `accept`. With a window, the waits are those that ended in
/// it. The log is read once, line by line, without keeping entries, and `watch` sees each entry.
///
/// # Errors
///
/// `Line` only if a line isn't that of an entry and each line before it is. When `Count` or `Memory` is returned isn't
/// proved.
pub fn numbers_of<W: Watch>(
    alloc: Global,
    log: &[u8],
    accepts: &[bool],
    window: Option<Window>,
    chunks: u32,
    answering: Answering,
    watch: &mut W,
) -> Result<Reading, ReadError>
    ensures numbers { (entries : List Entry) → AllByRecursion FitsEntry entries → log.now ≡ log_text entries → IfOk result (λ reading. IsNumbersOf answering.entry window chunks (happenings accepts.now entries) reading.numbers) }
    ensures line { result ≡ Err ReadError.Line → (entries : List Entry) → AllByRecursion FitsEntry entries → log.now ≡ log_text entries → ⊥ }
    ensures log { IfOk result (λ _. (entries : List Entry) × AllByRecursion FitsEntry entries × (lines_of log.now ≡ map entry_text entries)) }
    ensures refused { result ≡ Err ReadError.Line → (before : List Entry) × (line : List ℕ) × (left : List (List ℕ)) × AllByRecursion FitsEntry before × (lines_of log.now ≡ map entry_text before ++ line ∷ left) × (¬ IsLogLine line) }
    ensures history { (entries : List Entry) → AllByRecursion FitsEntry entries → log.now ≡ log_text entries → IfOk result (λ reading. reading.history ≡ known_after accepts.now entries) }
    ensures watched { (entries : List Entry) → AllByRecursion FitsEntry entries → log.now ≡ log_text entries → (before : List Sight) → W.has_seen before watch.old → IfOk result (λ _. W.has_seen (before ++ sights answering.entry accepts.now entries) watch.new) }
{
    let history = History::new(alloc);
    let numbers = Numbers::new(alloc);
    let answerer = Answerer::new(alloc, answering);
    let mut course = Course {
        history,
        numbers,
        answerer,
    };
    for line in Lines::new(log) {
        match read_entry(line) {
            Ok(entry) => {
                course.take(&entry, accepts, window, chunks, watch)?;
            }
            Err(LogError::Line) => return Err(ReadError::Line),
        }
    }
    let Course {
        history,
        mut numbers,
        mut answerer,
    } = course;
    answerer.hand_over(alloc, &mut numbers);
    drop(answerer);
    Ok(Reading { numbers, history })
}

impl<'a> Course<'a> {
    ghost use Rattle.std.specs.Prelude.{◌≡◌, List, [], ◌∷◌, ◌++◌, OnOk, Err};
    ghost use Rattle.run_history.specs.declared.answering.Answering.{Answering};
    ghost use Rattle.run_history.specs.declared.happenings.Happening.{Happening};
    ghost use Rattle.run_history.specs.Answering.{Keeps, named_for};
    ghost use Rattle.run_history.specs.Known.{with_entry, happening};
    ghost use Rattle.run_history.specs.Numbers.{IsOneMore};
    ghost use Rattle.run_history.specs.Sights.{Sight};

    /// Adds the next entry.
    #[inline(always)]
    fn take<W: Watch>(
        &mut self,
        entry: &Entry,
        accepts: &[bool],
        window: Option<Window>,
        chunks: u32,
        watch: &mut W,
    ) -> Result<(), ReadError>
        ensures known { OnOk result (self.new.history ≡ with_entry accepts.now entry.now self.old.history) }
        ensures more { OnOk result (IsOneMore window chunks (happening accepts.now entry.now self.old.history) self.old.numbers self.new.numbers) }
        ensures kept { (answering : Answering) → (before : List Happening) → Keeps answering before self.old.answerer → OnOk result (Keeps answering (before ++ happening accepts.now entry.now self.old.history ∷ []) self.new.answerer) }
        ensures line { result ≡ Err ReadError.Line → ⊥ }
        ensures watched { (before : List Sight) → W.has_seen before watch.old → OnOk result (W.has_seen (before ++ record { entry = entry.now; told = happening accepts.now entry.now self.old.history; named = named_for self.old.answerer (happening accepts.now entry.now self.old.history) } ∷ []) watch.new) }
    {
        let told = self.history.tell(entry, accepts)?;
        self.take_told(entry, told, window, chunks, watch)
    }

    /// Adds the happening of that entry.
    #[inline(always)]
    fn take_told<W: Watch>(
        &mut self,
        entry: &Entry,
        told: Happening,
        window: Option<Window>,
        chunks: u32,
        watch: &mut W,
    ) -> Result<(), ReadError>
        ensures known { self.new.history ≡ self.old.history }
        ensures more { OnOk result (IsOneMore window chunks told self.old.numbers self.new.numbers) }
        ensures kept { (answering : Answering) → (before : List Happening) → Keeps answering before self.old.answerer → OnOk result (Keeps answering (before ++ told ∷ []) self.new.answerer) }
        ensures line { result ≡ Err ReadError.Line → ⊥ }
        ensures watched { (before : List Sight) → W.has_seen before watch.old → OnOk result (W.has_seen (before ++ record { entry = entry.now; told = told; named = named_for self.old.answerer told } ∷ []) watch.new) }
    {
        let named = self.answerer.named(told);
        self.numbers.add(told, window, chunks)?;
        self.answerer.add(told)?;
        watch.see(entry, told, named)?;
        Ok(())
    }
}
