// The summary of a run: counts over its program, its certificate and its log.
ghost use Rattle.std.specs.Prelude.{◌≡◌, ◌<◌, ◌^◌, ◌+◌, ◌+ℤ◌, ◌++◌, List, [], IfOk, OnOk, count_by, length, unsigned_abs};
ghost use Rattle.accepted_pairs.specs.Accepting.{accepted_tree};
ghost use Rattle.schedule_log.specs.EntryText.{log_text};
ghost use Rattle.schedule_log.specs.declared.entries.Entry.{Entry};
ghost use Rattle.stack_certificate.specs.declared.sites.SiteFact.{SiteFact};
ghost use Rattle.run_course.specs.Output.{IsFitText};
ghost use Rattle.capriccio_commands.specs.FitLogs.{HasRoom};
ghost use Rattle.capriccio_commands.specs.Summary.{links, census_of, counted, with_cost, tally_of, last_from, count_line, sum_line, census_text, tally_text, summary_text};

use accepted_pairs::Accepted;
use cap_text::{Lines, put_dec};
use command_outcomes::{put_number, put_text};
use schedule_log::{Entry, LogError, StopLine, read_entry};
use stack_certificate::{LinkKind, SiteFact};
use std::alloc::{AllocError, Global};

/// The counts over a program and its certificate.
#[derive(Clone, Copy)]
pub struct Census {
    /// The number of functions.
    pub functions: u64,
    /// The number of call sites.
    pub sites: u64,
    /// The number of checkpointed sites.
    pub checkpoints: u64,
}

/// The counts over a log.
#[derive(Clone, Copy)]
pub struct Tally {
    /// The number of `run` lines.
    pub choices: u64,
    /// The number of `out` lines.
    pub outputs: u64,
    /// The sum of their values.
    pub sum: i128,
    /// The number of instructions of all segments.
    pub cost: u128,
}

/// Returns the census of an accepted program.
pub(crate) fn take_census(accepted: &Accepted) -> Census
    ensures { result ≡ census_of (accepted_tree accepted.now) accepted.now.certificate }
{
    let program = accepted.program();
    Census {
        functions: program.functions().len() as u64,
        sites: program.sites().len() as u64,
        checkpoints: checkpoints_of(accepted.certificate().sites.as_slice()) as u64,
    }
}

/// Returns the number of checkpointed sites among these.
fn checkpoints_of(facts: &[SiteFact]) -> usize
    ensures { result ≡ count_by (λ (fact : SiteFact). links fact.kind) facts.now }
{
    facts.iter().filter(|fact| is_linked(fact.kind)).count()
}

/// Checks whether a call at a site of this kind may link a chunk.
fn is_linked(kind: LinkKind) -> bool
    ensures { result ≡ links kind }
{
    match kind {
        LinkKind::Plain => false,
        LinkKind::Linked { .. } => true,
        LinkKind::Spawned { .. } => false,
    }
}

/// Counts over the log of these bytes.
pub(crate) fn tally_log(log: &[u8]) -> Tally
    requires { IsFitText log.now }
    ensures counted { (entries : List Entry) → log.now ≡ log_text entries →
        result ≡ tally_of entries }
    ensures room { HasRoom 0 result }
{
    few_bytes(log);
    let mut tally = Tally {
        choices: 0,
        outputs: 0,
        sum: 0,
        cost: 0,
    };
    for line in Lines::new(log) {
        match read_entry(line) {
            Ok(entry) => tally = count_entry(tally, entry),
            Err(LogError::Line) => unreachable!(),
        }
    }
    tally
}

/// Shows that a log has fewer bytes than half of the addresses.
fn few_bytes(log: &[u8])
    ensures { length log.now < 2 ^ 63 }
{
    let _count = log.len();
}

/// Counts one more entry.
fn count_entry(tally: Tally, entry: Entry) -> Tally
    requires { HasRoom 1 tally }
    ensures { result ≡ counted entry tally }
{
    match entry {
        Entry::Event { .. } => tally,
        Entry::Dropped { .. } => tally,
        Entry::Run { .. } => count_choice(tally),
        Entry::Out { value, .. } => count_output(tally, value),
        Entry::Block { cost, .. } => count_cost(tally, cost),
        Entry::End { cost, .. } => count_cost(tally, cost),
        Entry::Edge { .. } => tally,
        Entry::Stop(StopLine::Done) => tally,
        Entry::Stop(StopLine::Idle) => tally,
        Entry::Stop(StopLine::Trace { .. }) => tally,
        Entry::Stop(StopLine::Cut { cost, .. }) => count_cost(tally, cost),
    }
}

/// Counts one more choice.
fn count_choice(tally: Tally) -> Tally
    requires { tally.choices < 2 ^ 63 }
    ensures { result ≡ record {
      choices = tally.choices + 1;
      outputs = tally.outputs;
      sum = tally.sum;
      cost = tally.cost;
    } }
{
    let choices = tally.choices + 1;
    Tally { choices, ..tally }
}

/// Counts one more output.
fn count_output(tally: Tally, value: i32) -> Tally
    requires outputs { tally.outputs < 2 ^ 63 }
    requires sum { unsigned_abs tally.sum < 2 ^ 94 }
    ensures { result ≡ record {
      choices = tally.choices;
      outputs = tally.outputs + 1;
      sum = tally.sum +ℤ value;
      cost = tally.cost;
    } }
{
    let outputs = tally.outputs + 1;
    let sum = sum_with(tally.sum, value);
    Tally {
        outputs,
        sum,
        ..tally
    }
}

/// Returns the sum with one more value.
fn sum_with(sum: i128, value: i32) -> i128
    requires { unsigned_abs sum < 2 ^ 94 }
    ensures { result ≡ sum +ℤ value }
{
    sum + i128::from(value)
}

/// Counts the instructions of one more segment.
fn count_cost(tally: Tally, cost: u64) -> Tally
    requires { tally.cost < 2 ^ 127 }
    ensures { result ≡ with_cost cost tally }
{
    let cost = tally.cost + u128::from(cost);
    Tally { cost, ..tally }
}

/// Returns the last line of the log of these bytes.
pub(crate) fn last_line(log: &[u8]) -> &[u8]
    ensures { (entries : List Entry) → log.now ≡ log_text entries →
        result.now ≡ last_from [] entries }
{
    let mut last: &[u8] = &[];
    for line in Lines::new(log) {
        last = line;
    }
    last
}

/// Returns the summary of the run with this census and this log.
pub(crate) fn summary(alloc: Global, census: Census, log: &[u8]) -> Result<Vec<u8>, AllocError>
    requires { IsFitText log.now }
    ensures { (entries : List Entry) → log.now ≡ log_text entries →
        IfOk result (λ text.
        text.items ≡ summary_text census (tally_of entries) (last_from [] entries)) }
{
    let tally = tally_log(log);
    summary_of(alloc, census, tally, last_line(log))
}

/// Returns the summary of these counts, with the last line of the log.
fn summary_of(
    alloc: Global,
    census: Census,
    tally: Tally,
    last: &[u8],
) -> Result<Vec<u8>, AllocError>
    requires { tally.cost < 2 ^ 127 }
    ensures { IfOk result (λ text. text.items ≡ summary_text census tally last.now) }
{
    let mut text = Vec::new(alloc);
    put_census(&mut text, census)?;
    put_tally(&mut text, tally)?;
    put_text(&mut text, last)?;
    text.push(b'\n')?;
    Ok(text)
}

/// Appends the lines of a census.
fn put_census(text: &mut Vec<u8>, census: Census) -> Result<(), AllocError>
    ensures { OnOk result (text.new.items ≡ text.old.items ++ census_text census) }
{
    put_count(text, b"functions ", census.functions)?;
    put_count(text, b"sites ", census.sites)?;
    put_count(text, b"checkpoints ", census.checkpoints)
}

/// Appends the lines of a tally.
fn put_tally(text: &mut Vec<u8>, tally: Tally) -> Result<(), AllocError>
    requires { tally.cost < 2 ^ 127 }
    ensures { OnOk result (text.new.items ≡ text.old.items ++ tally_text tally) }
{
    put_count(text, b"choices ", tally.choices)?;
    put_count(text, b"outputs ", tally.outputs)?;
    put_sum(text, b"sum ", tally.sum)?;
    put_cost(text, b"cost ", tally.cost)
}

/// Appends the line of a count.
fn put_count(text: &mut Vec<u8>, name: &[u8], number: u64) -> Result<(), AllocError>
    ensures { OnOk result (text.new.items ≡ text.old.items ++ count_line name.now number) }
{
    put_text(text, name)?;
    put_number(text, number)?;
    put_text(text, b"\n")
}

/// Appends the line of a cost, which may exceed the range of a count.
fn put_cost(text: &mut Vec<u8>, name: &[u8], number: u128) -> Result<(), AllocError>
    requires { number < 2 ^ 127 }
    ensures { OnOk result (text.new.items ≡ text.old.items ++ count_line name.now number) }
{
    put_text(text, name)?;
    put_dec(text, number as i128)?;
    put_text(text, b"\n")
}

/// Appends the line of a sum.
fn put_sum(text: &mut Vec<u8>, name: &[u8], value: i128) -> Result<(), AllocError>
    ensures { OnOk result (text.new.items ≡ text.old.items ++ sum_line name.now value) }
{
    put_text(text, name)?;
    put_dec(text, value)?;
    put_text(text, b"\n")
}
