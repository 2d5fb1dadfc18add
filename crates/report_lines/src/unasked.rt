use report_text::Text;
use run_history::Unasked;

/// The maximum number of threads that are listed.
const LISTED: u64 = 20;

/// Appends the number of outputs of threads that served no request, and the first 20 such threads, or nothing if there
/// are none.
pub fn put_unasked(text: &mut Text, unasked: &Unasked) {
    let total = total_in(unasked);
    if total == 0 {
        return;
    }
    text.form("outputs by threads that served no request: $", &[total]);
    let mut shown: u64 = 0;
    for (thread, puts) in &unasked.puts {
        if shown < LISTED {
            text.form(", $ by thread $", &[*puts, u64::from(*thread)]);
        }
        shown = shown.saturating_add(1);
    }
    if shown > LISTED {
        text.words(", the others by ");
        text.counted(shown - LISTED, "more thread", "more threads")
    }
    text.words("\n")
}

/// Returns the total number of these outputs.
fn total_in(unasked: &Unasked) -> u64 {
    let mut total: u64 = 0;
    for (_, puts) in &unasked.puts {
        total = total.saturating_add(*puts);
    }
    total
}
