use cap_text::{Fields, Lines};
use report_text::Text;
use source_places::Places;

/// Appends the lines that `budget` printed, each with the meaning of its number.
pub fn put_budget(text: &mut Text, places: &Places, budget: &[u8]) {
    for line in Lines::new(budget) {
        text.bytes(line);
        put_note(text, places, line);
        text.words("\n");
    }
}

/// Appends the meaning of a line's number: for `chunks K` each thread, and for `height I H` the function of that
/// number.
fn put_note(text: &mut Text, places: &Places, line: &[u8]) {
    let mut fields = Fields::new(line, b' ');
    let Some(kind) = fields.next() else {
        return;
    };
    if kind == b"chunks".as_slice() {
        text.words(": this many are enough for each live thread");
        return;
    }
    if let Some(function) = fields.word() {
        text.words(": ");
        places.put_function(text, function);
        text.words(" at ");
        places.put_function_place(text, function)
    }
}
