// Tables in one text.

/// Returns the first line of the text, and the rest.
pub(crate) fn first_line(text: &str) -> (&str, &str) {
    match text.split_once('\n') {
        Some(parts) => parts,
        None => (text, ""),
    }
}

/// Returns the text before the first `|`, and the rest.
pub(crate) fn first_part(text: &str) -> (&str, &str) {
    match text.split_once('|') {
        Some(parts) => parts,
        None => (text, ""),
    }
}

/// Returns the expected result of a row, and its source.
pub(crate) fn wanted(row: &str) -> (&str, &str) {
    match row.split_once(": ") {
        Some(parts) => parts,
        None => (row, ""),
    }
}

/// Returns the number that the text spells.
pub(crate) fn number(text: &str) -> usize {
    match text.parse::<usize>() {
        Ok(number) => number,
        Err(_) => usize::MAX,
    }
}
