// Laws of every log.
ghost use Rattle.std.specs.Prelude.{◌≡◌, List, map};
ghost use Rattle.cap_text.specs.Pieces.{Lacks};
ghost use Rattle.cap_text.specs.TextLines.{lines_of};
ghost use Rattle.schedule_log.specs.declared.entries.Entry.{Entry};
ghost use Rattle.schedule_log.specs.EntryText.{entry_text, log_text};

/// Law: no entry's text contains a line feed, so the lines of a log's text are the texts of its entries, in
/// order.
pub fn log_lines_are_entries()
    ensures no_line_feed { (entry : Entry) → Lacks 10 (entry_text entry) }
    ensures lines { (entries : List Entry) → lines_of (log_text entries) ≡ map entry_text entries }
{}
