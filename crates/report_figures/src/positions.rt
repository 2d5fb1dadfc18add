ghost use Rattle.std.specs.Prelude.{◌≡◌, ◌+◌, ◌<◌, ◌≤◌, ◌^◌, length, take, fold};
ghost use Rattle.report_figures.specs.Positions.{first_position, position_behind, position_after};

/// A place in a text.
#[derive(Clone, Copy)]
pub struct Position {
    /// The line, from 1.
    pub line: u32,
    /// The column, from 1: the byte's place in its line.
    pub column: u32,
}

/// Returns the position of the byte at index `at`, or of the end.
pub fn position_of(text: &[u8], at: usize) -> Position
    requires inside { at ≤ length text.now }
    requires short { length text.now < 2 ^ 31 }
    ensures { result ≡ position_after (take at text.now) }
{
    let mut position = Position { line: 1, column: 1 };
    for byte in &text[..at] {
        position = behind(position, *byte);
    }
    position
}

/// Returns the position after a byte.
fn behind(position: Position, byte: u8) -> Position
    requires line { position.line < 2 ^ 31 }
    requires column { position.column < 2 ^ 31 }
    ensures { result ≡ position_behind position byte }
{
    if byte == b'\n' {
        Position {
            line: position.line + 1,
            column: 1,
        }
    } else {
        Position {
            line: position.line,
            column: position.column + 1,
        }
    }
}
