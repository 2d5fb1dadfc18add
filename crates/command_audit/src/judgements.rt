// The statuses and lines of the command `audit`.
ghost use Rattle.std.specs.Prelude.{◌≡◌, IfOk};
ghost use Rattle.command_audit.specs.Audits.{judgement_line, judgement_status};

use command_outcomes::{put_number, put_text};
use lawful_reading::Judgement;
use std::alloc::{AllocError, Global};

/// Returns the status of a command with this judgement.
pub(crate) fn status_of(judgement: Judgement) -> u8
    ensures { result ≡ judgement_status judgement }
{
    match judgement {
        Judgement::Lawful => 0,
        Judgement::Unlawful { .. } => 15,
        Judgement::Steps { .. } => 16,
    }
}

/// Returns the line with the judgement.
pub(crate) fn line_of(alloc: Global, judgement: Judgement) -> Result<Vec<u8>, AllocError>
    ensures { IfOk result (λ line. line.items ≡ judgement_line judgement) }
{
    let mut line = Vec::new(alloc);
    match judgement {
        Judgement::Lawful => put_text(&mut line, b"lawful")?,
        Judgement::Unlawful { line: number } => {
            put_text(&mut line, b"unlawful ")?;
            put_number(&mut line, number)?;
        }
        Judgement::Steps { line: number } => {
            put_text(&mut line, b"steps ")?;
            put_number(&mut line, number)?;
        }
    }
    line.push(b'\n')?;
    Ok(line)
}
