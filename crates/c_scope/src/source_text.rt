// From the bytes of a source to a program.
ghost use Rattle.std.specs.Prelude.{◌≡◌, ◌≢◌, ◌≤◌, ◌⊎◌, length, IfOk, IfErr, IsErrOf, MatchResult};
ghost use Rattle.c_tree.specs.Trees.{ProgramTree};
ghost use Rattle.c_tree.specs.ProgramView.{program_tree};
ghost use Rattle.c_scope.specs.SourceText.{ReadsAs, IsSourceErrorOf};

use crate::source_errors::SourceError;
use c_lex::lex;
use c_parse::parse;
use c_tree::Program;
use scope_rules::resolve;
use std::alloc::Global;

/// Returns the program of a source of at most 1,048,576 bytes: its tokens (ISO/IEC 9899:2018, 6.4), its tree (6.5 to
/// 6.9) and the meanings of its names (6.2.1), for the subset that docs/LANGUAGE.md defines.
///
/// # Errors
///
/// The refusal of the first of the three stages that has one: `BadByte`, `OpenComment` and `BadNumber` if the bytes
/// don't split into tokens; `Unexpected`, `TooDeep` and `NestedCall` if the tokens have no tree; `Unknown`, `Twice`,
/// `Arity`, `Kind`, `NoMain` and `Limit` if the tree isn't a program. `Memory` if an allocation fails.
pub fn read_program(alloc: Global, source: &[u8]) -> Result<Program, SourceError>
    requires { length source.now ≤ 1048576 }
    ensures program { IfOk result (λ p. ReadsAs source.now (program_tree p)) }
    ensures refusal { IfErr result (λ e. e ≢ SourceError.Memory → IsSourceErrorOf source.now e) }

    // The source isn't any other program, and has no other refusal.
    ensures only_program { (p : ProgramTree) → ReadsAs source.now p →
        MatchResult result (λ q. program_tree q ≡ p) (λ e. e ≡ SourceError.Memory) }
    ensures only_refusal { (e : SourceError) → IsSourceErrorOf source.now e →
        IsErrOf result e ⊎ IsErrOf result SourceError.Memory }
{
    read(alloc, source)
}

// The program of the source, or a refusal.
fn read(alloc: Global, source: &[u8]) -> Result<Program, SourceError>
    requires { length source.now ≤ 1048576 }
    ensures program { IfOk result (λ p. ReadsAs source.now (program_tree p)) }
    ensures refusal { IfErr result (λ e. e ≢ SourceError.Memory → IsSourceErrorOf source.now e) }
{
    let tokens = lex(alloc, source)?;
    let raw = parse(alloc, source, &tokens)?;
    Ok(resolve(alloc, &raw)?)
}
