// The source of the workload.
ghost use Rattle.std.specs.Prelude.{◌≡◌, ◌+◌, ◌<◌, ◌≤◌, ◌^◌, ◌++◌, OnOk, IfOk};
ghost use Rattle.c_tree.specs.Trees.{ProgramTree};
ghost use Rattle.c_scope.specs.SourceText.{ReadsAs};
ghost use Rattle.workload.specs.Programs.{first_line, link_line, chain_text, worker_line, main_line, program_text};

use crate::numbers::put_number;
use std::alloc::{AllocError, Global};

/// Returns the source of the workload of `n`, from 1 to 1,000: a chain of `n` + 1 functions, each of which, except the
/// first, calls the one before it; a worker that sends its message down the chain; and a `main` that spawns `n`
/// workers. It reads as a program.
pub fn make_program(alloc: Global, n: u32) -> Result<Vec<u8>, AllocError>
    requires some { 1 ≤ n }
    requires few { n ≤ 1000 }
    ensures text { IfOk result (λ bytes. bytes.items ≡ program_text n) }
    ensures read { IfOk result (λ bytes. (program : ProgramTree) × ReadsAs bytes.items program) }
{
    let mut text = Vec::new(alloc);
    put_first(&mut text)?;
    put_links(&mut text, n)?;
    put_worker(&mut text, n)?;
    put_main(&mut text, n)?;
    Ok(text)
}

// Appends the first function of the chain.
fn put_first(text: &mut Vec<u8>) -> Result<(), AllocError>
    ensures { OnOk result (text.new.items ≡ text.old.items ++ first_line) }
{
    text.extend_from_slice(b"int f")?;
    put_number(text, 0)?;
    text.extend_from_slice(b"(int x) { return x; }\n")?;
    Ok(())
}

// Appends the functions of the chain after the first, up to number n.
fn put_links(text: &mut Vec<u8>, n: u32) -> Result<(), AllocError>
    requires { text.old.items ≡ chain_text 0 }
    ensures { OnOk result (text.new.items ≡ chain_text n) }
{
    for m in 0..n {
        put_link(text, m + 1, m)?;
    }
    Ok(())
}

// Appends function i of the chain, which calls function m.
fn put_link(text: &mut Vec<u8>, i: u32, m: u32) -> Result<(), AllocError>
    ensures { OnOk result (text.new.items ≡ text.old.items ++ link_line i m) }
{
    text.extend_from_slice(b"int f")?;
    put_number(text, i)?;
    text.extend_from_slice(b"(int x) { int r; r = f")?;
    put_number(text, m)?;
    text.extend_from_slice(b"(x + 1); return r; }\n")?;
    Ok(())
}

// Appends the worker, which calls function n of the chain.
fn put_worker(text: &mut Vec<u8>, n: u32) -> Result<(), AllocError>
    ensures { OnOk result (text.new.items ≡ text.old.items ++ worker_line n) }
{
    text.extend_from_slice(b"void w(int n) { int c; int v; c = accept(); v = wait(c); v = f")?;
    put_number(text, n)?;
    text.extend_from_slice(b"(v); put(v); }\n")?;
    Ok(())
}

// Appends main, which spawns n workers.
fn put_main(text: &mut Vec<u8>, n: u32) -> Result<(), AllocError>
    ensures { OnOk result (text.new.items ≡ text.old.items ++ main_line n) }
{
    text.extend_from_slice(b"int main() { int i; for (i = 0; i < ")?;
    put_number(text, n)?;
    text.extend_from_slice(b"; i = i + 1) spawn(w, i); return 0; }\n")?;
    Ok(())
}
