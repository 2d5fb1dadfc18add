// What the calls inside expressions of a source become.

ghost use Rattle.std.specs.Prelude.{◌≤◌, length};

use crate::lines::first_line;
use crate::texts::put_item;
use c_hoist::hoist;
use c_lex::lex;
use c_parse::parse_nested;
use c_tree::RawProgram;
use std::alloc::{AllocError, Global};

// A body, and the body that the rules of docs/LANGUAGE.md make of it, in which `h0`, `h1` and so on stand for the new
// names. First statements that stay as they are; then each form that contains a call; then which parts get a name;
// then statements with a body; and several calls in one statement.
const BODIES: &str =
    "x = f(y); f(1); int z = t[0](x); a[x] = f(y); return f(x); => x = f(y); f(1); int z = t[0](x); a[x] = f(y); return f(x);
if (x) x = f(1); else { f(2); } while (x < 3) x = x + 1; ; => if (x) x = f(1); else { f(2); } while (x < 3) x = x + 1; ;
for (x = f(1); x < 3; f(2)) x = x + 1; => for (x = f(1); x < 3; f(2)) x = x + 1;
x = f(1) + 1; => int h0 = f(1); x = h0 + 1;
x = -f(1); => int h0 = f(1); x = -h0;
x = (f(1)); => int h0 = f(1); x = (h0);
x = a[f(1)]; => int h0 = f(1); x = a[h0];
x = f(f(1)); => int h0 = f(1); x = f(h0);
x = t[f(1)](2); => int h0 = f(1); x = t[h0](2);
x = 1 + t[0](2); => int h0 = t[0](2); x = 1 + h0;
int z = y + f(1); => int h0 = y; int h1 = f(1); int z = h0 + h1;
return f(1) < f(2); => int h0 = f(1); int h1 = f(2); return h0 < h1;
x = y + f(1) * 3; => int h0 = y; int h1 = f(1); x = h0 + h1 * 3;
x = y - 1 - f(1); => int h0 = y - 1; int h1 = f(1); x = h0 - h1;
x = 1 + f(1); => int h0 = f(1); x = 1 + h0;
x = f(1) + y; => int h0 = f(1); x = h0 + y;
x = (f(1)) + f(2); => int h0 = f(1); int h1 = (h0); int h2 = f(2); x = h1 + h2;
g(x, f(1), y); => int h0 = x; int h1 = f(1); g(h0, h1, y);
g(f(1), x, f(2)); => int h0 = f(1); int h1 = x; int h2 = f(2); g(h0, h1, h2);
g(1, f(x), 2); => int h0 = f(x); g(1, h0, 2);
t[x](f(1)); => int h0 = x; int h1 = f(1); t[h0](h1);
spawn(w, f(1)); => int h0 = f(1); spawn(w, h0);
spawn(f(1), x); => spawn(0, x);
a[x] = f(1) + 2; => int h0 = x; int h1 = f(1); a[h0] = h1 + 2;
a[f(1)] = f(2); => int h0 = f(1); a[h0] = f(2);
x = y && f(1); => int h0 = y != 0; if (h0) { int h1 = f(1); h0 = h1 != 0; } x = h0;
x = y || f(1); => int h0 = y != 0; if (!h0) { int h1 = f(1); h0 = h1 != 0; } x = h0;
x = f(1) && y; => int h0 = f(1); x = h0 && y;
x = f(1) || f(2); => int h0 = f(1); int h1 = h0 != 0; if (!h1) { int h2 = f(2); h1 = h2 != 0; } x = h1;
x = y ? f(1) : 2; => int h0; if (y) { int h1 = f(1); h0 = h1; } else { h0 = 2; } x = h0;
x = y ? z : f(1); => int h0; if (y) { h0 = z; } else { int h1 = f(1); h0 = h1; } x = h0;
x = f(1) ? y : z; => int h0 = f(1); x = h0 ? y : z;
int y = 1, z = y + f(1), b[2]; => int y = 1; int h0 = y; int h1 = f(1); int z = h0 + h1; int b[2];
if (f(1)) x = 2; => int h0 = f(1); if (h0) x = 2;
if (x) x = f(1) + 1; => if (x) { int h0 = f(1); x = h0 + 1; }
if (x) x = f(1) + 1; else f(2); => if (x) { int h0 = f(1); x = h0 + 1; } else f(2);
if (x) ; else { x = -f(1); } => if (x) ; else { int h0 = f(1); x = -h0; }
{ x = 1; { x = -f(1); } } => { x = 1; { int h0 = f(1); x = -h0; } }
while (f(1)) x = 2; => while (1) { int h0 = f(1); if (!h0) break; x = 2; }
while (f(1) < x) { if (x) continue; break; } => while (1) { int h0 = f(1); if (!(h0 < x)) break; { if (x) continue; break; } }
while (f(1)) x = -f(2); => while (1) { int h0 = f(1); if (!h0) break; { int h1 = f(2); x = -h1; } }
while (x) x = -f(1); => while (x) { int h0 = f(1); x = -h0; }
for (x = f(1); x; ) x = -f(2); => for (x = f(1); x; ) { int h0 = f(2); x = -h0; }
x = f(g(f(1), y, 2)) + f(3); => int h0 = f(1); int h1 = g(h0, y, 2); int h2 = f(h1); int h3 = f(3); x = h2 + h3;
return f(x - 1) + f(x - 2); => int h0 = f(x - 1); int h1 = f(x - 2); return h0 + h1;
x = -f(1); y = -f(2); => int h0 = f(1); x = -h0; int h1 = f(2); y = -h1;";

// The text of a source's tree, rewritten or as it is.
fn tree_text(alloc: Global, raw: &RawProgram) -> Result<Vec<u8>, AllocError> {
    let mut text = Vec::new(alloc);
    for item in raw.items() {
        put_item(&mut text, item)?;
    }
    Ok(text)
}

// The tree of a source; an empty one if the source has none.
fn tree_of(alloc: Global, source: &[u8]) -> Result<RawProgram, AllocError>
    requires { length source.now ≤ 1048576 }
{
    let Ok(tokens) = lex(alloc, source) else {
        return Ok(RawProgram::new(Vec::new(alloc)));
    };
    match parse_nested(alloc, source, &tokens) {
        Ok(raw) => Ok(raw),
        Err(_) => Ok(RawProgram::new(Vec::new(alloc))),
    }
}

// The text of the tree of a source, which is rewritten if `is_hoisted`.
fn text_of(alloc: Global, source: &[u8], is_hoisted: bool) -> Result<Vec<u8>, AllocError> {
    if source.len() > 1_048_576 {
        return Ok(Vec::new(alloc));
    }
    let raw = tree_of(alloc, source)?;
    if is_hoisted {
        let hoisted = hoist(alloc, &raw)?;
        return tree_text(alloc, &hoisted);
    }
    tree_text(alloc, &raw)
}

// The source of a function with this body.
fn around(alloc: Global, body: &str) -> Result<Vec<u8>, AllocError> {
    let mut source = Vec::new(alloc);
    source.extend_from_slice(b"void m() { ")?;
    source.extend_from_slice(body.as_bytes())?;
    source.extend_from_slice(b" }")?;
    Ok(source)
}

// Whether the one source is rewritten to the other.
fn is_rewritten(alloc: Global, source: &[u8], want: &[u8]) -> Result<bool, AllocError> {
    let hoisted = text_of(alloc, source, true)?;
    let expected = text_of(alloc, want, false)?;
    Ok(!hoisted.is_empty() && hoisted[..] == expected[..])
}

// Whether the body becomes the other one.
fn becomes(alloc: Global, body: &str, want: &str) -> Result<bool, AllocError> {
    let source = around(alloc, body)?;
    let wanted = around(alloc, want)?;
    is_rewritten(alloc, &source, &wanted)
}

// Globals, arrays, tables and prototypes stay as they are, and the new names of each function begin with `h0`.
#[test]
fn each_function_is_rewritten(rt: HostRuntime) {
    let source: &[u8] =
        b"int g, c = -7, d[3]; int f(int); void p(int n, int); int (*t[2])(int) = { f, f };
int f(int n) { return -f(n) + g; } void p(int n, int m) { put(n + f(m)); } int main() { return 0; }";
    let want: &[u8] =
        b"int g, c = -7, d[3]; int f(int); void p(int n, int); int (*t[2])(int) = { f, f };
int f(int n) { int h0 = f(n); return -h0 + g; } void p(int n, int m) { int h0 = n; int h1 = f(m); put(h0 + h1); } int main() { return 0; }";
    assert!(rt; matches!(is_rewritten(rt.alloc(), source, want), Ok(true)));
}

#[test]
fn calls_go_before_their_statements(rt: HostRuntime) {
    let mut rows = BODIES;
    for _ in 0..46 {
        let (row, after) = first_line(rows);
        let (body, want) = row.split_once(" => ").unwrap_or((row, ""));
        assert!(rt;
            matches!(becomes(rt.alloc(), body, want), Ok(true)),
            "{row}"
        );
        rows = after;
    }
    assert!(rt; rows.is_empty());
}
