// Which tokens are a tree, with the number of its items, and why the others are refused.

ghost use Rattle.std.specs.Prelude.{◌≤◌, length};

use crate::lines::{first_line, number, wanted};
use c_lex::{Token, lex};
use c_parse::{ParseError, parse};
use grammar_laws::{else_to_the_nearest, one_tree, one_verdict};
use std::alloc::Global;

// Each alternative of the grammar; then tokens that fit no rule, and the first call that isn't whole.
const ROWS: &str = "tree 0: 
tree 1: int a;
tree 4: int a, b = 5, c = -7, d[3];
tree 1: int (*t[2])(int) = { f, g };
tree 1: int f();
tree 1: void f(void);
tree 1: int f(int, int y, int);
tree 1: int f(int x, int y);
tree 1: int f() {}
tree 1: void f(void) {}
tree 1: int f(int x, int y) {}
tree 1: void f() { int a, b = 1, c[2]; }
tree 1: void f() { ; }
tree 1: void f() { { } {} }
tree 1: void f() { a = 1; }
tree 1: void f() { a[0] = 1; }
tree 1: void f() { g(); }
tree 1: void f() { g(1, 2); }
tree 1: void f() { t[0](1); }
tree 1: void f() { if (1) ; }
tree 1: void f() { if (1) ; else ; }
tree 1: void f() { while (0) ; }
tree 1: void f() { for (;;) break; }
tree 1: void f() { for (int i = 0, j; i < 3; i = i + 1) continue; }
tree 1: void f() { for (i = 0; i; g()) ; }
tree 1: int f() { return; }
tree 1: int f() { return 1; }
tree 1: int f() { return g(1); }
tree 1: int f() { return a[1] + t; }
tree 1: int f() { return -+!~(1); }
tree 1: int f() { return a || b && c | d ^ e & f; }
tree 1: int f() { return a == b != c < d <= e > f >= g; }
tree 1: int f() { return a << b >> c + d - e * f / g % h; }
tree 1: int f() { return a ? b : c ? d : e; }
tree 1: int f() { a = t[g](1); a[1] = g(); int b = t[0](h); }
tree 2: void f() { if (1) if (2) ; else ; else ; } int a;
Unexpected 22: int main() { return 0 }
NestedCall 17: int main() { put(self() + 1); return 0; }
Unexpected 0: )
Unexpected 0: x
Unexpected 3: int
Unexpected 14: int main() {  
Unexpected 7: int a; ;
Unexpected 6: void a;
Unexpected 8: int a = b;
Unexpected 6: int a[];
Unexpected 11: int f(int) {}
Unexpected 18: int f(int, int x) {}
Unexpected 10: int f(void, int x);
Unexpected 21: int (*t[0])(int) = { };
Unexpected 16: int f() { int a }
Unexpected 12: int f() { a + 1; }
Unexpected 11: int f() { a; }
Unexpected 14: int f() { a[1]; }
Unexpected 15: int f() { t[1](); }
Unexpected 16: int f() { t[1](1, 2); }
Unexpected 10: int f() { else ; }
Unexpected 26: int f() { if (1) ; else ; else ; }
Unexpected 17: int f() { if (1) int a; }
Unexpected 15: int f() { for (1; 2; 3) ; }
Unexpected 19: int f() { return 1 2; }
Unexpected 22: int f() { return a ? b; }
Unexpected 18: int f() { return a++; }
Unexpected 10: int f() { long a; }
NestedCall 15: int f() { a = (f()); }
NestedCall 18: int f() { return (f()); }
NestedCall 14: int f() { if (f()) ; }
NestedCall 18: int f() { a = 1 + t[2](3); }
NestedCall 12: int f() { g(h()); a = -g(); }
NestedCall 21: void f() { for (i = -g(); 1; h()) ; }
NestedCall 18: void f() { for (; g(); ) ; }
NestedCall 23: void f() { for (;; i = g() + 1) ; }
Unexpected 20: int f() { g(h()); } 1";

// Returns the tree's number of items, or the refusal with its place.
fn parsed(alloc: Global, source: &[u8], tokens: &[Token]) -> (&'static str, usize)
    requires { length source.now ≤ 1048576 }
{
    match parse(alloc, source, tokens) {
        Ok(tree) => {
            let items = tree.items().len();
            drop(tree);
            ("tree", items)
        }
        Err(ParseError::Unexpected { at }) => ("Unexpected", at as usize),
        Err(ParseError::TooDeep { at }) => ("TooDeep", at as usize),
        Err(ParseError::NestedCall { at }) => ("NestedCall", at as usize),
        Err(ParseError::Memory) => ("no room", 0),
    }
}

// Returns the answer for a source that consists of tokens.
fn answer(alloc: Global, source: &[u8]) -> (&'static str, usize) {
    if source.len() > 1048576 {
        return ("too long", 0);
    }
    match lex(alloc, source) {
        Ok(tokens) => {
            let answer = parsed(alloc, source, &tokens);
            drop(tokens);
            answer
        }
        Err(_) => ("no tokens", 0),
    }
}

/// Checks whether the grammar gives this answer: `tree` with the number of its items, or a refusal with its place.
pub(crate) fn gives(alloc: Global, source: &[u8], want: &str) -> bool {
    let (name, count) = answer(alloc, source);
    match want.split_once(' ') {
        Some((wanted, digits)) => wanted == name && number(digits) == count,
        None => false,
    }
}

#[test]
fn reads_and_refuses(rt: HostRuntime) {
    let mut rows = ROWS;
    for _ in 0..73 {
        let (row, after) = first_line(rows);
        let (want, source) = wanted(row);
        assert!(rt; gives(rt.alloc(), source.as_bytes(), want), "{row}");
        rows = after;
    }
    assert!(rt; rows.is_empty());
}

// Calls the laws, which have no effect at run time.
#[test]
fn laws(_rt: HostRuntime) {
    one_verdict();
    else_to_the_nearest();
    one_tree();
}
