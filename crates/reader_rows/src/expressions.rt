// The values of expressions, by `value_of`.

ghost use Rattle.std.specs.Prelude.{◌≡◌, true, [], ◌∷◌};
ghost use Rattle.c_mean.specs.Layout.{widths_of};
ghost use Rattle.c_tree.specs.Views.{expr_tree};
ghost use Rattle.reader_rows.specs.Small.{UsesRowNames, UseRowNames};

use crate::lines::{first_line, wanted};
use c_mean::value_of;
use c_scope::read_program;
use c_tree::{Expr, GlobalFact, Infix, Program, RightSide, Stmt};
use cap_word::TrapKind;
use std::alloc::{AllocError, Global};

// The words of `x`, `y` and `a`, and of `g` and `h`: 7 and -3, 10, 20 and 30; 5, and 100 and 200.
const NAMES: [u32; 5] = [7, 4_294_967_293, 10, 20, 30];

const GLOBALS: [u32; 3] = [5, 100, 200];

// Numbers and names; elements, and the indexes that trap; each unary and each binary operator, with its edges; what
// `&&`, `||` and `?:` evaluate; grouping; and which part traps first.
const ROWS: &str = "0: 0
4294967295: 4294967295
7: x
4294967293: y
5: g
7: (x)
10: a[0]
30: a[2]
30: a[x - g]
100: h[0]
200: h[1]
Index: a[3]
Index: a[-1]
Index: a[y]
Index: a[a[0]]
Index: h[2]
Index: h[4294967295]
Index: h[a[1]]
4294967293: +y
4294967289: -x
3: -y
0: -0
2147483648: -2147483648
4294967288: ~x
2: ~y
0: !x
1: !0
0: !2147483648
4: x + y
0: 4294967295 + 1
4294967295: x - 8
10: x - y
4294967290: y * 2
0: 65536 * 65536
4294967295: y / 2
4294967294: x / y
2147483648: 2147483648 / 4294967295
4294967295: x / 0
1: x % y
4294967295: y % 2
0: 2147483648 % 4294967295
7: x % 0
5: x & y
15: x | 8
2: x ^ 5
2147483648: 1 << 31
14: x << 33
4294967294: y >> 1
4294967295: 2147483648 >> 31
3: x >> 33
1: y < x
0: x < y
0: x < x
1: x > y
0: y > x
0: x > x
1: x <= x
0: x <= y
1: x >= x
0: y >= x
1: x == 7
0: x == y
1: x != y
0: x != 7
1: x && y
0: x && 0
0: 0 && x
0: 0 && a[3]
Index: 1 && a[3]
Index: a[3] && 0
1: 0 || y
1: x || 0
0: 0 || 0
1: 1 || a[3]
Index: 0 || a[3]
Index: a[3] || 1
7: 1 ? x : y
4294967293: 0 ? x : y
7: 2147483648 ? x : a[3]
7: 0 ? a[3] : x
Index: 1 ? a[3] : x
Index: 0 ? x : a[3]
Index: a[3] ? x : y
3: 8 - 3 - 2
2: 100 / 10 / 5
14: 2 + 3 * 4
20: (2 + 3) * 4
1: 1 | 2 == 3
4: 0 ? 2 : 0 ? 3 : 4
1: 1 || 1 && 0
Index: 0 * a[3]
Index: a[3] + a[0]
Index: a[0] + h[2]
Index: -h[g]
Index: (a[x] == 0) ? 1 : 2";

// Whether the expression uses no names but those above, and without an index only those of one word.
#[cycle(names)]
fn fits(expr: &Expr) -> bool
    ensures { result ≡ true → UsesRowNames (expr_tree expr.now) }
{
    match expr {
        Expr::Number(_) => true,
        Expr::Local(x) => *x == 0 || *x == 1,
        Expr::Global(g) => *g == 0,
        Expr::LocalElement { array, index } => *array < 3 && fits(index),
        Expr::GlobalElement { array, index } => *array < 2 && fits(index),
        Expr::Unary { operand, .. } => fits(operand),
        Expr::Parenthesized(inner) => fits(inner),
        Expr::Chain { first, rest } => fits(first) && all_fit(rest),
        Expr::Conditional {
            condition,
            then,
            otherwise,
        } => fits(condition) && fits(then) && fits(otherwise),
    }
}

// The same for each operand.
#[cycle(names)]
fn all_fit(operands: &[(Infix, Expr)]) -> bool
    ensures { result ≡ true → UseRowNames operands.now }
{
    for (_, operand) in operands {
        if !fits(operand) {
            return false;
        }
    }
    true
}

// Whether these are `g` and `h`.
fn are_the_globals(globals: &[GlobalFact]) -> bool
    ensures { result ≡ true → widths_of globals.now ≡ (1 ∷ 2 ∷ []) }
{
    match globals {
        [g, h] => g.words == 1 && h.words == 2,
        _ => false,
    }
}

// The expression that the second statement of the first function returns.
fn returned(program: &Program) -> Option<&Expr> {
    match program.functions().first()?.body.get(1) {
        Some(Stmt::Return(Some(RightSide::Expr(expr)))) => Some(expr),
        _ => None,
    }
}

// The value of that expression, if the program declares just the names and globals above.
fn value_in(program: &Program) -> Option<Result<u32, TrapKind>> {
    let functions = program.functions();
    if functions.is_empty() {
        return None;
    }
    let function = &functions[0];
    if function.sizes[..] != [1, 1, 3] || !are_the_globals(program.globals()) {
        return None;
    }
    let expr = returned(program)?;
    if !fits(expr) {
        return None;
    }
    Some(value_of(program, 0, &NAMES, &GLOBALS, expr))
}

// The source of a function that returns the expression.
fn around(alloc: Global, expr: &str) -> Result<Vec<u8>, AllocError> {
    let mut source = Vec::new(alloc);
    source.extend_from_slice(b"int g, h[2]; int f(int x, int y) { int a[3]; return ")?;
    source.extend_from_slice(expr.as_bytes())?;
    source.extend_from_slice(b"; } int main() { return 0; }")?;
    Ok(source)
}

// Whether the text is that of the value: a number, or the trap.
fn is_told(value: Result<u32, TrapKind>, want: &str) -> bool {
    match value {
        Ok(value) => want.parse::<u32>() == Ok(value),
        Err(TrapKind::Index) => want == "Index",
        Err(_) => false,
    }
}

// Whether the expression has the value.
fn has_value(alloc: Global, expr: &str, want: &str) -> Result<bool, AllocError> {
    let source = around(alloc, expr)?;
    if source.len() > 1_048_576 {
        return Ok(false);
    }
    let Ok(program) = read_program(alloc, &source) else {
        return Ok(false);
    };
    match value_in(&program) {
        Some(value) => Ok(is_told(value, want)),
        None => Ok(false),
    }
}

#[test]
fn expressions_have_values(rt: HostRuntime) {
    let mut rows = ROWS;
    for _ in 0..95 {
        let (row, after) = first_line(rows);
        let (want, expr) = wanted(row);
        assert!(rt;
            matches!(has_value(rt.alloc(), expr, want), Ok(true)),
            "{row}"
        );
        rows = after;
    }
    assert!(rt; rows.is_empty());
}
