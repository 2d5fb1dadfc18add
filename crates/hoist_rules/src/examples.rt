// Small statements whose rewriting the prover computes by the definitions: definitions that give another result are
// refused.
ghost use Rattle.std.specs.Prelude.{◌≡◌, [], ◌∷◌};
ghost use Rattle.c_tree.specs.declared.operators.BinaryOperator.{BinaryOperator};
ghost use Rattle.c_tree.specs.RawTrees.{RawName, RawNumber, RawParenthesized, RawBinary, RawLogicalAnd, RawLogicalOr, RawConditional, RawTableCall};
ghost use Rattle.c_tree.specs.RawTrees.{RawSetElement, RawTableCalling, RawDo, RawIf, RawIfElse, RawWhile, RawBreak, RawContinue};
ghost use Rattle.hoist_parts.specs.NewNames.{used, declared, declared_as, set_to};
ghost use Rattle.hoist_parts.specs.Expressions.{is_true, is_false, in_block};
ghost use Rattle.hoist_parts.specs.Statements.{hoisted};
ghost use Rattle.hoist_rules.specs.HoistExamples.{x, y, i, a, f, g, h, t, put, spawn, call, calls, one, two, plus, sets, returns};

/// Example: the statement `put(f() + 1);` becomes `int 0 = f(); put(0 + 1);`, and `return f(1) + f(2);` becomes `int 0
/// = f(1); int 1 = f(2); return 0 + 1;`.
pub fn calls_go_before()
    ensures in_argument { hoisted 0 (calls put (plus (call f []) one ∷ [])) ≡ declared_as 0 (call f []) ∷ calls put (plus (used 0) one ∷ []) ∷ [] }
    ensures in_return { hoisted 0 (returns (plus (call f (one ∷ [])) (call f (two ∷ [])))) ≡
        declared_as 0 (call f (one ∷ [])) ∷ declared_as 1 (call f (two ∷ [])) ∷ returns (plus (used 0) (used 1)) ∷ [] }
{}

/// Example: whole calls stay the same, in `x = f(y);`, `f(x);` and `return f(x);`.
pub fn whole_calls_stay()
    ensures set { hoisted 5 (sets x (call f (RawName y ∷ []))) ≡ sets x (call f (RawName y ∷ [])) ∷ [] }
    ensures called { hoisted 5 (calls f (RawName x ∷ [])) ≡ calls f (RawName x ∷ []) ∷ [] }
    ensures returned { hoisted 5 (returns (call f (RawName x ∷ []))) ≡ returns (call f (RawName x ∷ [])) ∷ [] }
{}

/// Example: an operand to the left of a call is read before it: `x = g + f();` becomes `int 0 = g; int 1 = f(); x = 0 +
/// 1;`. A number keeps its place, and a call has one name; in parentheses it gets a second one. Operands to the right
/// of all calls keep their places.
pub fn left_parts_have_names()
    ensures name { hoisted 0 (sets x (plus (RawName g) (call f []))) ≡ declared_as 0 (RawName g) ∷ declared_as 1 (call f []) ∷ sets x (plus (used 0) (used 1)) ∷ [] }
    ensures number { hoisted 0 (sets x (plus one (call f []))) ≡ declared_as 0 (call f []) ∷ sets x (plus one (used 0)) ∷ [] }
    ensures parentheses { hoisted 0 (sets x (plus (RawParenthesized (call f [])) (call g []))) ≡
        declared_as 0 (call f []) ∷ declared_as 1 (RawParenthesized (used 0)) ∷ declared_as 2 (call g []) ∷ sets x (plus (used 1) (used 2)) ∷ [] }
    ensures right { hoisted 0 (sets x (plus (call f []) (RawName g))) ≡ declared_as 0 (call f []) ∷ sets x (plus (used 0) (RawName g)) ∷ [] }
{}

/// Example: the statement `f(g(1), x, h(2));` becomes `int 0 = g(1); int 1 = x; int 2 = h(2); f(0, 1, 2);`, and `x =
/// f(g(y));` becomes `int 0 = g(y); x = f(0);`.
pub fn arguments_go_before()
    ensures several { hoisted 0 (calls f (call g (one ∷ []) ∷ RawName x ∷ call h (two ∷ []) ∷ [])) ≡
        declared_as 0 (call g (one ∷ [])) ∷ declared_as 1 (RawName x) ∷ declared_as 2 (call h (two ∷ [])) ∷ calls f (used 0 ∷ used 1 ∷ used 2 ∷ []) ∷ [] }
    ensures nested { hoisted 0 (sets x (call f (call g (RawName y ∷ []) ∷ []))) ≡ declared_as 0 (call g (RawName y ∷ [])) ∷ sets x (call f (used 0 ∷ [])) ∷ [] }
{}

/// Example: the statement `spawn(f, g(1));` becomes `int 0 = g(1); spawn(f, 0);`, and `spawn(g(1), 2);` becomes
/// `spawn(0, 2);`, which is refused.
pub fn spawned_function_stays()
    ensures name { hoisted 0 (calls spawn (RawName f ∷ call g (one ∷ []) ∷ [])) ≡ declared_as 0 (call g (one ∷ [])) ∷ calls spawn (RawName f ∷ used 0 ∷ []) ∷ [] }
    ensures call { hoisted 0 (calls spawn (call g (one ∷ []) ∷ two ∷ [])) ≡ calls spawn (RawNumber 0 ∷ two ∷ []) ∷ [] }
{}

/// Example: the statement `t[i](f(1));` becomes `int 0 = i; int 1 = f(1); t[0](1);`, and `x = t[f()](i) + 1;` becomes
/// `int 0 = f(); int 1 = t[0](i); x = 1 + 1;`, where the first 1 is the name.
pub fn tables_go_before()
    ensures statement { hoisted 0 (RawDo (RawTableCalling t (RawName i) (call f (one ∷ [])))) ≡
        declared_as 0 (RawName i) ∷ declared_as 1 (call f (one ∷ [])) ∷ RawDo (RawTableCalling t (used 0) (used 1)) ∷ [] }
    ensures inside { hoisted 0 (sets x (plus (RawTableCall t (call f []) (RawName i)) one)) ≡
        declared_as 0 (call f []) ∷ declared_as 1 (RawTableCall t (used 0) (RawName i)) ∷ sets x (plus (used 1) one) ∷ [] }
{}

/// Example: the statement `a[i] = f() + 2;` becomes `int 0 = i; int 1 = f(); a[0] = 1 + 2;` with the name 1, `a[f()] =
/// g();` becomes `int 0 = f(); a[0] = g();`, and `a[i] = f();` stays the same.
pub fn indexes_go_before()
    ensures index { hoisted 0 (RawDo (RawSetElement a (RawName i) (plus (call f []) two))) ≡
        declared_as 0 (RawName i) ∷ declared_as 1 (call f []) ∷ RawDo (RawSetElement a (used 0) (plus (used 1) two)) ∷ [] }
    ensures call { hoisted 0 (RawDo (RawSetElement a (call f []) (call g []))) ≡ declared_as 0 (call f []) ∷ RawDo (RawSetElement a (used 0) (call g [])) ∷ [] }
    ensures whole { hoisted 0 (RawDo (RawSetElement a (RawName i) (call f []))) ≡ RawDo (RawSetElement a (RawName i) (call f [])) ∷ [] }
{}

/// Example: the statement `if (x && f(1)) y = 2;` becomes `int 0 = x != 0; if (0) { int 1 = f(1); 0 = 1 != 0; } if (0)
/// y = 2;` with the names 0 and 1; `y = f() && x;` becomes `int 0 = f(); y = 0 && x;`; and `y = f() || g();` becomes
/// `int 0 = f(); int 1 = 0 != 0; if (!1) { int 2 = g(); 1 = 2 != 0; } y = 1;`.
pub fn logical_operators_decide()
    ensures conjunction { hoisted 0 (RawIf (RawLogicalAnd (RawName x) (call f (one ∷ []))) (sets y two)) ≡
        declared_as 0 (is_true (RawName x)) ∷ RawIf (used 0) (in_block (declared_as 1 (call f (one ∷ [])) ∷ set_to 0 (is_true (used 1)) ∷ [])) ∷ RawIf (used 0) (sets y two) ∷ [] }
    ensures left_alone { hoisted 0 (sets y (RawLogicalAnd (call f []) (RawName x))) ≡ declared_as 0 (call f []) ∷ sets y (RawLogicalAnd (used 0) (RawName x)) ∷ [] }
    ensures disjunction { hoisted 0 (sets y (RawLogicalOr (call f []) (call g []))) ≡
        declared_as 0 (call f []) ∷ declared_as 1 (is_true (used 0)) ∷ RawIf (is_false (used 1)) (in_block (declared_as 2 (call g []) ∷ set_to 1 (is_true (used 2)) ∷ [])) ∷ sets y (used 1) ∷ [] }
{}

/// Example: the statement `y = x ? f(1) : g(2) + 1;` becomes `int 0; if (x) { int 1 = f(1); 0 = 1; } else { int 2 =
/// g(2); 0 = 2 + 1; } y = 0;` with the names 0, 1 and 2, and `x ? y : i` stays the same.
pub fn conditionals_choose()
    ensures both { hoisted 0 (sets y (RawConditional (RawName x) (call f (one ∷ [])) (plus (call g (two ∷ [])) one))) ≡
        declared 0 ∷ RawIfElse (RawName x) (in_block (declared_as 1 (call f (one ∷ [])) ∷ set_to 0 (used 1) ∷ []))
        (in_block (declared_as 2 (call g (two ∷ [])) ∷ set_to 0 (plus (used 2) one) ∷ [])) ∷ sets y (used 0) ∷ [] }
    ensures condition { hoisted 0 (sets y (RawConditional (call f []) (RawName x) (RawName i))) ≡ declared_as 0 (call f []) ∷ sets y (RawConditional (used 0) (RawName x) (RawName i)) ∷ [] }
{}

/// Example: the statement `while (f() != x) { if (x) continue; put(x); }` becomes `while (1) { int 0 = f(); if (!(0 !=
/// x)) break; { if (x) continue; put(x); } }` with the name 0.
pub fn loops_test_calls()
    ensures { hoisted 0 (RawWhile (RawBinary BinaryOperator.NotEqual (call f []) (RawName x)) (in_block (RawIf (RawName x) (RawContinue 9) ∷ calls put (RawName x ∷ []) ∷ []))) ≡
        RawWhile one (in_block (declared_as 0 (call f []) ∷ RawIf (is_false (RawBinary BinaryOperator.NotEqual (used 0) (RawName x))) (RawBreak 0)
        ∷ in_block (RawIf (RawName x) (RawContinue 9) ∷ calls put (RawName x ∷ []) ∷ []) ∷ [])) ∷ [] }
{}

/// Example: a body that isn't a block becomes one if necessary: `if (x) put(f()); else return y;` becomes `if (x) { int
/// 0 = f(); put(0); } else return y;`.
pub fn bodies_become_blocks()
    ensures { hoisted 0 (RawIfElse (RawName x) (calls put (call f [] ∷ [])) (returns (RawName y))) ≡
        RawIfElse (RawName x) (in_block (declared_as 0 (call f []) ∷ calls put (used 0 ∷ []) ∷ [])) (returns (RawName y)) ∷ [] }
{}
