ghost use Rattle.std.specs.Prelude.{◌≡◌, true, false, [], ◌∷◌, map, Some, None};
ghost use Rattle.c_tree.specs.declared.operators.BinaryOperator.{BinaryOperator};
ghost use Rattle.cap_word.specs.declared.modelled_calls.ModelledCall.{ModelledCall};
ghost use Rattle.c_tree.specs.declared.operators.UnaryOperator.{UnaryOperator};
ghost use Rattle.c_tree.specs.Trees.{Number, Local, Global, LocalElement, GlobalElement, Unary, Parenthesized, Binary, LogicalAnd, LogicalOr, Conditional, CallFunction, CallTable, CallSpawn, CallModelled, Computed, Called, DeclareScalar, DeclareArray, DeclareWith, SetLocal, SetGlobal, SetLocalElement, SetGlobalElement, Calling, Do, Empty, Block, If, IfElse, While, For, Break, Continue, Return, NoStmts, Then};
ghost use Rattle.c_mean.specs.Examples.{one_call, recursion, index_beyond, table_calls};
ghost use Rattle.flat_code.specs.declared.operations.Op.{Op};
ghost use Rattle.flat_code.specs.declared.operators.BinOp.{BinOp};
ghost use Rattle.flat_code.specs.Samples.{passing, descending, overrunning, choosing};
ghost use Rattle.flat_code.specs.Weight.{weight_of};
ghost use Rattle.c_lower.specs.ExprCode.{expr_code};
ghost use Rattle.c_lower.specs.CallCode.{call_code};
ghost use Rattle.c_lower.specs.StmtCode.{simple_code, stmt_code};
ghost use Rattle.c_lower.specs.ProgramCode.{closing_code, lowered};

/// Example: four small programs have this flat code, and the functions of the first one these weights.
pub fn samples_are_lowered()
    ensures passing { lowered one_call ≡ passing }
    ensures descending { lowered recursion ≡ descending }
    ensures overrunning { lowered (index_beyond (Number 2)) ≡ overrunning }
    ensures choosing { lowered table_calls ≡ choosing }
    ensures weights { map (λ f. weight_of f.sizes) (lowered one_call).functions ≡ 16 ∷ 16 ∷ [] }
{}

/// Example: expressions have these rows, from operation 10 on and into variable 2. Variables 0 and 1 are
/// declared names, `x` and the array `a`.
pub fn expressions_have_their_rows()
    ensures number { expr_code (Number 7) 10 2 ≡ Op.Const 2 7 ∷ [] }
    ensures local { expr_code (Local 0) 10 2 ≡ Op.Copy 2 0 ∷ [] }
    ensures global { expr_code (Global 4) 10 2 ≡ Op.LoadGlobal 2 4 ∷ [] }
    ensures local_element { expr_code (LocalElement 1 (Number 7)) 10 2 ≡ Op.Const 2 7 ∷ Op.LoadLocal 2 1 2 ∷ [] }
    ensures global_element { expr_code (GlobalElement 4 (Local 0)) 10 2 ≡ Op.Copy 2 0 ∷ Op.LoadArray 2 4 2 ∷ [] }
    ensures plus { expr_code (Unary UnaryOperator.Plus (Parenthesized (Local 0))) 10 2 ≡ Op.Copy 2 0 ∷ [] }
    ensures negate { expr_code (Unary UnaryOperator.Negate (Local 0)) 10 2 ≡ Op.Copy 2 0 ∷ Op.Neg 2 2 ∷ [] }
    ensures complement { expr_code (Unary UnaryOperator.Complement (Local 0)) 10 2 ≡ Op.Copy 2 0 ∷ Op.Not 2 2 ∷ [] }
    ensures not { expr_code (Unary UnaryOperator.Not (Local 0)) 10 2 ≡ Op.Copy 2 0 ∷ Op.Flip 2 2 ∷ [] }
    ensures binary { expr_code (Binary BinaryOperator.Subtract (Local 0) (Binary BinaryOperator.ShiftLeft (Number 5) (Number 6))) 10 2
        ≡ Op.Copy 2 0 ∷ Op.Const 3 5 ∷ Op.Const 4 6 ∷ Op.Bin BinOp.ShiftLeft 3 3 4 ∷ Op.Bin BinOp.Subtract 2 2 3 ∷ [] }
    ensures both { expr_code (LogicalAnd (Local 0) (Number 5)) 10 2
        ≡ Op.Copy 2 0 ∷ Op.JumpZero 2 16 ∷ Op.Const 2 5 ∷ Op.JumpZero 2 16 ∷ Op.Const 2 1 ∷ Op.Jump 17 ∷ Op.Const 2 0 ∷ [] }
    ensures either { expr_code (LogicalOr (Local 0) (Number 5)) 10 2
        ≡ Op.Copy 2 0 ∷ Op.JumpZero 2 13 ∷ Op.Jump 15 ∷ Op.Const 2 5 ∷ Op.JumpZero 2 17 ∷ Op.Const 2 1 ∷ Op.Jump 18 ∷ Op.Const 2 0 ∷ [] }
    ensures choice { expr_code (Conditional (Local 0) (Number 5) (Number 6)) 10 2
        ≡ Op.Copy 2 0 ∷ Op.JumpZero 2 14 ∷ Op.Const 2 5 ∷ Op.Jump 15 ∷ Op.Const 2 6 ∷ [] }
{}

/// Example: calls at site 9 have these rows, from operation 10 on: arguments from variable 2 on, and the
/// result in variable 0 or unused.
pub fn calls_have_their_rows()
    ensures function { call_code (CallFunction 9 3 (Number 5 ∷ Local 1 ∷ [])) 10 2 (Some 0)
        ≡ Op.Const 2 5 ∷ Op.Copy 3 1 ∷ Op.Call 9 (Some 0) 3 (2 ∷ 3 ∷ []) ∷ [] }
    ensures modelled { call_code (CallModelled 9 ModelledCall.Take (Number 1 ∷ Number 5 ∷ [])) 10 2 None
        ≡ Op.Const 2 1 ∷ Op.Const 3 5 ∷ Op.Model 9 None 20 (2 ∷ 3 ∷ []) ∷ [] }
    ensures table { call_code (CallTable 9 4 (Local 1) (Number 5)) 10 2 (Some 0)
        ≡ Op.Copy 2 1 ∷ Op.Const 3 5 ∷ Op.CallTable 9 (Some 0) 4 2 3 ∷ [] }
    ensures spawn { call_code (CallSpawn 9 3 (Number 5)) 10 2 None ≡ Op.Const 2 5 ∷ Op.Spawn 9 None 3 2 ∷ [] }
{}

/// Example: declarations, assignments and calls have these rows, from operation 10 on. Variables 0 and 1
/// are declared names, and the temporaries begin at variable 2.
pub fn simple_statements_have_their_rows()
    ensures declared { simple_code (DeclareScalar 0) 10 2 ≡ Op.Const 0 0 ∷ [] }
    ensures array { simple_code (DeclareArray 1 8) 10 2 ≡ Op.Zero 1 ∷ [] }
    ensures declared_value { simple_code (DeclareWith 0 (Computed (Number 5))) 10 2 ≡ Op.Const 2 5 ∷ Op.Copy 0 2 ∷ [] }
    ensures declared_call { simple_code (DeclareWith 0 (Called (CallFunction 9 3 []))) 10 2 ≡ Op.Call 9 (Some 0) 3 [] ∷ [] }
    ensures local_value { simple_code (SetLocal 0 (Computed (Number 5))) 10 2 ≡ Op.Const 2 5 ∷ Op.Copy 0 2 ∷ [] }
    ensures local_call { simple_code (SetLocal 0 (Called (CallFunction 9 3 []))) 10 2 ≡ Op.Call 9 (Some 0) 3 [] ∷ [] }
    ensures global_value { simple_code (SetGlobal 4 (Computed (Number 5))) 10 2 ≡ Op.Const 2 5 ∷ Op.StoreGlobal 4 2 ∷ [] }
    ensures global_call { simple_code (SetGlobal 4 (Called (CallFunction 9 3 []))) 10 2 ≡ Op.Call 9 (Some 2) 3 [] ∷ Op.StoreGlobal 4 2 ∷ [] }
    ensures local_element { simple_code (SetLocalElement 1 (Local 0) (Computed (Number 5))) 10 2
        ≡ Op.Copy 2 0 ∷ Op.Const 3 5 ∷ Op.StoreLocal 1 2 3 ∷ [] }
    ensures global_element { simple_code (SetGlobalElement 4 (Local 0) (Computed (Number 5))) 10 2
        ≡ Op.Copy 2 0 ∷ Op.Const 3 5 ∷ Op.StoreArray 4 2 3 ∷ [] }
    ensures local_element_call { simple_code (SetLocalElement 1 (Local 0) (Called (CallFunction 9 3 (Number 5 ∷ [])))) 10 2
        ≡ Op.Copy 2 0 ∷ Op.Const 3 5 ∷ Op.Call 9 (Some 3) 3 (3 ∷ []) ∷ Op.StoreLocal 1 2 3 ∷ [] }
    ensures global_element_call { simple_code (SetGlobalElement 4 (Local 0) (Called (CallFunction 9 3 (Number 5 ∷ [])))) 10 2
        ≡ Op.Copy 2 0 ∷ Op.Const 3 5 ∷ Op.Call 9 (Some 3) 3 (3 ∷ []) ∷ Op.StoreArray 4 2 3 ∷ [] }
    ensures call { simple_code (Calling (CallModelled 9 ModelledCall.Put (Number 5 ∷ []))) 10 2 ≡ Op.Const 2 5 ∷ Op.Model 9 None 3 (2 ∷ []) ∷ [] }
{}

/// Example: the other statements have these rows, from operation 10 on, if `break` jumps to operation 90
/// and `continue` to 80; so have the closing operations of a function. Variable 0 is a declared name, and
/// the temporaries begin at variable 2.
pub fn statements_have_their_rows()
    ensures block { stmt_code (Block (Then (Do (DeclareScalar 0)) (Then Empty (Then (Do (DeclareScalar 0)) NoStmts)))) 10 2 90 80
        ≡ Op.Const 0 0 ∷ Op.Const 0 0 ∷ [] }
    ensures branch { stmt_code (If (Local 0) (Do (DeclareScalar 0))) 10 2 90 80
        ≡ Op.Copy 2 0 ∷ Op.JumpZero 2 13 ∷ Op.Const 0 0 ∷ [] }
    ensures two_branches { stmt_code (IfElse (Local 0) (Do (DeclareScalar 0)) (Do (SetLocal 0 (Computed (Number 5))))) 10 2 90 80
        ≡ Op.Copy 2 0 ∷ Op.JumpZero 2 14 ∷ Op.Const 0 0 ∷ Op.Jump 16 ∷ Op.Const 2 5 ∷ Op.Copy 0 2 ∷ [] }
    ensures while_loop { stmt_code (While (Local 0) (IfElse (Number 5) Break Continue)) 10 2 90 80
        ≡ Op.Copy 2 0 ∷ Op.JumpZero 2 18 ∷ Op.Const 2 5 ∷ Op.JumpZero 2 16 ∷ Op.Jump 18 ∷ Op.Jump 17 ∷ Op.Jump 10 ∷ Op.Jump 10 ∷ [] }
    ensures for_loop { stmt_code (For (DeclareScalar 0 ∷ []) (Some (Local 0)) (Some (SetLocal 0 (Computed (Number 5)))) (IfElse (Number 6) Break Continue)) 10 2 90 80
        ≡ Op.Const 0 0 ∷ Op.Copy 2 0 ∷ Op.JumpZero 2 21 ∷ Op.Const 2 6 ∷ Op.JumpZero 2 17 ∷ Op.Jump 21 ∷ Op.Jump 18 ∷ Op.Jump 18 ∷ Op.Const 2 5 ∷ Op.Copy 0 2 ∷ Op.Jump 11 ∷ [] }
    ensures endless_loop { stmt_code (For [] None None (IfElse (Number 6) Break Continue)) 10 2 90 80
        ≡ Op.Const 2 6 ∷ Op.JumpZero 2 14 ∷ Op.Jump 16 ∷ Op.Jump 15 ∷ Op.Jump 15 ∷ Op.Jump 10 ∷ [] }
    ensures leave { stmt_code Break 10 2 90 80 ≡ Op.Jump 90 ∷ [] }
    ensures skip { stmt_code Continue 10 2 90 80 ≡ Op.Jump 80 ∷ [] }
    ensures value { stmt_code (Return (Some (Computed (Number 5)))) 10 2 90 80 ≡ Op.Const 2 5 ∷ Op.Return (Some 2) ∷ [] }
    ensures result_of_call { stmt_code (Return (Some (Called (CallFunction 9 3 (Number 5 ∷ []))))) 10 2 90 80
        ≡ Op.Const 2 5 ∷ Op.Call 9 (Some 2) 3 (2 ∷ []) ∷ Op.Return (Some 2) ∷ [] }
    ensures nothing { stmt_code (Return None) 10 2 90 80 ≡ Op.Return None ∷ [] }
    ensures closing { closing_code true 2 ≡ Op.Const 2 0 ∷ Op.Return (Some 2) ∷ [] }
    ensures closing_void { closing_code false 2 ≡ Op.Return None ∷ [] }
{}
