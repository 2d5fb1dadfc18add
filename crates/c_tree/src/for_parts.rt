ghost use Rattle.std.specs.Prelude.{List};
ghost use Rattle.c_tree.specs.RawTrees.{RawItemTree};
ghost use Rattle.c_tree.specs.WholeCalls.{AreCallsWhole};
ghost use Rattle.c_tree.specs.WholeForParts.{AreForPartsWhole};

/// Law: if every call of a source is whole, so is each call in the parentheses of a `for`. It has no effect at run
/// time.
pub fn whole_in_fors()
    ensures { (items : List RawItemTree) → AreCallsWhole items → AreForPartsWhole items }
{}
