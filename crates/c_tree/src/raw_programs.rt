// A whole source, as it is read.

ghost use Rattle.std.specs.Prelude.{◌≡◌};
ghost use Rattle.c_tree.specs.RawViews.{raw_item_trees};
ghost use Rattle.c_tree.specs.RawTemporaries.{AreWithinTemporaries};
ghost use Rattle.c_tree.specs.OneProof.{AreWithinTemporaries-prop};

use crate::raw_items::RawItem;

/// A source as it is read: what it declares and defines outside functions, in the order of the text. No
/// statement needs more than 65,536 temporaries.
pub struct RawProgram {
    items: Vec<RawItem>,
    pub ghost within: { AreWithinTemporaries (raw_item_trees items.items) } by { AreWithinTemporaries-prop (raw_item_trees items.items) },
}

impl Drop for RawProgram {
    // Written out, so that no crate above proves how a tree is dropped.
    fn drop(self) {
        let RawProgram { items: _items } = self;
    }
}

impl RawProgram {
    ghost use Rattle.std.specs.Prelude.{◌≡◌};
    ghost use Rattle.c_tree.specs.RawViews.{raw_item_trees};
    ghost use Rattle.c_tree.specs.RawTemporaries.{AreWithinTemporaries};
    ghost use Rattle.c_tree.specs.RawProgramView.{raw_program_tree};

    /// Returns the source with these items. It doesn't allocate.
    pub fn new(items: Vec<RawItem>) -> RawProgram
        requires { AreWithinTemporaries (raw_item_trees items.items) }
        ensures { raw_program_tree result ≡ raw_item_trees items.items }
    {
        RawProgram { items }
    }

    /// Returns its declarations and definitions outside functions, in the order of the text.
    pub fn items(&self) -> &[RawItem]
        ensures { raw_item_trees result.now ≡ raw_program_tree self.now }
    {
        &self.items
    }

    /// Returns the same as `items`, by value, so that the caller can free each item when it no longer needs it.
    pub fn into_items(self) -> Vec<RawItem>
        ensures { raw_item_trees result.items ≡ raw_program_tree self }
    {
        let RawProgram { items } = self;
        items
    }
}
