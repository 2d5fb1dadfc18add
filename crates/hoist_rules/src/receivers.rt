// The receivers of the statements that replace those of a function.
ghost use Rattle.std.specs.Prelude.{◌≡◌, [], ◌∷◌, ◌++◌, OnOk};
ghost use Rattle.c_tree.specs.RawViews.{raw_stmt_tree};
ghost use Rattle.hoist_rules.specs.Receivers.{Received, resolved, opening_places, then_all, then_open, then_else, then_close};
ghost use Rattle.scope_rules.specs.Openings.{opening_tree};

use c_tree::RawStmt;
use call_places::{
    add_places_of_calls_in, add_places_of_calls_in_expr, add_places_of_calls_in_parts,
};
use scope_rules::{FunctionResolver, Opening};
use std::alloc::AllocError;

/// Takes the statements of a function, one after another. A statement with a body may be taken in parts: what begins
/// it, the statements of its body, and its end. `so_far` is what the receiver has taken.
pub trait Receive {
    ghost so_far: { Self → Received };

    /// Takes one more statement.
    ///
    /// # Errors
    ///
    /// Memory ran out. All that is left then is to drop the receiver.
    fn push(&mut self, statement: RawStmt) -> Result<(), AllocError>
        ensures { OnOk result (so_far self.new ≡ then_all (so_far self.old) (raw_stmt_tree statement ∷ [])) };

    /// Begins a block, or a statement with a body.
    ///
    /// # Errors
    ///
    /// Memory ran out, as in `push`.
    fn open(&mut self, opening: Opening) -> Result<(), AllocError>
        ensures { OnOk result (so_far self.new ≡ then_open (opening_tree opening.entry) (so_far self.old)) };

    /// Begins the `else` of the `if` that was begun last.
    ///
    /// # Errors
    ///
    /// Memory ran out, as in `push`.
    fn otherwise(&mut self) -> Result<(), AllocError>
        ensures { OnOk result (so_far self.new ≡ then_else (so_far self.old)) };

    /// Ends the block, or the statement with a body, that was begun last.
    ///
    /// # Errors
    ///
    /// Memory ran out, as in `push`.
    fn close(&mut self) -> Result<(), AllocError>
        ensures { OnOk result (so_far self.new ≡ then_close (so_far self.old)) };
}

/// Resolves the statements that it takes, and keeps the places of their calls.
#[derive(Drop)]
pub struct Resolving {
    pub resolver: FunctionResolver,
    pub places: Vec<u32>,
}

impl Receive for Resolving {
    ghost so_far = { resolved };

    fn push(&mut self, statement: RawStmt) -> Result<(), AllocError> {
        add_places_of_calls_in(&mut self.places, &statement)?;
        self.resolver.statement(&statement)?;
        Ok(())
    }

    fn open(&mut self, opening: Opening) -> Result<(), AllocError> {
        add_places(&mut self.places, opening)?;
        self.resolver.open(opening)?;
        Ok(())
    }

    fn otherwise(&mut self) -> Result<(), AllocError> {
        self.resolver.otherwise()?;
        Ok(())
    }

    fn close(&mut self) -> Result<(), AllocError> {
        self.resolver.close()?;
        Ok(())
    }
}

// Adds the places of the calls in what begins a block, or a statement with a body.
fn add_places(places: &mut Vec<u32>, opening: Opening) -> Result<(), AllocError>
    ensures { OnOk result (places.new.items ≡ places.old.items ++ opening_places (opening_tree opening.entry)) }
{
    match opening {
        Opening::Block => Ok(()),
        Opening::If(condition) => add_places_of_calls_in_expr(places, condition),
        Opening::While(condition) => add_places_of_calls_in_expr(places, condition),
        Opening::For(parts) => add_places_of_calls_in_parts(places, parts),
    }
}
