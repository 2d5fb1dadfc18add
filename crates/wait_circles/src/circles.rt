ghost use Rattle.std.specs.Prelude.{◌≡◌, ◌++◌, ◌∷◌, [], List, ℕ, IfOk, OnOk, All, Contains};
ghost use Rattle.wait_circles.specs.Circles.{IsCircle};
ghost use Rattle.wait_circles.specs.Ways.{closing, ways};

use crate::steps::{Step, leads, may_go};
use std::alloc::{AllocError, Global};
use std::marker::Model;

/// The number of resources.
const RESOURCES: u32 = 8;

/// A circle of resources. Contracts see it as the list of them.
#[derive(Drop)]
pub struct Circle {
    resources: Vec<u32>,
}

impl Model for Circle {
    ghost use Rattle.std.specs.Prelude.{List, ℕ};

    ghost Value = { List ℕ };

    ghost view = { λ circle. circle.resources.items };
}

impl Circle {
    ghost use Rattle.std.specs.Prelude.{◌≡◌};

    /// Returns the resources in order, the least first: for each, some thread holds units of it and waits for the next
    /// one; for the last, the next one is the first.
    pub fn resources(&self) -> &[u32]
        ensures { result.now ≡ self.now }
    {
        self.resources.as_slice()
    }
}

/// Returns all circles of these steps.
pub fn circles_of(alloc: Global, steps: &[Step]) -> Result<Vec<Circle>, AllocError>
    ensures told { IfOk result (λ circles. All (IsCircle steps.now) circles.items) }
    ensures each { (circle : List ℕ) → IsCircle steps.now circle → IfOk result (λ circles. Contains circles.items circle) }
{
    let mut found = Vec::new(alloc);
    for first in 0..RESOURCES {
        begin(alloc, steps, first, &mut found)?;
    }
    Ok(found)
}

/// Appends the circles whose least resource is `first`.
fn begin(
    alloc: Global,
    steps: &[Step],
    first: u32,
    found: &mut Vec<Circle>,
) -> Result<(), AllocError>
    ensures { OnOk result (found.new.items ≡ found.old.items ++ ways 7 steps.now first first (first ∷ [])) }
{
    follow(alloc, steps, first, first, &[first], RESOURCES - 1, found)
}

/// Appends the circles that extend a path from `first` to `last` by at most this many further resources.
fn follow(
    alloc: Global,
    steps: &[Step],
    first: u32,
    last: u32,
    path: &[u32],
    left: u32,
    found: &mut Vec<Circle>,
) -> Result<(), AllocError>
    ensures { OnOk result (found.new.items ≡ found.old.items ++ ways left steps.now first last path.now) }
{
    close(alloc, steps, first, last, path, found)?;
    if left == 0 {
        return Ok(());
    }
    for next in 0..RESOURCES {
        if may_go(steps, first, last, path, next) {
            let path = longer(alloc, path, next)?;
            follow(alloc, steps, first, next, path.as_slice(), left - 1, found)?;
        }
    }
    Ok(())
}

/// Appends a path if it is a circle.
fn close(
    alloc: Global,
    steps: &[Step],
    first: u32,
    last: u32,
    path: &[u32],
    found: &mut Vec<Circle>,
) -> Result<(), AllocError>
    ensures { OnOk result (found.new.items ≡ found.old.items ++ closing steps.now first last path.now) }
{
    if !leads(steps, last, first) {
        return Ok(());
    }
    let mut resources = Vec::new(alloc);
    resources.extend_from_slice(path)?;
    found.push(Circle { resources })?;
    Ok(())
}

/// Returns a path with one more resource.
fn longer(alloc: Global, path: &[u32], next: u32) -> Result<Vec<u32>, AllocError>
    ensures { IfOk result (λ more. more.items ≡ path.now ++ next ∷ []) }
{
    let mut more = Vec::new(alloc);
    more.extend_from_slice(path)?;
    more.push(next)?;
    Ok(more)
}
