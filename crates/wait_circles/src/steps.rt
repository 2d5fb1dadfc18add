ghost use Rattle.std.specs.Prelude.{◌≡◌, ◌||◌};
ghost use Rattle.wait_circles.specs.Circles.{is_among, is_step, leads, may_go};

/// A thread that holds units of a resource and waits for units of another, or of the same.
#[derive(Clone, Copy)]
pub struct Step {
    /// The thread's number.
    pub thread: u32,
    /// The resource, below 8, of which it holds units.
    pub held: u32,
    /// The resource, below 8, for which it waits.
    pub wanted: u32,
}

/// Checks whether a thread holds units of the one resource and waits for the other.
pub(crate) fn leads(steps: &[Step], held: u32, wanted: u32) -> bool
    ensures { result ≡ leads steps.now held wanted }
{
    let mut found = false;
    for step in steps {
        found = either(found, is_step(step, held, wanted));
    }
    found
}

/// Returns the disjunction of both.
fn either(before: bool, now: bool) -> bool
    ensures { result ≡ (before || now) }
{
    before || now
}

/// Checks whether a step is from the one resource to the other.
fn is_step(step: &Step, held: u32, wanted: u32) -> bool
    ensures { result ≡ is_step held wanted step.now }
{
    step.held == held && step.wanted == wanted
}

/// Checks whether a resource is on a path.
fn is_among(path: &[u32], resource: u32) -> bool
    ensures { result ≡ is_among path.now resource }
{
    let mut found = false;
    for one in path {
        found = either(found, *one == resource);
    }
    found
}

/// Checks whether a path from `first` to `last` may continue with a resource: one with a greater number than `first`
/// that isn't on it.
pub(crate) fn may_go(steps: &[Step], first: u32, last: u32, path: &[u32], next: u32) -> bool
    ensures { result ≡ may_go steps.now first last path.now next }
{
    first < next && !is_among(path, next) && leads(steps, last, next)
}
