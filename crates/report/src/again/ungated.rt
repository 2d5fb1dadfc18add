use cap_word::{Ready, ThreadId};

/// The threads of a world, none of which counts as one at `accept`.
#[derive(Drop)]
pub(crate) struct Ungated<'a, R> {
    pub(crate) world: &'a R,
}

impl<'a, R: Ready> Ready for Ungated<'a, R> {
    ghost use Rattle.std.specs.Prelude.{false};

    ghost is_ready = { λ u. R.is_ready u.world.now };

    ghost at_accept = { λ u thread. false };

    ghost any_elsewhere = { λ u. R.any_elsewhere u.world.now };

    fn is_ready(&self, thread: ThreadId) -> bool {
        self.world.is_ready(thread)
    }

    fn at_accept(&self, _thread: ThreadId) -> bool {
        false
    }

    fn any_elsewhere(&self) -> bool {
        self.world.any_elsewhere()
    }
}
