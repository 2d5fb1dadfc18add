// What an operation and a site's kind tell.

ghost use Rattle.std.specs.Prelude.{◌≡◌};
ghost use Rattle.certificate_rules.specs.Sites.{certified_site, starts_thread, is_spawned};

use flat_code::Op;
use stack_certificate::LinkKind;

/// Returns the number of an operation's site, if it calls a function or a table or starts a thread.
pub fn certified_site_of(op: &Op) -> Option<u32>
    ensures { result ≡ certified_site op.now }
{
    match op {
        Op::Call { site, .. } | Op::CallTable { site, .. } | Op::Spawn { site, .. } => Some(*site),
        _ => None,
    }
}

// Whether an operation starts a thread.
pub(crate) fn starts_a_thread(op: &Op) -> bool
    ensures { result ≡ starts_thread op.now }
{
    match op {
        Op::Spawn { .. } => true,
        _ => false,
    }
}

// Whether a site is certified as one that starts a thread.
pub(crate) fn is_spawned_kind(kind: LinkKind) -> bool
    ensures { result ≡ is_spawned kind }
{
    match kind {
        LinkKind::Spawned { .. } => true,
        LinkKind::Plain | LinkKind::Linked { .. } => false,
    }
}
