// The rules of scope, and which broken rule is reported.

ghost use Rattle.std.specs.Prelude.{◌≡◌};
ghost use Rattle.scope_rules.specs.Faults.{rank, is_before, fault, broken, lesser, least_of};

/// A rule that a source breaks; at one place the earlier variant is reported.
#[derive(Clone, Copy)]
pub enum Rule {
    /// A name isn't in scope, or a prototype has no definition.
    Unknown,
    /// A name is declared twice in one scope.
    Twice,
    /// A count of arguments, members or parameters is wrong.
    Arity,
    /// A name or a statement is of the wrong kind for its place.
    Kind,
}

/// A rule, and the place where it is broken.
#[derive(Clone, Copy)]
pub struct Fault {
    pub at: u32,
    pub rule: Rule,
}

impl Rule {
    fn rank(self) -> u8
        ensures { result ≡ rank self }
    {
        match self {
            Rule::Unknown => 0,
            Rule::Twice => 1,
            Rule::Arity => 2,
            Rule::Kind => 3,
        }
    }
}

impl Fault {
    fn is_before(self, other: Fault) -> bool
        ensures { result ≡ is_before self other }
    {
        self.at < other.at || (self.at == other.at && self.rule.rank() < other.rule.rank())
    }
}

/// Adds a fault to the least one so far.
pub fn note(least: &mut Option<Fault>, at: u32, rule: Rule)
    ensures { least.new ≡ lesser least.old (fault at rule) }
{
    let fault = Fault { at, rule };
    match *least {
        None => *least = Some(fault),
        Some(earlier) => {
            if fault.is_before(earlier) {
                *least = Some(fault);
            }
        }
    }
}

/// Adds a fault if a rule is broken.
pub fn note_if(least: &mut Option<Fault>, is_broken: bool, at: u32, rule: Rule)
    ensures { least.new ≡ least_of least.old (broken is_broken at rule) }
{
    if is_broken {
        note(least, at, rule);
    }
}
