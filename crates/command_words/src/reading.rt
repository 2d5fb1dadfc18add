// A command from the parsed texts.
ghost use Rattle.std.specs.Prelude.{ℕ, List, ◌≡◌, ◌*◌, ◌↔◌, IsTrue, IfSome, IfNone, Some, None, is_none, codes};
ghost use Rattle.command_words.specs.OptionTable.{names_of};
ghost use Rattle.command_words.specs.WordList.{Request, Serve, Run, Build, Check, Graph, Demo, Budget, request_of};
ghost use Rattle.command_words.specs.WordList.{audit_options, placement_options, policy_options, run_options};
ghost use Rattle.command_words.specs.Asked.{IsAsked, LacksAll, HasOne, HasThree, HasTwo, texts_of};

use crate::commands::Command;
use crate::numbers::number;
use crate::option_table::{AUDIT, CommandOption, PLACEMENT, RUN, SHARED};
use crate::option_values::{audit_given, placement, policy};
use clap::ArgMatches;

/// The maximum size of the pool, in bytes.
const MOST_BYTES: u64 = 67_108_864;

/// Returns the command that the parsed words ask for.
pub(crate) fn command_of<'a>(matches: &ArgMatches<'a>) -> Option<Command<'a>>
    ensures found { IfSome result (λ command. IsAsked (texts_of matches.now) (request_of command)) }
    ensures none { IfNone result ((request : Request) → IsAsked (texts_of matches.now) request → ⊥) }
{
    match matches.get_str("command")? {
        "serve" => serve(matches),
        "run" => run(matches),
        "build" => build(matches),
        "check" => check(matches),
        "graph" => graph(matches),
        "demo" => demo(matches),
        "audit" => audit(matches),
        "budget" => budget(matches),
        _ => None,
    }
}

/// Returns the command `serve`, if the words ask for it.
fn serve<'a>(matches: &ArgMatches<'a>) -> Option<Command<'a>>
    requires { texts_of matches.now (codes "command") ≡ Some (codes "serve") }
    ensures found { IfSome result (λ command. IsAsked (texts_of matches.now) (request_of command)) }
    ensures none { IfNone result ((request : Request) → IsAsked (texts_of matches.now) request → ⊥) }
{
    let source = one_name(matches)?;
    let placement = placement(matches)?;
    let policy = policy(matches)?;
    let extra_bytes = u64::from(policy.extra_bytes) * u64::from(policy.extra);
    if u64::from(placement.chunk) * u64::from(policy.chunks) + extra_bytes > MOST_BYTES {
        return None;
    }
    without_audit(matches).then_some(Command::Serve {
        source,
        placement,
        policy,
    })
}

/// Returns the command `run`, if the words ask for it.
fn run<'a>(matches: &ArgMatches<'a>) -> Option<Command<'a>>
    requires { texts_of matches.now (codes "command") ≡ Some (codes "run") }
    ensures found { IfSome result (λ command. IsAsked (texts_of matches.now) (request_of command)) }
    ensures none { IfNone result ((request : Request) → IsAsked (texts_of matches.now) request → ⊥) }
{
    let (source, image, certificate) = three_names(matches)?;
    let policy = policy(matches)?;
    (without_placement(matches) && without_audit(matches)).then_some(Command::Run {
        source,
        image,
        certificate,
        policy,
    })
}

/// Returns the command `build`, if the words ask for it.
fn build<'a>(matches: &ArgMatches<'a>) -> Option<Command<'a>>
    requires { texts_of matches.now (codes "command") ≡ Some (codes "build") }
    ensures found { IfSome result (λ command. IsAsked (texts_of matches.now) (request_of command)) }
    ensures none { IfNone result ((request : Request) → IsAsked (texts_of matches.now) request → ⊥) }
{
    let (source, image, certificate) = three_names(matches)?;
    let placement = placement(matches)?;
    (without_policy(matches) && without_audit(matches)).then_some(Command::Build {
        source,
        image,
        certificate,
        placement,
    })
}

/// Returns the command `check`, if the words ask for it.
fn check<'a>(matches: &ArgMatches<'a>) -> Option<Command<'a>>
    requires { texts_of matches.now (codes "command") ≡ Some (codes "check") }
    ensures found { IfSome result (λ command. IsAsked (texts_of matches.now) (request_of command)) }
    ensures none { IfNone result ((request : Request) → IsAsked (texts_of matches.now) request → ⊥) }
{
    let (source, image, certificate) = three_names(matches)?;
    let bare = without_placement(matches) && without_policy(matches) && without_audit(matches);
    bare.then_some(Command::Check {
        source,
        image,
        certificate,
    })
}

/// Returns the command `graph`, if the words ask for it.
fn graph<'a>(matches: &ArgMatches<'a>) -> Option<Command<'a>>
    requires { texts_of matches.now (codes "command") ≡ Some (codes "graph") }
    ensures found { IfSome result (λ command. IsAsked (texts_of matches.now) (request_of command)) }
    ensures none { IfNone result ((request : Request) → IsAsked (texts_of matches.now) request → ⊥) }
{
    let source = one_name(matches)?;
    let placement = placement(matches)?;
    (without_policy(matches) && without_audit(matches)).then_some(Command::Graph {
        source,
        placement,
    })
}

/// Returns the command `demo`, if the words ask for it.
fn demo<'a>(matches: &ArgMatches<'a>) -> Option<Command<'a>>
    requires { texts_of matches.now (codes "command") ≡ Some (codes "demo") }
    ensures found { IfSome result (λ command. IsAsked (texts_of matches.now) (request_of command)) }
    ensures none { IfNone result ((request : Request) → IsAsked (texts_of matches.now) request → ⊥) }
{
    let text = one_name(matches)?;
    let number = number(Some(text), 1, 1, 1000)? as u32;
    let bare = without_placement(matches) && without_policy(matches) && without_audit(matches);
    bare.then_some(Command::Demo { number })
}

/// Returns the command `budget`, if the words ask for it.
fn budget<'a>(matches: &ArgMatches<'a>) -> Option<Command<'a>>
    requires { texts_of matches.now (codes "command") ≡ Some (codes "budget") }
    ensures found { IfSome result (λ command. IsAsked (texts_of matches.now) (request_of command)) }
    ensures none { IfNone result ((request : Request) → IsAsked (texts_of matches.now) request → ⊥) }
{
    let (source, image, certificate) = three_names(matches)?;
    let bare = without_placement(matches) && without_policy(matches) && without_audit(matches);
    bare.then_some(Command::Budget {
        source,
        image,
        certificate,
    })
}

/// Returns the command `audit`, if the words ask for it.
fn audit<'a>(matches: &ArgMatches<'a>) -> Option<Command<'a>>
    requires { texts_of matches.now (codes "command") ≡ Some (codes "audit") }
    ensures found { IfSome result (λ command. IsAsked (texts_of matches.now) (request_of command)) }
    ensures none { IfNone result ((request : Request) → IsAsked (texts_of matches.now) request → ⊥) }
{
    let (source, log) = two_names(matches)?;
    let options = audit_given(matches)?;
    (without_placement(matches) && without_run(matches)).then_some(Command::Audit {
        source,
        log,
        options,
    })
}

/// Returns the positional word after the command, if there is exactly one.
fn one_name<'a>(matches: &ArgMatches<'a>) -> Option<&'a str>
    ensures found { IfSome result (λ word. (texts_of matches.now (codes "first") ≡ Some word.now)
        × (texts_of matches.now (codes "second") ≡ None)) }
    ensures none { IfNone result ((name word : List ℕ) → HasOne (texts_of matches.now) name word → ⊥) }
{
    match (matches.get_str("first"), matches.get_str("second")) {
        (Some(source), None) => Some(source),
        _ => None,
    }
}

/// Returns the positional words after the command, if there are exactly two.
fn two_names<'a>(matches: &ArgMatches<'a>) -> Option<(&'a str, &'a str)>
    ensures found { IfSome result (λ words. (texts_of matches.now (codes "first") ≡ Some words.0.now)
        × (texts_of matches.now (codes "second") ≡ Some words.1.now) × (texts_of matches.now (codes "third") ≡ None)) }
    ensures none { IfNone result ((name first second : List ℕ) → HasTwo (texts_of matches.now) name first second → ⊥) }
{
    let first = matches.get_str("first")?;
    let second = matches.get_str("second")?;
    is_absent(matches, "third").then_some((first, second))
}

/// Returns the positional words after the command, if there are exactly three.
fn three_names<'a>(matches: &ArgMatches<'a>) -> Option<(&'a str, &'a str, &'a str)>
    ensures found { IfSome result (λ words. (texts_of matches.now (codes "first") ≡ Some words.0.now)
        × (texts_of matches.now (codes "second") ≡ Some words.1.now)
        × (texts_of matches.now (codes "third") ≡ Some words.2.now)) }
    ensures none { IfNone result ((name first second third : List ℕ)
        → HasThree (texts_of matches.now) name first second third → ⊥) }
{
    let source = matches.get_str("first")?;
    let image = matches.get_str("second")?;
    let certificate = matches.get_str("third")?;
    Some((source, image, certificate))
}

/// Checks that no option of placement is given.
fn without_placement(matches: &ArgMatches<'_>) -> bool
    ensures { IsTrue result ↔ LacksAll (texts_of matches.now) placement_options }
{
    lacks_all(matches, &PLACEMENT)
}

/// Checks that no option of a run is given.
fn without_policy(matches: &ArgMatches<'_>) -> bool
    ensures { IsTrue result ↔ LacksAll (texts_of matches.now) policy_options }
{
    lacks_all(matches, &RUN) && lacks_all(matches, &SHARED)
}

/// Checks that no option is given that only audits take.
fn without_audit(matches: &ArgMatches<'_>) -> bool
    ensures { IsTrue result ↔ LacksAll (texts_of matches.now) audit_options }
{
    lacks_all(matches, &AUDIT)
}

/// Checks that no option is given that only runs take.
fn without_run(matches: &ArgMatches<'_>) -> bool
    ensures { IsTrue result ↔ LacksAll (texts_of matches.now) run_options }
{
    lacks_all(matches, &RUN)
}

/// Checks that none of these options is given.
fn lacks_all(matches: &ArgMatches<'_>, options: &[CommandOption]) -> bool
    ensures { IsTrue result ↔ LacksAll (texts_of matches.now) (names_of options.now) }
{
    for option in options {
        if !is_absent(matches, option.row().name) {
            return false;
        }
    }
    true
}

/// Checks that an option isn't given.
fn is_absent(matches: &ArgMatches<'_>, option: &str) -> bool
    ensures { IsTrue result ↔ (texts_of matches.now option.now ≡ None) }
{
    matches.get_str(option).is_none()
}
