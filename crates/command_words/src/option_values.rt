// The values of the options, from the parsed texts.
ghost use Rattle.std.specs.Prelude.{ℕ, ◌≡◌, ◌%◌, option_map, IfSome, IfNone};
ghost use Rattle.command_words.specs.declared.option_values.Marks.{Marks};
ghost use Rattle.command_words.specs.declared.option_values.Room.{Room};
ghost use Rattle.command_words.specs.declared.options.Audit.{Audit};
ghost use Rattle.command_words.specs.declared.options.Placement.{Placement};
ghost use Rattle.command_words.specs.declared.options.Policy.{Policy};
ghost use Rattle.command_words.specs.Shared.{AreMarks, IsRoom};
ghost use Rattle.command_words.specs.Values.{IsAudit, IsNumber, IsNumberOf, IsPlacement, IsPolicy};
ghost use Rattle.command_words.specs.Asked.{texts_of};
ghost use Rattle.command_words.specs.OptionTable.{name_of, least_of};
ghost use Rattle.command_words.specs.declared.option_table.CommandOption.TheVariants as option;

use crate::numbers::{caps, number};
use crate::option_table::CommandOption;
use crate::options::{Audit, Placement, Policy};
use crate::ticket_lists::rule;
use clap::ArgMatches;

/// The sizes of a run's pool, its fuel and its backlog.
#[derive(Clone, Copy)]
struct Room {
    chunks: u32,
    extra: u32,
    fuel: u64,
    backlog: u32,
}

/// The caps and the thresholds of pressure.
#[derive(Clone, Copy)]
struct Marks {
    caps: [u32; 8],
    high: u32,
    low: u32,
    knee: u32,
}

/// Returns the options of placement.
pub(crate) fn placement(matches: &ArgMatches<'_>) -> Option<Placement>
    ensures found { IfSome result (λ placement. IsPlacement (texts_of matches.now) placement) }
    ensures none { IfNone result ((placement : Placement) → IsPlacement (texts_of matches.now) placement → ⊥) }
{
    let chunk = number_of(matches, CommandOption::Chunk)?;
    if chunk % 16 != 0 {
        return None;
    }
    let half = (chunk - 16) / 2 / 16 * 16;
    let max_path = number_within(matches, CommandOption::MaxPath, half, chunk - 16)?;
    Some(Placement {
        chunk: chunk as u32,
        max_path: max_path as u32,
    })
}

/// Returns the options of a run.
pub(crate) fn policy(matches: &ArgMatches<'_>) -> Option<Policy>
    ensures found { IfSome result (λ policy. IsPolicy (texts_of matches.now) policy) }
    ensures none { IfNone result ((policy : Policy) → IsPolicy (texts_of matches.now) policy → ⊥) }
{
    let Room {
        chunks,
        extra,
        fuel,
        backlog,
    } = room_of(matches)?;
    let Marks {
        caps,
        high,
        low,
        knee,
    } = marks_of(matches)?;
    let extra_bytes = extra_bytes(matches)?;
    let rule = rule(
        text_of(matches, CommandOption::Rule),
        text_of(matches, CommandOption::Tickets),
    )?;
    Some(Policy {
        chunks,
        extra,
        extra_bytes,
        fuel,
        backlog,
        caps,
        high,
        low,
        rule,
        knee,
    })
}

/// Returns the options of an audit: a policy, and the limit on steps.
pub(crate) fn audit_given(matches: &ArgMatches<'_>) -> Option<Audit>
    ensures found { IfSome result (λ options. IsAudit (texts_of matches.now) options) }
    ensures none { IfNone result ((options : Audit) → IsAudit (texts_of matches.now) options → ⊥) }
{
    let policy = policy(matches)?;
    let steps = number_of(matches, CommandOption::Steps)?;
    Some(Audit { policy, steps })
}

/// Returns the sizes of a run's pool, its fuel and its backlog.
fn room_of(matches: &ArgMatches<'_>) -> Option<Room>
    ensures found { IfSome result (λ room. IsRoom (texts_of matches.now) room) }
    ensures none { IfNone result ((room : Room) → IsRoom (texts_of matches.now) room → ⊥) }
{
    let chunks = number_of(matches, CommandOption::Chunks)? as u32;
    let extra = number_of(matches, CommandOption::Extra)? as u32;
    let fuel = number_of(matches, CommandOption::Fuel)?;
    let backlog = number_of(matches, CommandOption::Backlog)? as u32;
    Some(Room {
        chunks,
        extra,
        fuel,
        backlog,
    })
}

/// Returns the caps and the thresholds of pressure.
fn marks_of(matches: &ArgMatches<'_>) -> Option<Marks>
    ensures found { IfSome result (λ marks. AreMarks (texts_of matches.now) marks) }
    ensures none { IfNone result ((marks : Marks) → AreMarks (texts_of matches.now) marks → ⊥) }
{
    let caps = caps(text_of(matches, CommandOption::Caps))?;
    let high = number_of(matches, CommandOption::High)?;
    let low = CommandOption::Low;
    let low = number_within(matches, low, low.row().default, high - 1)? as u32;
    let knee = number_of(matches, CommandOption::Knee)? as u32;
    Some(Marks {
        caps,
        high: high as u32,
        low,
        knee,
    })
}

/// Returns the size in bytes of each chunk of the second size.
fn extra_bytes(matches: &ArgMatches<'_>) -> Option<u32>
    ensures found { IfSome result (λ bytes. IsNumberOf (texts_of matches.now) option.ExtraSize bytes
        × (bytes % 16 ≡ 0)) }
    ensures none { IfNone result ((bytes : ℕ) → IsNumberOf (texts_of matches.now) option.ExtraSize bytes
        → bytes % 16 ≡ 0 → ⊥) }
{
    let bytes = number_of(matches, CommandOption::ExtraSize)? as u32;
    if bytes % 16 != 0 {
        return None;
    }
    Some(bytes)
}

/// Returns the number of an option: the given one, or its default. Returns `None` if the text isn't a canonical decimal
/// or is out of range.
fn number_of(matches: &ArgMatches<'_>, option: CommandOption) -> Option<u64>
    ensures found { IfSome result (λ n. IsNumberOf (texts_of matches.now) option n) }
    ensures none { IfNone result ((n : ℕ) → IsNumberOf (texts_of matches.now) option n → ⊥) }
{
    let row = option.row();
    number_within(matches, option, row.default, row.most)
}

/// Returns the number of an option: the given one, or `default`. Returns `None` if the text isn't a canonical decimal,
/// or isn't between the option's least number and `most`.
fn number_within(
    matches: &ArgMatches<'_>,
    option: CommandOption,
    default: u64,
    most: u64,
) -> Option<u64>
    ensures found { IfSome result (λ n. IsNumber (texts_of matches.now (name_of option)) default
        (least_of option) most n) }
    ensures none { IfNone result ((n : ℕ)
        → IsNumber (texts_of matches.now (name_of option)) default (least_of option) most n → ⊥) }
{
    let row = option.row();
    number(matches.get_str(row.name), default, row.least, most)
}

/// Returns the text that is given for an option.
fn text_of<'a>(matches: &ArgMatches<'a>, option: CommandOption) -> Option<&'a str>
    ensures { option_map (λ text. text.now) result ≡ texts_of matches.now (name_of option) }
{
    matches.get_str(option.row().name)
}
