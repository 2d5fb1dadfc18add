// The rule of choice and the tickets of threads, as values of options.
ghost use Rattle.std.specs.Prelude.{ℕ, List, ◌≡◌, ◌≤◌, option_map, IfSome, IfNone};
ghost use Rattle.command_words.specs.OptionTable.{least_of, most_of};
ghost use Rattle.command_words.specs.declared.option_table.CommandOption.TheVariants as option;
ghost use Rattle.command_words.specs.Values.{AreTickets, IsRule, IsTicketsText, rule_name, ticket_text, tickets_of};
ghost use Rattle.command_words.specs.declared.options.Rule.{Rule};
ghost use Rattle.command_words.specs.declared.options.Tickets.{Tickets};

use crate::option_table::CommandOption;
use crate::options::{Rule, Tickets};
use cap_text::Fields;

/// The greatest number of a thread that can be given tickets.
const MOST_THREAD: u64 = 1_000_000;

/// Returns the rule that the texts of `--rule` and `--tickets` give; the default is the priority rule. Returns `None`
/// if the text names no rule, if tickets are given with the priority rule, or if their text isn't a list of tickets.
pub(crate) fn rule(given: Option<&str>, tickets_given: Option<&str>) -> Option<Rule>
    ensures found { IfSome result (λ rule. IsRule (option_map (λ text. text.now) given.entry)
        (option_map (λ text. text.now) tickets_given.entry) rule) }
    ensures none { IfNone result ((rule : Rule) → IsRule (option_map (λ text. text.now) given.entry)
        (option_map (λ text. text.now) tickets_given.entry) rule → ⊥) }
{
    match name_of(given) {
        "graph" => tickets_given.is_none().then_some(Rule::Graph),
        "stride" => {
            let tickets = tickets(tickets_given)?;
            Some(Rule::Stride { tickets })
        }
        _ => None,
    }
}

/// Returns the name of the rule.
fn name_of(given: Option<&str>) -> &str
    ensures { result.now ≡ rule_name (option_map (λ text. text.now) given.entry) }
{
    match given {
        Some(name) => name,
        None => "graph",
    }
}

/// Returns the tickets of threads, or no tickets if none are given. Returns `None` if the text isn't a list of tickets.
fn tickets(given: Option<&str>) -> Option<Tickets>
    ensures found { IfSome result (λ tickets. AreTickets (option_map (λ text. text.now) given.entry) tickets) }
    ensures none { IfNone result ((tickets : Tickets) → AreTickets (option_map (λ text. text.now) given.entry) tickets
        → ⊥) }
{
    match given {
        Some(text) => tickets_in(text.as_bytes()),
        None => Some(Tickets {
            pairs: [(0, 0); 64],
            count: 0,
        }),
    }
}

/// Returns the tickets in a text.
fn tickets_in(text: &[u8]) -> Option<Tickets>
    ensures found { IfSome result (λ tickets. (pairs : List (ℕ × ℕ)) × IsTicketsText text.now pairs
        × (tickets ≡ tickets_of pairs)) }
    ensures none { IfNone result ((pairs : List (ℕ × ℕ)) → IsTicketsText text.now pairs → ⊥) }
{
    let mut fields = Fields::new(text, b',');
    let mut tickets = Tickets {
        pairs: [(0, 0); 64],
        count: 0,
    };
    let mut least = 0;
    while let Some(field) = fields.next() {
        let Some((thread, count)) = ticket(field) else {
            return None;
        };
        if thread < least {
            return None;
        }
        if tickets.count == 64 {
            return None;
        }
        tickets.pairs[tickets.count as usize] = (thread, count);
        tickets.count += 1;
        least = thread + 1;
    }
    Some(tickets)
}

/// Returns a thread from 0 to 1,000,000 and its tickets.
fn ticket(field: &[u8]) -> Option<(u32, u32)>
    ensures found { IfSome result (λ ticket. (field.now ≡ ticket_text ticket) × (ticket.0 ≤ 1000000)
        × (least_of option.Tickets ≤ ticket.1) × (ticket.1 ≤ most_of option.Tickets)) }
    ensures none { IfNone result ((thread count : ℕ) → thread ≤ 1000000 → least_of option.Tickets ≤ count
        → count ≤ most_of option.Tickets
        → field.now ≡ ticket_text (thread, count) → ⊥) }
{
    let mut parts = Fields::new(field, b'=');
    let thread = parts.number(MOST_THREAD)?;
    let row = CommandOption::Tickets.row();
    let count = parts.number(row.most)?;
    parts.end()?;
    if count < row.least {
        return None;
    }
    Some((thread as u32, count as u32))
}
