// Numbers and caps as the values of options.
ghost use Rattle.std.specs.Prelude.{ℕ, List, ◌≡◌, ◌<◌, ◌≤◌, option_map, IfSome, IfNone};
ghost use Rattle.command_words.specs.OptionTable.{least_of, most_of};
ghost use Rattle.command_words.specs.declared.option_table.CommandOption.TheVariants as option;
ghost use Rattle.command_words.specs.Values.{IsNumber, AreCaps, IsCapsText, caps_of, cap_text};

use crate::option_table::CommandOption;
use cap_text::{Fields, read_dec};

/// Returns the number of an option: the given one, or the default if none is given. Returns `None` if the text isn't a
/// canonical decimal or is out of range.
pub(crate) fn number(given: Option<&str>, default: u64, least: u64, most: u64) -> Option<u64>
    ensures found { IfSome result (λ n. IsNumber (option_map (λ text. text.now) given.entry) default least most n) }
    ensures none { IfNone result ((n : ℕ) → IsNumber (option_map (λ text. text.now) given.entry) default least most n
        → ⊥) }
{
    let number = match given {
        Some(text) => read_dec(text.as_bytes(), most).ok()?,
        None => default,
    };
    (least <= number && number <= most).then_some(number)
}

/// Returns the caps of the resources by number, or no caps if none are given. Returns `None` if the text isn't a list
/// of caps.
pub(crate) fn caps(given: Option<&str>) -> Option<[u32; 8]>
    ensures found { IfSome result (λ caps. AreCaps (option_map (λ text. text.now) given.entry) caps) }
    ensures none { IfNone result ((caps : List ℕ) → AreCaps (option_map (λ text. text.now) given.entry) caps → ⊥) }
{
    match given {
        Some(text) => caps_in(text.as_bytes()),
        None => Some([0; 8]),
    }
}

/// Returns the caps in a text.
fn caps_in(text: &[u8]) -> Option<[u32; 8]>
    ensures found { IfSome result (λ caps. (pairs : List (ℕ × ℕ)) × IsCapsText text.now pairs
        × (caps ≡ caps_of pairs)) }
    ensures none { IfNone result ((pairs : List (ℕ × ℕ)) → IsCapsText text.now pairs → ⊥) }
{
    let mut fields = Fields::new(text, b',');
    let mut caps = [0; 8];
    let mut below = 0;
    while let Some(field) = fields.next() {
        let Some((resource, most)) = cap(field) else {
            return None;
        };
        if resource <= below {
            return None;
        }
        caps[resource as usize] = most;
        below = resource;
    }
    Some(caps)
}

/// Returns a resource from 1 to 7 and its cap.
fn cap(field: &[u8]) -> Option<(u32, u32)>
    ensures found { IfSome result (λ cap. (field.now ≡ cap_text cap) × (1 ≤ cap.0) × (cap.0 ≤ 7)
        × (least_of option.Caps ≤ cap.1) × (cap.1 ≤ most_of option.Caps)) }
    ensures none { IfNone result ((resource most : ℕ) → 1 ≤ resource → resource ≤ 7 → least_of option.Caps ≤ most
        → most ≤ most_of option.Caps
        → field.now ≡ cap_text (resource, most) → ⊥) }
{
    let (digit, rest) = field.split_first()?;
    let Some(number) = rest.strip_prefix(b"=") else {
        return None;
    };
    if *digit < b'1' || b'7' < *digit {
        return None;
    }
    let row = CommandOption::Caps.row();
    let Ok(most) = read_dec(number, row.most) else {
        return None;
    };
    if most < row.least {
        return None;
    }
    Some((u32::from(*digit - b'0'), most as u32))
}
