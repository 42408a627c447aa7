//! The value of an argument: what `clap` found for it, looked up by its row, a [`Parameter`] in the table of `options`.

ghost use Rattle.std.specs.Prelude.{◌≡◌, ◌≤◌, IfSome, option_and_then};
ghost use Rattle.clap.specs.Words.{found_of, rows_of};
ghost use Rattle.arguments.specs.Entries.{entry_of};
ghost use Rattle.arguments.specs.Values.{IsInRange, is_given, number_found, number_up_to, text_found, within};

use crate::options::{Parameter, ValueKind};
use clap::ArgMatches;
use requests::plan::Text;

/// Returns the number that was found for the argument of a row. Returns `None` if no number was found, if the number is
/// out of the row's range, or if the row's kind isn't a number.
pub fn number_found(found: &ArgMatches<'_>, row: &Parameter) -> Option<u64>
    ensures number { result ≡ number_found (entry_of row.now) (rows_of (found_of found.now)) }
    ensures range { IfSome result (IsInRange row.now.kind) }
{
    match row.kind {
        ValueKind::Text | ValueKind::Flag => None,
        ValueKind::Number(least, most) | ValueKind::OptionalNumber(least, most) => {
            let number = number_up_to(found, row.name, most)?;
            if number < least {
                return None;
            }
            Some(number)
        }
    }
}

/// Returns the number that was found for the argument `id`, or `None` if there is none or the number is greater than
/// `most`.
fn number_up_to(found: &ArgMatches<'_>, id: &str, most: u64) -> Option<u64>
    ensures number { result ≡ number_up_to most id.now (rows_of (found_of found.now)) }
    ensures most { IfSome result (λ n. n ≤ most) }
{
    within(most, found.get_one::<u64>(id))
}

/// Returns the number, or `None` if there is none or the number is greater than `most`.
fn within(most: u64, number: Option<u64>) -> Option<u64>
    ensures number { result ≡ option_and_then (within most) number }
    ensures most { IfSome result (λ n. n ≤ most) }
{
    match number {
        Some(number) if number <= most => Some(number),
        _ => None,
    }
}

/// Returns the text that was found for the argument of a row, or `None` if there is none.
pub fn text_found<'a>(found: &ArgMatches<'a>, row: &Parameter) -> Option<Text<'a>>
    ensures { result ≡ text_found (entry_of row.now) (rows_of (found_of found.now)) }
{
    let text = found.get_str(row.name)?;
    Some(Text::new(text))
}

/// Checks whether the flag of a row was given.
pub fn is_given(found: &ArgMatches<'_>, row: &Parameter) -> bool
    ensures { result ≡ is_given (entry_of row.now) (rows_of (found_of found.now)) }
{
    match text_found(found, row) {
        Some(value) => value.as_str() == "true",
        None => false,
    }
}
