//! Reads the fields of a report line. `cut_at` cuts a text at its first separator, such as a space. A function that
//! reads a field gets the whole text of the field, and returns `None` if no lawful claim has that field.

ghost use Rattle.std.specs.Prelude.{◌≡◌, ◌≢◌, ◌↔◌, ◌<◌, ◌≤◌, ◌^◌, ◌++◌, ◌==◌, ℕ, IsTrue, List, MatchOption, codes};
ghost use Rattle.std.specs.Prelude.{decimal, option_map, position};
ghost use Rattle.std.specs.List.{list_all};
ghost use Rattle.plane_core.specs.plane.Rules.{IsRule, rule_text};
ghost use Rattle.code_core.specs.Apgcodes.{HasCodeShape, is_code_byte};
ghost use Rattle.survey_core.specs.Seeds.{IsSeed};
ghost use Rattle.haul_core.specs.FieldSteps.{BeginsNumber, Cuts, IsAnyMark, IsNumber, IsSmall, IsState, IsVersion};
ghost use Rattle.haul_core.specs.FieldSteps.{SpellsField, numbers_text, state_field};
ghost use Rattle.survey_core.specs.Profiles.{IsProfile};
ghost use Rattle.haul_core.specs.ReportLines.{count_field, mark_field, profile_field};
ghost use Rattle.haul_core.specs.LawfulClaims.{IsCount};
ghost use Rattle.haul_core.specs.Reports.{IsWorker};

use crate::report::MOST_WORKERS;
use plane_core::plane::rule::Rule;
use ranges::range::NUMBER_BOUND;
use ranges::range_list::first_decimal;
use survey_core::profile::Profile;
use survey_core::seed::Seed;

/// The highest limit of a profile. No other number of a profile, and no checkpoint, is higher.
const MOST_GENERATIONS: u64 = 100_000;

/// The most bytes of an apgcode, by the law `codes_have_their_shape` of the crate `code_core`.
const MOST_CODE_BYTES: usize = 400;

/// Cuts a text at the first occurrence of `byte`. Returns the text before the byte and the text after it, or the whole
/// text and `None` if the byte doesn't occur.
pub(crate) fn cut_at(byte: u8, text: &[u8]) -> (&[u8], Option<&[u8]>)
    ensures { Cuts byte text.now result.0.now (option_map (λ remainder. remainder.now) result.1) }
{
    match place_of(byte, text) {
        Some(place) => (&text[..place], Some(&text[place + 1..])),
        None => (text, None),
    }
}

/// Returns the first place of a byte in a text, or `None` if the text doesn't have the byte.
fn place_of(byte: u8, text: &[u8]) -> Option<usize>
    ensures { result ≡ position (λ b. b == byte) text.now }
{
    text.iter().position(|own| *own == byte)
}

/// Returns the number below 2^64 whose decimal is the text, or `None` if there is none.
#[tactic(auto, using(crate::proofs::FieldLemmas::whole_decimal, crate::proofs::FieldLemmas::no_decimal, crate::proofs::FieldLemmas::longer_decimal))]
pub(crate) fn number_in(text: &[u8]) -> Option<u64>
    ensures { SpellsField IsNumber decimal text.now result }
{
    let (number, remainder) = first_decimal(text)?;
    if remainder.is_empty() {
        Some(number)
    } else {
        None
    }
}

/// Returns the number below 2^64 that a field gives. The field consists of `name`, such as `soup=`, and the number's
/// decimal.
pub(crate) fn number_after(name: &[u8], field: &[u8]) -> Option<u64>
    ensures { SpellsField IsNumber (λ n. name.now ++ decimal n) field.now result }
{
    number_in(after(name, field)?)
}

/// Returns what follows the name, or `None` if the field doesn't begin with the name.
fn after<'a>(name: &[u8], field: &'a [u8]) -> Option<&'a [u8]>
    ensures { MatchOption result ((remainder : List ℕ) → field.now ≢ name.now ++ remainder)
        (λ remainder. field.now ≡ name.now ++ remainder.now) }
{
    field.strip_prefix(name)
}

/// Returns the worker that a field `worker=W` gives, 1 to 16.
pub(crate) fn worker_in(field: &[u8]) -> Option<u8>
    ensures { SpellsField IsWorker (λ n. codes "worker=" ++ decimal n) field.now result }
{
    let number = number_after(b"worker=", field)?;
    let known = is_from_to(1, u64::from(MOST_WORKERS), number);
    if known { Some(number as u8) } else { None }
}

/// Returns the version that a field gives, 1 or 2.
pub(crate) fn version_in(field: &[u8]) -> Option<u8>
    ensures { SpellsField IsVersion decimal field.now result }
{
    let number = number_in(field)?;
    let known = is_from_to(1, 2, number);
    if known { Some(number as u8) } else { None }
}

/// Checks whether `n` is from `least` to `most`.
fn is_from_to(least: u64, most: u64, n: u64) -> bool
    ensures { IsTrue result ↔ (least ≤ n × n ≤ most) }
{
    least <= n && n <= most
}

/// Returns the number of the soup that a field `soup=N` gives, below 2^40.
pub(crate) fn soup_in(field: &[u8]) -> Option<u64>
    ensures { SpellsField (λ n. n < 2 ^ 40) (λ n. codes "soup=" ++ decimal n) field.now result }
{
    let number = number_after(b"soup=", field)?;
    if number < NUMBER_BOUND {
        Some(number)
    } else {
        None
    }
}

/// Returns the checkpoint that a field `at=T` gives, up to 100,000.
pub(crate) fn checkpoint_in(field: &[u8]) -> Option<u32>
    ensures { SpellsField (λ n. n ≤ 100000) (λ n. codes "at=" ++ decimal n) field.now result }
{
    let number = number_after(b"at=", field)?;
    if number <= MOST_GENERATIONS {
        Some(number as u32)
    } else {
        None
    }
}

/// Returns what a field says about a soup: `Some(None)` if it says that the soup didn't settle, and `Some(Some(t))` if
/// it says that the soup settled at checkpoint `t`.
#[tactic(auto, using(crate::proofs::FieldLemmas::no_state))]
pub(crate) fn state_in(field: &[u8]) -> Option<Option<u32>>
    ensures { SpellsField IsState state_field field.now result }
{
    if field == b"unsettled".as_slice() {
        return Some(None);
    }
    Some(Some(checkpoint_in(field)?))
}

/// Returns the profile that a field `profile=..` gives.
pub(crate) fn profile_in(field: &[u8]) -> Option<Profile>
    ensures { SpellsField IsProfile profile_field field.now result }
{
    profile_of(after(b"profile=", field)?)
}

/// Returns the profile whose four numbers, separated by commas, are the text.
fn profile_of(text: &[u8]) -> Option<Profile>
    ensures { SpellsField IsProfile numbers_text text.now result }
{
    let (period, remainder) = first_number(text)?;
    let (horizon, remainder) = first_number(remainder)?;
    let (stride, remainder) = first_number(remainder)?;
    let limit = small_number_in(remainder)?;
    match Profile::new(period, horizon, stride, limit) {
        Ok(profile) => Some(profile),
        Err(_) => None,
    }
}

/// Returns the number, up to 100,000, with which a text begins, and the text after the comma that follows the number.
fn first_number(text: &[u8]) -> Option<(u32, &[u8])>
    ensures { BeginsNumber text.now (option_map (λ first. (first.0, first.1.now)) result) }
{
    let (prefix, Some(remainder)) = cut_at(b',', text) else {
        return None;
    };
    let number = small_number_in(prefix)?;
    Some((number, remainder))
}

/// Returns the number up to 100,000 whose decimal is the text.
fn small_number_in(text: &[u8]) -> Option<u32>
    ensures { SpellsField IsSmall decimal text.now result }
{
    let number = number_in(text)?;
    if number <= MOST_GENERATIONS {
        Some(number as u32)
    } else {
        None
    }
}

/// Returns the code and the number of objects that a field `CODE*N` gives. The number is at least 1.
pub(crate) fn count_in(field: &[u8]) -> Option<(&[u8], u64)>
    ensures { SpellsField IsCount count_field field.now (option_map (λ object. (object.0.now, object.1)) result) }
{
    let (code, Some(text)) = cut_at(b'*', field) else {
        return None;
    };
    if !is_code(code) {
        return None;
    }
    let count = number_in(text)?;
    if count == 0 {
        return None;
    }
    Some((code, count))
}

/// Returns the rule that a field `rule=RULE` gives.
pub(crate) fn rule_in(field: &[u8]) -> Option<Rule>
    ensures { SpellsField IsRule (λ rule. codes "rule=" ++ rule_text rule) field.now result }
{
    let Ok(text) = std::str::from_utf8(after(b"rule=", field)?) else {
        return None;
    };
    match Rule::read(text) {
        Ok(rule) => Some(rule),
        Err(_) => None,
    }
}

/// Returns the seed that a field `seed=SEED` gives.
pub(crate) fn seed_in(field: &[u8]) -> Option<Seed>
    ensures { SpellsField IsSeed (λ seed. codes "seed=" ++ seed) field.now result }
{
    let Ok(text) = std::str::from_utf8(after(b"seed=", field)?) else {
        return None;
    };
    match Seed::new(text) {
        Ok(seed) => Some(seed),
        Err(_) => None,
    }
}

/// Returns what a field says about whether objects stay for good: `good=yes` or `good=no`.
#[tactic(auto, unfolding(crate::specs::ReportLines::mark_field), using(crate::proofs::FieldLemmas::two_marks))]
pub(crate) fn mark_in(field: &[u8]) -> Option<bool>
    ensures { SpellsField IsAnyMark mark_field field.now result }
{
    if field == b"good=yes".as_slice() {
        Some(true)
    } else if field == b"good=no".as_slice() {
        Some(false)
    } else {
        None
    }
}

/// Checks whether a text is a code that a field may name: 1 to 400 bytes, each one of `a` to `z`, `0` to `9` and `_`.
pub(crate) fn is_code(text: &[u8]) -> bool
    ensures { IsTrue result ↔ HasCodeShape text.now }
{
    let length = text.len();
    1 <= length && length <= MOST_CODE_BYTES && are_code_bytes(text)
}

/// Checks whether each byte of a text may be in a code.
fn are_code_bytes(text: &[u8]) -> bool
    ensures { result ≡ list_all is_code_byte text.now }
{
    text.iter().all(|byte| is_code_byte(*byte))
}

/// Checks whether a code may have the byte.
#[tactic(auto, unfolding(code_core::specs::Tokens::is_character))]
fn is_code_byte(byte: u8) -> bool
    ensures { result ≡ is_code_byte byte }
{
    byte.is_ascii_digit() || byte.is_ascii_lowercase() || byte == b'_'
}
