//! The request of each command, from the values of its arguments.
//!
//! ```text
//! what clap found ── a value for each row ──┬─ profile ─┐
//!                                           ├─ set ─────┼─ plan ── request
//!                                           └─ rule ────┘
//! ```
//!
//! In this module, a value counts as missing if `clap` found none, or if it is a number out of its row's range.

ghost use Rattle.std.specs.Prelude.{◌≡◌, IfSome};
ghost use Rattle.clap.specs.Words.{found_of, rows_of};
ghost use Rattle.arguments.specs.NumbersInRange.{AreInTheirRanges, ArePlanNumbers, AreProfileNumbers};
ghost use Rattle.arguments.specs.Plans.{plan_in, profile_in, set_in};
ghost use Rattle.arguments.specs.Reading.{form_in, gather_request, name_request, run_request, show_request, soup_request};
ghost use Rattle.arguments.specs.Forms.{BeginsUpTo, run_form, sizes_up_to};
ghost use Rattle.arguments.specs.Reading.{take_request, work_request};
ghost use Rattle.arguments.specs.Table.{also, count, first, horizon, limit, period, report_from, rule, seed, sizes};
ghost use Rattle.arguments.specs.Table.{stride};
ghost use Rattle.arguments.specs.Values.{IsInRange, number_found, text_found};

use crate::options;
use crate::request::Request;
use crate::values::{is_given, number_found, text_found};
use clap::ArgMatches;
use requests::form::{PatternForm, RunForm};
use requests::plan::{Plan, ProfileNumbers, SoupSet, Text};

/// Returns the numbers of the profile, or `None` if one is missing.
pub fn profile_in(found: &ArgMatches<'_>) -> Option<ProfileNumbers>
    ensures profile { result ≡ profile_in (rows_of (found_of found.now)) }
    ensures ranges { IfSome result AreProfileNumbers }
{
    let period = period_in(found)?;
    let horizon = horizon_in(found)?;
    let stride = stride_in(found)?;
    let limit = limit_in(found)?;
    Some(ProfileNumbers {
        period,
        horizon,
        stride,
        limit,
    })
}

/// Returns the longest period of an object, or `None` if it is missing.
fn period_in(found: &ArgMatches<'_>) -> Option<u32>
    ensures number { result ≡ number_found period (rows_of (found_of found.now)) }
    ensures range { IfSome result (IsInRange period.kind) }
{
    let period = number_found(found, &options::PERIOD)?;
    Some(period as u32)
}

/// Returns the number of generations for which objects must keep apart, or `None` if it is missing.
fn horizon_in(found: &ArgMatches<'_>) -> Option<u32>
    ensures number { result ≡ number_found horizon (rows_of (found_of found.now)) }
    ensures range { IfSome result (IsInRange horizon.kind) }
{
    let horizon = number_found(found, &options::HORIZON)?;
    Some(horizon as u32)
}

/// Returns the number of generations between two checkpoints, or `None` if it is missing.
fn stride_in(found: &ArgMatches<'_>) -> Option<u32>
    ensures number { result ≡ number_found stride (rows_of (found_of found.now)) }
    ensures range { IfSome result (IsInRange stride.kind) }
{
    let stride = number_found(found, &options::STRIDE)?;
    Some(stride as u32)
}

/// Returns the last generation that may be a checkpoint, or `None` if it is missing.
fn limit_in(found: &ArgMatches<'_>) -> Option<u32>
    ensures number { result ≡ number_found limit (rows_of (found_of found.now)) }
    ensures range { IfSome result (IsInRange limit.kind) }
{
    let limit = number_found(found, &options::LIMIT)?;
    Some(limit as u32)
}

/// Returns the set of soups, or `None` if one of its four values is missing.
pub fn set_in<'a>(found: &ArgMatches<'a>) -> Option<SoupSet<'a>>
    ensures set { result ≡ set_in (rows_of (found_of found.now)) }
    ensures ranges { IfSome result (λ set. IsInRange first.kind set.first × IsInRange count.kind set.count) }
{
    let seed = seed_in(found)?;
    let first = first_in(found)?;
    let count = count_in(found)?;
    let also = also_in(found)?;
    Some(SoupSet {
        seed,
        first,
        count,
        also,
    })
}

/// Returns the seed, or `None` if it is missing.
fn seed_in<'a>(found: &ArgMatches<'a>) -> Option<Text<'a>>
    ensures { result ≡ text_found seed (rows_of (found_of found.now)) }
{
    text_found(found, &options::SEED)
}

/// Returns the number of the first soup, or `None` if it is missing.
fn first_in(found: &ArgMatches<'_>) -> Option<u64>
    ensures number { result ≡ number_found first (rows_of (found_of found.now)) }
    ensures range { IfSome result (IsInRange first.kind) }
{
    number_found(found, &options::FIRST)
}

/// Returns the number of soups, or `None` if it is missing.
fn count_in(found: &ArgMatches<'_>) -> Option<u64>
    ensures number { result ≡ number_found count (rows_of (found_of found.now)) }
    ensures range { IfSome result (IsInRange count.kind) }
{
    number_found(found, &options::COUNT)
}

/// Returns the list of more ranges, or `None` if it is missing.
fn also_in<'a>(found: &ArgMatches<'a>) -> Option<Text<'a>>
    ensures { result ≡ text_found also (rows_of (found_of found.now)) }
{
    text_found(found, &options::ALSO)
}

/// Returns the plan: the soups, the profile and the rule. Returns `None` if a value is missing.
pub fn plan_in<'a>(found: &ArgMatches<'a>) -> Option<Plan<'a>>
    ensures plan { result ≡ plan_in (rows_of (found_of found.now)) }
    ensures ranges { IfSome result ArePlanNumbers }
{
    let set = set_in(found)?;
    let profile = profile_in(found)?;
    let rule = rule_in(found)?;
    Some(Plan { set, profile, rule })
}

/// Returns the text of the rule, or `None` if it is missing.
fn rule_in<'a>(found: &ArgMatches<'a>) -> Option<Text<'a>>
    ensures { result ≡ text_found rule (rows_of (found_of found.now)) }
{
    text_found(found, &options::RULE)
}

/// Returns the request of `run`, or `None` if a value that it needs is missing or its arguments contradict each other.
pub(crate) fn run_request<'a>(found: &ArgMatches<'a>) -> Option<Request<'a>>
    ensures request { result ≡ run_request (rows_of (found_of found.now)) }
    ensures ranges { IfSome result AreInTheirRanges }
{
    let generations = number_found(found, &options::GENERATIONS)?;
    let form = run_form_in(found, generations)?;
    let rule = rule_in(found)?;
    Some(Request::Run {
        generations: generations as u32,
        form,
        rule,
    })
}

/// Returns what `run` prints if it ends at generation `last`, or `None` if the options contradict each other: they ask
/// for sizes from a generation after `last`, or for both sizes and coordinates.
fn run_form_in(found: &ArgMatches<'_>, last: u64) -> Option<RunForm>
    ensures form { result ≡ run_form (form_in (rows_of (found_of found.now))) last
        (number_found sizes (rows_of (found_of found.now))) }
    ensures order { IfSome result (BeginsUpTo last) }
{
    let form = form_in(found);
    let Some(from) = number_found(found, &options::SIZES) else {
        return Some(RunForm::Pattern(form));
    };
    match form {
        PatternForm::Plaintext => sizes_up_to(last, from as u32),
        PatternForm::Coordinates => None,
    }
}

/// Returns the form that prints the sizes from generation `from` to `last`, or `None` if `from` is after `last`.
fn sizes_up_to(last: u64, from: u32) -> Option<RunForm>
    ensures form { result ≡ sizes_up_to last from }
    ensures order { IfSome result (BeginsUpTo last) }
{
    if u64::from(from) <= last {
        Some(RunForm::Sizes { from })
    } else {
        None
    }
}

/// Returns the form in which a pattern is printed.
fn form_in(found: &ArgMatches<'_>) -> PatternForm
    ensures { result ≡ form_in (rows_of (found_of found.now)) }
{
    if is_given(found, &options::COORDINATES) {
        PatternForm::Coordinates
    } else {
        PatternForm::Plaintext
    }
}

/// Returns the request of `name`, or `None` if a value is missing.
pub(crate) fn name_request<'a>(found: &ArgMatches<'a>) -> Option<Request<'a>>
    ensures request { result ≡ name_request (rows_of (found_of found.now)) }
    ensures ranges { IfSome result AreInTheirRanges }
{
    let profile = profile_in(found)?;
    let rule = rule_in(found)?;
    Some(Request::Name { profile, rule })
}

/// Returns the request of `show`, or `None` if the code is missing.
pub(crate) fn show_request<'a>(found: &ArgMatches<'a>) -> Option<Request<'a>>
    ensures { result ≡ show_request (rows_of (found_of found.now)) }
{
    let code = text_found(found, &options::CODE)?;
    Some(Request::Show {
        code,
        form: form_in(found),
    })
}

/// Returns the request of `soup`, or `None` if a value is missing.
pub(crate) fn soup_request<'a>(found: &ArgMatches<'a>) -> Option<Request<'a>>
    ensures request { result ≡ soup_request (rows_of (found_of found.now)) }
    ensures ranges { IfSome result AreInTheirRanges }
{
    let number = number_found(found, &options::NUMBER)?;
    let seed = seed_in(found)?;
    Some(Request::Soup {
        seed,
        number,
        form: form_in(found),
    })
}

/// Returns the request of `take`, or `None` if a value that it needs is missing.
pub(crate) fn take_request<'a>(found: &ArgMatches<'a>) -> Option<Request<'a>>
    ensures request { result ≡ take_request (rows_of (found_of found.now)) }
    ensures ranges { IfSome result AreInTheirRanges }
{
    let plan = plan_in(found)?;
    let workers = number_found(found, &options::WORKERS)?;
    Some(Request::Take {
        plan,
        workers: workers as u8,
        progress: is_given(found, &options::PROGRESS),
        report_from: report_from_in(found),
    })
}

/// Returns the generation from which soups count as late, or `None` if it is missing.
fn report_from_in(found: &ArgMatches<'_>) -> Option<u32>
    ensures generation { result ≡ number_found report_from (rows_of (found_of found.now)) }
    ensures range { IfSome result (IsInRange report_from.kind) }
{
    let generation = number_found(found, &options::REPORT_FROM)?;
    Some(generation as u32)
}

/// Returns the request of `work`, or `None` if a value is missing.
pub(crate) fn work_request<'a>(found: &ArgMatches<'a>) -> Option<Request<'a>>
    ensures request { result ≡ work_request (rows_of (found_of found.now)) }
    ensures ranges { IfSome result AreInTheirRanges }
{
    let plan = plan_in(found)?;
    let worker = number_found(found, &options::WORKER)?;
    Some(Request::Work {
        plan,
        worker: worker as u8,
    })
}

/// Returns the request of `gather`, or `None` if a value is missing.
pub(crate) fn gather_request<'a>(found: &ArgMatches<'a>) -> Option<Request<'a>>
    ensures request { result ≡ gather_request (rows_of (found_of found.now)) }
    ensures ranges { IfSome result AreInTheirRanges }
{
    let plan = plan_in(found)?;
    let reporters = number_found(found, &options::REPORTERS)?;
    Some(Request::Gather {
        plan,
        workers: reporters as u8,
    })
}
