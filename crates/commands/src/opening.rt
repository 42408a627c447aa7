//! Reads the job and the soups of a plan, and opens a haul over them.
//!
//! ```text
//! plan ──┬─ seed, profile, rule ── job ──┬─ haul
//!        └─ set ── ranges ───────────────┴─ soups, for `work`
//! ```

ghost use Rattle.std.specs.Prelude.{◌≡◌, ◌++◌, ◌∷◌, [], List, IfErr, IfOk, Ok, OnOk};
ghost use Rattle.haul_core.specs.Reports.{IsWorker};
ghost use Rattle.pattern_commands.specs.Profiles.{AreInRange};
ghost use Rattle.commands.specs.SoupSets.{AreRangesOf, job_named};
ghost use Rattle.commands.specs.TakeSteps.{AreNormalRanges, IsOpened, IsOpenedFor, StopsOpening, StopsSet};

use haul_core::book::haul::{Haul, OpenError};
use memory::OutOfMemory;
use pattern_commands::ending::complaint::Complaint;
use pattern_commands::ending::refusal::Refusal;
use pattern_commands::profile::profile_named;
use plane_core::plane::rule::Rule;
use ranges::range::{Range, Ranges, overlap, small_size};
use requests::plan::{Plan, SoupSet};
use std::alloc::Global;
use survey_core::job::Job;
use survey_core::seed::Seed;

/// The job and the soups of a plan.
#[derive(Drop)]
pub(crate) struct Soups {
    pub(crate) job: Job,
    pub(crate) ranges: Ranges,
}

/// Opens a haul over the soups of a plan, for `workers` workers, 1 to 16. The parts of the job are checked first: the
/// seed, then the profile, then the rule.
pub(crate) fn open_haul(alloc: Global, plan: &Plan<'_>, workers: u8) -> Result<Haul, Complaint>
    requires workers { IsWorker workers }
    requires profile { AreInRange plan.now.profile }
    ensures opened { IfOk result (IsOpenedFor plan.now workers) }
    ensures stops { IfErr result (StopsOpening plan.now) }
{
    let job = job(plan)?;
    haul_for(alloc, job, &plan.set, workers)
}

/// Returns the job and the soups of a plan. Refuses what [`open_haul`] refuses, in the same order.
pub(crate) fn soups_of(alloc: Global, plan: &Plan<'_>) -> Result<Soups, Complaint>
    requires { AreInRange plan.now.profile }
    ensures job { IfOk result (λ soups. job_named plan.now ≡ Ok soups.job) }
    ensures ranges { IfOk result (λ soups. AreNormalRanges plan.now.set soups.ranges) }
    ensures stops { IfErr result (StopsOpening plan.now) }
{
    let job = job(plan)?;
    let ranges = normal_ranges(alloc, &plan.set)?;
    Ok(Soups { job, ranges })
}

/// Returns the job of a plan.
fn job(plan: &Plan<'_>) -> Result<Job, Complaint>
    requires { AreInRange plan.now.profile }
    ensures { result ≡ job_named plan.now }
{
    let seed = Seed::new(plan.set.seed.as_str())?;
    let profile = profile_named(plan.profile)?;
    let rule = Rule::read(plan.rule.as_str())?;
    Ok(Job {
        seed,
        profile,
        rule,
    })
}

/// Opens a haul over the ranges of a set, for a job and `workers` workers.
fn haul_for(alloc: Global, job: Job, set: &SoupSet<'_>, workers: u8) -> Result<Haul, Complaint>
    requires { IsWorker workers }
    ensures opened { IfOk result (IsOpened job set.now workers) }
    ensures stops { IfErr result (StopsSet set.now) }
{
    let ranges = ranges_of(alloc, set)?;
    match Haul::open(alloc, job, ranges.as_slice(), workers) {
        Ok(haul) => Ok(haul),
        Err(OpenError::BadWorkers) => unreachable!(),
        Err(OpenError::BadRange) => Err(Complaint::Refused(Refusal::RangeTooLarge)),
        Err(OpenError::Overlap) => Err(Complaint::Refused(Refusal::RangesOverlap)),
        Err(OpenError::Memory(error)) => Err(Complaint::Memory(error)),
    }
}

/// Returns the normal form of the ranges of a set. Refuses a list of ranges that isn't valid, a range that ends past
/// 2^40, and ranges that have more than 2^24 numbers together or share a number.
fn normal_ranges(alloc: Global, set: &SoupSet<'_>) -> Result<Ranges, Complaint>
    ensures normal { IfOk result (AreNormalRanges set.now) }
    ensures stops { IfErr result (StopsSet set.now) }
{
    let ranges = ranges_of(alloc, set)?;
    let ranges = ranges.as_slice();
    let Some(_) = small_size(ranges) else {
        return Err(Complaint::Refused(Refusal::RangeTooLarge));
    };
    let shared = overlap(ranges);
    if shared {
        return Err(Complaint::Refused(Refusal::RangesOverlap));
    }
    let normal = Ranges::normal_form(alloc, ranges)?;
    Ok(normal)
}

/// Returns the ranges of a set: those of its list, and then the range of its first number and its count.
fn ranges_of(alloc: Global, set: &SoupSet<'_>) -> Result<Vec<Range>, Complaint>
    ensures named { IfOk result (λ ranges. AreRangesOf set.now ranges.items) }
    ensures only { IfOk result (λ ranges. (others : List Range) → AreRangesOf set.now others → others ≡ ranges.items) }
    ensures stops { IfErr result (StopsSet set.now) }
{
    let mut ranges = Range::read_list(alloc, set.also.as_str())?;
    let own = Range {
        first: set.first,
        count: set.count,
    };
    add_range(&mut ranges, own)?;
    Ok(ranges)
}

/// Appends a range.
fn add_range(ranges: &mut Vec<Range>, range: Range) -> Result<(), OutOfMemory>
    ensures { OnOk result (ranges.new.items ≡ ranges.old.items ++ range ∷ []) }
{
    ranges.push(range)?;
    Ok(())
}
