//! What becomes of a soup or a pattern: whether it settles, when, and which objects are left.
//!
//! ```text
//! soup  ->  its pattern  ->  checkpoint, checkpoint, ..  ->  at rest: the apgcode of each cluster, counted
//!                                                        ->  or unsettled, at the limit
//! ```
//!
//! The functions here survey one soup or pattern. For many, a [`Surveyor`] is faster.
ghost use Rattle.std.specs.Prelude.{◌≡◌, IfOk, true};
ghost use Rattle.plane_core.specs.plane.Generations.{lies_within};
ghost use Rattle.survey_core.specs.FindingLaws.{FindingsAreDetermined};
ghost use Rattle.survey_core.specs.Findings.{IsSurvey};
ghost use Rattle.survey_core.specs.Soups.{soup};

use crate::job::Job;
use crate::profile::Profile;
use crate::shapes::objects::Objects;
use crate::surveyor::Surveyor;
use memory::OutOfMemory;
use plane_core::plane::pattern::Pattern;
use plane_core::plane::rule::Rule;
use std::alloc::Global;

/// What becomes of a pattern.
#[derive(Debug, Drop)]
pub enum Finding {
    /// The pattern is at rest at some checkpoint.
    Settled {
        /// The first checkpoint at which the pattern is at rest: a generation.
        checkpoint: u32,
        /// The objects that the pattern consists of at that checkpoint.
        objects: Objects,
        /// Whether the objects stay for good: none of them is a spaceship, and their periods have a common multiple
        /// within the horizon. Then each stays in its place and recurs there forever.
        for_good: bool,
    },
    /// The pattern is at rest at no checkpoint.
    Unsettled,
}

/// Returns the finding of soup `number` of the job. The finding has fewer than 2^64 objects.
///
/// # Errors
///
/// [`OutOfMemory`] if memory runs out.
///
/// # Examples
///
/// `crates/tour_tests/src/soups.rt` surveys a soup and reads its objects.
pub fn survey(alloc: Global, job: &Job, number: u64) -> Result<Finding, OutOfMemory>
    ensures { IfOk result (IsSurvey job.now.rule job.now.profile (soup job.now.seed number)) }
{
    Surveyor::without_memo(alloc).survey(alloc, job, number)
}

/// Returns the finding of `pattern`, whose coordinates must be from -1,000 to 1,000. The finding has fewer than 2^64
/// objects.
///
/// The time grows with the number of generations that are run, and with the number of live cells in them.
///
/// # Errors
///
/// [`OutOfMemory`] if memory runs out. The pattern is dropped in this case too.
pub fn survey_pattern(
    alloc: Global,
    profile: &Profile,
    rule: &Rule,
    pattern: Pattern,
) -> Result<Finding, OutOfMemory>
    requires { lies_within 1000 pattern ≡ true }
    ensures { IfOk result (IsSurvey rule.now profile.now pattern) }
{
    Surveyor::without_memo(alloc).survey_pattern(alloc, profile, rule, pattern)
}

/// The law that a pattern has at most one finding.
pub fn findings_are_determined()
    ensures { FindingsAreDetermined }
{}
