//! A job: seed, profile and rule together.
ghost use Rattle.std.specs.Prelude.{◌≡◌};
ghost use Rattle.survey_core.specs.Jobs.{SameJobsAreEqual, same_job};

use crate::profile::Profile;
use crate::seed::Seed;
use plane_core::plane::rule::Rule;

/// What a census surveys: the soups of a seed, run under a rule, with a profile that says when they have settled.
#[derive(Clone, Copy, Debug, PartialEq, Eq)]
pub struct Job {
    pub seed: Seed,
    pub profile: Profile,
    pub rule: Rule,
}

/// Checks whether the two jobs have the same seed, profile and rule.
pub fn is_same_job(job: &Job, other: &Job) -> bool
    ensures { result ≡ same_job job.now other.now }
{
    *job == *other
}

/// The law that `same_job`, the test of [`is_same_job`], is `true` if and only if the two jobs are equal.
pub fn same_jobs_are_equal()
    ensures { SameJobsAreEqual }
{}
