//! What the tests share: jobs, and hauls of the first soups of a job.
ghost use Rattle.std.specs.Prelude.{◌≡◌, IfOk};

use haul_core::book::haul::Haul;
use plane_core::plane::rule::Rule;
use ranges::range::Range;
use std::alloc::Global;
use std::test::Fail;
use survey_core::job::Job;
use survey_core::profile::Profile;
use survey_core::seed::Seed;

/// Returns the job of the empty seed, in Life, under a profile with which a survey is quick.
pub(crate) fn small_job() -> Result<Job, Fail> {
    Ok(Job {
        seed: Seed::new("")?,
        profile: Profile::new(1, 1, 1, 0)?,
        rule: Rule::life(),
    })
}

/// Returns the job of the empty seed, in Life, under the standard profile.
pub(crate) fn standard_job() -> Result<Job, Fail> {
    Ok(Job {
        profile: Profile::standard(),
        ..small_job()?
    })
}

/// Returns an open haul over the first `count` soups of a job, for `workers` workers.
pub(crate) fn haul_of(alloc: Global, job: Job, count: u64, workers: u8) -> Result<Haul, Fail>
    ensures { IfOk result (λ haul. haul.terms.workers ≡ workers) }
{
    Ok(Haul::open(alloc, job, &[Range { first: 0, count }], workers)?)
}
