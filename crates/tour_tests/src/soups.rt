//! Soups: run one until it has settled, and read its objects.

use plane_core::plane::rule::Rule;
use std::test::Fail;
use survey_core::finding::{Finding, survey};
use survey_core::job::Job;
use survey_core::profile::Profile;
use survey_core::seed::Seed;

/// Returns the job of the empty seed, in Life and under the standard profile.
pub(crate) fn standard_job() -> Result<Job, Fail> {
    Ok(Job {
        seed: Seed::new("")?,
        profile: Profile::standard(),
        rule: Rule::life(),
    })
}

// Soup 62 leaves a pulsar and two beehives, as `census soup 62 | census name` says.
#[test]
fn surveys_a_soup(rt: HostRuntime) -> Result<(), Fail> {
    let finding = survey(rt.alloc(), &standard_job()?, 62)?;
    let Finding::Settled {
        checkpoint,
        objects,
        ..
    } = finding
    else {
        return Err(Fail::new("the soup settles"));
    };
    let counts = objects.as_slice();
    assert!(rt; checkpoint == 202);
    assert!(rt; counts.len() == 2);
    Ok(())
}
