//! What the tests share: jobs, hauls and texts. The proof of a function takes longer with each exit (a `?` or a
//! `return`) at which a haul is dropped. That is why a test gets each haul from another function, and drops the haul
//! with `drop` before the next exit.

use haul_core::book::census::Census;
use haul_core::book::haul::Haul;
use haul_core::book::haul_text::write_haul;
use haul_core::report::Report;
use plane_core::output::Out;
use plane_core::plane::rule::Rule;
use ranges::range::Range;
use std::alloc::Global;
use std::test::Fail;
use survey_core::job::Job;
use survey_core::profile::Profile;
use survey_core::seed::Seed;

/// Returns a job of Life, with a profile under which a soup settles only if the soup itself is a still life. None of
/// the soups in these tests is a still life.
pub(crate) fn quick_job(seed: &str) -> Result<Job, Fail> {
    Ok(Job {
        seed: Seed::new(seed)?,
        profile: Profile::new(1, 1, 1, 0)?,
        rule: Rule::life(),
    })
}

/// Returns the job of Life with the standard profile and the empty seed.
pub(crate) fn standard_job() -> Result<Job, Fail> {
    Ok(Job {
        profile: Profile::standard(),
        ..quick_job("")?
    })
}

/// Returns a job under whose rule no cell is born and no cell dies. Each soup is at rest at once, and most soups are
/// one object.
pub(crate) fn still_job() -> Result<Job, Fail> {
    Ok(Job {
        rule: Rule::read("bs012345678")?,
        ..quick_job("")?
    })
}

pub(crate) fn range(first: u64, count: u64) -> Range {
    Range { first, count }
}

/// Offers worker 1's report on the soup with this number to the haul, and returns whether the haul takes the report.
pub(crate) fn offer(alloc: Global, haul: &mut Haul, number: u32) -> bool {
    match Report::make(alloc, &haul.job(), 1, u64::from(number)) {
        Ok(report) => haul.offer(report).is_ok(),
        Err(_) => false,
    }
}

/// Closes a haul, and returns it.
pub(crate) fn closed(haul: Haul) -> Haul {
    let mut haul = haul;
    let _reply = haul.close();
    haul
}

/// Returns the haul text of a haul's census.
pub(crate) fn text_of(alloc: Global, haul: &Haul) -> Result<Vec<u8>, Fail> {
    let census = haul.census()?;
    written(alloc, &census)
}

/// Returns the haul text of a census. The buffer has room for 65,536 bytes from the beginning, so memory doesn't run
/// out while a shorter text is written.
fn written(alloc: Global, census: &Census) -> Result<Vec<u8>, Fail> {
    let mut out = Out::new(Vec::with_capacity(alloc, 65_536)?);
    write_haul(census, &mut out)?;
    Ok(out.into_inner())
}
