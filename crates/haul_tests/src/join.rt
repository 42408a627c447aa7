//! Tests of joined hauls.

use crate::setup::{closed, offer, quick_job, range, standard_job, text_of};
use haul_core::book::haul::join::JoinError;
use haul_core::book::haul::{Haul, OpenError};
use memory::OutOfMemory;
use ranges::range::Range;
use std::alloc::Global;
use std::test::Fail;
use survey_core::job::Job;

/// Returns a closed haul of one soup, which the haul has taken.
fn haul_of(alloc: Global, job: &Job, number: u32) -> Result<Haul, OpenError> {
    let mut haul = Haul::open(alloc, *job, &[range(u64::from(number), 1)], 1)?;
    offer(alloc, &mut haul, number);
    Ok(closed(haul))
}

// The objects of the two soups were computed by a program in another language, which was written only from the formal
// definitions.
#[test]
fn joins_hauls_that_have_objects(rt: HostRuntime) -> Result<(), Fail> {
    let job = standard_job()?;
    let first = haul_of(rt.alloc(), &job, 101).expect(&rt, "a haul");
    let second = haul_of(rt.alloc(), &job, 107).expect(&rt, "a haul");
    let joined = first.join(second).ok().expect(&rt, "a joined haul");
    let text = text_of(rt.alloc(), &joined);
    drop(joined);
    assert!(rt; text?.as_slice() == JOINED.as_bytes());
    Ok(())
}

const JOINED: &str = "@VERSION 2
@ROOT seed=
@RULE b3s23
@SYMMETRY C1
@PROFILE 64 512 101 30300
@RANGE 101 1
@RANGE 107 1
@NUM_SOUPS 2
@NUM_UNSETTLED 0
@NUM_FOR_GOOD 2
@NUM_OBJECTS 9

@CENSUS TABLE
xp2_7 2
xp2_s01110szw222 1
xs4_33 4
xs5_253 1
xs7_2596 1

@SAMPLE_SOUPIDS
xp2_7 101 107
xp2_s01110szw222 107
xs4_33 101 107
xs5_253 101
xs7_2596 101
";

/// Returns a closed haul of 2^24 soup numbers, from `part` times 2^24 on. The haul has taken none of them.
fn large_haul(alloc: Global, job: &Job, part: u32) -> Result<Haul, OpenError> {
    let first = u64::from(part) << 24;
    let haul = Haul::open(alloc, *job, &[range(first, 1 << 24)], 1)?;
    Ok(closed(haul))
}

#[test]
fn joins_hauls_of_2_to_the_25_numbers(rt: HostRuntime) -> Result<(), Fail> {
    let job = quick_job("")?;
    let first = large_haul(rt.alloc(), &job, 0).expect(&rt, "a haul");
    let second = large_haul(rt.alloc(), &job, 1).expect(&rt, "a haul");
    let joined = first.join(second).ok().expect(&rt, "a joined haul");
    let count = joined.count();
    drop(joined);
    assert!(rt; count == 1 << 25);
    Ok(())
}

/// Returns `count` ranges with one number each: `first`, `first` + 4, `first` + 8 and so on.
fn every_fourth(alloc: Global, first: u64, count: u32) -> Result<Vec<Range>, OutOfMemory> {
    let mut ranges = Vec::new(alloc);
    for place in 0..count {
        let number = u64::from(place).saturating_mul(4).saturating_add(first);
        ranges.push(range(number, 1))?;
    }
    Ok(ranges)
}

/// Returns a closed haul of `count` soup numbers: `first`, `first` + 4, `first` + 8 and so on.
fn sparse_haul(alloc: Global, job: &Job, first: u64, count: u32) -> Result<Haul, OpenError> {
    let ranges = every_fourth(alloc, first, count)?;
    let haul = Haul::open(alloc, *job, ranges.as_slice(), 1)?;
    Ok(closed(haul))
}

// The ranges of the two hauls alternate, and no two of them touch.
#[test]
fn joins_hauls_of_five_thousand_ranges(rt: HostRuntime) -> Result<(), Fail> {
    let job = quick_job("")?;
    let first = sparse_haul(rt.alloc(), &job, 0, 5_000).expect(&rt, "a haul");
    let second = sparse_haul(rt.alloc(), &job, 2, 5_000).expect(&rt, "a haul");
    let joined = first.join(second).ok().expect(&rt, "a joined haul");
    let ranges = joined.ranges().len();
    drop(joined);
    assert!(rt; ranges == 10_000);
    Ok(())
}

/// Pairs of hauls that aren't joined. The first haul has the empty seed and soups 0 to 3. Each row says whether the
/// first haul is closed, whether the second haul is closed, the seed and the only soup of the second haul, and the
/// error.
const NOT_JOINED: [(bool, bool, &str, u64, JoinError); 6] = [
    (false, true, "", 4, JoinError::Open),
    (true, false, "", 4, JoinError::Open),
    (true, false, "x", 3, JoinError::Open),
    (true, true, "x", 3, JoinError::OtherJob),
    (true, true, "", 0, JoinError::Overlap),
    (true, true, "", 3, JoinError::Overlap),
];

/// Returns a haul of these soups that has taken none of them.
fn unfilled(alloc: Global, seed: &str, soups: Range, is_closed: bool) -> Result<Haul, Fail> {
    let haul = Haul::open(alloc, quick_job(seed)?, &[soups], 1)?;
    Ok(if is_closed { closed(haul) } else { haul })
}

/// Returns why two hauls can't be joined, or `None` if they can.
fn error_of(first: Haul, second: Haul) -> Option<JoinError> {
    match first.join(second) {
        Ok(joined) => {
            drop(joined);
            None
        }
        Err((first, second, error)) => {
            drop(first);
            drop(second);
            Some(error)
        }
    }
}

#[test]
fn tells_why_hauls_arent_joined(rt: HostRuntime) -> Result<(), Fail> {
    for (is_first_closed, is_second_closed, seed, number, error) in NOT_JOINED {
        let first = unfilled(rt.alloc(), "", range(0, 4), is_first_closed)?;
        let second = unfilled(rt.alloc(), seed, range(number, 1), is_second_closed)?;
        assert!(rt; error_of(first, second) == Some(error));
    }
    Ok(())
}
