//! Tests of calls that allocate, with nothing to allocate for: no soups, no arrivals and no ranges.

use crate::setup::{closed, quick_job, range, text_of};
use haul_core::book::haul::{Haul, OpenError};
use haul_core::book::keep::keep_book;
use std::alloc::Global;
use std::test::Fail;
use survey_core::job::Job;

/// Returns a closed haul of no soups.
fn empty_haul(alloc: Global, job: &Job) -> Result<Haul, OpenError> {
    let haul = Haul::open(alloc, *job, &[range(1 << 40, 0)], 1)?;
    Ok(closed(haul))
}

/// Passes an empty list of arrivals to the haul. Checks whether there are no replies and no missing numbers.
fn replies_nothing(alloc: Global, haul: &mut Haul) -> Result<bool, Fail> {
    let replies = keep_book(alloc, haul, Vec::new(alloc))?;
    let missing = haul.missing()?;
    Ok(replies.is_empty() && missing.is_empty())
}

#[test]
fn nothing_comes_to_a_haul_of_no_soup(rt: HostRuntime) -> Result<(), Fail> {
    let mut haul = Haul::open(rt.alloc(), quick_job("")?, &[], 1)?;
    let right = replies_nothing(rt.alloc(), &mut haul);
    drop(haul);
    assert!(rt; right?);
    Ok(())
}

#[test]
fn joins_hauls_of_no_soup(rt: HostRuntime) -> Result<(), Fail> {
    let job = quick_job("")?;
    let first = empty_haul(rt.alloc(), &job).expect(&rt, "a haul");
    let second = empty_haul(rt.alloc(), &job).expect(&rt, "a haul");
    let joined = first.join(second).ok().expect(&rt, "a joined haul");
    let text = text_of(rt.alloc(), &joined);
    drop(joined);
    assert!(rt; text?.as_slice() == NONE.as_bytes());
    Ok(())
}

const NONE: &str = "@VERSION 2
@ROOT seed=
@RULE b3s23
@SYMMETRY C1
@PROFILE 1 1 1 0
@RANGE 0 0
@NUM_SOUPS 0
@NUM_UNSETTLED 0
@NUM_FOR_GOOD 0
@NUM_OBJECTS 0

@CENSUS TABLE

@SAMPLE_SOUPIDS
";
