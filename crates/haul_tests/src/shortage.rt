//! Tests what happens when memory runs out. `checks/program/memory` runs each test many times, and each time a
//! different allocation is refused. A test must pass, or fail only because memory ran out.

use crate::setup::{quick_job, range, still_job, text_of};
use haul_core::book::haul::Haul;
use haul_core::book::refused::{OfferError, Refused};
use haul_core::report::Report;
use haul_core::report::claim::Claim;
use haul_core::report::claim::check::CheckError;
use std::alloc::Global;
use std::test::Fail;

/// Offers worker 1's report on soup `number` to the haul. Fails with the haul's reason if the report is refused.
fn take(alloc: Global, haul: &mut Haul, number: u32) -> Result<(), Fail> {
    let report = Report::make(alloc, &haul.job(), 1, u64::from(number))?;
    match haul.offer(report) {
        Ok(()) => Ok(()),
        Err(refused) => Err(Fail::from(refused.reason)),
    }
}

/// Returns a haul of soups 0 to 3 that has taken only soup 1.
fn haul_of_one(alloc: Global) -> Result<Haul, Fail> {
    let mut haul = Haul::open(alloc, still_job()?, &[range(0, 4)], 1)?;
    if let Err(fail) = take(alloc, &mut haul, 1) {
        drop(haul);
        return Err(fail);
    }
    Ok(haul)
}

/// Checks whether the haul has taken only soup 1, and whether its haul text is `before`.
fn is_as_before(alloc: Global, haul: &Haul, before: &[u8]) -> Result<bool, Fail> {
    let text = text_of(alloc, haul)?;
    Ok(haul.taken() == [(1, 1)].as_slice() && text.as_slice() == before)
}

/// Checks whether the refused report is the one on soup 0, and was refused because memory ran out.
fn lacks_memory(refused: &Refused) -> bool {
    matches!(refused.reason, OfferError::Memory(_)) && refused.report.number() == 0
}

/// Offers the report on soup 0 to a haul that has taken soup 1. Returns `true` if the haul takes the report, or if
/// memory runs out and the haul is unchanged.
fn takes_or_leaves(alloc: Global, haul: &mut Haul) -> Result<bool, Fail> {
    let before = text_of(alloc, haul)?;
    let report = Report::make(alloc, &haul.job(), 1, 0)?;
    match haul.offer(report) {
        Ok(()) => Ok(haul.taken() == [(1, 1), (1, 0)].as_slice()),
        Err(refused) => Ok(lacks_memory(&refused) && is_as_before(alloc, haul, before.as_slice())?),
    }
}

#[test]
fn without_memory_an_offer_changes_nothing(rt: HostRuntime) -> Result<(), Fail> {
    let mut haul = haul_of_one(rt.alloc())?;
    let right = takes_or_leaves(rt.alloc(), &mut haul);
    drop(haul);
    assert!(rt; right?);
    Ok(())
}

/// Makes a census of the haul and a list of its missing numbers. Returns `true` if both can be made, or if one of them
/// can't and the haul is unchanged.
fn stays(alloc: Global, haul: &Haul) -> Result<bool, Fail> {
    let before = text_of(alloc, haul)?;
    if haul.census().is_ok() && haul.missing().is_ok() {
        return Ok(true);
    }
    Ok(haul.missing_count() == 3 && is_as_before(alloc, haul, before.as_slice())?)
}

#[test]
fn without_memory_a_census_changes_nothing(rt: HostRuntime) -> Result<(), Fail> {
    let haul = haul_of_one(rt.alloc())?;
    let right = stays(rt.alloc(), &haul);
    drop(haul);
    assert!(rt; right?);
    Ok(())
}

const LINE: &[u8] = b"report 2 rule=b3s23 profile=1,1,1,0 seed= worker=2 soup=3 unsettled";

/// Checks whether this is the claim of `LINE`.
fn is_claim(claim: &Claim) -> bool {
    claim.version() == 2 && claim.worker() == 2 && claim.number() == 3 && claim.settled().is_none()
}

/// Checks whether `check` turns the claim of `LINE` into the report on soup 3 or, if memory runs out, returns the claim
/// unchanged.
fn is_checked_or_kept(alloc: Global) -> Result<bool, Fail> {
    let claim = Claim::read_line(alloc, LINE)?;
    let job = quick_job("")?;
    match claim.check(alloc, &job) {
        Ok(report) => Ok(report.number() == 3),
        Err((claim, fault)) => Ok(matches!(fault, CheckError::Memory(_)) && is_claim(&claim)),
    }
}

#[test]
fn without_memory_a_claim_comes_back(rt: HostRuntime) -> Result<(), Fail> {
    assert!(rt; is_checked_or_kept(rt.alloc())?);
    Ok(())
}
