//! Tests of calls with large values: long lines, many ranges and many soups. The soups are surveyed quickly under the
//! profile 1,1,1,0: in Life a soup is unsettled at once, and under a rule by which nothing is born or dies, it is at
//! rest at once.

use crate::book::whole_haul;
use crate::setup::{offer, quick_job, range, still_job};
use haul_core::book::census::Census;
use haul_core::book::haul::Haul;
use haul_core::report::Report;
use haul_core::report::claim::Claim;
use haul_core::report::write::write_report_line;
use memory::OutOfMemory;
use plane_core::output::Out;
use ranges::range::Range;
use std::alloc::Global;
use std::test::Fail;

const HEAD: &str = "report 1 rule=b3s23 profile=1,1,1,0 seed= worker=1 soup=0 at=0";

/// Appends the field for 7 objects whose code is these two letters, followed by 398 times `a`.
fn push_count(line: &mut Vec<u8>, first: u8, second: u8) -> Result<(), OutOfMemory> {
    line.extend_from_slice(&[b' ', first, second])?;
    line.extend_from_slice(&[b'a'; 398])?;
    line.extend_from_slice(b"*7")?;
    Ok(())
}

/// Returns a line with 260 codes, in ASCII order.
fn line_of_codes(alloc: Global) -> Result<Vec<u8>, OutOfMemory> {
    let mut line = Vec::from_slice(alloc, HEAD.as_bytes())?;
    for first in b'a'..=b'j' {
        for second in b'a'..=b'z' {
            push_count(&mut line, first, second)?;
        }
    }
    Ok(line)
}

/// Checks whether the claim has 260 counts, and the last count is of seven objects with the last code of the line.
fn has_260_counts(claim: &Claim) -> bool {
    let Some(said) = claim.settled() else {
        return false;
    };
    let Some((code, count)) = said.counts().last() else {
        return false;
    };
    said.counts().len() == 260 && code.bytes().starts_with(b"jza") && *count == 7
}

#[test]
fn reads_a_line_of_100_000_bytes(rt: HostRuntime) -> Result<(), Fail> {
    let line = line_of_codes(rt.alloc())?;
    let claim = Claim::read_line(rt.alloc(), line.as_slice())?;
    assert!(rt; line.len() > 100_000 && has_260_counts(&claim));
    Ok(())
}

/// Returns ten thousand ranges of two numbers each. One number is left out between each range and the next.
fn ten_thousand(alloc: Global) -> Result<Vec<Range>, OutOfMemory> {
    let mut ranges = Vec::new(alloc);
    for place in 0..10_000u32 {
        ranges.push(range(u64::from(place).saturating_mul(3), 2))?;
    }
    Ok(ranges)
}

/// Returns a haul of the ranges of `ten_thousand`.
fn haul_of_ranges(alloc: Global) -> Result<Haul, Fail> {
    let ranges = ten_thousand(alloc)?;
    Ok(Haul::open(alloc, quick_job("")?, ranges.as_slice(), 1)?)
}

/// Checks whether the haul takes its last soup, 29,998, and its other 19,999 soups are missing afterwards.
fn takes_one(alloc: Global, haul: &mut Haul) -> Result<bool, OutOfMemory> {
    let taken = offer(alloc, haul, 29_998);
    let missing = haul.missing()?;
    Ok(taken && missing.len() == 19_999)
}

#[test]
fn opens_a_haul_of_ten_thousand_ranges(rt: HostRuntime) -> Result<(), Fail> {
    let mut haul = haul_of_ranges(rt.alloc())?;
    let ranges = haul.ranges().len();
    let taken = takes_one(rt.alloc(), &mut haul);
    drop(haul);
    assert!(rt; taken? && ranges == 10_000);
    Ok(())
}

/// Returns a haul of 2^24 soups, the most for which a haul can be opened.
fn largest_haul(alloc: Global) -> Result<Haul, Fail> {
    Ok(Haul::open(alloc, quick_job("")?, &[range(7, 1 << 24)], 1)?)
}

#[test]
fn lists_2_to_the_24_numbers_that_are_missing(rt: HostRuntime) -> Result<(), Fail> {
    let haul = largest_haul(rt.alloc())?;
    let missing = haul.missing();
    drop(haul);
    assert!(rt; missing?.len() == 1 << 24);
    Ok(())
}

const LAST: &[u8] =
    b"report 2 rule=b3s23 profile=1,1,1,0 seed= worker=16 soup=1099511627775 unsettled\n";

/// Returns the line of a report.
fn line_of(alloc: Global, report: &Report) -> Result<Vec<u8>, Fail> {
    let mut out = Out::new(Vec::new(alloc));
    write_report_line(report, &mut out)?;
    Ok(out.into_inner())
}

/// Returns the report by the last worker, 16, on the last soup, 2^40 - 1.
fn last_report(alloc: Global) -> Result<Report, Fail> {
    Ok(Report::make(alloc, &quick_job("")?, 16, (1 << 40) - 1)?)
}

#[test]
fn reports_the_last_soup(rt: HostRuntime) -> Result<(), Fail> {
    let report = last_report(rt.alloc())?;
    let line = line_of(rt.alloc(), &report)?;
    assert!(rt; line.as_slice() == LAST);
    Ok(())
}

#[test]
fn takes_the_last_soup(rt: HostRuntime) -> Result<(), Fail> {
    let report = last_report(rt.alloc())?;
    let last = range((1 << 40) - 2, 2);
    let mut haul = Haul::open(rt.alloc(), report.job(), &[last], 16).expect(&rt, "a haul");
    let taken = haul.offer(report).is_ok();
    drop(haul);
    assert!(rt; taken);
    Ok(())
}

#[test]
fn takes_66_000_soups(rt: HostRuntime) -> Result<(), Fail> {
    let haul = whole_haul(rt.alloc(), quick_job("")?, 66_000)?;
    let taken = haul.taken().len();
    drop(haul);
    assert!(rt; taken == 66_000);
    Ok(())
}

/// Returns the census of 5,500 soups. Almost all of them leave an object that no other soup of the census leaves.
fn census_of_many_codes(alloc: Global) -> Result<Census, Fail> {
    let haul = whole_haul(alloc, still_job()?, 5_500)?;
    let census = haul.census();
    drop(haul);
    Ok(census?)
}

#[test]
fn counts_5_000_codes(rt: HostRuntime) -> Result<(), Fail> {
    let census = census_of_many_codes(rt.alloc())?;
    assert!(rt; census.for_good == 5_500 && census.rows.as_slice().len() > 5_000);
    Ok(())
}
