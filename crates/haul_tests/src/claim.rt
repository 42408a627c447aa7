//! Tests of claims: what report lines say.

use haul_core::report::claim::Claim;
use haul_core::report::claim::check::CheckError;
use haul_core::report::claim::read_line::LineError;
use memory::OutOfMemory;
use std::alloc::Global;
use std::test::Fail;

// Two lines about soup 101 of the empty seed under the standard profile, and a line about soup 0 under a profile whose
// only checkpoint is generation 0. The finding of soup 101 was computed by a program in another language, which was
// written only from the formal definitions.
const RIGHT: [&[u8]; 3] = [
    b"report 2 rule=b3s23 profile=64,512,101,30300 seed= worker=3 soup=101 at=202 \
        good=yes xp2_7*1 xs4_33*3 xs5_253*1 xs7_2596*1",
    b"report 1 rule=b3s23 profile=64,512,101,30300 seed= worker=3 soup=101 at=202 \
        xp2_7*1 xs4_33*3 xs5_253*1 xs7_2596*1",
    b"report 2 rule=b3s23 profile=1,1,1,0 seed= worker=2 soup=0 unsettled",
];

// Lines about the same soups, with mistakes: `good=no` in place of `good=yes`, one line of each version with a count
// that is too high, and one line of each version that says that soup 0 settled, which it didn't.
const WRONG: [&[u8]; 5] = [
    b"report 2 rule=b3s23 profile=64,512,101,30300 seed= worker=3 soup=101 at=202 \
        good=no xp2_7*1 xs4_33*3 xs5_253*1 xs7_2596*1",
    b"report 2 rule=b3s23 profile=64,512,101,30300 seed= worker=3 soup=101 at=202 \
        good=yes xp2_7*2 xs4_33*3 xs5_253*1 xs7_2596*1",
    b"report 1 rule=b3s23 profile=64,512,101,30300 seed= worker=3 soup=101 at=202 \
        xp2_7*1 xs4_33*3 xs5_253*1 xs7_2596*2",
    b"report 2 rule=b3s23 profile=1,1,1,0 seed= worker=1 soup=0 at=0 good=yes",
    b"report 1 rule=b3s23 profile=1,1,1,0 seed= worker=1 soup=0 at=0",
];

/// Checks whether the claim of a line becomes a report when it is checked against the claim's own job.
fn is_believed(alloc: Global, line: &[u8]) -> Result<bool, Fail> {
    let claim = Claim::read_line(alloc, line)?;
    let job = claim.job();
    Ok(claim.check(alloc, &job).is_ok())
}

#[test]
fn believes_what_is_right(rt: HostRuntime) -> Result<(), Fail> {
    for line in RIGHT {
        assert!(rt; is_believed(rt.alloc(), line)?);
    }
    Ok(())
}

/// Checks whether the claim of a line disagrees with the finding of its soup.
fn disagrees(alloc: Global, line: &[u8]) -> Result<bool, Fail> {
    let claim = Claim::read_line(alloc, line)?;
    let job = claim.job();
    match claim.check(alloc, &job) {
        Err((_, CheckError::Disagrees { .. })) => Ok(true),
        _ => Ok(false),
    }
}

#[test]
fn believes_nothing_wrong(rt: HostRuntime) -> Result<(), Fail> {
    for line in WRONG {
        assert!(rt; disagrees(rt.alloc(), line)?);
    }
    Ok(())
}

/// Damaged lines, each with the place of its first fault: where the first wrong field begins, or the length of the line
/// if a field is missing at the end.
const DAMAGED: [(&[u8], usize); 14] = [
    (
        b"report 1 rule=b3s23 profile=1,1,1,0 seed= worker=1 soup=0",
        57,
    ),
    (
        b"report 1 rule=b3s23 profile=1,1,1,0 seed= worker=1 soup=0 unsettled\r",
        58,
    ),
    (
        b"report 1 rule=b3s23 profile=1,1,1,0 seed= worker=1 soup=0 unsettled x",
        68,
    ),
    (
        b"report 1 rule=b3s23 profile=1,1,1,0 seed= worker=1 soup=0 at=0 ",
        63,
    ),
    (
        b"report 1 rule=b3s23 profile=1,1,1,0 seed= worker=1 soup=0 at=0 xs4_33*18446744073709551616",
        63,
    ),
    (
        b"report 1 rule=b3s23 profile=1,1,1,0 seed= worker=1 soup=0 at=0 xs4_33*0",
        63,
    ),
    (
        b"report 1 rule=b3s23 profile=1,1,1,0 seed= worker=1 soup=0 at=0 xs4_33*1 xs4_33*1",
        72,
    ),
    (
        b"report 1 rule=b3s23 profile=1,1,1,0 seed= worker=01 soup=0 unsettled",
        42,
    ),
    (
        b"report 1 rule=b3s23 profile=1,1,1,0 seed= worker=17 soup=0 unsettled",
        42,
    ),
    (
        b"report 1 rule=b3s23 profile=1,1,1,0 seed= worker=1 soup=1099511627776 unsettled",
        51,
    ),
    (
        b"report 2 rule=b3s23 profile=1,1,1,0 seed= worker=1 soup=0 at=0",
        62,
    ),
    (
        b"report 2 rule=b3s23 profile=1,1,1,0 seed= worker=1 soup=0 at=0 xs4_33*1",
        63,
    ),
    (b"report 1 rule=b3s23 profile=1,1,1,0 seed=", 41),
    (b"report 1 rule=b3s23 profile=1,1,1,0 seed= wor", 42),
];

/// Lines without a fault: the same line in both versions, and a line with another rule.
const WHOLE: [&[u8]; 3] = [
    b"report 1 rule=b3s23 profile=1,1,1,0 seed= worker=2 soup=0 unsettled",
    b"report 2 rule=b3s23 profile=1,1,1,0 seed= worker=2 soup=0 unsettled",
    b"report 1 rule=b36s23 profile=1,1,1,0 seed= worker=1 soup=0 unsettled",
];

/// Returns the place of the first fault of a line, or `None` if the line is read.
fn fault_of(alloc: Global, line: &[u8]) -> Result<Option<usize>, OutOfMemory> {
    match Claim::read_line(alloc, line) {
        Ok(_) => Ok(None),
        Err(LineError::BadLine { place }) => Ok(Some(place)),
        Err(LineError::Memory(error)) => Err(error),
    }
}

// If a line of `WHOLE` is cut off anywhere, it isn't the line of a claim any more.
#[test]
fn tells_where_a_line_is_damaged(rt: HostRuntime) -> Result<(), Fail> {
    for (line, place) in DAMAGED {
        assert!(rt; fault_of(rt.alloc(), line)? == Some(place), "{place}");
    }
    for line in WHOLE {
        assert!(rt; fault_of(rt.alloc(), line)?.is_none());
        for length in 0..line.len() {
            assert!(rt;
                fault_of(rt.alloc(), &line[..length])?.is_some(),
                "{length} bytes"
            );
        }
    }
    Ok(())
}
