//! Tests which errors `Haul::open` and `Report::make` return.

use crate::setup::quick_job;
use haul_core::book::haul::{Haul, OpenError};
use haul_core::report::{Report, ReportError};
use ranges::range::Range;
use std::alloc::Global;
use std::test::Fail;
use survey_core::job::Job;

/// A range of one number, 2^40, which is one more than the highest number of a soup.
const PAST: Range = Range {
    first: 1 << 40,
    count: 1,
};

const MOST: Range = Range {
    first: 0,
    count: 1 << 24,
};

/// A range of one number, the first after the range `MOST`. Both ranges together have one number too many for a haul.
const ONE_MORE: Range = Range {
    first: 1 << 24,
    count: 1,
};

const FIRST: Range = Range { first: 0, count: 1 };

/// Each row has ranges and a number of workers for which no haul is opened, and the error that is returned. If several
/// errors apply, the one that `OpenError` lists first is returned.
const NOT_OPENED: [(&[Range], u8, OpenError); 8] = [
    (&[FIRST], 0, OpenError::BadWorkers),
    (&[FIRST], 17, OpenError::BadWorkers),
    (&[PAST], 0, OpenError::BadWorkers),
    (&[PAST], 1, OpenError::BadRange),
    (&[FIRST, PAST], 16, OpenError::BadRange),
    (&[MOST, ONE_MORE], 1, OpenError::BadRange),
    (&[MOST, FIRST], 1, OpenError::BadRange),
    (&[FIRST, ONE_MORE, FIRST], 1, OpenError::Overlap),
];

/// Returns the error of `Haul::open`, or `None` if a haul is opened.
fn error_of(alloc: Global, job: &Job, ranges: &[Range], workers: u8) -> Option<OpenError> {
    match Haul::open(alloc, *job, ranges, workers) {
        Ok(haul) => {
            drop(haul);
            None
        }
        Err(error) => Some(error),
    }
}

#[test]
fn tells_why_no_haul_is_opened_and_no_report_made(rt: HostRuntime) -> Result<(), Fail> {
    let job = quick_job("")?;
    for (ranges, workers, error) in NOT_OPENED {
        assert!(rt;
            error_of(rt.alloc(), &job, ranges, workers) == Some(error),
            "{error}"
        );
    }
    for worker in [0, 17, 255] {
        let error = Report::make(rt.alloc(), &job, worker, 0).err();
        assert!(rt; error == Some(ReportError::BadWorker), "worker {worker}");
    }
    Ok(())
}
