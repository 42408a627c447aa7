//! Tests of the book: what a haul takes, and what it replies.

use crate::setup::{quick_job, range};
use haul_core::book::arrival::{Arrival, Reply};
use haul_core::book::haul::Haul;
use haul_core::book::keep::keep_book;
use haul_core::book::refused::OfferError;
use haul_core::report::Report;
use std::alloc::Global;
use std::test::Fail;
use survey_core::job::Job;

/// Eight arrivals at a haul of soups 0 to 3 with two workers. Each row is an offer: whether its report is of the haul's
/// job, the worker, and the number of the soup. A row with worker 0 stands for a closing instead.
const ARRIVALS: [(bool, u8, u32); 8] = [
    (true, 1, 3),
    (true, 2, 3),
    (true, 3, 0),
    (false, 1, 0),
    (true, 2, 4),
    (true, 0, 0),
    (true, 2, 0),
    (true, 0, 0),
];

/// The replies to `ARRIVALS`, according to the rules of the book.
const REPLIES: [Reply; 8] = [
    Reply::Taken,
    Reply::Refused(OfferError::Double { worker: 1 }),
    Reply::Refused(OfferError::UnknownWorker),
    Reply::Refused(OfferError::OtherJob),
    Reply::Refused(OfferError::OutOfRange),
    Reply::NowClosed,
    Reply::Refused(OfferError::Closed),
    Reply::AlreadyClosed,
];

/// Returns the arrivals of `ARRIVALS` at a haul of `job`. Offers that aren't of this job are of `other`.
fn arrivals(alloc: Global, job: &Job, other: &Job) -> Result<Vec<Arrival>, Fail> {
    let mut arrivals = Vec::new(alloc);
    for (is_own, worker, number) in ARRIVALS {
        if worker == 0 {
            arrivals.push(Arrival::Closing)?;
        } else {
            let job = if is_own { job } else { other };
            push_offer(alloc, &mut arrivals, job, worker, number)?;
        }
    }
    Ok(arrivals)
}

/// Appends the offer of a report by this worker on soup `number`.
fn push_offer(
    alloc: Global,
    arrivals: &mut Vec<Arrival>,
    job: &Job,
    worker: u8,
    number: u32,
) -> Result<(), Fail> {
    let report = Report::make(alloc, job, worker, u64::from(number))?;
    Ok(arrivals.push(Arrival::Offer(report))?)
}

#[test]
fn replies_to_eight_arrivals(rt: HostRuntime) -> Result<(), Fail> {
    let job = quick_job("")?;
    let arrivals = arrivals(rt.alloc(), &job, &quick_job("x")?)?;
    let mut haul = Haul::open(rt.alloc(), job, &[range(0, 4)], 2).expect(&rt, "a haul");
    let replies = keep_book(rt.alloc(), &mut haul, arrivals);
    drop(haul);
    assert!(rt; replies?.as_slice() == REPLIES.as_slice());
    Ok(())
}

/// Returns offers of worker 1's reports on the first `count` soups.
fn offers(alloc: Global, job: &Job, count: u32) -> Result<Vec<Arrival>, Fail> {
    let mut offers = Vec::new(alloc);
    for number in 0..count {
        push_offer(alloc, &mut offers, job, 1, number)?;
    }
    Ok(offers)
}

/// Returns a haul of the first `count` soups of this job, after the reports on all of them were offered to it in one
/// call.
pub(crate) fn whole_haul(alloc: Global, job: Job, count: u32) -> Result<Haul, Fail> {
    let offers = offers(alloc, &job, count)?;
    let mut haul = Haul::open(alloc, job, &[range(0, u64::from(count))], 1)?;
    let replies = keep_book(alloc, &mut haul, offers);
    if replies.is_err() {
        drop(haul);
        return Err(Fail::new("no memory"));
    }
    Ok(haul)
}
