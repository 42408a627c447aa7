//! The book as a whole: passes a list of arrivals to a haul, and returns the replies.

ghost use Rattle.std.specs.Prelude.{◌≡◌, ◌++◌, ◌∷◌, [], List, IfOk, OnErr, OnOk};
ghost use Rattle.haul_core.specs.Books.{StandsFor};
ghost use Rattle.haul_core.specs.Refusals.{replies_to, reply_to};
ghost use Rattle.haul_core.specs.Replies.{IsTakenNext, StandsForPrefix};
ghost use Rattle.haul_core.specs.declared.book.arrival.Arrival.{Arrival as Arrived};

use crate::book::arrival::{Arrival, Reply};
use crate::book::haul::Haul;
use crate::book::refused::OfferError;
use memory::OutOfMemory;
use std::alloc::Global;

/// Passes arrivals to a haul one after another, and returns the replies in order.
///
/// Whatever arrived before, and in whatever order reports arrive, the haul takes each number of its set at most once,
/// and lists each worker's soups in the order in which they were offered. It refuses doubles, reports of another job,
/// of an unknown worker or of a number outside the set, and every report after a closing, each with its reason.
///
/// # Errors
///
/// [`OutOfMemory`] if memory runs out. If there is no memory for the replies, the haul has received no arrivals. If
/// memory runs out at an offer that the book would have taken, the haul has received only the arrivals before it.
pub fn keep_book(
    alloc: Global,
    haul: &mut Haul,
    arrivals: Vec<Arrival>,
) -> Result<Vec<Reply>, OutOfMemory>
    ensures replies { (before : List Arrived) → StandsFor before haul.old
        → IfOk result (λ replies. replies.items ≡ replies_to haul.old.terms before arrivals.items) }
    ensures stands { (before : List Arrived) → StandsFor before haul.old
        → OnOk result (StandsFor (before ++ arrivals.items) haul.new) }
    ensures terms { haul.new.terms ≡ haul.old.terms }
    ensures memory { (before : List Arrived) → StandsFor before haul.old
        → OnErr result (StandsForPrefix before arrivals.items haul.new) }
{
    let mut replies = Vec::with_capacity(alloc, arrivals.len())?;
    for arrival in arrivals {
        let reply = answer(haul, arrival)?;
        replies.push(reply).unwrap();
    }
    Ok(replies)
}

/// Passes one arrival to a haul. Memory can run out only at an offer that the book would have taken, and then the haul
/// is unchanged.
fn answer(haul: &mut Haul, arrival: Arrival) -> Result<Reply, OutOfMemory>
    ensures reply { (before : List Arrived) → StandsFor before haul.old
        → IfOk result (λ reply. reply ≡ reply_to haul.old.terms before arrival) }
    ensures stands { (before : List Arrived) → StandsFor before haul.old
        → OnOk result (StandsFor (before ++ arrival ∷ []) haul.new) }
    ensures terms { haul.new.terms ≡ haul.old.terms }
    ensures kept { OnErr result (haul.new ≡ haul.old) }
    ensures memory { (before : List Arrived) → StandsFor before haul.old
        → OnErr result (IsTakenNext haul.old.terms before (arrival ∷ [])) }
{
    match arrival {
        Arrival::Offer(report) => match haul.offer(report) {
            Ok(()) => Ok(Reply::Taken),
            Err(refused) => {
                let reason = refused.reason;
                // Dropped by a call. If the refused report were dropped after each case, the proof would take four
                // times as long.
                drop(refused);
                match reason {
                    OfferError::Memory(error) => Err(error),
                    reason => Ok(Reply::Refused(reason)),
                }
            }
        },
        Arrival::Closing => match haul.close() {
            Ok(()) => Ok(Reply::NowClosed),
            Err(_) => Ok(Reply::AlreadyClosed),
        },
    }
}
