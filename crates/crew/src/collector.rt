//! The collector: it receives the workers' notes and offers their reports to the haul.
//!
//! ```text
//! belt ── report ──> haul
//!      ── done ────> waits for one worker less
//! ```
ghost use Rattle.std.specs.Prelude.{◌≡◌, ◌∷◌, ◌⊎◌, [], List, None, OnErr, OnOk, is_ok};
ghost use Rattle.haul_core.specs.Books.{StandsFor};
ghost use Rattle.haul_core.specs.Refusals.{refusal_of};
ghost use Rattle.haul_core.specs.declared.book.arrival.Arrival.{Arrival};
ghost use Rattle.crew.specs.Crews.{Collected, HasAdded, HasComeAll, HasHeard, HasSoupOf, collector_with};

use crate::note::Note;
use crate::progress_observer::ProgressObserver;
use handover::belt::{Belt, ReceiverPass};
use haul_core::book::haul::Haul;
use haul_core::book::refused::OfferError;
use haul_core::report::Report;
use memory::OutOfMemory;
use std::sync::Wait;

/// Receives notes until `started` workers are done, and offers each report to the haul. A report that the haul refuses
/// is dropped. Before each note and at the end, the observer receives the number of soups that the haul has taken, and
/// it receives each report before the haul does.
///
/// # Errors
///
/// [`OutOfMemory`] if memory ran out for a report that the haul would have taken. All other reports have still been
/// offered.
pub fn collect<R: Wait, H: ProgressObserver>(
    rt: &R,
    belt: &Belt<Note>,
    pass: &mut ReceiverPass<Note>,
    haul: &mut Haul,
    started: u8,
    observer: &mut H,
) -> Result<(), OutOfMemory>
    requires { pass.old.belt ≡ belt.now }
    ensures collected { Collected (collector_with started pass.old haul.old) (collector_with 0 pass.new haul.new)
        (is_ok result) }
    ensures heard { HasHeard pass.old pass.new (λ reports. H.hears observer.old reports observer.new) }
{
    let mut left = started;
    let mut answered = Ok(());
    for _ in rt.forever() {
        observer.taken(haul.taken().len() as u64);
        if left == 0 {
            break;
        }
        match belt.receive(rt, pass) {
            Note::Report(report) => {
                observer.report(&report);
                match offer(haul, report) {
                    Ok(()) => {}
                    Err(error) => answered = Err(error),
                }
            }
            Note::Done { .. } => left -= 1,
        }
    }
    answered
}

/// Offers a report to the haul. Returns an error if the haul would have taken the report, but memory ran out.
fn offer(haul: &mut Haul, report: Report) -> Result<(), OutOfMemory>
    ensures added { (haul.new ≡ haul.old) ⊎ HasAdded (report ∷ []) haul.old haul.new }
    ensures stands { OnOk result (HasComeAll (report ∷ []) haul.old haul.new) }
    ensures soup { OnOk result (HasSoupOf haul.new report) }
    ensures kept { OnErr result (haul.new ≡ haul.old) }
    ensures lost { OnErr result ((arrivals : List Arrival) → StandsFor arrivals haul.old
        → refusal_of haul.old.terms arrivals report ≡ None) }
{
    match haul.offer(report) {
        Ok(()) => Ok(()),
        Err(refused) => match refused.reason {
            OfferError::Memory(error) => Err(error),
            _ => Ok(()),
        },
    }
}
