//! Threads: complete a haul with two workers, draw numbers, and send notes.
ghost use Rattle.std.specs.Prelude.{◌≡◌, IfOk};

use crate::soups::standard_job;
use crew::gate::OpenGate;
use crew::progress_observer::NoObserver;
use crew::take::take;
use handover::belt::Belt;
use handover::tickets::Tickets;
use haul_core::book::haul::Haul;
use ranges::range::Range;
use std::alloc::Global;
use std::sync::Wait;
use std::test::Fail;

/// Opens a haul of soups 0 to 9, for two workers.
fn ten_soups(alloc: Global) -> Result<Haul, Fail>
    ensures { IfOk result (λ haul. haul.terms.workers ≡ 2) }
{
    let range = Range {
        first: 0,
        count: 10,
    };
    Ok(Haul::open(alloc, standard_job()?, &[range], 2)?)
}

// Two workers, each in a thread of its own, survey ten soups. The census is the same for any number of workers.
#[test]
fn completes_a_haul(rt: HostRuntime) -> Result<(), Fail> {
    let haul = ten_soups(rt.alloc())?;
    let is_complete = match take(rt.alloc(), &rt, haul, 2, &OpenGate, &mut NoObserver) {
        Ok(haul) => haul.is_complete(),
        Err(_) => false,
    };
    assert!(rt; is_complete);
    Ok(())
}

// Each number below 3 is drawn once, in ascending order, and then no number is left. Here one thread draws them all.
#[test]
fn draws_numbers(rt: HostRuntime) -> Result<(), Fail> {
    let (tickets, mut passes) = Tickets::open(rt.alloc(), 3, 1)?;
    let Some(mut pass) = passes.pop() else {
        return Err(Fail::new("there is a pass"));
    };
    let drawn = [
        tickets.draw(&mut pass),
        tickets.draw(&mut pass),
        tickets.draw(&mut pass),
        tickets.draw(&mut pass),
    ];
    assert!(rt; drawn == [Some(0), Some(1), Some(2), None]);
    Ok(())
}

/// Sends the notes 7 and 8 over a belt with room for four notes, receives one note, and gathers the rest. Returns the
/// received note and the next two of the gathered notes, with `None` if no note is left.
fn received_and_left<R: Wait>(
    alloc: Global,
    rt: &R,
) -> Result<(u32, Option<u32>, Option<u32>), Fail> {
    let (belt, mut senders, mut receiver) = Belt::open(alloc, 4, 1)?;
    let Some(mut sender) = senders.pop() else {
        return Err(Fail::new("there is a sender"));
    };
    belt.present(rt, &mut sender, 7);
    belt.present(rt, &mut sender, 8);
    let received = belt.receive(rt, &mut receiver);
    senders.push(sender)?;
    let mut left = belt.gather(senders, receiver);
    let next = left.next(rt);
    Ok((received, next, left.next(rt)))
}

#[test]
fn sends_notes(rt: HostRuntime) -> Result<(), Fail> {
    assert!(rt; received_and_left(rt.alloc(), &rt)? == (7, Some(8), None));
    Ok(())
}
