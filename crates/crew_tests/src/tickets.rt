//! Tests tickets that threads draw.
ghost use Rattle.std.specs.Prelude.{◌≡◌, All};
ghost use Rattle.std.specs.Thread.{IsSync};

use handover::tickets::{Pass, Tickets, TicketsError};
use std::alloc::Global;
use std::sync::atomic::{AtomicU64, Ordering};
use std::test::Fail;
use std::thread::{Threads, join};

/// Opens three tickets for two passes, draws a number with each pass, and gathers the tickets. The first pass is handed
/// back if `is_back`, and the second pass is dropped. Returns how many numbers were drawn.
fn gathered(alloc: Global, is_back: bool) -> Result<u64, Fail> {
    let (tickets, mut passes) = Tickets::open(alloc, 3, 2)?;
    if let Some(mut second) = passes.pop() {
        let _ = tickets.draw(&mut second);
    }
    let Some(mut first) = passes.pop() else {
        return Ok(0);
    };
    let _ = tickets.draw(&mut first);
    if is_back {
        passes.push(first)?;
    }
    Ok(tickets.gather(passes))
}

// No contract says that numbers are also counted if the passes that drew them were dropped, so this test checks it.
#[test]
fn counts_what_was_drawn_by_passes_that_are_gone(rt: HostRuntime) -> Result<(), Fail> {
    assert!(rt; gathered(rt.alloc(), true)? == 2);
    assert!(rt; gathered(rt.alloc(), false)? == 2);
    Ok(())
}

/// Draws with a pass until no number is left, but at most `most` times. Counts in `counts` how often each number was
/// drawn. Returns the pass.
fn draw_all(tickets: &Tickets, counts: &[AtomicU64], pass: Pass, most: u32) -> Pass
    requires { pass.series ≡ tickets.now }
    ensures { result.series ≡ tickets.now }
{
    let mut pass = pass;
    for _ in 0..most {
        let Some(number) = tickets.draw(&mut pass) else {
            break;
        };
        if let Some(count) = counts.get(number as usize) {
            count.fetch_add(1, Ordering::SeqCst);
        }
    }
    pass
}

/// Draws with all passes, each in a thread of its own, and returns the passes.
fn draw_in_threads<R: Threads + Sync>(
    rt: &R,
    tickets: &Tickets,
    counts: &[AtomicU64],
    mut passes: Vec<Pass>,
) -> Vec<Pass>
    requires { All (λ p. p.series ≡ tickets.now) passes.items }
    ensures { All (λ p. p.series ≡ tickets.now) result.items }
{
    let Some(pass) = passes.pop() else {
        return passes;
    };
    let own = || -> Pass
        requires { pass.series ≡ tickets.now }
        ensures { result.series ≡ tickets.entry.now }
    { draw_all(tickets, counts, pass, 1001) };
    let others = || -> Vec<Pass>
        requires { IsSync R.row × All (λ p. p.series ≡ tickets.now) passes.items }
        ensures { All (λ p. p.series ≡ tickets.entry.now) result.items }
    { draw_in_threads(rt, tickets, counts, passes) };
    let (pass, mut back) = join(rt, own, others);
    let _ = back.push(pass);
    back
}

#[test]
fn draws_in_sixteen_threads(rt: HostRuntime) -> Result<(), Fail> {
    let (tickets, passes) = Tickets::open(rt.alloc(), 1000, 16)?;
    let mut counts = Vec::new(rt.alloc());
    for _ in 0..1000 {
        counts.push(AtomicU64::new(0))?;
    }
    let passes = draw_in_threads(&rt, &tickets, counts.as_slice(), passes);
    assert!(rt; passes.len() == 16);
    assert!(rt; tickets.gather(passes) == 1000);
    for count in counts.as_slice() {
        assert!(rt; count.load(Ordering::SeqCst) == 1);
    }
    Ok(())
}

/// Each row has how many numbers and passes are asked for, and the error that `Tickets::open` returns.
const NOT_OPENED: [(u64, u8, TicketsError); 5] = [
    (1, 0, TicketsError::BadPasses),
    (1, 17, TicketsError::BadPasses),
    (1 << 24, 0, TicketsError::BadPasses),
    ((1 << 24) + 1, 0, TicketsError::BadCount),
    ((1 << 24) + 1, 1, TicketsError::BadCount),
];

/// Each row has how many numbers there are, how often the only pass draws, and how many numbers it gets.
const DRAWN: [(u64, u32, u64); 14] = [
    (0, 0, 0),
    (0, 1, 0),
    (1, 0, 0),
    (1, 1, 1),
    (1, 2, 1),
    (4, 3, 3),
    (4, 4, 4),
    (4, 5, 4),
    (1_000, 999, 999),
    (1_000, 1_000, 1_000),
    (1_000, 1_001, 1_000),
    (1 << 24, 1, 1),
    (1 << 24, 1 << 24, 1 << 24),
    (1 << 24, (1 << 24) + 1, 1 << 24),
];

/// Draws with a pass that is dropped before the tickets are gathered, and returns how many numbers were drawn.
fn gathered_without_passes(alloc: Global, count: u64, draws: u32) -> Result<u64, TicketsError> {
    let (tickets, mut passes) = Tickets::open(alloc, count, 1)?;
    if let Some(pass) = passes.pop() {
        drop(draw_all(&tickets, &[], pass, draws));
    }
    Ok(tickets.gather(Vec::new(alloc)))
}

// No contract says how many numbers were drawn if no pass is handed back, so this test checks it.
#[test]
fn opens_tickets_and_counts_what_was_drawn(rt: HostRuntime) -> Result<(), Fail> {
    for (count, passes, error) in NOT_OPENED {
        let found = Tickets::open(rt.alloc(), count, passes).err();
        assert!(rt; found == Some(error), "{count} numbers, {passes} passes");
    }
    for (count, draws, drawn) in DRAWN {
        let found = gathered_without_passes(rt.alloc(), count, draws)?;
        assert!(rt; found == drawn, "{draws} of {count}");
    }
    Ok(())
}
