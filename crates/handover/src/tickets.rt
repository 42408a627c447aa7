//! Numbers that threads draw, each once.
//!
//! A counter begins at 0. A draw adds 1 to it in one atomic step. If the old value is below the count of numbers, it is
//! the number drawn:
//!
//! ```text
//! open(3, 2)   counter 0   A: -      B: -
//! A draws 0    counter 1   A: 0      B: -
//! B draws 1    counter 2   A: 0      B: 1
//! A draws 2    counter 3   A: 0 2    B: 1
//! B: None      counter 4   A: 0 2    B: 1, none left
//! ```
//!
//! No thread waits for another.
ghost use Rattle.std.specs.Prelude.{◌≡◌, ◌<◌, ◌≤◌, ◌^◌, ◌++◌, ◌∷◌, ◌↔◌, All, IfNone, IfOk, IfSome, IsErrOf, None, OnOk};
ghost use Rattle.std.specs.Prelude.{[], length, true, vec_capacity, vec_len};
ghost use Rattle.memory.specs.Witness.{out_of_memory};
ghost use Rattle.atomic_table.specs.Seated.{TableId};
ghost use Rattle.handover.specs.Tickets.{AreAllBelow, AreSomeBelow, AreFew, fresh, how_many_heard, drawn_by_all};
ghost use Rattle.handover.specs.Tickets.{with_none, with_drawn};
ghost use Rattle.handover.specs.TicketRule.{Gathers, Joining, holding, series_of};
ghost use Rattle.handover.specs.declared.tickets.TicketsError.TheVariants.{BadCount, BadPasses, Memory};

use atomic_table::{Join, Play, Seat, Shared, Split, Table, TableRule};
use memory::OutOfMemory;
use std::alloc::Global;
use std::collections::LinkedList;
use std::fmt;
use std::marker::Model;
use thiserror::Error;

/// The largest count of numbers, which is also the largest number of soups for which a haul can be opened.
const MOST_NUMBERS: u64 = 1 << 24;

/// The largest number of passes, which is also the largest number of workers that a haul may have.
const MOST_PASSES: u8 = 16;

/// Why no tickets were opened.
#[derive(Clone, Copy, PartialEq, Eq, Error)]
pub enum TicketsError {
    /// There are more than 2^24 numbers.
    BadCount,
    /// The number of passes isn't from 1 to 16.
    BadPasses,
    /// Memory ran out.
    Memory(OutOfMemory),
}

impl fmt::Display for TicketsError {
    fn fmt<W: fmt::Write>(&self, f: &mut fmt::Formatter<W>) -> fmt::Result {
        f.write_str(match self {
            TicketsError::BadCount => "too many numbers",
            TicketsError::BadPasses => "bad number of passes",
            TicketsError::Memory(_) => "out of memory",
        })
    }
}

/// Shows the message, as `Display` does.
impl fmt::Debug for TicketsError {
    fn fmt<W: fmt::Write>(&self, f: &mut fmt::Formatter<W>) -> fmt::Result {
        fmt::Display::fmt(self, f)
    }
}

impl<E: Into<OutOfMemory>> From<E> for TicketsError {
    ghost from_gives = { λ _ e. e ≡ Memory out_of_memory };

    fn from(refused: E) -> TicketsError {
        TicketsError::Memory(refused.into())
    }
}

/// The terms of the tickets: how many numbers and passes there are.
#[derive(Clone, Copy)]
struct Issue {
    count: u64,
    passes: u64,
}

/// What a pass knows about its draws. Only the proofs use this type, and no value of it is ever made.
struct Holding {
    issue: Issue,
    /// How many of the opened passes this pass stands for. The first pass begins with all of them.
    shares: u64,
    /// How many of these got `None`.
    marks: u64,
    /// The numbers that these passes drew.
    numbers: LinkedList<u64>,
}

/// The rule that holds between any two steps: each number that was drawn is in exactly one pass.
struct Law;

impl TableRule<(), Holding, Issue> for Law {
    ghost use Rattle.handover.specs.TicketRule.{IsLawful, first_holding};

    ghost holds = { IsLawful };

    ghost first = { first_holding };
}

/// The step in which a pass adds 1 to the counter, and draws the old value if it is below the count.
struct Draw;

impl Play<(), Holding> for Draw {
    ghost use Rattle.handover.specs.TicketRule.{Draws};

    ghost then = { Draws };
}

/// The step in which a pass gives one of its shares to a new pass.
struct HandOut;

impl Split<Holding> for HandOut {
    ghost use Rattle.handover.specs.TicketRule.{kept_part, new_part};

    ghost left = { kept_part };

    ghost right = { new_part };
}

/// The step in which one pass is joined to another.
struct TakeIn;

impl Join<Holding> for TakeIn {
    ghost use Rattle.handover.specs.TicketRule.{both_holdings, spent_holding};

    ghost both = { both_holdings };

    ghost spent = { spent_holding };
}

/// The numbers from 0 to below a count, for threads to draw. Each thread draws with a [`Pass`] of its own.
#[derive(Drop)]
pub struct Tickets {
    table: Table<(), Holding, Issue, Law, Global>,
    count: u64,
}

impl Model for Tickets {
    ghost use Rattle.std.specs.Prelude.{◌≡◌, ◌<◌};
    ghost use Rattle.handover.specs.Tickets.{Series};

    ghost Value = { Series };

    ghost view = { λ t. record
        { name = t.table.shared.table_id; count = t.count; passes = t.table.shared.key.passes } };

    ghost invariant = { λ t. (t.count ≡ t.table.shared.key.count) × (t.table.shared.table_id.words ≡ 1)
        × (t.table.shared.table_id.slots ≡ 0) × (0 < t.table.shared.key.passes) };
}

/// The right of a thread to draw numbers. Contracts see the numbers that it drew, in order, and whether it got `None`.
#[derive(Drop)]
pub struct Pass {
    seat: Seat<(), Holding>,
    heard_none: bool,
}

impl Model for Pass {
    ghost use Rattle.std.specs.Prelude.{◌≡◌, [], if◌then◌else◌};
    ghost use Rattle.handover.specs.Tickets.{Drawn};

    ghost Value = { Drawn };

    ghost view = { λ p. record {
      series = record {
        name = p.seat.table_id;
        count = p.seat.me.0.issue.count;
        passes = p.seat.me.0.issue.passes;
      };
      numbers = p.seat.me.0.numbers;
      heard_none = p.heard_none;
    } };

    ghost invariant = { λ p. (p.seat.me.0.shares ≡ 1) × (p.seat.me.0.marks ≡ (if p.heard_none then 1 else 0))
        × (p.seat.me.1 ≡ []) };
}

impl Tickets {
    /// Opens tickets for the numbers from 0 to below `count`, and `passes` passes to draw them.
    ///
    /// # Errors
    ///
    /// The first of these that holds:
    ///
    /// - [`TicketsError::BadCount`] if there are more than 2^24 numbers.
    /// - [`TicketsError::BadPasses`] if the number of passes isn't from 1 to 16.
    /// - [`TicketsError::Memory`] if memory runs out.
    ///
    /// # Examples
    ///
    /// `crates/tour_tests/src/threads.rt` draws three numbers.
    #[tactic(auto, using(crate::proofs::TicketLemmas::begins))]
    pub fn open(alloc: Global, count: u64, passes: u8) -> Result<(Tickets, Vec<Pass>), TicketsError>
        // There are as many numbers and passes as were asked for, and the passes have drawn nothing.
        ensures count { IfOk result (λ made. made.0.count ≡ count) }
        ensures passes { IfOk result (λ made. made.0.passes ≡ passes) }
        ensures many { IfOk result (λ made. length made.1.items ≡ passes) }
        ensures fresh { IfOk result (λ made. All (λ p. p ≡ fresh made.0) made.1.items) }

        // The last two clauses say exactly when `BadCount` and `BadPasses` are returned.
        ensures bad_count { IsErrOf result BadCount ↔ (2 ^ 24 < count) }
        ensures bad_passes { IsErrOf result BadPasses ↔ ((count ≤ 2 ^ 24) × ¬ AreFew passes) }
    {
        if MOST_NUMBERS < count {
            return Err(TicketsError::BadCount);
        }
        if passes < 1 || MOST_PASSES < passes {
            return Err(TicketsError::BadPasses);
        }
        let issue = Issue {
            count,
            passes: u64::from(passes),
        };
        let mut made = Vec::with_capacity(alloc, usize::from(passes))?;
        let (table, seat) = Table::of_words(alloc, &[0], &issue)?;
        cut_up(&table.shared, seat, issue.passes, &mut made);
        Ok((Tickets { table, count }, made))
    }

    /// Draws the next number. It is below the count, and higher than all numbers that this pass drew before. Returns
    /// `None` if no number is left.
    #[tactic(auto, using(crate::proofs::TicketLemmas::draws))]
    pub fn draw(&self, pass: &mut Pass) -> Option<u64>
        requires { pass.old.series ≡ self.now }
        ensures below { IfSome result (λ n. n < self.now.count) }
        ensures greater { IfSome result (λ n. All (λ m. m < n) pass.old.numbers) }
        ensures drawn { IfSome result (λ n. pass.new ≡ with_drawn n pass.old) }
        ensures none { IfNone result (pass.new ≡ with_none pass.old) }
        ensures heard { pass.old.heard_none ≡ true → result ≡ None }
        ensures series { pass.new.series ≡ pass.old.series }
    {
        if pass.heard_none {
            return None;
        }
        let number = self.table.shared.fetch_add::<Draw>(&mut pass.seat, 0, 1);
        if number < self.count {
            Some(number)
        } else {
            pass.heard_none = true;
            None
        }
    }

    /// Closes the tickets. Returns how many numbers were drawn. Passes may be missing from `passes`. The numbers that
    /// the missing passes drew are counted, too, although no clause says so.
    pub fn gather(self, passes: Vec<Pass>) -> u64
        requires { All (λ p. p.series ≡ self) passes.items }
        ensures most { result ≤ self.count }
        ensures least { length (drawn_by_all passes.items) ≤ result }
        ensures once { AreSomeBelow result (drawn_by_all passes.items) }
        ensures all { length passes.items ≡ self.passes → AreAllBelow result (drawn_by_all passes.items) }
        ensures drained { 0 < how_many_heard passes.items → result ≡ self.count }
    {
        let mut passes = passes;
        match passes.pop() {
            Some(first) => close_with_pass(self, first, passes),
            None => {
                let Tickets { table, count } = self;
                let closed = table.close();
                let counter = closed.word(0);
                closed.free();
                counter.min(count)
            }
        }
    }
}

/// Closes the tickets after the passes `first` and `passes` were handed back. Returns how many numbers were drawn.
fn close_with_pass(tickets: Tickets, first: Pass, passes: Vec<Pass>) -> u64
    requires first { first.series ≡ tickets }
    requires passes { All (λ p. p.series ≡ tickets) passes.items }
    ensures most { result ≤ tickets.count }
    ensures gathers { Gathers tickets (passes.items ++ first ∷ []) result }
{
    let Tickets { table, count } = tickets;
    let Pass { mut seat, .. } = first;
    join_all(&table.shared, &mut seat, passes);
    let closed = table.close_with(seat);
    let counter = closed.word(0);
    closed.free();
    counter.min(count)
}

/// Cuts the seat of the first pass into `passes` passes. There is room for them in `made`.
#[tactic(auto, using(crate::proofs::TicketLemmas::cuts))]
fn cut_up(
    shared: &Shared<(), Holding, Issue, Law>,
    mut seat: Seat<(), Holding>,
    passes: u64,
    made: &mut Vec<Pass>,
)
    requires seat { (seat.table_id ≡ shared.now.table_id) × (0 < shared.now.table_id.words) }
    requires holding { seat.me ≡ (holding shared.now.key passes 0 [], []) }
    requires some { 0 < passes }
    requires room { (made.old.items ≡ []) × (passes ≤ vec_capacity made.old) }
    ensures many { vec_len made.new ≡ passes }
    ensures fresh { All (λ p. p ≡ fresh (series_of shared.now.table_id shared.now.key)) made.new.items }
{
    let mut left = passes;
    while 1 < left {
        let part = shared.split_seat::<HandOut>(&mut seat);
        made.push_reserved(Pass {
            seat: part,
            heard_none: false,
        });
        left -= 1;
    }
    made.push_reserved(Pass {
        seat,
        heard_none: false,
    });
}

/// Joins the seats of the passes to this seat.
#[tactic(auto, using(crate::proofs::TicketLemmas::joins, crate::proofs::TicketLemmas::joining_none, crate::proofs::TicketLemmas::joining_more))]
fn join_all(
    shared: &Shared<(), Holding, Issue, Law>,
    seat: &mut Seat<(), Holding>,
    mut passes: Vec<Pass>,
)
    requires seat { (seat.old.table_id ≡ shared.now.table_id) × (0 < shared.now.table_id.words) }
    requires passes { All (λ p. p.series.name ≡ shared.now.table_id) passes.items }
    ensures seat { (seat.new.table_id ≡ seat.old.table_id) × (seat.new.id ≡ seat.old.id) }
    ensures joined { Joining passes.items [] seat.old.me.0 seat.new.me.0 }
{
    while let Some(pass) = passes.pop() {
        let Pass { seat: other, .. } = pass;
        shared.join_seat::<TakeIn>(seat, other);
    }
}
