//! A queue from several senders to one receiver, which keeps each sender's notes in their order. In this example, `2 x`
//! is the note `x` of sender 2:
//!
//! ```text
//!                       presented by 1   queue            received
//!                       a b              2 x, 1 b         1 a
//! sender 1 presents c   a b c            2 x, 1 b, 1 c    1 a
//! receiver takes 2 x    a b c            1 b, 1 c         1 a, 2 x
//! ```
ghost use Rattle.std.specs.Prelude.{◌≡◌, ◌<◌, ◌≤◌, ◌+◌, ◌∷◌, [], All, IfNone, IfOk, IfSome, MatchResult, MatchOption};
ghost use Rattle.std.specs.Prelude.{length, map, vec_capacity, true};
ghost use Rattle.std.specs.List.{range_with_len};
ghost use Rattle.crossbeam_queue.specs.Passes.{IsPassOf, IsSamePass, view};
ghost use Rattle.handover.specs.Belts.{GotOne, IsWhole, NothingLeft, TookFirst, deaf, left_of, room_of, silent};
ghost use Rattle.handover.specs.Belts.{with_note};
ghost use Rattle.handover.specs.BeltRule.{first_share, share, with_senders};

use crate::event_count::EventCount;
use crossbeam_queue::protocol::{Join, Lesson, Outcome, Protocol, Split};
use crossbeam_queue::{Pass, RuledArrayQueue};
use memory::OutOfMemory;
use std::alloc::Global;
use std::collections::LinkedList;
use std::marker::Model;
use std::sync::Wait;

/// What a pass knows. Only the proofs use this type, and no value of it is ever made.
struct Share<N> {
    /// The number of each sender that the pass stands for, and the notes that the sender presented.
    senders: LinkedList<(u8, LinkedList<N>)>,
    /// Whether the pass receives.
    receives: bool,
    /// How many senders the pass has made.
    made: u8,
    /// The notes that the pass has received, each with its sender's number.
    got: LinkedList<(u8, N)>,
}

/// The rule that holds between any two steps: each sender's notes stay in order, and none is lost.
struct InOrder;

impl<N> Protocol<(u8, N), Share<N>> for InOrder {
    ghost use Rattle.handover.specs.BeltRule.{Delivers, first_share};

    ghost holds = { Delivers };

    ghost first = { first_share };
}

/// The step in which the receiver makes one more sender.
struct NewSender;

impl<N> Split<Share<N>> for NewSender {
    ghost use Rattle.handover.specs.BeltRule.{new_sender, with_sender};

    ghost left = { with_sender };

    ghost right = { new_sender };
}

/// The step in which one pass is joined to another.
struct TakeIn;

impl<N> Join<Share<N>> for TakeIn {
    ghost use Rattle.handover.specs.BeltRule.{both_shares, spent_share};

    ghost both = { both_shares };

    ghost spent = { spent_share };
}

/// The step in which a sender puts a note at the back of the queue.
struct Put;

impl<N> Outcome<(u8, N), Share<N>> for Put {
    ghost use Rattle.handover.specs.BeltRule.{PutsNote};

    ghost then = { PutsNote };
}

/// The step in which the receiver takes a note from the front of the queue. As a `Lesson`, `Get` says that the queue
/// holds what the senders of the receiver's pass presented and the receiver hasn't received.
struct Get;

impl<N> Outcome<(u8, N), Share<N>> for Get {
    ghost use Rattle.handover.specs.BeltRule.{GetsNote};

    ghost then = { GetsNote };
}

impl<N> Lesson<(u8, N), Share<N>> for Get {
    ghost use Rattle.handover.specs.BeltRule.{HoldsTheRest};

    ghost fact = { HoldsTheRest };
}

type Queue<N> = RuledArrayQueue<(u8, N), Share<N>, InOrder>;

/// A queue from several senders, numbered from 1 on, to one receiver.
#[derive(Drop)]
pub struct Belt<N: Drop> {
    queue: Queue<N>,
    workers: u8,
    /// Notified after each note that is presented. `present_one_of_many` lets only every eighth note wake the receiver.
    arrived: EventCount,
    /// Notified after each note that is received.
    left: EventCount,
}

impl<N: Drop> Model for Belt<N> {
    ghost use Rattle.handover.specs.Belts.{BeltId};

    ghost Value = { BeltId };

    ghost view = { λ b. record { name = b.queue.table.shared.table_id; workers = b.workers } };
}

/// The right of a sender to present notes. Contracts see the notes that it presented, in order.
#[derive(Drop)]
pub struct SenderPass<N> {
    pass: Pass<(u8, N), Share<N>>,
    number: u8,
}

impl<N> Model for SenderPass<N> {
    ghost use Rattle.std.specs.Prelude.{◌≡◌, [], ◌∷◌};
    ghost use Rattle.handover.specs.Belts.{Presented};
    ghost use Rattle.handover.specs.BeltRule.{first_notes};

    ghost Value = { Presented N };

    ghost view = { λ s. record
        { belt = s.pass.table_id; number = s.number; notes = first_notes s.pass.me.0.client.senders } };

    ghost invariant = { λ s. (s.pass.me.0.client.senders ≡ (s.number, first_notes s.pass.me.0.client.senders) ∷ [])
        × (s.pass.me.1 ≡ []) };
}

impl<N> SenderPass<N> {
    /// Returns the sender's number, from 1 on.
    pub fn number(&self) -> u8
        ensures { result ≡ self.now.number }
    {
        self.number
    }
}

/// The right to receive notes. Contracts see the notes that were received, in order, each with its sender's number.
#[derive(Drop)]
pub struct ReceiverPass<N> {
    pass: Pass<(u8, N), Share<N>>,
}

impl<N> Model for ReceiverPass<N> {
    ghost use Rattle.std.specs.Prelude.{◌≡◌, [], true};
    ghost use Rattle.handover.specs.Belts.{Received};

    ghost Value = { Received N };

    ghost view = { λ r. record
        { belt = record { name = r.pass.table_id; workers = r.pass.me.0.client.made }; got = r.pass.me.0.client.got } };

    ghost invariant = { λ r. (r.pass.me.0.client.receives ≡ true) × (r.pass.me.0.client.senders ≡ [])
        × (r.pass.me.1 ≡ []) };
}

/// The notes that are left on a belt. Contracts see how many senders there were, and a list for each sender's pass that
/// was handed back: the sender's number, and its notes that are left, in order.
#[derive(Drop)]
pub struct Remainder<N: Drop> {
    queue: Queue<N>,
    pass: Pass<(u8, N), Share<N>>,
}

impl<N: Drop> Model for Remainder<N> {
    ghost use Rattle.std.specs.Prelude.{◌≡◌, All, [], map, true};
    ghost use Rattle.handover.specs.Belts.{Left, notes_of};
    ghost use Rattle.handover.specs.BeltRule.{IsPrefix, left_over};

    ghost Value = { Left N };

    ghost view = { λ r. record {
      workers = r.pass.me.0.client.made;
      lists = map (left_over r.pass.me.0.client.got) r.pass.me.0.client.senders;
    } };

    ghost invariant = { λ r. (r.pass.table_id ≡ r.queue.table.shared.table_id) × (r.pass.me.1 ≡ [])
        × (r.pass.me.0.client.receives ≡ true)
        × All (λ e. IsPrefix (notes_of e.0 r.pass.me.0.client.got) e.1) r.pass.me.0.client.senders };
}

impl<N: Drop> Belt<N> {
    /// Opens a belt with room for `room` notes from `workers` senders. Returns the belt, a pass for each sender,
    /// numbered from 1 on, and the receiver's pass.
    ///
    /// # Errors
    ///
    /// [`OutOfMemory`] if memory runs out.
    ///
    /// # Examples
    ///
    /// `crates/tour_tests/src/threads.rt` sends a note.
    pub fn open(
        alloc: Global,
        room: usize,
        workers: u8,
    ) -> Result<(Belt<N>, Vec<SenderPass<N>>, ReceiverPass<N>), OutOfMemory>
        requires { 0 < room }
        ensures room { IfOk result (λ made. room_of made.0 ≡ room) }
        ensures workers { IfOk result (λ made. made.0.workers ≡ workers) }
        ensures senders { IfOk result (λ made. made.1.items ≡ map (silent made.0.name) (range_with_len 1 workers)) }
        ensures receiver { IfOk result (λ made. made.2 ≡ deaf made.0) }
    {
        let mut senders = Vec::with_capacity(alloc, usize::from(workers))?;
        let (queue, mut pass) = Queue::ruled(alloc, room)?;
        make_senders(&queue, &mut pass, workers, &mut senders);
        let belt = Belt {
            queue,
            workers,
            arrived: EventCount::new(),
            left: EventCount::new(),
        };
        Ok((belt, senders, ReceiverPass { pass }))
    }

    /// Presents a note, and wakes the receiver if it sleeps. Sleeps while the queue is full.
    pub fn present<R: Wait>(&self, rt: &R, pass: &mut SenderPass<N>, note: N)
        requires { pass.old.belt ≡ self.now.name }
        ensures { pass.new ≡ with_note note pass.old }
    {
        self.put(rt, pass, note);
        self.arrived.notify();
    }

    /// Presents a note as `present` does, but wakes the receiver only with every eighth note of the belt. The receiver
    /// finds the other notes within a tenth of a second.
    ///
    /// This is for notes that follow one another quickly. Waking the receiver for each note takes longer than putting
    /// the note on the belt.
    pub fn present_one_of_many<R: Wait>(&self, rt: &R, pass: &mut SenderPass<N>, note: N)
        requires { pass.old.belt ≡ self.now.name }
        ensures { pass.new ≡ with_note note pass.old }
    {
        self.put(rt, pass, note);
        self.arrived.notify_sometimes();
    }

    /// Receives a note. Sleeps while the queue is empty.
    pub fn receive<R: Wait>(&self, rt: &R, pass: &mut ReceiverPass<N>) -> N
        requires { pass.old.belt ≡ self.now }
        ensures { GotOne pass.old pass.new result }
    {
        for _ in rt.forever() {
            let seen = self.arrived.count();
            if let Some(note) = self.try_receive(pass) {
                self.left.notify();
                return note;
            }
            self.arrived.sleep_briefly_while(rt, seen);
        }
        unreachable!()
    }

    /// Closes the belt. Returns the notes that weren't received. Contracts see those from the senders whose passes are
    /// handed back.
    pub fn gather(self, senders: Vec<SenderPass<N>>, receiver: ReceiverPass<N>) -> Remainder<N>
        requires senders { All (λ s. s.belt ≡ self.name) senders.items }
        requires receiver { receiver.belt ≡ self }
        ensures workers { result.workers ≡ self.workers }
        ensures left { result.lists ≡ map (left_of receiver.got) senders.items }
        ensures whole { All (IsWhole receiver.got) senders.items }
    {
        let Belt { queue, .. } = self;
        let ReceiverPass { mut pass } = receiver;
        absorb_all(&queue, &mut pass, senders);
        // For the prover: the queue holds what was presented and not received.
        queue.learn_as::<Get>(&mut pass);
        Remainder { queue, pass }
    }

    /// Puts a note at the end of the queue. Sleeps while the queue is full.
    fn put<R: Wait>(&self, rt: &R, pass: &mut SenderPass<N>, note: N)
        requires { pass.old.belt ≡ self.now.name }
        ensures { pass.new ≡ with_note note pass.old }
    {
        let mut note = note;
        for _ in rt.forever() {
            let seen = self.left.count();
            match self.try_present(pass, note) {
                Ok(()) => return,
                Err(back) => note = back,
            }
            self.left.sleep_while(rt, seen);
        }
        unreachable!()
    }

    /// Presents a note if there is room. Otherwise returns the note.
    fn try_present(&self, pass: &mut SenderPass<N>, note: N) -> Result<(), N>
        requires { pass.old.belt ≡ self.now.name }
        ensures { MatchResult result (λ _. pass.new ≡ with_note note pass.old)
            (λ back. (back ≡ note) × (pass.new ≡ pass.old)) }
    {
        match self
            .queue
            .try_push_as::<Put>(&mut pass.pass, (pass.number, note))
        {
            Ok(()) => Ok(()),
            Err((_, back)) => Err(back),
        }
    }

    /// Receives a note if there is one.
    fn try_receive(&self, pass: &mut ReceiverPass<N>) -> Option<N>
        requires { pass.old.belt ≡ self.now }
        ensures { MatchOption result (pass.new ≡ pass.old) (GotOne pass.old pass.new) }
    {
        let (_, note) = self.queue.try_pop_as::<Get>(&mut pass.pass)?;
        Some(note)
    }
}

impl<N: Drop> Remainder<N> {
    /// Removes and returns a note, the first of its sender's notes that are left. Returns `None` if no notes are left.
    /// The queue's `pop_as` needs `rt` to wait for other threads, but no other thread uses the queue any more.
    pub fn next<R: Wait>(&mut self, rt: &R) -> Option<N>
        ensures taken { IfSome result (TookFirst self.old self.new) }
        ensures none { IfNone result (NothingLeft self.old) }
        ensures kept { IfNone result (self.new ≡ self.old) }
    {
        let (_, note) = self.queue.pop_as::<Get, R>(rt, &mut self.pass)?;
        Some(note)
    }
}

/// Makes `workers` senders of a new queue, numbered from 1 on. There is room for them in `senders`.
#[tactic(auto, using(crate::proofs::BeltLemmas::senders_more))]
fn make_senders<N: Drop>(
    queue: &Queue<N>,
    pass: &mut Pass<(u8, N), Share<N>>,
    workers: u8,
    senders: &mut Vec<SenderPass<N>>,
)
    requires queue { IsPassOf queue.now pass.old }
    requires first { view pass.old ≡ first_share }
    requires room { (senders.old.items ≡ []) × (workers ≤ vec_capacity senders.old) }
    ensures queue { IsSamePass pass.old pass.new }
    ensures made { view pass.new ≡ share [] true workers [] }
    ensures senders { senders.new.items ≡ map (silent queue.now.table.shared.table_id) (range_with_len 1 workers) }
{
    let mut made = 0;
    while made < workers {
        let sender = make_sender(queue, pass, made);
        senders.push_reserved(sender);
        made += 1;
    }
}

/// Makes the sender with the number `made` + 1.
fn make_sender<N: Drop>(
    queue: &Queue<N>,
    pass: &mut Pass<(u8, N), Share<N>>,
    made: u8,
) -> SenderPass<N>
    requires queue { IsPassOf queue.now pass.old }
    requires made { view pass.old ≡ share [] true made [] }
    requires room { made < 255 }
    ensures queue { IsSamePass pass.old pass.new }
    ensures made { view pass.new ≡ share [] true (made + 1) [] }
    ensures sender { result ≡ silent queue.now.table.shared.table_id (made + 1) }
{
    let sender = queue.another::<NewSender>(pass);
    SenderPass {
        pass: sender,
        number: made + 1,
    }
}

/// Joins the passes of senders to the receiver's pass.
fn absorb_all<N: Drop>(
    queue: &Queue<N>,
    pass: &mut Pass<(u8, N), Share<N>>,
    mut senders: Vec<SenderPass<N>>,
)
    requires queue { IsPassOf queue.now pass.old }
    requires senders { All (λ s. s.belt ≡ queue.now.table.shared.table_id) senders.items }
    ensures queue { IsSamePass pass.old pass.new }
    ensures taken { view pass.new ≡ with_senders senders.items (view pass.old) }
{
    while let Some(sender) = senders.pop() {
        absorb_one(queue, pass, sender);
    }
}

/// Joins the pass of one sender to the receiver's pass.
fn absorb_one<N: Drop>(queue: &Queue<N>, pass: &mut Pass<(u8, N), Share<N>>, sender: SenderPass<N>)
    requires queue { IsPassOf queue.now pass.old }
    requires sender { sender.belt ≡ queue.now.table.shared.table_id }
    ensures queue { IsSamePass pass.old pass.new }
    ensures taken { view pass.new ≡ with_senders (sender ∷ []) (view pass.old) }
{
    let SenderPass { pass: other, .. } = sender;
    queue.absorb::<TakeIn>(pass, other);
}
