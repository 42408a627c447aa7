//! An event count: a counter of changes, on which threads sleep until it changes.
//!
//! ```text
//! receiver   reads the count: 7
//! receiver   finds nothing on the belt
//! sender     puts a note on the belt, and notifies: 8
//! receiver   asks to sleep while the count is 7: goes on at once
//! ```
//!
//! All atomic operations are sequentially consistent, as the proofs assume. The proofs say nothing about waking.
//! The comment at each operation says which ordering the event count itself needs, and which wake-up would be lost with
//! a weaker one.
use std::sync::Wait;
use std::sync::atomic::{AtomicU64, Ordering};
use std::time::Duration;

/// `notify_sometimes` wakes a thread with the first event, and with every eighth after it.
const EVENTS_PER_WAKE: u64 = 8;

/// A count of events, and the threads that sleep until the next one.
///
/// A thread first reads the count, then checks whether it has to wait, and then sleeps only while the count is
/// unchanged. So it misses no change that is notified after it read the count.
#[derive(Drop)]
pub(crate) struct EventCount {
    events: AtomicU64,
    sleepers: AtomicU64,
}

impl EventCount {
    /// Returns an event count of 0, on which no thread sleeps.
    pub(crate) fn new() -> EventCount {
        EventCount {
            events: AtomicU64::new(0),
            sleepers: AtomicU64::new(0),
        }
    }

    /// Returns the number of events so far, modulo 2^32.
    pub(crate) fn count(&self) -> u32 {
        // At least `Acquire`. Otherwise the belt could be checked before this load: the check finds nothing, a note and
        // its event follow, and the thread sleeps on a count that already includes the event.
        (self.events.load(Ordering::SeqCst) % (1 << 32)) as u32
    }

    /// Counts an event, and wakes one of the threads that sleep on this count.
    ///
    /// Waking one thread is enough, since an event is one note or room for one note. If all were woken, all except one
    /// would find nothing and sleep again.
    pub(crate) fn notify(&self) {
        // The event has to be counted before this thread looks for sleepers, so both operations are `SeqCst`. Otherwise
        // this thread could find no sleepers while its event isn't counted yet, and another thread could still read the
        // old count and go to sleep. Counting also has to be at least `Release`: a thread that reads the new count has
        // to find the note, or it would sleep on that count.
        self.events.fetch_add(1, Ordering::SeqCst);
        // Waking is a system call, which is left out if nobody sleeps.
        if self.sleepers.load(Ordering::SeqCst) > 0 {
            self.events.wake_one();
        }
    }

    /// Counts an event, and with every eighth event wakes one of the threads that sleep on this count. The other events
    /// are found by threads that sleep with `sleep_briefly_while`.
    ///
    /// If events follow one another quickly, this saves most of the system calls and context switches.
    pub(crate) fn notify_sometimes(&self) {
        // The orderings are those of `notify`.
        let before = self.events.fetch_add(1, Ordering::SeqCst);
        if before % EVENTS_PER_WAKE == 0 && self.sleepers.load(Ordering::SeqCst) > 0 {
            self.events.wake_one();
        }
    }

    /// Sleeps while the count is `seen`, but at most for a tenth of a second. The thread may also wake up without a
    /// reason.
    pub(crate) fn sleep_briefly_while<R: Wait>(&self, rt: &R, seen: u32) {
        // The orderings are those of `sleep_while`.
        self.sleepers.fetch_add(1, Ordering::SeqCst);
        self.events
            .park_timeout(rt, seen, Duration::from_millis(100));
        self.sleepers.fetch_sub(1, Ordering::SeqCst);
    }

    /// Sleeps while the count is `seen`. The thread may also wake up without a reason.
    pub(crate) fn sleep_while<R: Wait>(&self, rt: &R, seen: u32) {
        // The sleeper has to be counted before `park` reads the count of events again, so this operation is `SeqCst`.
        // It is the counterpart of `notify`: either the notifier finds the sleeper, or the sleeper reads the new count.
        self.sleepers.fetch_add(1, Ordering::SeqCst);
        self.events.park(rt, seen);
        // At least `Release`. Otherwise this could take effect before `park`, and then nobody would wake the thread. If
        // it takes effect late, `notify` only makes a system call that isn't needed.
        self.sleepers.fetch_sub(1, Ordering::SeqCst);
    }
}
