//! Input that was read and isn't used yet.
//!
//! ```text
//! buffer   used ── unread ── room
//!               │         │
//!             start      end
//! ```
//!
//! This replaces std's `BufReader`, because contracts don't say what becomes of a reader that was lent to a
//! `BufReader`. Here, the reader is lent anew for each read.

ghost use Rattle.std.specs.Prelude.{◌≡◌, ◌≢◌, ◌≤◌, ◌^◌, [], Err, IfOk, OnErr, OnOk, drop, length};
ghost use Rattle.std.specs.Io.KnownBytes.{IsAtEnd, Keeps, prepend_known};
ghost use Rattle.pattern_commands.specs.declared.input.InputError.TheVariants.{TooLong};

use memory::OutOfMemory;
use pattern_commands::input::{InputError, READ_LENGTH, read_once};
use std::alloc::Global;
use std::io::Read;
use std::marker::Model;

/// Input that was read and isn't used yet.
#[derive(Drop)]
pub(crate) struct Ahead {
    buffer: Vec<u8>,
    start: usize,
    end: usize,
}

impl Model for Ahead {
    ghost use Rattle.std.specs.Prelude.{◌≡◌, ◌≤◌, ◌^◌, ℕ, List, slice_range, vec_len};

    ghost Value = { List ℕ };

    ghost view = { λ a. slice_range a.buffer.items a.start a.end };

    ghost invariant = { λ a. (a.start ≤ a.end) × (a.end ≤ vec_len a.buffer) × (vec_len a.buffer ≡ 2 ^ 16) };
}

impl Ahead {
    /// Returns an empty buffer.
    pub(crate) fn new(alloc: Global) -> Result<Ahead, OutOfMemory>
        ensures { IfOk result (λ ahead. ahead ≡ []) }
    {
        let buffer = vec![in alloc; 0u8; READ_LENGTH]?;
        Ok(Ahead {
            buffer,
            start: 0,
            end: 0,
        })
    }

    /// Returns the bytes that aren't used yet.
    pub(crate) fn unread(&self) -> &[u8]
        ensures { result.now ≡ self.now }
    {
        &self.buffer.as_slice()[self.start..self.end]
    }

    /// Reads once if there are no unused bytes. If there are none after a successful read, the input is at its end.
    ///
    /// # Errors
    ///
    /// `Memory` if the read fails because memory ran out, and `Unreadable` if it fails for any other reason.
    pub(crate) fn fill<R: Read>(&mut self, input: &mut R) -> Result<(), InputError>
        ensures bytes { Keeps (prepend_known self.old (R.remaining input.old))
            (prepend_known self.new (R.remaining input.new)) }
        ensures end { OnOk result (self.new ≡ [] → IsAtEnd (R.remaining input.new)) }
        ensures short { result ≢ Err TooLong }
        ensures none { OnErr result (self.new ≡ []) }
        ensures few { length self.new ≤ 2 ^ 16 }
    {
        if self.start < self.end {
            return Ok(());
        }
        self.start = 0;
        self.end = 0;
        self.end = read_once(input, &mut self.buffer)?;
        Ok(())
    }

    /// Marks the first `amount` unused bytes as used.
    pub(crate) fn consume(&mut self, amount: usize)
        requires { amount ≤ length self.old }
        ensures { self.new ≡ drop amount self.old }
    {
        self.start += amount;
    }
}
