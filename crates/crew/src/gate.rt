//! Gates, which may stop a worker before it surveys a soup.
//!
//! ```text
//! worker ── draws a number ──> gate ── Ok ────> surveys its soup
//!                               └───── Stop ──> the worker ends
//! ```
ghost use Rattle.std.specs.Prelude.{ℕ, OnErr, OnOk};

/// The reply of a gate that stops the worker.
#[derive(Clone, Copy, Debug, PartialEq, Eq, Drop)]
pub struct Stop;

/// Decides before each survey whether the worker may go on. Several threads may call it at the same time.
pub trait Gate {
    /// Which workers the gate may stop at which soup numbers.
    ghost may_stop: { Self → ℕ → ℕ → Type 0 };

    /// Which workers the gate may let survey which soup numbers.
    ghost lets: { Self → ℕ → ℕ → Type 0 };

    /// Decides whether `worker` may survey the soup with this number. If not, the worker surveys nothing more.
    fn before(&self, worker: u8, number: u64) -> Result<(), Stop>
        ensures lets { OnOk result (lets self.now worker number) }
        ensures stops { OnErr result (may_stop self.now worker number) };
}

/// A gate that stops no worker.
#[derive(Clone, Copy)]
pub struct OpenGate;

impl Gate for OpenGate {
    ghost may_stop = { λ _ worker number. ⊥ };

    ghost lets = { λ _ worker number. Unit {0} };

    fn before(&self, _worker: u8, _number: u64) -> Result<(), Stop> {
        Ok(())
    }
}
