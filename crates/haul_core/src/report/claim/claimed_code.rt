//! The codes that a claim names, whether or not objects with these codes exist.

ghost use Rattle.std.specs.Prelude.{◌≡◌, IfOk};
ghost use Rattle.code_core.specs.Apgcodes.{HasCodeShape};

use memory::OutOfMemory;
use std::alloc::Global;
use std::marker::Model;

/// A text that may be the name of an object: 1 to 400 bytes, each one of `a` to `z`, `0` to `9` and `_`.
///
/// A claim may name objects that don't exist. Contracts see a code as its bytes.
#[derive(Debug, Drop)]
pub struct ClaimedCode {
    bytes: Vec<u8>,
}

impl Model for ClaimedCode {
    ghost use Rattle.std.specs.Prelude.{ℕ, List};
    ghost use Rattle.code_core.specs.Apgcodes.{HasCodeShape};

    ghost Value = { List ℕ };

    ghost view = { λ c. c.bytes.items };

    ghost invariant = { λ c. HasCodeShape c.bytes.items };
}

impl ClaimedCode {
    /// Returns the bytes of the text.
    pub fn bytes(&self) -> &[u8]
        ensures bytes { result.now ≡ self.now }
        ensures shape { HasCodeShape self.now }
    {
        self.bytes.as_slice()
    }

    /// Returns the code with these bytes.
    pub(crate) fn make(alloc: Global, bytes: &[u8]) -> Result<ClaimedCode, OutOfMemory>
        requires { HasCodeShape bytes.now }
        ensures { IfOk result (λ code. code ≡ bytes.now) }
    {
        let bytes = Vec::from_slice(alloc, bytes)?;
        Ok(ClaimedCode { bytes })
    }
}
