//! Writes a text followed by a number in decimal.
ghost use Rattle.std.specs.Prelude.{◌≡◌, ◌++◌, false};
ghost use Rattle.plane_core.specs.Outputs.{Writes};

use itoa::{Buffer, Integer};
use plane_core::output::{Out, WriteError};
use std::io::Write;

/// Writes `before` and then `number` in decimal to a writer that hasn't failed. This takes no memory.
///
/// # Errors
///
/// [`WriteError`] if a write fails.
pub fn put_number<W: Write, N: Integer>(
    out: &mut Out<W>,
    before: &[u8],
    number: N,
) -> Result<(), WriteError>
    requires { out.old.failed ≡ false }
    ensures { Writes W.contents out.old out.new result (before.now ++ N.text number) }
{
    let mut buffer = Buffer::new();
    out.put(before)?;
    out.put(buffer.format(number).as_bytes())
}
