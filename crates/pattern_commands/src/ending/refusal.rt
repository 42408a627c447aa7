//! Why a text or an input is refused, and the text that says so. `error_line` makes a line of this text.

ghost use Rattle.std.specs.Prelude.{◌≡◌, false};
ghost use Rattle.plane_core.specs.Outputs.{Writes};
ghost use Rattle.pattern_commands.specs.Complaints.{refusal_text};

use code_core::decimal::put_number;
use plane_core::output::{Out, WriteError};
use std::io::Write;

/// Why a text was refused: it doesn't have the required form, goes past a limit, or has parts that don't fit together.
#[derive(Clone, Copy)]
pub enum Refusal {
    /// A byte of a plaintext pattern, at `line` and `column`, that isn't allowed there. Both count from 1.
    BadByte { line: usize, column: usize },
    /// A plaintext pattern with more than 1,000 columns or rows.
    PatternTooLarge,
    /// A rule text whose byte at `place` isn't allowed there, or that ends there too early. Places count bytes from 0.
    BadRule { place: usize },
    /// A rule with birth on zero neighbours.
    BirthZero,
    /// A code whose part before the first `_` isn't a valid prefix.
    NotACode,
    /// A code whose text has more than 10,000 bytes.
    CodeTooLong,
    /// A byte of a code's text, at `place`, that isn't allowed there. Places count bytes of the text from 0.
    CodeBadByte { place: usize },
    /// A `y` in a code's text, at `place`, that isn't followed by the length of its run.
    CodeShortRun { place: usize },
    /// A code whose text has no live cell.
    CodeEmpty,
    /// A seed of more than 64 bytes.
    SeedTooLong,
    /// A byte of a seed, at `place`, that isn't a visible ASCII character. Places count bytes from 0.
    SeedBadByte { place: usize },
    /// A profile whose horizon is below its period.
    HorizonBelowPeriod,
    /// A list of ranges with a fault at `place`: a byte that isn't allowed there, the end of a text that ends too
    /// early, or a decimal of 2^64 or more that begins there. Places count bytes from 0.
    BadList { place: usize },
    /// Ranges that have more than 2^24 numbers together, or a range that ends past 2^40.
    RangeTooLarge,
    /// Two ranges that share a number.
    RangesOverlap,
}

impl Refusal {
    /// Writes the text of the refusal piece by piece. No earlier write may have failed. This takes no memory.
    ///
    /// # Errors
    ///
    /// [`WriteError`] if a write fails.
    pub(crate) fn put_text<E: Write>(self, errors: &mut Out<E>) -> Result<(), WriteError>
        requires { errors.old.failed ≡ false }
        ensures { Writes E.contents errors.old errors.new result (refusal_text self) }
    {
        match self {
            Refusal::BadByte { line, column } => put_bad_byte(errors, line, column),
            Refusal::PatternTooLarge => errors.put(b"pattern larger than 1000 by 1000"),
            Refusal::BadRule { place } => put_number(errors, b"bad rule at ", place),
            Refusal::BirthZero => errors.put(b"birth on zero neighbours"),
            Refusal::NotACode => errors.put(b"not a code"),
            Refusal::CodeTooLong => errors.put(b"code too long"),
            Refusal::CodeBadByte { place } => put_number(errors, b"bad byte in code at ", place),
            Refusal::CodeShortRun { place } => put_number(errors, b"short run in code at ", place),
            Refusal::CodeEmpty => errors.put(b"code without a live cell"),
            Refusal::SeedTooLong => errors.put(b"seed longer than 64 bytes"),
            Refusal::SeedBadByte { place } => put_number(errors, b"bad byte in seed at ", place),
            Refusal::HorizonBelowPeriod => errors.put(b"horizon below period"),
            Refusal::BadList { place } => put_number(errors, b"bad range list at ", place),
            Refusal::RangeTooLarge => errors.put(b"range too large"),
            Refusal::RangesOverlap => errors.put(b"ranges overlap"),
        }
    }
}

/// Writes the text about a bad byte of a pattern.
fn put_bad_byte<E: Write>(errors: &mut Out<E>, line: usize, column: usize) -> Result<(), WriteError>
    requires { errors.old.failed ≡ false }
    ensures { Writes E.contents errors.old errors.new result (refusal_text (Refusal.BadByte line column)) }
{
    put_number(errors, b"bad byte at line ", line)?;
    put_number(errors, b" column ", column)
}
