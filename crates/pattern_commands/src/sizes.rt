//! `run --sizes`: the population and the bounding box of each generation.
//!
//! ```text
//! rule ── input ── pattern ── run ── generation FROM ── stretch ── stretch ── ..
//!   │       │                  │            └─ line        └─ lines   └─ lines
//!   └───────┴─ refused         └─ out of memory
//! ```

ghost use Rattle.std.specs.Prelude.{◌≡◌, ◌+◌, ◌-◌, ◌≤◌, ◌^◌, ℕ, List, false, IsErr, IfOk, true};
ghost use Rattle.plane_core.specs.plane.Generations.{lies_within};
ghost use Rattle.pattern_commands.specs.Answers.{IsInput};
ghost use Rattle.pattern_commands.specs.Ends.{Ends};
ghost use Rattle.pattern_commands.specs.Inputs.{HasReadAtMost, LiesWithin999, rule_named};
ghost use Rattle.pattern_commands.specs.SizeSteps.{PutsLines, later_sizes};
ghost use Rattle.pattern_commands.specs.Sizes.{sizes_behaviour, sizes_text};
ghost use Rattle.pattern_commands.specs.Streams.{stream};

mod parts;
mod size;
mod stretch;

use crate::ending::complaint::Complaint;
use crate::ending::end_text_command;
use crate::ending::status::Status;
use crate::input::read_ruled_pattern;
use crate::run::generation_after;
use crate::sizes::size::Size;
use crate::sizes::stretch::put_stretch;
use plane_core::output::Out;
use plane_core::plane::pattern::Pattern;
use plane_core::plane::rule::Rule;
use std::alloc::Global;
use std::io::{Read, Write};

/// The most generations of a stretch, in which each part of the pattern runs on a board of its own. In a longer
/// stretch, the parts would have to be farther apart, so there would be fewer parts.
const STRETCH: u32 = 16;

/// Reads a plaintext pattern, and writes a line for each generation from `from` to `last`: its number, its population
/// and, unless it is empty, the left, top, right and bottom side of its bounding box. The coordinates are those of the
/// input, whose first row and column are 0.
///
/// `from` is at most `last`, which is at most 100,000. No earlier write to either writer may have failed. The rule is
/// read first. If it is refused, the input isn't read. The lines are written while the pattern runs, so they aren't
/// kept in memory. `census run N --sizes FROM` is this call with the standard streams.
///
/// # Errors
///
/// The status is `Refused` for a text that isn't a rule or an input that isn't a pattern of at most 1,000 by 1,000
/// cells; `Memory` if memory runs out; and `Failed` if the input can't be read or has more than 2^24 bytes, or if the
/// output can't be written. In these cases, a line is written to `errors`. A failure to write that line is not
/// reported.
pub fn do_sizes<R: Read, W: Write, E: Write>(
    alloc: Global,
    from: u32,
    last: u32,
    rule_text: &str,
    input: &mut R,
    output: &mut Out<W>,
    errors: &mut Out<E>,
) -> Status
    requires order { from ≤ last }
    requires generations { last ≤ 100000 }
    requires output { output.old.failed ≡ false }
    requires errors { errors.old.failed ≡ false }
    ensures ends { (bytes : List ℕ) × IsInput (R.remaining input.old) bytes
        × Ends (sizes_behaviour rule_text.now from last) (R.remaining input.old) bytes result
        (stream W.contents output.old output.new) (stream E.contents errors.old errors.new) }
    ensures rule_first { IsErr (rule_named rule_text.now) → (result ≡ Status.Refused) × (input.new ≡ input.old) }
    ensures untouched { result ≡ Status.Refused → output.new ≡ output.old }
    ensures little { HasReadAtMost (2 ^ 24 + 2 ^ 16) (R.remaining input.old) (R.remaining input.new) }
{
    let (rule, pattern) = match read_ruled_pattern(alloc, rule_text, input) {
        Ok(read) => read,
        Err(complaint) => return complaint.end_command(errors),
    };
    let outcome = put_sizes(alloc, &rule, &pattern, from, last, output);
    end_text_command(outcome, errors)
}

/// Runs the pattern, and writes the lines of generations `from` to `last`.
fn put_sizes<W: Write>(
    alloc: Global,
    rule: &Rule,
    pattern: &Pattern,
    from: u32,
    last: u32,
    output: &mut Out<W>,
) -> Result<(), Complaint>
    requires small { LiesWithin999 pattern.now }
    requires order { from ≤ last }
    requires generations { last ≤ 100000 }
    requires output { output.old.failed ≡ false }
    ensures { PutsLines (λ _. sizes_text rule.now pattern.now from (last + 1 - from))
        (sizes_text rule.now pattern.now from (last + 1 - from)) result (stream W.contents output.old output.new) }
{
    let pattern = generation_after(alloc, pattern, rule, from)?;
    Size::of(&pattern).put_line(from, output)?;
    put_later_sizes(alloc, rule, pattern, from, last, output)
}

/// Writes the lines of the generations after generation `from`, up to generation `last`. `pattern` is generation
/// `from`.
fn put_later_sizes<W: Write>(
    alloc: Global,
    rule: &Rule,
    pattern: Pattern,
    from: u32,
    last: u32,
    output: &mut Out<W>,
) -> Result<(), Complaint>
    requires near { lies_within (999 + from) pattern ≡ true }
    requires order { from ≤ last }
    requires generations { last ≤ 100000 }
    requires output { output.old.failed ≡ false }
    ensures { PutsLines (λ _. later_sizes rule.now pattern from (last - from))
        (later_sizes rule.now pattern from (last - from))
        result (stream W.contents output.old output.new) }
{
    let mut pattern = pattern;
    let mut generation = from;
    while generation < last {
        let most = (last - generation).min(STRETCH);
        let made = put_next_sizes(alloc, rule, &pattern, generation, most, output)?;
        pattern = generation_after(alloc, &pattern, rule, made)?;
        generation += made;
    }
    Ok(())
}

/// Writes the lines of the next generations after generation `generation`, and returns their number, which is from 1 to
/// `most`. `pattern` is generation `generation`.
fn put_next_sizes<W: Write>(
    alloc: Global,
    rule: &Rule,
    pattern: &Pattern,
    generation: u32,
    most: u32,
    output: &mut Out<W>,
) -> Result<u32, Complaint>
    requires near { lies_within (999 + generation) pattern.now ≡ true }
    requires some { 1 ≤ most }
    requires most { most ≤ 1000 }
    requires generation { generation + most ≤ 100000 }
    requires output { output.old.failed ≡ false }
    ensures made { IfOk result (λ made. (1 ≤ made) × (made ≤ most)) }
    ensures lines { PutsLines (later_sizes rule.now pattern.now generation)
        (later_sizes rule.now pattern.now generation most) result (stream W.contents output.old output.new) }
{
    let made = put_stretch(alloc, rule, pattern, generation, most, output)?;
    if made > 0 {
        return Ok(made);
    }
    let next = generation_after(alloc, pattern, rule, 1)?;
    Size::of(&next).put_line(generation + 1, output)?;
    Ok(1)
}
