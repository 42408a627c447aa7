//! `run`: the pattern of the input after a number of generations, as plaintext or as coordinates.
//!
//! ```text
//! rule ── input ── pattern ── run ── text
//!   │       │                  │
//!   └───────┴─ refused         └─ out of memory
//! ```

ghost use Rattle.std.specs.Prelude.{◌≡◌, ◌≤◌, ◌+◌, ◌^◌, ℕ, List, false, is_ok, IsErr, IfOk, IfErr, true};
ghost use Rattle.memory.specs.Witness.{out_of_memory};
ghost use Rattle.plane_core.specs.plane.Generations.{after, lies_within};
ghost use Rattle.pattern_commands.specs.Answers.{IsInput, only};
ghost use Rattle.pattern_commands.specs.Ends.{Ends};
ghost use Rattle.pattern_commands.specs.Found.{HasFound, answer_with};
ghost use Rattle.plane_core.specs.plane.Cells.{plane_bound};
ghost use Rattle.pattern_commands.specs.Inputs.{HasReadAtMost, rule_named};
ghost use Rattle.pattern_commands.specs.PatternText.{pattern_text};
ghost use Rattle.requests.specs.declared.form.PatternForm.{PatternForm as Form};
ghost use Rattle.pattern_commands.specs.Run.{run_answer, run_behaviour};
ghost use Rattle.pattern_commands.specs.Streams.{stream};

use crate::ending::complaint::Complaint;
use crate::ending::status::Status;
use crate::input::read_ruled_pattern;
use crate::pattern_text::end_with_pattern;
use plane_core::output::Out;
use plane_core::plane::pattern::Pattern;
use plane_core::plane::rule::Rule;
use requests::form::PatternForm;
use std::alloc::Global;
use std::io::{Read, Write};

/// Reads a plaintext pattern, runs it for `generations` generations of a rule, and writes the result in the given form.
/// The coordinates are those of the input, whose first row and column are 0.
///
/// `generations` is at most 100,000. A pattern of at most 1,000 by 1,000 cells takes far longer to reach the edge of
/// the plane, because its box grows by at most one cell per side and generation. No earlier write to either writer may
/// have failed. The rule is read first. If it is refused, the input isn't read. `census run N --rule RULE` is this call
/// with the standard streams.
///
/// # Errors
///
/// The status is `Refused` for a text that isn't a rule or an input that isn't a pattern of at most 1,000 by 1,000
/// cells; `Memory` if memory runs out; and `Failed` if the input can't be read or has more than 2^24 bytes, or if the
/// output can't be written. In these cases, a line is written to `errors`. A failure to write that line is not
/// reported.
pub fn do_run<R: Read, W: Write, E: Write>(
    alloc: Global,
    generations: u32,
    form: PatternForm,
    rule_text: &str,
    input: &mut R,
    output: &mut Out<W>,
    errors: &mut Out<E>,
) -> Status
    requires generations { generations ≤ 100000 }
    requires output { output.old.failed ≡ false }
    requires errors { errors.old.failed ≡ false }
    ensures ends { (bytes : List ℕ) × IsInput (R.remaining input.old) bytes
        × Ends (run_behaviour form rule_text.now generations) (R.remaining input.old) bytes result
        (stream W.contents output.old output.new) (stream E.contents errors.old errors.new) }
    ensures rule_first { IsErr (rule_named rule_text.now) → (result ≡ Status.Refused) × (input.new ≡ input.old) }
    ensures untouched { result ≡ Status.Refused → output.new ≡ output.old }
    ensures little { HasReadAtMost (2 ^ 24 + 2 ^ 16) (R.remaining input.old) (R.remaining input.new) }
    ensures no_memory { result ≡ Status.Memory → output.new ≡ output.old }
{
    let found = generation_of(alloc, generations, rule_text, input);
    end_with_pattern(found, form, output, errors)
}

/// Reads the rule and the pattern, and returns the pattern after `generations` generations.
fn generation_of<R: Read>(
    alloc: Global,
    generations: u32,
    rule_text: &str,
    input: &mut R,
) -> Result<Pattern, Complaint>
    requires { generations ≤ 100000 }
    ensures { HasFound (is_ok (rule_named rule_text.now))
        (λ bytes found. (form : Form)
        → only (run_answer form rule_text.now generations bytes) (answer_with (pattern_text form) found))
        R.remaining input.old input.new result }
{
    let (rule, pattern) = read_ruled_pattern(alloc, rule_text, input)?;
    generation_after(alloc, &pattern, &rule, generations)
}

/// Returns the pattern after `generations` generations. This fails only if memory runs out, because the pattern is too
/// far from the edge of the plane to reach the edge in these generations.
pub(crate) fn generation_after(
    alloc: Global,
    pattern: &Pattern,
    rule: &Rule,
    generations: u32,
) -> Result<Pattern, Complaint>
    requires far { (reach : ℕ) × (lies_within reach pattern.now ≡ true) × (reach + generations ≤ plane_bound) }
    ensures ok { IfOk result (λ later. later ≡ after rule.now pattern.now generations) }
    ensures err { IfErr result (λ complaint. complaint ≡ Complaint.Memory out_of_memory) }
{
    match pattern.run(alloc, rule, generations) {
        Ok(later) => Ok(later),
        Err(error) => Err(Complaint::Memory(error.refusal())),
    }
}
