//! `name`: when the pattern of the input settles, and into which objects.
//!
//! ```text
//! profile ── rule ── input ── pattern ── survey ── finding ── a line for each code
//!    │        │        │
//!    └────────┴────────┴─ refused
//! ```

ghost use Rattle.std.specs.Prelude.{◌≡◌, ◌&&◌, ◌++◌, ◌+◌, ◌^◌, ℕ, List, codes, decimal, false, flat_map, is_ok, IsErr};
ghost use Rattle.plane_core.specs.Outputs.{Writes};
ghost use Rattle.pattern_commands.specs.Answers.{IsInput};
ghost use Rattle.pattern_commands.specs.Ends.{Ends};
ghost use Rattle.pattern_commands.specs.Found.{EndsFound, HasFound, answer_with};
ghost use Rattle.pattern_commands.specs.Inputs.{HasReadAtMost, rule_named};
ghost use Rattle.pattern_commands.specs.Name.{finding_text, name_right, name_behaviour, object_line};
ghost use Rattle.pattern_commands.specs.Profiles.{AreInRange, profile_named};
ghost use Rattle.pattern_commands.specs.Streams.{stream};

use crate::ending::complaint::Complaint;
use crate::ending::status::Status;
use crate::input::read_ruled_pattern;
use crate::profile::profile_named;
use code_core::apgcode::Apgcode;
use code_core::decimal::put_number;
use plane_core::output::{Out, WriteError};
use requests::plan::ProfileNumbers;
use std::alloc::Global;
use std::io::{Read, Write};
use survey_core::finding::{Finding, survey_pattern};

/// Reads a plaintext pattern and writes its finding. If the pattern settles, the finding is a line with the first
/// checkpoint at which the pattern is at rest, and then a line for each code, in ASCII order, with the number of
/// objects that have it. Otherwise the finding is the line `unsettled`.
///
/// Each number of the profile has to be in its range, and no earlier write to either writer may have failed. First the
/// profile is checked, and then the rule. If one of them is refused, the input isn't read. `census name` is this call
/// with the standard streams.
///
/// # Errors
///
/// The status is `Refused` if the horizon is below the period, `rule_text` isn't a rule, or the input isn't a pattern
/// of at most 1,000 by 1,000 cells; `Memory` if memory runs out; and `Failed` if the input can't be read or has more
/// than 2^24 bytes, or if the output can't be written. In these cases, a line is written to `errors`. A failure to
/// write that line is not reported.
pub fn do_name<R: Read, W: Write, E: Write>(
    alloc: Global,
    profile: ProfileNumbers,
    rule_text: &str,
    input: &mut R,
    output: &mut Out<W>,
    errors: &mut Out<E>,
) -> Status
    requires profile { AreInRange profile }
    requires output { output.old.failed ≡ false }
    requires errors { errors.old.failed ≡ false }
    ensures ends { (bytes : List ℕ) × IsInput (R.remaining input.old) bytes
        × Ends (name_behaviour profile rule_text.now) (R.remaining input.old) bytes result
        (stream W.contents output.old output.new) (stream E.contents errors.old errors.new) }
    ensures profile_first { IsErr (profile_named profile) → (result ≡ Status.Refused) × (input.new ≡ input.old) }
    ensures rule_first { IsErr (rule_named rule_text.now) → (result ≡ Status.Refused) × (input.new ≡ input.old) }
    ensures untouched { result ≡ Status.Refused → output.new ≡ output.old }
    ensures little { HasReadAtMost (2 ^ 24 + 2 ^ 16) (R.remaining input.old) (R.remaining input.new) }
    ensures no_memory { result ≡ Status.Memory → output.new ≡ output.old }
{
    let found = finding_of(alloc, profile, rule_text, input);
    end_with_finding(found, output, errors)
}

/// Reads the profile, the rule and the pattern, and returns the pattern's finding.
fn finding_of<R: Read>(
    alloc: Global,
    profile: ProfileNumbers,
    rule_text: &str,
    input: &mut R,
) -> Result<Finding, Complaint>
    requires { AreInRange profile }
    ensures { HasFound (is_ok (profile_named profile) && is_ok (rule_named rule_text.now))
        (λ bytes found. name_right profile rule_text.now bytes (answer_with finding_text found))
        R.remaining input.old input.new result }
{
    let profile = profile_named(profile)?;
    let (rule, pattern) = read_ruled_pattern(alloc, rule_text, input)?;
    Ok(survey_pattern(alloc, &profile, &rule, pattern)?)
}

/// Ends a command that has surveyed a pattern, or couldn't: writes the finding, or the line of the complaint, and
/// returns the status. A failure to write the line is not reported.
fn end_with_finding<W: Write, E: Write>(
    found: Result<Finding, Complaint>,
    output: &mut Out<W>,
    errors: &mut Out<E>,
) -> Status
    requires output { output.old.failed ≡ false }
    requires errors { errors.old.failed ≡ false }
    ensures { EndsFound finding_text found result W.contents output.old output.new
        (stream E.contents errors.old errors.new) }
{
    let finding = match found {
        Ok(finding) => finding,
        Err(complaint) => return complaint.end_command(errors),
    };
    match put_finding(output, &finding) {
        Ok(()) => Status::Done,
        Err(error) => Complaint::WriteFailed(error).end_command(errors),
    }
}

/// Writes a finding. This takes no memory.
fn put_finding<W: Write>(output: &mut Out<W>, finding: &Finding) -> Result<(), WriteError>
    requires { output.old.failed ≡ false }
    ensures { Writes W.contents output.old output.new result (finding_text finding.now) }
{
    match finding {
        Finding::Settled {
            checkpoint,
            objects,
            ..
        } => {
            put_settled(output, *checkpoint)?;
            put_objects(output, objects.as_slice())
        }
        Finding::Unsettled => output.put(b"unsettled\n"),
    }
}

/// Writes the line with the checkpoint at which the pattern settled.
fn put_settled<W: Write>(output: &mut Out<W>, checkpoint: u32) -> Result<(), WriteError>
    requires { output.old.failed ≡ false }
    ensures { Writes W.contents output.old output.new result (codes "settled " ++ decimal checkpoint ++ codes "\n") }
{
    put_number(output, b"settled ", checkpoint)?;
    output.put(b"\n")
}

/// Writes a line for each code of the objects.
fn put_objects<W: Write>(output: &mut Out<W>, objects: &[(Apgcode, u64)]) -> Result<(), WriteError>
    requires { output.old.failed ≡ false }
    ensures { Writes W.contents output.old output.new result (flat_map object_line objects.now) }
{
    for object in objects {
        put_object(output, object)?;
    }
    Ok(())
}

/// Writes the line of a code: the code, and how many objects have it.
fn put_object<W: Write>(output: &mut Out<W>, object: &(Apgcode, u64)) -> Result<(), WriteError>
    requires { output.old.failed ≡ false }
    ensures { Writes W.contents output.old output.new result (object_line object.now) }
{
    let (code, count) = object;
    output.put(code.text().as_bytes())?;
    put_number(output, b" ", *count)?;
    output.put(b"\n")
}
