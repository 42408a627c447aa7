//! Writes report lines, in which workers on other machines report what they found.
//!
//! ```text
//! report 2 rule=b3s23 profile=64,512,101,30300 seed= worker=1 soup=5 at=404 good=no xp2_7*3 xs4_33*2
//! ```

ghost use Rattle.std.specs.Prelude.{◌≡◌, ◌++◌, ℕ, List, Some, codes, false, flat_map};
ghost use Rattle.plane_core.specs.Outputs.{Writes};
ghost use Rattle.haul_core.specs.HaulTexts.{line_of, spaced};
ghost use Rattle.haul_core.specs.ReportLines.{claim_of, count_field, found_fields, head_fields, mark_fields};
ghost use Rattle.haul_core.specs.ReportLines.{profile_field, report_text, said_of};

use crate::report::Report;
use code_core::apgcode::Apgcode;
use code_core::decimal::put_number;
use plane_core::output::{Out, WriteError};
use std::io::Write;
use survey_core::finding::Finding;
use survey_core::profile::Profile;

/// Writes the line of a report, in version 2, with the line feed that ends it. No earlier write to the `Out` may have
/// failed.
///
/// This takes no memory. The line is written in many small pieces, so the writer should be buffered, for example by a
/// `BufWriter`.
///
/// # Errors
///
/// [`WriteError`] if a write fails or takes no byte. A prefix of the line may have been written.
pub fn write_report_line<W: Write>(report: &Report, out: &mut Out<W>) -> Result<(), WriteError>
    requires { out.old.failed ≡ false }
    ensures { Writes W.contents out.old out.new result (report_text report.now) }
{
    put_head(out, report)?;
    put_finding(out, report.finding())?;
    out.put(b"\n")
}

/// Writes the head of the line: the fields before the finding.
fn put_head<W: Write>(out: &mut Out<W>, report: &Report) -> Result<(), WriteError>
    requires { out.old.failed ≡ false }
    ensures { Writes W.contents out.old out.new result
        (line_of (codes "report") (head_fields (claim_of 2 report.now))) }
{
    let job = report.job();
    out.put(b"report 2 rule=")?;
    job.rule.write_text(out)?;
    put_profile(out, &job.profile)?;
    out.put(b" seed=")?;
    out.put(job.seed.bytes())?;
    put_number(out, b" worker=", report.worker())?;
    put_number(out, b" soup=", report.number())
}

/// Writes the field of a profile, with a space before it.
fn put_profile<W: Write>(out: &mut Out<W>, profile: &Profile) -> Result<(), WriteError>
    requires { out.old.failed ≡ false }
    ensures { Writes W.contents out.old out.new result (spaced (profile_field profile.now)) }
{
    put_number(out, b" profile=", profile.period())?;
    put_number(out, b",", profile.horizon())?;
    put_number(out, b",", profile.stride())?;
    put_number(out, b",", profile.limit())
}

/// Writes the fields of a finding, with a space before each field.
fn put_finding<W: Write>(out: &mut Out<W>, finding: &Finding) -> Result<(), WriteError>
    requires { out.old.failed ≡ false }
    ensures { Writes W.contents out.old out.new result (flat_map spaced (found_fields (said_of 2 finding.now))) }
{
    match finding {
        Finding::Settled {
            checkpoint,
            objects,
            for_good,
        } => {
            put_number(out, b" at=", *checkpoint)?;
            put_mark(out, *for_good)?;
            put_counts(out, objects.as_slice())
        }
        Finding::Unsettled => out.put(b" unsettled"),
    }
}

/// Writes the field that says whether the objects stay for good, with a space before it.
#[tactic(auto, unfolding(crate::specs::ReportLines::mark_field, crate::specs::ReportLines::mark_fields))]
fn put_mark<W: Write>(out: &mut Out<W>, for_good: bool) -> Result<(), WriteError>
    requires { out.old.failed ≡ false }
    ensures { Writes W.contents out.old out.new result (flat_map spaced (mark_fields (Some for_good))) }
{
    if for_good {
        out.put(b" good=yes")
    } else {
        out.put(b" good=no")
    }
}

/// Writes a field for each code, with a space before each field.
fn put_counts<W: Write>(out: &mut Out<W>, counts: &[(Apgcode, u64)]) -> Result<(), WriteError>
    requires { out.old.failed ≡ false }
    ensures { Writes W.contents out.old out.new result (flat_map (λ object. spaced (count_field object)) counts.now) }
{
    for object in counts {
        put_count(out, object)?;
    }
    Ok(())
}

/// Writes the field of a code, with a space before it: the code, `*` and the number of objects that have the code.
fn put_count<W: Write>(out: &mut Out<W>, object: &(Apgcode, u64)) -> Result<(), WriteError>
    requires { out.old.failed ≡ false }
    ensures { Writes W.contents out.old out.new result (spaced (count_field object.now)) }
{
    out.put(b" ")?;
    out.put(object.0.text().as_bytes())?;
    put_number(out, b"*", object.1)
}
