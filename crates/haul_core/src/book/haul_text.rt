//! Writes the haul text of a census.
//!
//! ```text
//! census ── head ── ranges ── sums ── totals, a line for each code ── samples, a line for each code
//! ```

ghost use Rattle.std.specs.Prelude.{◌≡◌, false, map};
ghost use Rattle.plane_core.specs.Outputs.{Writes};
ghost use Rattle.haul_core.specs.HaulTexts.{ended, haul_text, head_lines, line_of, profile_line, range_line};
ghost use Rattle.haul_core.specs.HaulTexts.{range_lines, sample_lines, sum_lines, text_of, total_lines};

use crate::book::census::Census;
use crate::book::census_rows::Row;
use code_core::decimal::put_number;
use itoa::Integer;
use plane_core::output::{Out, WriteError};
use ranges::range::Range;
use std::io::Write;
use survey_core::job::Job;
use survey_core::profile::Profile;

/// Writes the haul text of a census: the job, the set of soup numbers, the sums, and two lines for each code, one with
/// its total and one with its samples. No earlier write to the `Out` may have failed.
///
/// This takes no memory. The text is written in many small pieces, such as each number, so the writer should be
/// buffered, for example by a `BufWriter`.
///
/// # Errors
///
/// [`WriteError`] if a write fails or takes no byte. A prefix of the text may have been written.
pub fn write_haul<W: Write>(census: &Census, out: &mut Out<W>) -> Result<(), WriteError>
    requires { out.old.failed ≡ false }
    ensures { Writes W.contents out.old out.new result (haul_text census.now) }
{
    put_head(out, &census.job)?;
    put_ranges(out, census.ranges.as_slice())?;
    put_sums(out, census)?;
    put_totals(out, census.rows.as_slice())?;
    put_samples(out, census.rows.as_slice())
}

/// Writes the head: the version, the seed, the rule, the symmetry and the profile.
fn put_head<W: Write>(out: &mut Out<W>, job: &Job) -> Result<(), WriteError>
    requires { out.old.failed ≡ false }
    ensures { Writes W.contents out.old out.new result (text_of (head_lines job.now)) }
{
    out.put(b"@VERSION 2\n@ROOT seed=")?;
    out.put(job.seed.bytes())?;
    out.put(b"\n@RULE ")?;
    job.rule.write_text(out)?;
    out.put(b"\n@SYMMETRY C1\n")?;
    put_profile(out, &job.profile)
}

/// Writes the line of the profile.
fn put_profile<W: Write>(out: &mut Out<W>, profile: &Profile) -> Result<(), WriteError>
    requires { out.old.failed ≡ false }
    ensures { Writes W.contents out.old out.new result (ended (profile_line profile.now)) }
{
    let numbers = [
        profile.period(),
        profile.horizon(),
        profile.stride(),
        profile.limit(),
    ];
    put_line(out, b"@PROFILE", &numbers)
}

/// Writes a line for each range, or the line of an empty range if there are no ranges.
fn put_ranges<W: Write>(out: &mut Out<W>, ranges: &[Range]) -> Result<(), WriteError>
    requires { out.old.failed ≡ false }
    ensures { Writes W.contents out.old out.new result (text_of (range_lines ranges.now)) }
{
    if ranges.is_empty() {
        return put_range(out, &Range { first: 0, count: 0 });
    }
    for range in ranges {
        put_range(out, range)?;
    }
    Ok(())
}

/// Writes the line of a range.
fn put_range<W: Write>(out: &mut Out<W>, range: &Range) -> Result<(), WriteError>
    requires { out.old.failed ≡ false }
    ensures { Writes W.contents out.old out.new result (ended (range_line range.now)) }
{
    put_line(out, b"@RANGE", &[range.first, range.count])
}

/// Writes the sums, a line for each: the numbers of soups, unsettled soups, soups whose objects stay for good, and
/// objects.
fn put_sums<W: Write>(out: &mut Out<W>, census: &Census) -> Result<(), WriteError>
    requires { out.old.failed ≡ false }
    ensures { Writes W.contents out.old out.new result (text_of (sum_lines census.now)) }
{
    put_line(out, b"@NUM_SOUPS", &[census.soups])?;
    put_line(out, b"@NUM_UNSETTLED", &[census.unsettled])?;
    put_line(out, b"@NUM_FOR_GOOD", &[census.for_good])?;
    put_line(out, b"@NUM_OBJECTS", &[census.objects])
}

/// Writes the table of totals: a title, and a line for each row with its code and its total.
fn put_totals<W: Write>(out: &mut Out<W>, rows: &[Row]) -> Result<(), WriteError>
    requires { out.old.failed ≡ false }
    ensures { Writes W.contents out.old out.new result (text_of (total_lines rows.now)) }
{
    out.put(b"\n@CENSUS TABLE\n")?;
    for row in rows {
        put_line(out, row.code.text().as_bytes(), &[row.total])?;
    }
    Ok(())
}

/// Writes the table of samples: a title, and a line for each row with its code and its samples.
fn put_samples<W: Write>(out: &mut Out<W>, rows: &[Row]) -> Result<(), WriteError>
    requires { out.old.failed ≡ false }
    ensures { Writes W.contents out.old out.new result (text_of (sample_lines rows.now)) }
{
    out.put(b"\n@SAMPLE_SOUPIDS\n")?;
    for row in rows {
        put_line(out, row.code.text().as_bytes(), row.samples.as_slice())?;
    }
    Ok(())
}

/// Writes a line: a name, and numbers in decimal with a space before each.
fn put_line<W: Write, N: Integer>(
    out: &mut Out<W>,
    name: &[u8],
    numbers: &[N],
) -> Result<(), WriteError>
    requires { out.old.failed ≡ false }
    ensures { Writes W.contents out.old out.new result (ended (line_of name.now (map N.text numbers.now))) }
{
    out.put(name)?;
    for number in numbers {
        put_number(out, b" ", *number)?;
    }
    out.put(b"\n")
}
