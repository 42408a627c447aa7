//! The part of a report line before its counts: the seven fields of the head, and one or two about the soup.
//!
//! ```text
//! report 2 rule=b3s23 profile=64,512,101,30300 seed= worker=1 soup=5 at=404 good=no xp2_7*3 xs4_33*2
//! ----------------------- the head ------------------------------- -- the soup --- -- the counts --
//! ```

ghost use Rattle.std.specs.Prelude.{◌≡◌, ◌<◌, ◌≤◌, ◌-◌, ◌++◌, ◌∷◌, [], IfErr, IfOk, Some, codes, decimal, length};
ghost use Rattle.std.specs.Prelude.{option_map};
ghost use Rattle.haul_core.specs.ClaimSteps.{Fills, FollowsFields, HasReadStart, HasHead, IsHead, claimed, head_of};
ghost use Rattle.haul_core.specs.Claims.{IsFirstFaultOf};

use crate::report::claim::read_field::{
    cut_at, mark_in, profile_in, rule_in, seed_in, soup_in, state_in, version_in, worker_in,
};
use plane_core::plane::rule::Rule;
use survey_core::job::Job;
use survey_core::profile::Profile;
use survey_core::seed::Seed;

/// What a line says before its counts.
#[derive(Clone, Copy)]
pub(crate) struct LineStart {
    pub(crate) version: u8,
    pub(crate) job: Job,
    pub(crate) worker: u8,
    pub(crate) number: u64,
    /// When the soup settled, if it did.
    pub(crate) settled: Option<WhenSettled>,
}

/// When a soup settled, and whether its objects stay for good, if the line says that.
#[derive(Clone, Copy)]
pub(crate) struct WhenSettled {
    pub(crate) checkpoint: u32,
    pub(crate) for_good: Option<bool>,
}

/// Returns what a line says before its counts, and the text of the counts, if there are any. If a field before the
/// counts is wrong or missing, or a field follows `unsettled`, the error is the rest of the line from this fault on.
pub(crate) fn start_in(line: &[u8]) -> Result<(LineStart, Option<&[u8]>), &[u8]>
    ensures ok { IfOk result (λ read. HasReadStart line.now read.0 (option_map (λ remainder. remainder.now) read.1)) }
    ensures err { IfErr result (λ there. IsFirstFaultOf line.now (length line.now - length there.now)) }
{
    match head_in(line) {
        Ok((head, remainder)) => after_head(line, head, remainder),
        Err(there) => Err(there),
    }
}

/// Reads the fields about the soup of a line whose head has been read, and returns what [`start_in`] returns.
fn after_head<'a>(
    line: &'a [u8],
    head: LineStart,
    remainder: Option<&'a [u8]>,
) -> Result<(LineStart, Option<&'a [u8]>), &'a [u8]>
    requires { HasHead line.now 7 head (option_map (λ remainder. remainder.now) remainder) }
    ensures ok { IfOk result (λ read. HasReadStart line.now read.0 (option_map (λ remainder. remainder.now) read.1)) }
    ensures err { IfErr result (λ there. IsFirstFaultOf line.now (length line.now - length there.now)) }
{
    let Some(here) = remainder else {
        return Err(end_of(line));
    };
    let (field, more) = cut_at(b' ', here);
    let Some(state) = state_in(field) else {
        return Err(here);
    };
    match state {
        Some(checkpoint) => settled_in(line, head, checkpoint, more),
        None => match more {
            Some(there) => Err(there),
            None => Ok((head, None)),
        },
    }
}

/// Returns what the fields of the head say, and the text after them. If one of these fields is wrong or missing, the
/// error is the rest of the line from this fault on.
fn head_in(line: &[u8]) -> Result<(LineStart, Option<&[u8]>), &[u8]>
    ensures ok { IfOk result (λ read. HasHead line.now 7 read.0 (option_map (λ remainder. remainder.now) read.1)) }
    ensures err { IfErr result (λ there. IsFirstFaultOf line.now (length line.now - length there.now)) }
{
    let mut head = blank();
    let mut remainder = Some(line);
    for place in 0..7 {
        let Some(here) = remainder else {
            return Err(end_of(line));
        };
        let (field, more) = cut_at(b' ', here);
        let Some(read) = with_field(head, place, field) else {
            return Err(here);
        };
        head = read;
        remainder = more;
    }
    Ok((head, remainder))
}

/// Returns a lawful head, whose fields are then replaced one by one.
fn blank() -> LineStart
    ensures { IsHead result }
{
    let Ok(seed) = Seed::new("") else {
        unreachable!();
    };
    LineStart {
        version: 1,
        job: Job {
            seed,
            profile: Profile::standard(),
            rule: Rule::life(),
        },
        worker: 1,
        number: 0,
        settled: None,
    }
}

/// Returns the head with what the field at this place says, or `None` if the field isn't allowed there.
fn with_field(mut head: LineStart, place: usize, field: &[u8]) -> Option<LineStart>
    requires place { place < 7 }
    requires head { IsHead head }
    ensures { Fills place head field.now result }
{
    match place {
        0 => {
            if field != b"report".as_slice() {
                return None;
            }
        }
        1 => head.version = version_in(field)?,
        2 => head.job.rule = rule_in(field)?,
        3 => head.job.profile = profile_in(field)?,
        4 => head.job.seed = seed_in(field)?,
        5 => head.worker = worker_in(field)?,
        _ => head.number = soup_in(field)?,
    }
    Some(head)
}

/// Reads the rest of the start of a line whose soup settled at this checkpoint, and returns what [`start_in`] returns.
/// In version 2, the first field of `remainder` says whether the objects stay for good.
fn settled_in<'a>(
    line: &'a [u8],
    head: LineStart,
    checkpoint: u32,
    remainder: Option<&'a [u8]>,
) -> Result<(LineStart, Option<&'a [u8]>), &'a [u8]>
    requires head { IsHead head }
    requires checkpoint { checkpoint ≤ 100000 }
    requires follows { FollowsFields line.now (head_of (claimed head []) ++ (codes "at=" ++ decimal checkpoint) ∷ [])
        (option_map (λ remainder. remainder.now) remainder) }
    ensures ok { IfOk result (λ read. HasReadStart line.now read.0 (option_map (λ remainder. remainder.now) read.1)) }
    ensures err { IfErr result (λ there. IsFirstFaultOf line.now (length line.now - length there.now)) }
{
    if head.version == 1 {
        return Ok((with_state(head, checkpoint, None), remainder));
    }
    let Some(here) = remainder else {
        return Err(end_of(line));
    };
    let (field, more) = cut_at(b' ', here);
    let Some(for_good) = mark_in(field) else {
        return Err(here);
    };
    Ok((with_state(head, checkpoint, Some(for_good)), more))
}

/// Returns the start of a line with this head, whose soup settled at this checkpoint.
fn with_state(head: LineStart, checkpoint: u32, for_good: Option<bool>) -> LineStart
    ensures { result ≡ record head { settled = Some (record { checkpoint = checkpoint; for_good = for_good }) } }
{
    let settled = Some(WhenSettled {
        checkpoint,
        for_good,
    });
    LineStart { settled, ..head }
}

/// Returns the empty text at the end of a line.
fn end_of(line: &[u8]) -> &[u8]
    ensures { result.now ≡ [] }
{
    &line[line.len()..]
}
