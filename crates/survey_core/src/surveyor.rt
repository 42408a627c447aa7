//! A surveyor: what a worker keeps from soup to soup, and the loop over the checkpoints of one pattern.
//!
//! ```text
//! checkpoint 0      101        202        303
//! pattern    list   board      board      board      until a checkpoint at which it is at rest, or the limit
//!            │      │          │          │
//!            examine: quick tests, and then all clusters
//! ```
ghost use Rattle.std.specs.Prelude.{◌≡◌, IfNone, IfOk, IfSome, OnOk, true};
ghost use Rattle.std.specs.Prelude.{◌<◌, ◌^◌};
ghost use Rattle.plane_core.specs.plane.Generations.{lies_within};
ghost use Rattle.survey_core.specs.evolution.Evolutions.{IsKept, kept};
ghost use Rattle.survey_core.specs.UnderWay.{survey_reach};
ghost use Rattle.survey_core.specs.Findings.{IsSurvey, SettlesAt, objects_in};
ghost use Rattle.survey_core.specs.rest.KnownRestless.{AreKnownRestless};
ghost use Rattle.survey_core.specs.rest.Rest.{IsAtRest};
ghost use Rattle.survey_core.specs.Soups.{soup};

use crate::evolution::Evolution;
use crate::evolution::spare_board::SpareBoard;
use crate::finding::Finding;
use crate::job::Job;
use crate::profile::Profile;
use crate::rest::clusters_at_rest;
use crate::shapes::memo::Memo;
use crate::shapes::objects::Objects;
use crate::soup::soup;
use memory::OutOfMemory;
use plane_core::plane::pattern::Pattern;
use plane_core::plane::rule::Rule;
use std::alloc::Global;

/// What a worker keeps from soup to soup: a memo table of shapes, and a board.
///
/// One surveyor can survey the soups of any jobs, one after another. What it remembers affects only how long a survey
/// takes, never its finding.
#[derive(Drop)]
pub struct Surveyor {
    memo: Memo,
    spare: SpareBoard,
}

impl Surveyor {
    /// Returns a surveyor for many soups. Its memo has room for 4,096 shapes, and takes half a megabyte, or about three
    /// megabytes if all shapes are large. If there is no memory for the memo, the surveyor works without a memo.
    pub fn new(alloc: Global) -> Surveyor {
        Surveyor {
            memo: Memo::new(alloc),
            spare: SpareBoard::none(),
        }
    }

    /// Returns a surveyor without a memo, for a single soup. It remembers no shape, and making it takes no memory.
    pub fn without_memo(alloc: Global) -> Surveyor {
        Surveyor {
            memo: Memo::without_room(alloc),
            spare: SpareBoard::none(),
        }
    }

    /// Returns the finding of soup `number` of the job. The finding has fewer than 2^64 objects.
    ///
    /// # Errors
    ///
    /// [`OutOfMemory`] if memory runs out.
    pub fn survey(&mut self, alloc: Global, job: &Job, number: u64) -> Result<Finding, OutOfMemory>
        ensures { IfOk result (IsSurvey job.now.rule job.now.profile (soup job.now.seed number)) }
    {
        let pattern = soup(alloc, job, number)?;
        self.survey_pattern(alloc, &job.profile, &job.rule, pattern)
    }

    /// Returns the finding of `pattern`, whose coordinates must be from -1,000 to 1,000. The finding has fewer than
    /// 2^64 objects.
    ///
    /// The time grows with the number of generations that are run, and with the number of live cells in them.
    ///
    /// # Errors
    ///
    /// [`OutOfMemory`] if memory runs out. The pattern is dropped in this case too.
    pub fn survey_pattern(
        &mut self,
        alloc: Global,
        profile: &Profile,
        rule: &Rule,
        pattern: Pattern,
    ) -> Result<Finding, OutOfMemory>
        requires { lies_within 1000 pattern ≡ true }
        ensures { IfOk result (IsSurvey rule.now profile.now pattern) }
    {
        let Surveyor { memo, spare } = self;
        let limit = profile.limit();
        let stride = profile.stride();
        let mut evolution = Evolution::Listed(pattern);
        let mut known_restless = [false; 2];
        let mut checkpoint = 0;
        loop {
            let found = examine(
                alloc,
                profile,
                rule,
                checkpoint,
                &evolution,
                &mut known_restless,
                memo,
            )?;
            if let Some(finding) = found {
                evolution.end(spare);
                return Ok(finding);
            }
            if limit - checkpoint < stride {
                evolution.end(spare);
                return Ok(Finding::Unsettled);
            }
            evolution = evolution.go_on(alloc, rule, profile, memo, spare)?;
            checkpoint += stride;
        }
    }
}

/// Returns the finding of a pattern if it is at rest at this checkpoint, and otherwise `None`.
///
/// If the pattern is the same after every even number of generations, and it isn't at rest at a checkpoint, then it
/// isn't at rest an even number of generations later either. `known_restless` records this: the first entry for even
/// generations, and the second for odd ones.
///
/// ```text
/// generation   404   505   606   707   808
/// at rest?     no    no    -     -     -       From 404 on, the pattern is the same after every two generations.
/// ```
fn examine(
    alloc: Global,
    profile: &Profile,
    rule: &Rule,
    checkpoint: u32,
    evolution: &Evolution,
    known_restless: &mut [bool; 2],
    memo: &mut Memo,
) -> Result<Option<Finding>, OutOfMemory>
    requires kept { IsKept rule.now evolution.now }
    requires near { lies_within survey_reach (kept rule.now evolution.now) ≡ true }
    requires known_restless { AreKnownRestless rule.now profile.now (kept rule.now evolution.now)
        checkpoint known_restless.old }
    ensures settled { IfOk result
        (λ found. IfSome found (SettlesAt rule.now profile.now (kept rule.now evolution.now) checkpoint)) }
    ensures moves { IfOk result
        (λ found. IfNone found (¬ IsAtRest rule.now profile.now (kept rule.now evolution.now))) }
    ensures few { IfOk result (λ found. IfSome found (λ finding. objects_in finding < 2 ^ 64)) }
    ensures known_restless { OnOk result (AreKnownRestless rule.now profile.now (kept rule.now evolution.now)
        checkpoint known_restless.new) }
{
    let parity = (checkpoint % 2) as usize;
    if known_restless[parity] || evolution.surely_moves(rule, profile) {
        return Ok(None);
    }
    let latest = evolution.pattern_now(alloc, rule)?;
    let found = clusters_at_rest(alloc, profile, rule, &latest, memo)?;
    drop(latest);
    let Some(clusters) = found else {
        if evolution.is_still() {
            known_restless[parity] = true;
        }
        return Ok(None);
    };
    let objects = Objects::of_clusters(alloc, rule, profile.period(), clusters.as_slice(), memo)?;
    let for_good = objects.stay_for_good(profile.horizon());
    Ok(Some(Finding::Settled {
        checkpoint,
        objects,
        for_good,
    }))
}
