//! The book's running totals: a score for each code, with its total and its samples so far. A report's counts are added
//! in two steps. First, new codes get a blank score, which takes memory. Then the counts are added, which can't fail.
//!
//! ```text
//! scores         xs4_33  7 | xp2_7  5            a report with xs4_33 2, xq4_153 1:
//! make_scores    xs4_33  7 | xp2_7  5 | xq4_153  0
//! add            xs4_33  9 | xp2_7  5 | xq4_153  1
//! ```

ghost use Rattle.std.specs.Prelude.{◌≡◌, ◌≢◌, ◌+◌, ◌<◌, ◌≤◌, ◌^◌, [], ℕ, Some, List, All, IfOk, OnErr, OnOk};
ghost use Rattle.std.specs.Prelude.{if◌then◌else◌};
ghost use Rattle.std.specs.Map.{lookup};
ghost use Rattle.survey_core.specs.shapes.Objects.{AreObjects, is_code};
ghost use Rattle.haul_core.specs.Scores.{Extends, HasLawfulObjects, HasScore, HasScores, added, found_in, no_score};
ghost use Rattle.haul_core.specs.Scores.{score_in, together};
ghost use Rattle.haul_core.specs.Totals.{is_for_good, is_unsettled};

use crate::book::samples::Samples;
use code_core::apgcode::Apgcode;
use indexmap::IndexMap;
use memory::OutOfMemory;
use std::alloc::Global;
use survey_core::finding::Finding;

/// The total and the samples of a code.
#[derive(Drop)]
pub(crate) struct Score {
    /// The number of objects that have the code.
    pub(crate) total: u128,
    /// The three lowest numbers of soups that left an object with the code.
    pub(crate) samples: Samples,
}

/// The totals over the soups that were added.
#[derive(Drop)]
pub(crate) struct Totals {
    /// A score for each code of the objects that the soups left. Further codes may have a blank score.
    pub(crate) scores: IndexMap<Apgcode, Score>,
    /// The number of unsettled soups.
    pub(crate) unsettled: u64,
    /// The number of soups whose objects stay for good.
    pub(crate) for_good: u64,
}

impl Totals {
    /// Returns the totals before any soup is added.
    pub(crate) fn none(alloc: Global) -> Totals
        ensures scores { result.scores.entries ≡ [] }
        ensures unsettled { result.unsettled ≡ 0 }
        ensures for_good { result.for_good ≡ 0 }
    {
        Totals {
            scores: IndexMap::new(alloc),
            unsettled: 0,
            for_good: 0,
        }
    }

    /// Makes a blank score for each code of the finding that doesn't have a score yet. If there is no memory, the
    /// scores are unchanged.
    pub(crate) fn make_room(&mut self, alloc: Global, finding: &Finding) -> Result<(), OutOfMemory>
        ensures extends { Extends self.old.scores.entries self.new.scores.entries }
        ensures scores { OnOk result (HasScores finding.now self.new.scores.entries) }
        ensures unsettled { self.new.unsettled ≡ self.old.unsettled }
        ensures for_good { self.new.for_good ≡ self.old.for_good }
    {
        match finding {
            Finding::Settled { objects, .. } => {
                make_scores(alloc, &mut self.scores, objects.as_slice())
            }
            Finding::Unsettled => Ok(()),
        }
    }

    /// Returns the totals over the soups of both totals.
    pub(crate) fn joined(&self, alloc: Global, other: &Totals) -> Result<Totals, OutOfMemory>
        requires room { (code : List ℕ)
            → (score_in self.now.scores.entries code).total + (score_in other.now.scores.entries code).total < 2 ^ 128 }
        requires unsettled { self.now.unsettled + other.now.unsettled < 2 ^ 64 }
        requires for_good { self.now.for_good + other.now.for_good < 2 ^ 64 }
        ensures scores { IfOk result (λ totals. (code : List ℕ) → score_in totals.scores.entries code
            ≡ together (together no_score (score_in self.now.scores.entries code))
            (score_in other.now.scores.entries code)) }
        ensures unsettled { IfOk result (λ totals. totals.unsettled ≡ self.now.unsettled + other.now.unsettled) }
        ensures for_good { IfOk result (λ totals. totals.for_good ≡ self.now.for_good + other.now.for_good) }
    {
        let mut scores = IndexMap::new(alloc);
        add_scores(alloc, &mut scores, &self.scores)?;
        add_scores(alloc, &mut scores, &other.scores)?;
        Ok(Totals {
            scores,
            unsettled: self.unsettled + other.unsettled,
            for_good: self.for_good + other.for_good,
        })
    }

    /// Adds soup `number` with this finding. Each code of the finding has to have a score.
    pub(crate) fn add(&mut self, finding: &Finding, number: u64)
        requires scores { HasScores finding.now self.old.scores.entries }
        requires lawful { HasLawfulObjects finding.now }
        requires room { (code : List ℕ) → (score_in self.old.scores.entries code).total + 2 ^ 64 ≤ 2 ^ 128 }
        requires unsettled { self.old.unsettled + 1 < 2 ^ 64 }
        requires for_good { self.old.for_good + 1 < 2 ^ 64 }
        ensures scores { (code : List ℕ) → score_in self.new.scores.entries code
            ≡ added (found_in code finding.now) number (score_in self.old.scores.entries code) }
        ensures unsettled { self.new.unsettled ≡ self.old.unsettled + (if is_unsettled finding.now then 1 else 0) }
        ensures for_good { self.new.for_good ≡ self.old.for_good + (if is_for_good finding.now then 1 else 0) }
    {
        match finding {
            Finding::Settled {
                objects,
                for_good,
                ..
            } => {
                add(&mut self.scores, objects.as_slice(), number);
                self.for_good += u64::from(*for_good);
            }
            Finding::Unsettled => self.unsettled += 1,
        }
    }
}

impl Score {
    /// Returns a copy of the score.
    pub(crate) fn copy(&self) -> Score
        ensures { result ≡ self.now }
    {
        let Score { total, samples } = self;
        Score {
            total: *total,
            samples: samples.copy(),
        }
    }

    /// Returns the score over the soups of both scores.
    fn joined(&self, other: &Score) -> Score
        requires { self.now.total + other.now.total < 2 ^ 128 }
        ensures { result ≡ together self.now other.now }
    {
        let Score { total, samples } = self;
        Score {
            total: *total + other.total,
            samples: samples.with_all(&other.samples),
        }
    }

    /// Returns the score after one more soup, number `number`, which left `count` objects with the code.
    fn with(&self, count: u64, number: u64) -> Score
        requires { self.now.total + count < 2 ^ 128 }
        ensures { result ≡ added (Some count) number self.now }
    {
        let Score { total, samples } = self;
        Score {
            total: *total + u128::from(count),
            samples: samples.with_number(number),
        }
    }
}

/// Adds each of the other scores to the score of its code. If memory runs out, only some of them have been added.
fn add_scores(
    alloc: Global,
    scores: &mut IndexMap<Apgcode, Score>,
    others: &IndexMap<Apgcode, Score>,
) -> Result<(), OutOfMemory>
    requires { (code : List ℕ)
        → (score_in scores.old.entries code).total + (score_in others.now.entries code).total < 2 ^ 128 }
    ensures { OnOk result ((code : List ℕ) → score_in scores.new.entries code
        ≡ together (score_in scores.old.entries code) (score_in others.now.entries code)) }
{
    for index in 0..others.len() {
        if let Some((code, score)) = others.get_index(index) {
            add_score(alloc, scores, code, score)?;
        }
    }
    Ok(())
}

/// Adds another score to the score of its code. If the code has no score yet, a blank score is made first.
fn add_score(
    alloc: Global,
    scores: &mut IndexMap<Apgcode, Score>,
    code: &Apgcode,
    score: &Score,
) -> Result<(), OutOfMemory>
    requires { (score_in scores.old.entries code.now).total + score.now.total < 2 ^ 128 }
    ensures score { OnOk result
        (score_in scores.new.entries code.now ≡ together (score_in scores.old.entries code.now) score.now) }
    ensures others { OnOk result
        ((other : List ℕ) → other ≢ code.now → score_in scores.new.entries other ≡ score_in scores.old.entries other) }
{
    make_score(alloc, scores, code)?;
    put_together(scores, code, score);
    Ok(())
}

/// Adds another score to the score of its code. The code has to have a score.
fn put_together(scores: &mut IndexMap<Apgcode, Score>, code: &Apgcode, score: &Score)
    requires score { HasScore scores.old.entries code.now }
    requires room { (score_in scores.old.entries code.now).total + score.now.total < 2 ^ 128 }
    ensures score { score_in scores.new.entries code.now ≡ together (score_in scores.old.entries code.now) score.now }
    ensures others { (other : List ℕ) → other ≢ code.now
        → score_in scores.new.entries other ≡ score_in scores.old.entries other }
{
    let Some(index) = scores.get_index_of(code) else {
        return;
    };
    let joined = scores[index].joined(score);
    scores[index] = joined;
}

/// Makes a blank score for each code of these objects that doesn't have a score yet. If memory runs out, the scores
/// are unchanged.
pub(crate) fn make_scores(
    alloc: Global,
    scores: &mut IndexMap<Apgcode, Score>,
    objects: &[(Apgcode, u64)],
) -> Result<(), OutOfMemory>
    ensures ok { OnOk result (Extends scores.old.entries scores.new.entries) }
    ensures scores { OnOk result (All (λ object. HasScore scores.new.entries object.0) objects.now) }
    ensures err { OnErr result (scores.new.entries ≡ scores.old.entries) }
{
    let before = scores.len();
    let made = make_each_score(alloc, scores, objects);
    if made.is_err() {
        scores.truncate(before);
    }
    made
}

/// Makes a blank score for each code of these objects that doesn't have a score yet. If memory runs out, only some of
/// these scores have been made.
fn make_each_score(
    alloc: Global,
    scores: &mut IndexMap<Apgcode, Score>,
    objects: &[(Apgcode, u64)],
) -> Result<(), OutOfMemory>
    ensures extends { Extends scores.old.entries scores.new.entries }
    ensures scores { OnOk result (All (λ object. HasScore scores.new.entries object.0) objects.now) }
{
    for object in objects {
        make_score(alloc, scores, &object.0)?;
    }
    Ok(())
}

/// Makes a blank score for a code, unless the code has a score already.
fn make_score(
    alloc: Global,
    scores: &mut IndexMap<Apgcode, Score>,
    code: &Apgcode,
) -> Result<(), OutOfMemory>
    ensures extends { Extends scores.old.entries scores.new.entries }
    ensures score { OnOk result (HasScore scores.new.entries code.now) }
{
    if scores.contains_key(code) {
        return Ok(());
    }
    let code = code.copy(alloc)?;
    let score = Score {
        total: 0,
        samples: Samples::none(),
    };
    scores.insert(code, score)?;
    Ok(())
}

/// Adds the objects of soup `number`. Each of their codes has to have a score.
pub(crate) fn add(scores: &mut IndexMap<Apgcode, Score>, objects: &[(Apgcode, u64)], number: u64)
    requires scores { All (λ object. HasScore scores.old.entries object.0) objects.now }
    requires lawful { AreObjects objects.now }
    requires room { (code : List ℕ) → (score_in scores.old.entries code).total + 2 ^ 64 ≤ 2 ^ 128 }
    ensures { (code : List ℕ) → score_in scores.new.entries code
        ≡ added (lookup (is_code code) objects.now) number (score_in scores.old.entries code) }
{
    for object in objects {
        let count = object.1;
        add_one(scores, &object.0, count, number);
    }
}

/// Adds the `count` objects with this code that soup `number` left. The code has to have a score.
fn add_one(scores: &mut IndexMap<Apgcode, Score>, code: &Apgcode, count: u64, number: u64)
    requires score { HasScore scores.old.entries code.now }
    requires room { (score_in scores.old.entries code.now).total + count < 2 ^ 128 }
    ensures score { score_in scores.new.entries code.now
        ≡ added (Some count) number (score_in scores.old.entries code.now) }
    ensures others { (other : List ℕ) → other ≢ code.now
        → score_in scores.new.entries other ≡ score_in scores.old.entries other }
    ensures scores { (other : List ℕ) → HasScore scores.old.entries other → HasScore scores.new.entries other }
{
    let Some(index) = scores.get_index_of(code) else {
        return;
    };
    let score = scores[index].with(count, number);
    scores[index] = score;
}
