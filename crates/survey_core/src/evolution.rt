//! A pattern between two checkpoints.
//!
//! At first the pattern is a list of cells. When it advances, it is laid on a board, if there is a board with room for
//! it, and stays there from checkpoint to checkpoint. The board advances by even numbers of generations only, so at an
//! odd checkpoint the pattern is one generation ahead of what the board shows:
//!
//! ```text
//! generation     0       101            202      303
//! kept as        list    board          board    board
//! board shows            100, 1 ahead   202      302, 1 ahead
//! ```
//!
//! If the board has no room for the next leap, the pattern becomes a list again. Spaceships that have escaped are
//! removed from the board before it advances. When the pattern is listed, they are added to the list.

ghost use Rattle.std.specs.Prelude.{◌≡◌, ◌%◌, ◌≤◌, ℕ, IfOk, IsTrue};
ghost use Rattle.plane_core.specs.plane.Generations.{after};
ghost use Rattle.plane_core.specs.plane.Rules.{Numbers};
ghost use Rattle.survey_core.specs.evolution.Evolutions.{IsKept, kept};
ghost use Rattle.survey_core.specs.evolution.SplitPatterns.{IsSplit, whole_of};
ghost use Rattle.survey_core.specs.rest.Rest.{IsAtRest};
ghost use Rattle.survey_core.specs.UnderWay.{StaysNear};

/// Spaceships that the rest of a pattern can never catch up with.
pub mod escaped_spaceships;
/// The board that a worker keeps from pattern to pattern.
pub(crate) mod spare_board;
/// A board, and the spaceships that were removed from it.
pub(crate) mod split_pattern;

use crate::evolution::spare_board::SpareBoard;
use crate::evolution::split_pattern::{LATEST_TIME, SplitPattern, whole};
use crate::far_from_edge::run_on;
use crate::profile::Profile;
use crate::shapes::memo::Memo;
use memory::OutOfMemory;
use plane_core::plane::pattern::Pattern;
use plane_core::plane::rule::Rule;
use std::alloc::Global;

/// A pattern as it evolves under a rule.
#[derive(Drop)]
pub(crate) enum Evolution {
    /// The pattern is a list of cells.
    Listed(Pattern),
    /// The pattern is on a board, except for the spaceships that were removed from the board. The board shows the
    /// pattern as it was this many generations ago: 0 or 1.
    Shown(SplitPattern, u32),
}

impl Evolution {
    /// Returns the pattern as it is now.
    pub(crate) fn pattern_now(&self, alloc: Global, rule: &Rule) -> Result<Pattern, OutOfMemory>
        requires { IsKept rule.now self.now }
        ensures { IfOk result (λ pattern. pattern ≡ kept rule.now self.now) }
    {
        match self {
            Evolution::Listed(pattern) => pattern.copy(alloc),
            Evolution::Shown(split, ahead) => {
                if *ahead == 0 {
                    let spaceships = split.spaceships.as_slice();
                    return whole(alloc, rule, split.time, &split.board, spaceships);
                }
                split.next(alloc, rule)
            }
        }
    }

    /// Returns `true` only if the pattern is not at rest. `false` says nothing.
    pub(crate) fn surely_moves(&self, rule: &Rule, profile: &Profile) -> bool
        requires { IsKept rule.now self.now }
        ensures { IsTrue result → ¬ IsAtRest rule.now profile.now (kept rule.now self.now) }
    {
        let horizon = profile.horizon();
        let period = profile.period();
        match self {
            Evolution::Listed(pattern) => pattern.rules_out_rest(rule, horizon, period),
            Evolution::Shown(split, ahead) => split.board.rules_out_rest(*ahead, horizon, period),
        }
    }

    /// Returns `true` only if the pattern is the same again after every even number of generations. So a pattern of
    /// period 2, such as a blinker, may count as still. `false` says nothing.
    pub(crate) fn is_still(&self) -> bool
        ensures { IsTrue result → (rule : Numbers) → IsKept rule self.now
            → (n : ℕ) → n % 2 ≡ 0 → after rule (kept rule self.now) n ≡ kept rule self.now }
    {
        match self {
            Evolution::Listed(_) => false,
            Evolution::Shown(split, _) => split.spaceships.is_empty() && split.board.is_still(),
        }
    }

    /// Advances to the next checkpoint. A pattern that isn't on a board is laid on the spare board, if that board has
    /// room for it.
    pub(crate) fn go_on(
        self,
        alloc: Global,
        rule: &Rule,
        profile: &Profile,
        memo: &mut Memo,
        spare: &mut SpareBoard,
    ) -> Result<Evolution, OutOfMemory>
        requires kept { IsKept rule.now self }
        requires near { StaysNear rule.now (kept rule.now self) profile.now.stride }
        ensures kept { IfOk result (IsKept rule.now) }
        ensures cells { IfOk result
            (λ evolution. kept rule.now evolution ≡ after rule.now (kept rule.now self) profile.now.stride) }
    {
        let generations = profile.stride();
        match self {
            Evolution::Listed(pattern) => from_list(alloc, rule, &pattern, generations, spare),
            Evolution::Shown(mut split, ahead) => {
                let total = ahead + generations;
                split.remove_escaped(alloc, rule, profile.period(), total, memo)?;
                on_board(alloc, rule, split, total, spare)
            }
        }
    }

    /// Gives the board back to `spare`, if the pattern is on a board, so that the next pattern can use it.
    pub(crate) fn end(self, spare: &mut SpareBoard) {
        if let Evolution::Shown(split, _) = self {
            spare.give_back(split.board);
        }
    }
}

/// Advances a pattern by `generations`. The pattern is given as a list, and is laid on the spare board if that board
/// has room for it.
fn from_list(
    alloc: Global,
    rule: &Rule,
    pattern: &Pattern,
    generations: u32,
    spare: &mut SpareBoard,
) -> Result<Evolution, OutOfMemory>
    requires few { generations ≤ 10001 }
    requires near { StaysNear rule.now pattern.now generations }
    ensures kept { IfOk result (IsKept rule.now) }
    ensures cells { IfOk result (λ evolution. kept rule.now evolution ≡ after rule.now pattern.now generations) }
{
    pattern.recall_order();
    let Some(board) = spare.board_showing(alloc, rule, pattern)? else {
        let later = run_on(alloc, rule, generations, pattern)?;
        return Ok(Evolution::Listed(later));
    };
    let split = SplitPattern {
        board,
        spaceships: Vec::new(alloc),
        time: 0,
    };
    on_board(alloc, rule, split, generations, spare)
}

/// Advances a split pattern by `generations`. If the board has no room for this, or if its time would be past
/// `LATEST_TIME`, the pattern becomes a list, and the board is given back.
fn on_board(
    alloc: Global,
    rule: &Rule,
    mut split: SplitPattern,
    generations: u32,
    spare: &mut SpareBoard,
) -> Result<Evolution, OutOfMemory>
    requires is_split { IsSplit rule.now split }
    requires few { generations ≤ 10001 }
    requires near { StaysNear rule.now (whole_of rule.now split) generations }
    ensures kept { IfOk result (IsKept rule.now) }
    ensures cells { IfOk result
        (λ evolution. kept rule.now evolution ≡ after rule.now (whole_of rule.now split) generations) }
{
    let ahead = generations % 2;
    let most = generations - ahead;
    let made = split.board.advance(most)?;
    let time = split.time + made;
    if made == most && time <= LATEST_TIME {
        split.time = time;
        return Ok(Evolution::Shown(split, ahead));
    }
    let pattern = whole(alloc, rule, time, &split.board, split.spaceships.as_slice())?;
    let later = run_on(alloc, rule, generations - made, &pattern)?;
    spare.outgrow(split.board);
    Ok(Evolution::Listed(later))
}
