//! A board together with the spaceships that were removed from it. The pattern is the union of the board's cells and
//! the spaceships, and each of them evolves alone:
//!
//! ```text
//! generation     202                      404                       606
//! board          the rest and a glider    the rest                  the rest
//! spaceships                              the glider, since 404     the glider, since 404
//! ```
//!
//! The board advances by even numbers of generations only. Under a slow rule such as Life, the greatest depth (column
//! plus row) of the rest grows by at most n / 2, rounded up, in n generations. If the board advanced by odd numbers of
//! generations, the roundings would add up.

ghost use Rattle.std.specs.Prelude.{◌≡◌, ◌+◌, ◌≤◌, All, IfOk, OnOk, false, true};
ghost use Rattle.plane_core.specs.plane.Frontiers.{is_slow};
ghost use Rattle.plane_core.specs.plane.Generations.{lies_within, next};
ghost use Rattle.survey_core.specs.evolution.SplitPatterns.{AreCandidates, IsSplitAt, IsSplit, IsNoneOf, IsTraced, latest_time};
ghost use Rattle.survey_core.specs.evolution.SplitPatterns.{whole_at, whole_of};
ghost use Rattle.survey_core.specs.UnderWay.{survey_reach};

use crate::evolution::escaped_spaceships::{Spaceship, at_time, spaceship_of};
use crate::far_from_edge::{are_same, next};
use crate::shapes::memo::Memo;
use memory::OutOfMemory;
use plane_core::engine::board::Board;
use plane_core::plane::frontier_speed::is_slow;
use plane_core::plane::pattern::Pattern;
use plane_core::plane::rule::Rule;
use std::alloc::Global;

/// The last generation in which spaceships may be kept off a board. No survey runs for so many generations, and in so
/// many generations no spaceship comes near the edge of the plane.
pub(crate) const LATEST_TIME: u32 = 800_000;

/// Before the board passes a multiple of this number of generations, it is searched for escaped spaceships. A search
/// costs as much as a leap or two, and an escaped spaceship that isn't removed costs a window in every leap.
const EVERY: u32 = 64;

/// If `limit`, the longest period of the spaceships that may be removed, is below this number of generations, the board
/// isn't searched. Nearly all spaceships that soups of Life leave have period 4.
const SHORTEST_PERIOD: u32 = 4;

/// A board together with the spaceships that were removed from it.
#[derive(Drop)]
pub(crate) struct SplitPattern {
    pub(crate) board: Board,
    pub(crate) spaceships: Vec<Spaceship>,
    /// The number of generations that the board has made.
    pub(crate) time: u32,
}

impl SplitPattern {
    /// Removes escaped spaceships from the board, so that they no longer cost a window in every leap. Call this before
    /// advancing the board by `generations`. The board is searched only if `time` plus `generations` is at least the
    /// next multiple of `EVERY`, minus 1. Spaceships whose period is over `limit` (1 to 64) stay on the board.
    pub(crate) fn remove_escaped(
        &mut self,
        alloc: Global,
        rule: &Rule,
        limit: u32,
        generations: u32,
        memo: &mut Memo,
    ) -> Result<(), OutOfMemory>
        requires is_split { IsSplit rule.now self.old }
        requires least { 1 ≤ limit }
        requires most { limit ≤ 64 }
        requires near { lies_within survey_reach (whole_of rule.now self.old) ≡ true }
        ensures is_split { OnOk result (IsSplit rule.now self.new) }
        ensures cells { OnOk result (whole_of rule.now self.new ≡ whole_of rule.now self.old) }
    {
        let slow = is_slow(rule);
        if !slow || limit < SHORTEST_PERIOD {
            return Ok(());
        }
        if self.time % EVERY + generations.min(EVERY) + 1 < EVERY {
            return Ok(());
        }
        let clusters = self.board.small_clusters(alloc)?;
        let clusters = clusters.as_slice();
        for _ in 0..clusters.len() {
            let count = self.spaceships.len();
            remove_ahead(
                alloc,
                rule,
                limit,
                clusters,
                self.time,
                &mut self.board,
                &mut self.spaceships,
                memo,
            )?;
            if self.spaceships.len() == count {
                return Ok(());
            }
        }
        Ok(())
    }

    /// Returns the next generation of the whole pattern.
    pub(crate) fn next(&self, alloc: Global, rule: &Rule) -> Result<Pattern, OutOfMemory>
        requires is_split { IsSplit rule.now self.now }
        requires near { lies_within survey_reach (whole_of rule.now self.now) ≡ true }
        ensures { IfOk result (λ pattern. pattern ≡ next rule.now (whole_of rule.now self.now)) }
    {
        let spaceships = self.spaceships.as_slice();
        let Some(board) = self.board.next_pattern(alloc)? else {
            let pattern = whole(alloc, rule, self.time, &self.board, spaceships)?;
            return next(alloc, rule, &pattern);
        };
        with_spaceships(alloc, rule, self.time + 1, board, spaceships)
    }
}

/// Goes through `clusters` once, and removes each cluster that is a spaceship ahead of all the rest. When a cluster is
/// removed, an earlier cluster of the list may now be ahead of all the rest, so the caller calls this again.
fn remove_ahead(
    alloc: Global,
    rule: &Rule,
    limit: u32,
    clusters: &[Pattern],
    time: u32,
    board: &mut Board,
    spaceships: &mut Vec<Spaceship>,
    memo: &mut Memo,
) -> Result<(), OutOfMemory>
    requires slow { is_slow rule.now ≡ true }
    requires least { 1 ≤ limit }
    requires most { limit ≤ 64 }
    requires split { IsSplitAt rule.now time board.old.cells spaceships.old.items }
    requires near { lies_within survey_reach (whole_at rule.now time board.old.cells spaceships.old.items) ≡ true }
    requires clusters { AreCandidates board.old.cells spaceships.old.items clusters.now }
    ensures rule { OnOk result (board.new.rule ≡ board.old.rule) }
    ensures split { OnOk result (IsSplitAt rule.now time board.new.cells spaceships.new.items) }
    ensures whole { OnOk result (whole_at rule.now time board.new.cells spaceships.new.items
        ≡ whole_at rule.now time board.old.cells spaceships.old.items) }
    ensures clusters { OnOk result (AreCandidates board.new.cells spaceships.new.items clusters.now) }
{
    for cluster in clusters {
        let has_escaped = has_escaped(spaceships.as_slice(), cluster);
        if has_escaped {
            continue;
        }
        let Some(spaceship) = spaceship_of(alloc, rule, limit, board, cluster, time, memo)? else {
            continue;
        };
        board.take_out(&spaceship.cells)?;
        spaceships.push(spaceship)?;
    }
    Ok(())
}

/// Checks whether one of the spaceships had these cells when it was removed.
fn has_escaped(spaceships: &[Spaceship], cells: &Pattern) -> bool
    ensures { result ≡ false → IsNoneOf spaceships.now cells.now }
{
    for other in spaceships {
        let same = are_same(other.cells.cells(), cells.cells());
        if same {
            return true;
        }
    }
    false
}

/// Returns the whole pattern at `time`: the cells of a board and of some spaceships.
pub(crate) fn whole(
    alloc: Global,
    rule: &Rule,
    time: u32,
    board: &Board,
    spaceships: &[Spaceship],
) -> Result<Pattern, OutOfMemory>
    requires traced { All (IsTraced rule.now time) spaceships.now }
    requires early { time ≤ latest_time + 10001 }
    ensures { IfOk result (λ pattern. pattern ≡ whole_at rule.now time board.now.cells spaceships.now) }
{
    let cells = board.pattern(alloc)?;
    with_spaceships(alloc, rule, time, cells, spaceships)
}

/// Returns the union of a board's cells and the spaceships as they are at `time`.
fn with_spaceships(
    alloc: Global,
    rule: &Rule,
    time: u32,
    board: Pattern,
    spaceships: &[Spaceship],
) -> Result<Pattern, OutOfMemory>
    requires traced { All (IsTraced rule.now time) spaceships.now }
    requires early { time ≤ latest_time + 10001 }
    ensures { IfOk result (λ pattern. pattern ≡ whole_at rule.now time board spaceships.now) }
{
    board.recall_order();
    let mut whole = board;
    for spaceship in spaceships {
        let there = at_time(alloc, rule, spaceship, time)?;
        whole = whole.united(&there)?;
    }
    Ok(whole)
}
