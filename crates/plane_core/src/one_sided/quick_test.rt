//! One-sided tests that a small pattern never recurs, or that it isn't at rest. The pattern is run alone in windows of
//! at most 64 by 64 cells, so a test takes little time. `true` is a proof, and `false` says nothing.
ghost use Rattle.std.specs.Prelude.{◌≡◌, ◌≤◌, ℕ, IsTrue, false};
ghost use Rattle.plane_core.specs.plane.Generations.{NeverRecurs, after, touches_edge};
ghost use Rattle.plane_core.specs.one_sided.RestlessClusters.{HasRestlessCluster};

use crate::engine::lone_window::{origin_round, rows_of, window_of};
use crate::one_sided::never_recurs::never_recurs;
use crate::one_sided::rules_out_rest::rules_out_rest;
use crate::plane::pattern::Pattern;
use crate::plane::rule::Rule;
use crate::windows::rule_logic::RuleLogic;

/// The most generations for which a pattern is followed. In these generations, it can't reach the edge of the plane.
const FAR: u32 = 40_000;

impl Pattern {
    /// Returns `true` only if no generation from 1 to `generations` is a translate of the pattern, and no generation up
    /// to `generations` touches the edge of the plane. `false` says nothing: the pattern may recur, be too large, or
    /// grow too large.
    pub fn surely_changes(&self, rule: &Rule, generations: u32) -> bool
        ensures new { IsTrue result → NeverRecurs rule.now self.now generations }
        ensures inside { IsTrue result → (g : ℕ) → g ≤ generations → touches_edge (after rule.now self.now g) ≡ false }
    {
        let Some(origin) = origin_round(self) else {
            return false;
        };
        if generations > FAR {
            return false;
        }
        let rows = rows_of(origin, self.cells());
        never_recurs(&rows, &RuleLogic::new(rule), generations)
    }

    /// Returns `true` only if the pattern is not at rest: one of its clusters diverges from it within `horizon`
    /// generations, or doesn't recur within `period` generations. `false` says nothing.
    pub fn rules_out_rest(&self, rule: &Rule, horizon: u32, period: u32) -> bool
        ensures { IsTrue result → HasRestlessCluster rule.now self.now horizon period }
    {
        let Some(origin) = origin_round(self) else {
            return false;
        };
        let window = window_of(origin, self.cells());
        rules_out_rest(&window, &RuleLogic::new(rule), 0, horizon, period)
    }
}
