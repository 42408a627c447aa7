//! How fast the frontier of a pattern advances in a diagonal direction. To the lower right, the frontier is the
//! greatest sum of column and row of a live cell. Under rules such as Life, this sum grows by at most 1 in two
//! generations, which is the speed of a glider. So a glider that is far enough ahead of the rest of a pattern is never
//! caught. The picture shows why frontiers are slow:
//!
//! ```text
//! . . . O .     The cells / are on the frontier. Cell x, just past the frontier, has at most three live neighbours:
//! . . O / .     two cells /, and the cell behind both. If the two were born in the last generation, the cell behind
//! . O / x .     them had four or five live neighbours before that, and has died. So x isn't born.
//! O / . . .
//! ```
ghost use Rattle.std.specs.Prelude.{◌≡◌};
ghost use Rattle.plane_core.specs.plane.Frontiers.{FrontiersAreSlow, FrontiersGoOn, is_slow};

use crate::plane::rule::Rule;

/// The laws of frontiers: under a slow rule, in n generations, the frontier of a pattern in a diagonal direction
/// advances by at most n / 2, rounded up.
#[tactic(auto, using(crate::proofs::lemmas::plane::FrontierLemmas::frontiers_are_slow, crate::proofs::lemmas::plane::FrontierLemmas::frontiers_go_on))]
pub fn frontiers()
    ensures slow { FrontiersAreSlow }
    ensures go_on { FrontiersGoOn }
{}

/// Checks whether frontiers are slow under the rule: nothing is born on 1 or 2 neighbours, and nothing survives on 4 or
/// 5.
pub fn is_slow(rule: &Rule) -> bool
    ensures { result ≡ is_slow rule.now }
{
    !(rule.births(1) || rule.births(2) || rule.survives(4) || rule.survives(5))
}
