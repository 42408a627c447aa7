//! The logic of a rule, with which a window is advanced. Life has its own logic, which needs fewer operations.
ghost use Rattle.std.specs.Prelude.{◌≡◌};
ghost use Rattle.plane_core.specs.windows.RuleLogic.{rule_of};

use crate::plane::rule::Rule;
use crate::windows::rule_tables::RuleTables;

/// The logic of a rule: how it decides which cells are alive next.
#[derive(Clone, Copy)]
pub(crate) enum RuleLogic {
    /// The logic of Life, which counts only the eight neighbours.
    Life,
    /// The logic of any rule, with tables.
    Any(RuleTables),
}

impl RuleLogic {
    /// Returns the logic of a rule.
    pub(crate) fn new(rule: &Rule) -> RuleLogic
        ensures { rule_of result ≡ rule.now }
    {
        if *rule == Rule::life() {
            return RuleLogic::Life;
        }
        RuleLogic::Any(RuleTables::new(rule))
    }
}
