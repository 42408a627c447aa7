//! What the arguments of a call may ask for: a command with its values.

use requests::form::{PatternForm, RunForm};
use requests::plan::{Plan, ProfileNumbers, Text};

/// A command with its values.
///
/// If [`request_of`](crate::calls::request_of) returned it, each number is in the range of its row in the table of
/// options.
#[derive(Drop)]
pub enum Request<'a> {
    /// The pattern of the input after `generations` generations, under a rule, or its sizes up to that generation.
    Run {
        generations: u32,
        form: RunForm,
        rule: Text<'a>,
    },
    /// When the input's pattern settles, and into which objects, under a profile and a rule.
    Name {
        profile: ProfileNumbers,
        rule: Text<'a>,
    },
    /// The object of a code.
    Show {
        code: Text<'a>,
        form: PatternForm,
    },
    /// The soup with this number, of a seed.
    Soup {
        seed: Text<'a>,
        number: u64,
        form: PatternForm,
    },
    /// The haul of all soups of a plan, taken with this number of workers. `progress` says whether a progress line is
    /// asked for. If `report_from` is given, unsettled soups and those that settle at this generation or later are
    /// reported.
    Take {
        plan: Plan<'a>,
        workers: u8,
        progress: bool,
        report_from: Option<u32>,
    },
    /// The report lines of this worker for all soups of a plan.
    Work {
        plan: Plan<'a>,
        worker: u8,
    },
    /// The haul of report lines from workers 1 to `workers`, about the soups of a plan.
    Gather {
        plan: Plan<'a>,
        workers: u8,
    },
    /// The program's name and version.
    Version,
}
