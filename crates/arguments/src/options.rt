//! The one table of the program's options and positional arguments, with a row for each. `commands` has the list of
//! rows of each command.
//!
//! These rows decide how `clap` reads arguments, and what a request takes from them. The rows are proved to agree with
//! those of `specs/Options.antt`, which the laws use. `docs/NEW-OPTIONS.md` says what to edit for a new option.

/// The kind of value that an argument has.
#[derive(Clone, Copy)]
pub enum ValueKind {
    /// Any text.
    Text,
    /// No value: the argument is given or not.
    Flag,
    /// A number from the first field to the second, both included, in decimal digits, perhaps after a `+`.
    Number(u64, u64),
    /// A number as for `Number`, or none: the option may be left out, and has no default.
    OptionalNumber(u64, u64),
}

/// Where an argument is expected.
#[derive(Clone, Copy)]
pub enum Place {
    /// By itself: the first argument that isn't an option.
    Position,
    /// After `--` and the argument's name. The value is the next argument, or follows `=`. The field is the word that
    /// help shows in place of the value. For a flag, which has no value, the word is empty.
    Named(&'static str),
}

/// An argument of a command.
#[derive(Clone, Copy)]
pub struct Parameter {
    /// The name: what follows `--`, or what help calls a positional argument.
    pub name: &'static str,
    /// Where it is expected.
    pub place: Place,
    /// The kind of its value.
    pub kind: ValueKind,
    /// The value if the argument isn't given. An argument without a default is required, unless it is a flag or an
    /// optional number.
    pub default: Option<&'static str>,
    /// The heading under which help shows the argument, or `None` if it is shown under no heading of its own.
    pub heading: Option<&'static str>,
    /// What help says about it.
    pub help: &'static str,
}

/// The most workers that a haul may have. Workers are numbered from 1, so this is also the highest number of a worker.
const MOST_WORKERS: u64 = 16;

/// The highest number at which a range may begin. Soup numbers are lower, so only an empty range may begin at it.
const MOST_FIRST: u64 = 1 << 40;

/// The heading of the options that say when a soup has settled, which few users change.
const SETTLING: Option<&'static str> = Some("When a soup has settled");

/// The number of generations to run.
pub const GENERATIONS: Parameter = Parameter {
    name: "N",
    place: Place::Position,
    kind: ValueKind::Number(0, 100_000),
    default: None,
    heading: None,
    help: "The number of generations to run, from 0 to 100000",
};

/// The flag that asks for the coordinates of the live cells.
pub const COORDINATES: Parameter = Parameter {
    name: "coordinates",
    place: Place::Named(""),
    kind: ValueKind::Flag,
    default: None,
    heading: None,
    help: "Prints a line `X Y` for each live cell, row by row, in place of\n\
         plaintext. The first column and the first row have the number 0",
};

/// The first generation whose size `run` prints, if sizes are asked for.
pub const SIZES: Parameter = Parameter {
    name: "sizes",
    place: Place::Named("FROM"),
    kind: ValueKind::OptionalNumber(0, 100_000),
    default: None,
    heading: None,
    help: "Prints the size of each generation from FROM to N, in place of the\n\
         pattern: `G POPULATION LEFT TOP RIGHT BOTTOM`, or `G 0` if no cell is\n\
         alive. FROM is from 0 to 100000, and at most N",
};

/// The code of an object.
pub const CODE: Parameter = Parameter {
    name: "CODE",
    place: Place::Position,
    kind: ValueKind::Text,
    default: None,
    heading: None,
    help: "An apgcode, such as xs7_178c or xp2_7, or the text after its `_`. The\n\
         number in it isn't checked",
};

/// The number of a soup.
pub const NUMBER: Parameter = Parameter {
    name: "N",
    place: Place::Position,
    kind: ValueKind::Number(0, MOST_FIRST - 1),
    default: None,
    heading: None,
    help: "The number of the soup, from 0 to 1099511627775",
};

/// The rule, Life by default.
pub const RULE: Parameter = Parameter {
    name: "rule",
    place: Place::Named("RULE"),
    kind: ValueKind::Text,
    default: Some("b3s23"),
    heading: None,
    help: "The rule: `b` and the numbers of live neighbours that give birth, then\n\
         `s` and the numbers on which a live cell survives. Life, which others\n\
         write B3/S23, is b3s23. `haul cells` says which rule an RLE has",
};

/// The seed from which the soups are made.
pub const SEED: Parameter = Parameter {
    name: "seed",
    place: Place::Named("SEED"),
    kind: ValueKind::Text,
    default: Some(""),
    heading: None,
    help: "The seed: at most 64 visible ASCII characters",
};

/// The first number of the range of soups.
pub const FIRST: Parameter = Parameter {
    name: "first",
    place: Place::Named("NUMBER"),
    kind: ValueKind::Number(0, MOST_FIRST),
    default: Some("0"),
    heading: None,
    help: "The number of the first soup, from 0 to 1099511627776",
};

/// The number of soups in the range.
pub const COUNT: Parameter = Parameter {
    name: "count",
    place: Place::Named("COUNT"),
    kind: ValueKind::Number(0, 16_777_216),
    default: None,
    heading: None,
    help: "The number of soups, from 0 to 16777216. `haul search` has no such limit",
};

/// A list of more ranges of soups.
pub const ALSO: Parameter = Parameter {
    name: "also",
    place: Place::Named("LIST"),
    kind: ValueKind::Text,
    default: Some(""),
    heading: None,
    help: "More ranges of soup numbers, each as FIRST+COUNT: 100+20,500+1 has the\n\
         numbers 100 to 119, and the number 500",
};

/// The longest period that an object may have, in generations.
pub const PERIOD: Parameter = Parameter {
    name: "period",
    place: Place::Named("PERIOD"),
    kind: ValueKind::Number(1, 64),
    default: Some("64"),
    heading: SETTLING,
    help: "The longest period that an object may have, from 1 to 64",
};

/// The number of generations for which objects must keep apart.
pub const HORIZON: Parameter = Parameter {
    name: "horizon",
    place: Place::Named("HORIZON"),
    kind: ValueKind::Number(0, 4096),
    default: Some("512"),
    heading: SETTLING,
    help: "For how many generations objects must keep apart, from PERIOD to 4096",
};

/// The number of generations between two checkpoints.
pub const STRIDE: Parameter = Parameter {
    name: "stride",
    place: Place::Named("STRIDE"),
    kind: ValueKind::Number(1, 10_000),
    default: Some("101"),
    heading: SETTLING,
    help: "The number of generations between two checkpoints, from 1 to 10000",
};

/// The last generation that may be a checkpoint.
pub const LIMIT: Parameter = Parameter {
    name: "limit",
    place: Place::Named("LIMIT"),
    kind: ValueKind::Number(0, 100_000),
    default: Some("30300"),
    heading: SETTLING,
    help: "The last generation that may be a checkpoint, from 0 to 100000. Under\n\
         an explosive rule, time and memory grow until this generation",
};

/// The number of workers that run soups.
pub const WORKERS: Parameter = Parameter {
    name: "workers",
    place: Place::Named("WORKERS"),
    kind: ValueKind::Number(1, MOST_WORKERS),
    default: Some("1"),
    heading: None,
    help: "The number of workers that run soups at the same time, from 1 to 16.\n\
         Each has a thread. More workers than processors don't help. The haul\n\
         is the same for any number",
};

/// The highest number that a worker may have: `gather` takes the report lines of workers 1 to this number.
pub const REPORTERS: Parameter = Parameter {
    name: "workers",
    place: Place::Named("WORKERS"),
    kind: ValueKind::Number(1, MOST_WORKERS),
    default: Some("1"),
    heading: None,
    help: "The highest number of a worker whose lines are taken, from 1 to 16:\n\
         lines of worker 3 need `--workers 3`",
};

/// The number of the worker that reports in `work`.
pub const WORKER: Parameter = Parameter {
    name: "worker",
    place: Place::Named("WORKER"),
    kind: ValueKind::Number(1, MOST_WORKERS),
    default: None,
    heading: None,
    help: "The worker that each line names, from 1 to 16. It is only a label: the\n\
         soups run one after another, in one thread",
};

/// The flag that asks for the progress line.
pub const PROGRESS: Parameter = Parameter {
    name: "progress",
    place: Place::Named(""),
    kind: ValueKind::Flag,
    default: None,
    heading: None,
    help: "Shows the progress on standard error, even if it isn't a terminal. The\n\
         line is wiped at the end",
};

/// The generation from which soups count as late: those that settle at this generation or later, and unsettled ones.
/// Late soups are reported if this option is given.
pub const REPORT_FROM: Parameter = Parameter {
    name: "report-from",
    place: Place::Named("GENERATION"),
    kind: ValueKind::OptionalNumber(0, 100_001),
    default: None,
    heading: None,
    help: "Writes the report lines of late soups to standard error while it runs: of\n\
         unsettled ones, and of those that settle at GENERATION or later. It is\n\
         from 0 to 100001: 0 reports every soup, 100001 only unsettled ones",
};
