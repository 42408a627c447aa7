//! The table of the program's commands, each with the rows of its arguments.

use crate::options::{
    ALSO, CODE, COORDINATES, COUNT, FIRST, GENERATIONS, HORIZON, LIMIT, NUMBER, PERIOD, PROGRESS,
    Parameter, REPORT_FROM, REPORTERS, RULE, SEED, SIZES, STRIDE, WORKER, WORKERS,
};

/// A command of the program.
#[derive(Clone, Copy)]
pub struct CommandRow {
    /// The name by which it is called.
    pub name: &'static str,
    /// What the list of commands in the program's help says about it.
    pub about: &'static str,
    /// What the command's own help says before its options.
    pub long_about: &'static str,
    /// What the command's own help says after its options.
    pub after_help: &'static str,
    /// Its options and positional arguments.
    pub parameters: &'static [Parameter],
}

/// The row of `run`.
pub const RUN: CommandRow = CommandRow {
    name: "run",
    about: "Reads a pattern, runs it for N generations and prints it",
    long_about: "Reads a pattern from standard input, runs it for N generations, and prints the\n\
         result on standard output.\n\n\
         Both are plaintext (`.cells`): a line for each row, with `.` for a dead cell and\n\
         `O` or `*` for a live one. Lines that begin with `!` are comments. Empty rows\n\
         and columns at the edges are left out.\n\n\
         To run a pattern in RLE: `haul cells gun.rle | census run 30`.",
    after_help: "Example: census run 4 < glider.cells",
    parameters: &[GENERATIONS, RULE, COORDINATES, SIZES],
};

/// The row of `name`.
pub const NAME: CommandRow = CommandRow {
    name: "name",
    about: "Reads a pattern, runs it until it has settled, and names its objects",
    long_about: "Reads a plaintext pattern from standard input and runs it until it has settled.\n\
         Prints `settled` and the first checkpoint at which it has, and then a line for\n\
         each apgcode with the number of objects that have it. Prints `unsettled` if it\n\
         hasn't settled by the last checkpoint.\n\n\
         The checkpoints are the generations 0, STRIDE, twice STRIDE and so on, up to\n\
         LIMIT. A pattern has settled if each of its objects recurs within PERIOD\n\
         generations, and they keep apart for HORIZON generations.\n\n\
         To name a pattern in RLE: `haul cells gun.rle | census name`.",
    after_help: "Example: census name < acorn.cells",
    parameters: &[PERIOD, HORIZON, STRIDE, LIMIT, RULE],
};

/// The row of `show`.
pub const SHOW: CommandRow = CommandRow {
    name: "show",
    about: "Prints the object of a code",
    long_about: "Prints the object of a code as plaintext: a line for each row, with `.` for a\n\
         dead cell and `O` for a live one.",
    after_help: "Example: census show xs7_178c",
    parameters: &[CODE, COORDINATES],
};

/// The row of `soup`.
pub const SOUP: CommandRow = CommandRow {
    name: "soup",
    about: "Prints a soup: a random pattern of 16 by 16 cells",
    long_about: "Prints a soup, a random pattern of 16 by 16 cells, as plaintext.\n\n\
         Its cells are the 256 bits of the SHA-256 digest of SEED followed by N in\n\
         decimal, so anybody can check it. Empty rows and columns at the edges are left\n\
         out.",
    after_help: "Example: census soup --seed abc 12",
    parameters: &[NUMBER, SEED, COORDINATES],
};

/// The row of `take`.
pub const TAKE: CommandRow = CommandRow {
    name: "take",
    about: "Runs soups until they have settled, and counts their objects",
    long_about: "Runs soups until they have settled, and counts their objects. Prints the haul:\n\
         for each apgcode the number of objects that have it, and the three lowest\n\
         numbers of soups that left one.\n\n\
         The soups are those of SEED with COUNT numbers from NUMBER on, and with the\n\
         numbers of the ranges in LIST. No two ranges may share a number.\n\
         `census name --help` explains when a soup has settled.\n\n\
         If it is interrupted, all work is lost. `haul search` keeps its haul in a file.",
    after_help: "Example: census take --seed abc --count 100",
    parameters: &[
        SEED,
        FIRST,
        COUNT,
        ALSO,
        PERIOD,
        HORIZON,
        STRIDE,
        LIMIT,
        RULE,
        WORKERS,
        PROGRESS,
        REPORT_FROM,
    ],
};

/// The row of `work`.
pub const WORK: CommandRow = CommandRow {
    name: "work",
    about: "Runs soups until they have settled, and prints a report line for each",
    long_about: "Runs soups until they have settled, and prints a report line of worker WORKER\n\
         for each, in ascending order of the soups' numbers. Each line is written as soon\n\
         as it is made.\n\n\
         Soups are chosen as for `take`. `census name --help` explains when a soup has\n\
         settled.",
    after_help: "Example: census work --worker 1 --seed abc --count 100 > one.lines",
    parameters: &[
        SEED, FIRST, COUNT, ALSO, PERIOD, HORIZON, STRIDE, LIMIT, RULE, WORKER,
    ],
};

/// The row of `gather`.
pub const GATHER: CommandRow = CommandRow {
    name: "gather",
    about: "Reads report lines, checks each, and counts the objects of their soups",
    long_about: "Reads report lines from standard input, as `census work` prints them, checks\n\
         each by running its soup, and prints the haul, as `census take` does, of the\n\
         soups that were reported.\n\n\
         For each line that isn't taken, its number and its fault are written to standard\n\
         error, and reading continues. If soups are missing, a last line says how many,\n\
         and the status is 6. Soups are chosen as for `take`. `census name --help`\n\
         explains when a soup has settled.",
    after_help: "Example:\n  cat one.lines two.lines | census gather --workers 2 --seed abc --count 200",
    parameters: &[
        SEED, FIRST, COUNT, ALSO, PERIOD, HORIZON, STRIDE, LIMIT, RULE, REPORTERS,
    ],
};
