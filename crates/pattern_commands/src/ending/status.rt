//! How a command ended, as a shell sees it.

ghost use Rattle.std.specs.Prelude.{◌≡◌};
ghost use Rattle.pattern_commands.specs.Status.{exit_code};

/// How a command ended, as a shell sees it.
#[derive(Clone, Copy, Debug, PartialEq, Eq)]
pub enum Status {
    /// The command did what was asked.
    Done,
    /// The arguments were not understood, or asked for help.
    Usage,
    /// A text or an input was refused: a pattern, rule, code, seed, profile or set of soups that isn't valid.
    Refused,
    /// Memory ran out, or no thread could be started.
    Memory,
    /// Reading or writing failed, or the input is too long.
    Failed,
    /// The haul was printed, but soups of its set are missing.
    Incomplete,
}

impl Status {
    /// Returns the number with which the process ends: 0, or 2 to 6.
    pub fn exit_code(self) -> u8
        ensures { result ≡ exit_code self }
    {
        match self {
            Status::Done => 0,
            Status::Usage => 2,
            Status::Refused => 3,
            Status::Memory => 4,
            Status::Failed => 5,
            Status::Incomplete => 6,
        }
    }
}
