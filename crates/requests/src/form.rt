//! The forms in which commands print patterns.

/// The form in which a pattern is printed.
#[derive(Clone, Copy, Debug, PartialEq, Eq)]
pub enum PatternForm {
    /// A line for each row, with `.` for a dead cell and `O` for a live one.
    Plaintext,
    /// A line `X Y` for each live cell, row by row.
    Coordinates,
}

/// What `run` prints.
#[derive(Clone, Copy, Debug, PartialEq, Eq)]
pub enum RunForm {
    /// The pattern after the last generation.
    Pattern(PatternForm),
    /// The population and the bounding box of each generation from `from` on.
    Sizes { from: u32 },
}
