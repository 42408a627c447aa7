//! The sizes of a window, which is a piece of the plane, and of its margin:
//!
//! ```text
//! column 0   4                    60  64
//!        +------------------------+   row 0
//!        |   margin               |
//!        |   +----------------+   |   row 4
//!        |   |  inner part    |   |
//!        |   +----------------+   |   4 rows before the end
//!        |                        |
//!        +------------------------+
//! ```

/// The number of columns of a window: each row is one word of 64 bits.
pub(crate) const COLUMNS: usize = 64;

/// The number of columns or rows on each side of a window that may be wrong after four generations, because everything
/// outside of the window is taken for dead.
pub(crate) const MARGIN: usize = 4;

/// The number of columns of a window that are surely correct after four generations.
pub(crate) const INNER_COLUMNS: usize = COLUMNS - 2 * MARGIN;

/// The mask of the inner columns: a 1 for each of columns 4 to 59.
pub(crate) const INNER_COLUMN_MASK: u64 = 0x0fff_ffff_ffff_fff0;

/// The smallest number of rows of a window in which a leap (up to four generations) is run.
pub(crate) const LEAST_ROWS: usize = 20;

/// The largest number of rows of a window in which a leap is run. After a leap, each window in which something still
/// changes has one active box. In larger windows, the boxes would be larger, and the early reject would find a cluster
/// in the middle of a box less often.
pub(crate) const MOST_ROWS: usize = 56;

/// The number of rows that are surely correct after four generations, in the largest window in which a leap is run.
pub(crate) const MOST_INNER_ROWS: usize = MOST_ROWS - 2 * MARGIN;
