//! Patterns as coordinates: a line `X Y` for each live cell, row by row.
//!
//! ```text
//! 1 0
//! 2 1
//! 0 2      a glider
//! 1 2
//! 2 2
//! ```

ghost use Rattle.std.specs.Prelude.{◌≡◌, false};
ghost use Rattle.plane_core.specs.Outputs.{Writes};
ghost use Rattle.pattern_commands.specs.Coordinates.{coordinate_line, coordinates_text};

use code_core::decimal::put_number;
use plane_core::output::{Out, WriteError};
use plane_core::plane::cell::Cell;
use std::io::Write;

/// Writes a line for each of these cells.
pub(crate) fn put_cells<W: Write>(cells: &[Cell], output: &mut Out<W>) -> Result<(), WriteError>
    requires { output.old.failed ≡ false }
    ensures { Writes W.contents output.old output.new result (coordinates_text cells.now) }
{
    for cell in cells {
        put_cell(*cell, output)?;
    }
    Ok(())
}

/// Writes the line of a cell: its column and its row.
fn put_cell<W: Write>(cell: Cell, output: &mut Out<W>) -> Result<(), WriteError>
    requires { output.old.failed ≡ false }
    ensures { Writes W.contents output.old output.new result (coordinate_line cell) }
{
    put_number(output, b"", cell.x)?;
    put_number(output, b" ", cell.y)?;
    output.put(b"\n")
}
