//! Tests the names of objects against codes that don't come from the program: they are LifeWiki's, or were worked out
//! by hand.
ghost use Rattle.std.specs.Prelude.{◌≢◌, [], IfOk};

use code_core::name::name;
use code_core::recurrence::Recurrence;
use memory::OutOfMemory;
use plane_core::generation::StepError;
use plane_core::plane::cell::Cell;
use plane_core::plane::pattern::{FromCellsError, Pattern};
use plane_core::plane::rule::Rule;
use std::alloc::Global;
use std::test::Fail;

/// Returns the pattern of these cells, or an error if there are none.
pub(crate) fn placed(alloc: Global, cells: &[Cell]) -> Result<Pattern, FromCellsError>
    ensures { IfOk result (λ pattern. pattern ≢ []) }
{
    let pattern = Pattern::from_cells(alloc, cells)?;
    if pattern.cells().is_empty() {
        return Err(FromCellsError::OutOfPlane { index: 0 });
    }
    Ok(pattern)
}

/// Checks whether the pattern has this name in Life, and whether a copy of the name equals the name.
fn has_name(alloc: Global, pattern: &Pattern, text: &str) -> Result<bool, StepError>
    requires { pattern.now ≢ [] }
{
    let Some(code) = name(alloc, pattern, &Rule::life(), 64)? else {
        return Ok(false);
    };
    let copy = code.copy(alloc)?;
    Ok(copy == code && copy.text() == text)
}

pub(crate) const GLIDER: [Cell; 5] = [
    Cell { y: 0, x: 1 },
    Cell { y: 1, x: 2 },
    Cell { y: 2, x: 0 },
    Cell { y: 2, x: 1 },
    Cell { y: 2, x: 2 },
];

// The code is from LifeWiki's page on the glider. The codes of other known objects are tested by the cases in
// `checks/cases`.
#[test]
fn names_a_glider(rt: HostRuntime) -> Result<(), Fail> {
    let glider = placed(rt.alloc(), &GLIDER)?;
    assert!(rt; has_name(rt.alloc(), &glider, "xq4_153")?);
    Ok(())
}

/// Appends the cells of a block whose top left cell is in row `top` and column `left`.
fn push_block(cells: &mut Vec<Cell>, top: u8, left: u8) -> Result<(), OutOfMemory> {
    let (top, left) = (i32::from(top), i32::from(left));
    cells.extend_from_slice(&[
        Cell { y: top, x: left },
        Cell {
            y: top,
            x: left + 1,
        },
        Cell {
            y: top + 1,
            x: left,
        },
        Cell {
            y: top + 1,
            x: left + 1,
        },
    ])?;
    Ok(())
}

const STARTS: [u8; 13] = [0, 4, 7, 10, 13, 16, 19, 22, 25, 28, 31, 34, 38];

/// Returns the cells of 13 rows of 13 blocks, in a square of 40 by 40 cells. One empty row or column separates
/// neighbouring blocks, but in each direction, the first gap and the last gap are two rows or columns wide.
fn grid_of_blocks(alloc: Global) -> Result<Vec<Cell>, OutOfMemory> {
    let mut cells = Vec::new(alloc);
    for top in STARTS {
        for left in STARTS {
            push_block(&mut cells, top, left)?;
        }
    }
    Ok(cells)
}

// The grid is a still life, and looks the same in all eight orientations. Within a strip, all columns with live cells
// are equal.
const GRID: &str = "xs676_\
    jjwjj0jj0jj0jj0jj0jj0jj0jj0jj0jj0jjwjjz\
    ddwdd0dd0dd0dd0dd0dd0dd0dd0dd0dd0ddwddz\
    rrwrr0rr0rr0rr0rr0rr0rr0rr0rr0rr0rrwrrz\
    mmwmm0mm0mm0mm0mm0mm0mm0mm0mm0mm0mmwmmz\
    ddwdd0dd0dd0dd0dd0dd0dd0dd0dd0dd0ddwddz\
    rrwrr0rr0rr0rr0rr0rr0rr0rr0rr0rr0rrwrrz\
    mmwmm0mm0mm0mm0mm0mm0mm0mm0mm0mm0mmwmmz\
    ppwpp0pp0pp0pp0pp0pp0pp0pp0pp0pp0ppwpp";

#[test]
fn names_a_full_grid_of_blocks(rt: HostRuntime) -> Result<(), Fail> {
    let cells = grid_of_blocks(rt.alloc())?;
    let grid = placed(rt.alloc(), cells.as_slice())?;
    assert!(rt; has_name(rt.alloc(), &grid, GRID)?);
    Ok(())
}

// Two cells in a row, as far apart as they can be without touching the edge of the plane. Under the rule bs0, nothing
// is born, and a cell without a neighbour survives.
#[test]
fn names_what_is_as_wide_as_the_plane(rt: HostRuntime) -> Result<(), Fail> {
    let far = placed(
        rt.alloc(),
        &[Cell { y: 0, x: -999_999 }, Cell { y: 0, x: 999_999 }],
    )?;
    let code = name(rt.alloc(), &far, &Rule::read("bs0")?, 1)?;
    assert!(rt; code.is_some_and(|code| code.text() == "ov_s2"));
    Ok(())
}

/// A vertical blinker next to the edge of the plane, which it reaches in one generation.
const BLINKER: [Cell; 3] = [
    Cell { y: -1, x: 999_999 },
    Cell { y: 0, x: 999_999 },
    Cell { y: 1, x: 999_999 },
];

// The blinker itself doesn't touch the edge of the plane, but generation 1 does. In this case, the contracts also allow
// `Memory` in place of `Edge`.
#[test]
fn stops_a_step_from_the_edge(rt: HostRuntime) -> Result<(), Fail> {
    let blinker = placed(rt.alloc(), &BLINKER)?;
    let found = Recurrence::find(rt.alloc(), &blinker, &Rule::life(), 2);
    assert!(rt; found == Err(StepError::Edge));
    let code = name(rt.alloc(), &blinker, &Rule::life(), 2);
    assert!(rt; code.err() == Some(StepError::Edge));
    Ok(())
}
