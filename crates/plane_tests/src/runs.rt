//! Tests that run many blinkers, many gliders, and blinkers beside the edge of the plane. No clause says that there is
//! enough memory for a run, or that it ends in a reasonable time.
use memory::OutOfMemory;
use plane_core::generation::StepError;
use plane_core::plane::cell::Cell;
use plane_core::plane::pattern::{FromCellsError, Pattern};
use plane_core::plane::rule::Rule;
use std::alloc::Global;
use std::test::Fail;

/// Adds the cells of a blinker with the middle (x, y).
fn push_blinker(
    cells: &mut Vec<Cell>,
    x: i32,
    y: i32,
    is_upright: bool,
) -> Result<(), OutOfMemory> {
    for step in [-1, 0, 1] {
        cells.push(if is_upright {
            Cell {
                y: y.wrapping_add(step),
                x,
            }
        } else {
            Cell {
                y,
                x: x.wrapping_add(step),
            }
        })?;
    }
    Ok(())
}

/// Returns a thousand blinkers on a diagonal, each 250 columns and 250 rows from the next.
fn diagonal(alloc: Global, are_upright: bool) -> Result<Pattern, FromCellsError> {
    let mut cells = Vec::new(alloc);
    let mut at = -125_000_i32;
    for _ in 0..1_000 {
        push_blinker(&mut cells, at, at, are_upright)?;
        at = at.wrapping_add(250);
    }
    Pattern::from_cells(alloc, cells.as_slice())
}

/// Checks whether a run ended with the cells of the pattern `wanted`.
fn ends_with(ran: Result<Pattern, StepError>, wanted: &Pattern) -> bool {
    match ran {
        Ok(pattern) => pattern.cells() == wanted.cells(),
        Err(_) => false,
    }
}

// The bounding box of the blinkers has nearly 250,000 columns and as many rows, too many for one board. For five
// generations, the blinkers are far enough apart to be run separately, but not for 202.
#[test]
fn a_thousand_blinkers_on_a_diagonal_turn(rt: HostRuntime) -> Result<(), Fail> {
    let upright = diagonal(rt.alloc(), true)?;
    let lying = diagonal(rt.alloc(), false)?;
    assert!(rt; ends_with(upright.run(rt.alloc(), &Rule::life(), 5), &lying));
    assert!(rt; ends_with(upright.run(rt.alloc(), &Rule::life(), 202), &upright));
    Ok(())
}

/// Checks whether a glider at the origin, which flies to the lower right, has the cell (x, y).
fn is_in_glider(x: i32, y: i32) -> bool {
    match y {
        0 => x == 1,
        1 => x == 2,
        2 => x < 3,
        _ => false,
    }
}

fn glider_cells(alloc: Global) -> Result<Vec<Cell>, OutOfMemory> {
    let mut cells = Vec::new(alloc);
    for x in 0..1_000 {
        for y in 0..600 {
            if is_in_glider(x % 10, y % 10) {
                cells.push(Cell { y, x })?;
            }
        }
    }
    Ok(cells)
}

/// Returns 100 by 60 gliders, one in each square of ten by ten cells.
fn gliders(alloc: Global) -> Result<Pattern, FromCellsError> {
    let cells = glider_cells(alloc)?;
    Pattern::from_cells(alloc, cells.as_slice())
}

// In four generations, each glider moves one column to the right and one row down.
#[test]
fn six_thousand_gliders_fly(rt: HostRuntime) -> Result<(), Fail> {
    let start = gliders(rt.alloc())?;
    let there = start.shift(rt.alloc(), 100, 100)?;
    assert!(rt; ends_with(start.run(rt.alloc(), &Rule::life(), 400), &there));
    Ok(())
}

/// Blinkers that reach the edge of the plane in the next generation: the middle of each, and whether it is upright.
const AT_EDGES: [(i32, i32, bool); 4] = [
    (999_999, 0, true),
    (-999_999, 0, true),
    (0, 999_999, false),
    (0, -999_999, false),
];

/// Returns a blinker with the middle (x, y).
fn blinker(alloc: Global, x: i32, y: i32, is_upright: bool) -> Result<Pattern, FromCellsError> {
    let mut cells = Vec::new(alloc);
    push_blinker(&mut cells, x, y, is_upright)?;
    Pattern::from_cells(alloc, cells.as_slice())
}

/// Checks whether a run failed because the pattern touched the edge of the plane.
fn is_edge(ran: Result<Pattern, StepError>) -> bool {
    match ran {
        Ok(_) => false,
        Err(e) => e == StepError::Edge,
    }
}

#[test]
fn a_blinker_runs_to_the_edge_and_no_further(rt: HostRuntime) -> Result<(), Fail> {
    for (x, y, is_upright) in AT_EDGES {
        let start = blinker(rt.alloc(), x, y, is_upright)?;
        let at_edge = blinker(rt.alloc(), x, y, !is_upright)?;
        assert!(rt; !start.touches_edge());
        assert!(rt; ends_with(start.run(rt.alloc(), &Rule::life(), 1), &at_edge));
        assert!(rt; at_edge.touches_edge());
        assert!(rt; is_edge(start.run(rt.alloc(), &Rule::life(), 2)));
    }
    Ok(())
}
