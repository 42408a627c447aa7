//! Patterns: make one, run it, and find and name its objects.
ghost use Rattle.std.specs.Prelude.{◌≢◌, [], IfOk};

use code_core::name::name;
use plane_core::plane::cell::Cell;
use plane_core::plane::pattern::{FromCellsError, Pattern};
use plane_core::plane::rule::Rule;
use std::alloc::Global;
use std::test::Fail;

/// The cells of a glider: `.O.`, `..O`, `OOO`.
const GLIDER: [Cell; 5] = [
    Cell { x: 1, y: 0 },
    Cell { x: 2, y: 1 },
    Cell { x: 0, y: 2 },
    Cell { x: 1, y: 2 },
    Cell { x: 2, y: 2 },
];

// After four generations a glider is itself again, one cell further down and to the right.
#[test]
fn runs_a_glider(rt: HostRuntime) -> Result<(), Fail> {
    let glider = Pattern::from_cells(rt.alloc(), &GLIDER)?;
    let later = glider.run(rt.alloc(), &Rule::life(), 4)?;
    assert!(rt; glider.shift_to(&later) == Some((1, 1)));
    Ok(())
}

// Two gliders that are far apart are two clusters. Each is a pattern of its own.
#[test]
fn finds_two_objects(rt: HostRuntime) -> Result<(), Fail> {
    let glider = Pattern::from_cells(rt.alloc(), &GLIDER)?;
    let other = glider.shift(rt.alloc(), 10, 0)?;
    let both = glider.united(&other)?;
    let clusters = both.clusters(rt.alloc())?;
    assert!(rt; clusters.len() == 2);
    Ok(())
}

/// Returns the pattern of these cells, or an error if there are none: `name` needs a pattern with at least one cell.
fn with_a_cell(alloc: Global, cells: &[Cell]) -> Result<Pattern, FromCellsError>
    ensures { IfOk result (λ pattern. pattern ≢ []) }
{
    let pattern = Pattern::from_cells(alloc, cells)?;
    if pattern.cells().is_empty() {
        return Err(FromCellsError::OutOfPlane { index: 0 });
    }
    Ok(pattern)
}

// The apgcode of a glider. An object that doesn't recur within 64 generations would have no apgcode here.
#[test]
fn names_a_glider(rt: HostRuntime) -> Result<(), Fail> {
    let glider = with_a_cell(rt.alloc(), &GLIDER)?;
    let Some(code) = name(rt.alloc(), &glider, &Rule::life(), 64)? else {
        return Err(Fail::new("a glider recurs"));
    };
    assert!(rt; code.text() == "xq4_153");
    Ok(())
}
