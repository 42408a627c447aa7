//! A test that a run ends correctly, or fails because memory ran out, whichever allocation is refused.
//! `checks/program/memory` runs the test once for each allocation, and refuses that allocation.
use plane_core::generation::StepError;
use plane_core::plane::cell::Cell;
use plane_core::plane::pattern::Pattern;
use plane_core::plane::rule::Rule;
use std::test::Fail;

/// A glider, and far from it an upright blinker.
const START: [Cell; 8] = [
    Cell { y: 0, x: 1 },
    Cell { y: 1, x: 2 },
    Cell { y: 2, x: 0 },
    Cell { y: 2, x: 1 },
    Cell { y: 2, x: 2 },
    Cell { y: -1, x: 900 },
    Cell { y: 0, x: 900 },
    Cell { y: 1, x: 900 },
];

/// The cells of the blinker after 201 generations, when it is horizontal.
const BLINKER: [Cell; 3] = [
    Cell { y: 0, x: 899 },
    Cell { y: 0, x: 900 },
    Cell { y: 0, x: 901 },
];

// The cells of the glider after 201 generations: it looks as it does one generation after the start, 50 columns further
// to the right and 50 rows further down.
const GLIDER: [Cell; 5] = [
    Cell { y: 51, x: 50 },
    Cell { y: 51, x: 52 },
    Cell { y: 52, x: 51 },
    Cell { y: 52, x: 52 },
    Cell { y: 53, x: 51 },
];

/// Checks whether a pattern has the cells of `BLINKER` and `GLIDER`, and no others.
fn is_right(pattern: &Pattern) -> bool {
    pattern.population() == 8
        && BLINKER.iter().all(|cell| pattern.has(cell.x, cell.y))
        && GLIDER.iter().all(|cell| pattern.has(cell.x, cell.y))
}

#[test]
fn without_memory_a_run_is_right_or_fails(rt: HostRuntime) -> Result<(), Fail> {
    let start = Pattern::from_cells(rt.alloc(), &START)?;
    match start.run(rt.alloc(), &Rule::life(), 201) {
        Ok(later) => assert!(rt; is_right(&later)),
        Err(e) => assert!(rt; matches!(e, StepError::Memory(_))),
    }
    Ok(())
}
