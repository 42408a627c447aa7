//! Tests that `Recurrence::find` returns how small patterns recur, and that it finds no recurrence past the limit.
use crate::name::{GLIDER, placed};
use code_core::recurrence::Recurrence;
use plane_core::plane::cell::Cell;
use plane_core::plane::rule::Rule;
use std::alloc::Global;
use std::test::Fail;

const BLOCK: [Cell; 4] = [
    Cell { y: 0, x: 0 },
    Cell { y: 0, x: 1 },
    Cell { y: 1, x: 0 },
    Cell { y: 1, x: 1 },
];

const BLINKER: [Cell; 3] = [
    Cell { y: 0, x: 0 },
    Cell { y: 0, x: 1 },
    Cell { y: 0, x: 2 },
];

/// Each entry has a pattern, a limit, and the period and the move (dx, dy) of the pattern's recurrence, or `None` if
/// the pattern doesn't recur within the limit. A glider moves by one cell to the right and one cell down in four
/// generations, a block stays as it is, and a blinker is itself again after two generations.
const RECURRENCES: [(&[Cell], u32, Option<(u32, i32, i32)>); 6] = [
    (&GLIDER, 4, Some((4, 1, 1))),
    (&GLIDER, 64, Some((4, 1, 1))),
    (&GLIDER, 3, None),
    (&BLOCK, 1, Some((1, 0, 0))),
    (&BLINKER, 1, None),
    (&BLINKER, 2, Some((2, 0, 0))),
];

/// Returns the period and the move of the pattern with these cells, or `None` if it doesn't recur within `limit`
/// generations.
fn found(alloc: Global, cells: &[Cell], limit: u32) -> Result<Option<(u32, i32, i32)>, Fail> {
    if limit < 1 || 64 < limit {
        return Err(Fail::new("a limit is from 1 to 64"));
    }
    let pattern = placed(alloc, cells)?;
    let found = Recurrence::find(alloc, &pattern, &Rule::life(), limit)?;
    Ok(found.map(|found| (found.period, found.dx, found.dy)))
}

#[test]
fn finds_when_patterns_recur(rt: HostRuntime) -> Result<(), Fail> {
    for (cells, limit, wanted) in RECURRENCES {
        assert!(rt; found(rt.alloc(), cells, limit)? == wanted, "{limit}");
    }
    Ok(())
}
