//! Tests of cells that a list has twice, of cells past the bound of the plane, and of the displacement from one pattern
//! to another.
use crate::sizes::has_made;
use plane_core::plaintext::PlaintextError;
use plane_core::plane::cell::Cell;
use plane_core::plane::orientation::Orientation;
use plane_core::plane::pattern::{FromCellsError, Pattern};
use plane_core::plane::transform::PlaceError;
use std::alloc::Global;
use std::test::Fail;

const PAIR: [Cell; 2] = [Cell { y: 0, x: 0 }, Cell { y: 0, x: 1 }];

/// The cells of `PAIR`, not in order and one of them twice.
const DOUBLED: [Cell; 3] = [
    Cell { y: 0, x: 1 },
    Cell { y: 0, x: 0 },
    Cell { y: 0, x: 1 },
];

/// Lists with cells past the bound of the plane, each with the index of the first cell past the bound.
const PAST_THE_BOUND: [(&[Cell], usize); 4] = [
    (&[Cell { y: 0, x: 0 }, Cell { y: 0, x: 1_000_001 }], 1),
    (
        &[
            Cell {
                y: -1_000_001,
                x: 0,
            },
            Cell { y: 0, x: 1_000_001 },
        ],
        0,
    ),
    (
        &[
            Cell {
                y: 1_000_000,
                x: -1_000_000,
            },
            Cell { y: 0, x: 0 },
            Cell { y: 1_000_001, x: 0 },
        ],
        2,
    ),
    (&[Cell { y: 0, x: i32::MIN }], 0),
];

#[test]
fn takes_cells_once_and_up_to_the_bound(rt: HostRuntime) {
    assert!(rt; has_made(Pattern::from_cells(rt.alloc(), &DOUBLED), &PAIR));
    for (cells, index) in PAST_THE_BOUND {
        let refused = Pattern::from_cells(rt.alloc(), cells).err();
        assert!(rt;
            refused == Some(FromCellsError::OutOfPlane { index }),
            "at {index}"
        );
    }
}

const PAST: Option<PlaceError> = Some(PlaceError::OutOfPlane);

/// Displacements (dx, dy), each with the error of moving `PAIR` by it, or `None` if the pair is moved.
const MOVES: [(i32, i32, Option<PlaceError>); 6] = [
    (999_999, 0, None),
    (1_000_000, 0, PAST),
    (-1_000_000, -1_000_000, None),
    (-1_000_001, 0, PAST),
    (0, 1_000_001, PAST),
    (i32::MAX, i32::MIN, PAST),
];

/// Returns the error of moving `PAIR` by (dx, dy), or `None` if the pair is moved.
fn error_of_move(alloc: Global, dx: i32, dy: i32) -> Result<Option<PlaceError>, FromCellsError> {
    let pair = Pattern::from_cells(alloc, &PAIR)?;
    Ok(pair.shift(alloc, dx, dy).err())
}

/// Rows of two cells: how far the cells are to the left and to the right of column 0, and the error of turning the row,
/// or `None` if the row is turned. The first row has 1,000,001 columns, so its image ends at the bound of the plane.
const TURNS: [(i32, Option<PlaceError>); 3] = [(500_000, None), (500_001, PAST), (1_000_000, PAST)];

/// Returns the error of turning a row of two cells, which are in the columns -`far` and `far`, or `None` if the row is
/// turned.
fn error_of_turn(alloc: Global, far: i32) -> Result<Option<PlaceError>, FromCellsError> {
    let ends = [
        Cell {
            y: 0,
            x: far.wrapping_neg(),
        },
        Cell { y: 0, x: far },
    ];
    let row = Pattern::from_cells(alloc, &ends)?;
    Ok(row.turn(alloc, Orientation::Quarter).err())
}

#[test]
fn moves_and_turns_up_to_the_bound(rt: HostRuntime) -> Result<(), Fail> {
    for (dx, dy, error) in MOVES {
        assert!(rt;
            error_of_move(rt.alloc(), dx, dy)? == error,
            "by {dx}, {dy}"
        );
    }
    for (far, error) in TURNS {
        assert!(rt; error_of_turn(rt.alloc(), far)? == error, "{far}");
    }
    Ok(())
}

const BLOCK: &str = "OO\nOO";

/// Pairs of pictures, each with the displacement that makes the second picture out of the first, or `None` if no
/// displacement does this.
const SHIFTS: [(&str, &str, Option<(i32, i32)>); 4] = [
    ("\n\nOO\nOO", "...OO\n...OO", Some((3, -2))),
    (BLOCK, "OOO", None),
    (BLOCK, "", None),
    ("", "", Some((0, 0))),
];

/// Returns the displacement that makes the second picture out of the first, or `None` if no displacement does this.
fn move_between(alloc: Global, from: &str, to: &str) -> Result<Option<(i32, i32)>, PlaintextError> {
    let one = Pattern::read_plaintext(alloc, from.as_bytes())?;
    let other = Pattern::read_plaintext(alloc, to.as_bytes())?;
    Ok(one.shift_to(&other))
}

#[test]
fn knows_moves_from_one_pattern_to_another(rt: HostRuntime) -> Result<(), Fail> {
    for (from, to, wanted) in SHIFTS {
        assert!(rt;
            move_between(rt.alloc(), from, to)? == wanted,
            "from {from} to {to}"
        );
    }
    Ok(())
}
