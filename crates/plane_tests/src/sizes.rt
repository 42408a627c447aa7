//! Tests of the calls that take memory, with no cells and with 100,000 cells: no clause says that there is enough
//! memory.
use memory::OutOfMemory;
use plane_core::output::Out;
use plane_core::plane::bounds::Bounds;
use plane_core::plane::cell::Cell;
use plane_core::plane::orientation::{Orientation, orientations};
use plane_core::plane::pattern::{FromCellsError, Pattern};
use plane_core::plane::rule::Rule;
use std::alloc::Global;
use std::test::Fail;

const WIDTH: i32 = 998;

const HEIGHT: i32 = 398;

/// Checks whether the cell (x, y) of the field is alive. The field has 250 by 100 blocks, two empty cells apart: a
/// still life of 100,000 cells.
fn is_in_block(x: i32, y: i32) -> bool {
    x % 4 < 2 && y % 4 < 2
}

fn field_cells(alloc: Global) -> Result<Vec<Cell>, OutOfMemory> {
    let mut cells = Vec::new(alloc);
    for x in 0..WIDTH {
        for y in 0..HEIGHT {
            if is_in_block(x, y) {
                cells.push(Cell { y, x })?;
            }
        }
    }
    Ok(cells)
}

fn field(alloc: Global) -> Result<Pattern, FromCellsError> {
    let cells = field_cells(alloc)?;
    Pattern::from_cells(alloc, cells.as_slice())
}

/// Returns the field in plaintext.
fn field_text(alloc: Global) -> Result<Vec<u8>, OutOfMemory> {
    let mut text = Vec::new(alloc);
    for y in 0..HEIGHT {
        for x in 0..WIDTH {
            text.push(if is_in_block(x, y) { b'O' } else { b'.' })?;
        }
        text.push(b'\n')?;
    }
    Ok(text)
}

/// Checks whether a call made a pattern with these cells.
pub(crate) fn has_made<E: Drop>(made: Result<Pattern, E>, cells: &[Cell]) -> bool {
    match made {
        Ok(pattern) => pattern.cells() == cells,
        Err(_) => false,
    }
}

#[test]
fn nothing_stays_nothing(rt: HostRuntime) -> Result<(), Fail> {
    let alloc = rt.alloc();
    let life = Rule::life();
    let empty = Pattern::from_cells(alloc, &[])?;
    assert!(rt; has_made(empty.copy(alloc), &[]));
    assert!(rt; has_made(empty.step(alloc, &life), &[]));
    assert!(rt; has_made(empty.run(alloc, &life, 0), &[]));
    assert!(rt; has_made(empty.run(alloc, &life, 1_000), &[]));
    assert!(rt; has_made(empty.shift(alloc, i32::MIN, i32::MAX), &[]));
    for orientation in orientations() {
        assert!(rt; has_made(empty.turn(alloc, *orientation), &[]));
    }
    assert!(rt; has_made(Pattern::read_plaintext(alloc, b""), &[]));
    assert!(rt; empty.clusters(alloc)?.is_empty());
    Ok(())
}

#[test]
fn a_large_still_life_stays(rt: HostRuntime) -> Result<(), Fail> {
    let alloc = rt.alloc();
    let life = Rule::life();
    let field = field(alloc)?;
    assert!(rt; field.population() == 100_000);
    assert!(rt; has_made(field.copy(alloc), field.cells()));
    assert!(rt; has_made(field.step(alloc, &life), field.cells()));
    assert!(rt; has_made(field.run(alloc, &life, 3), field.cells()));
    let clusters = field.clusters(alloc)?;
    assert!(rt; clusters.len() == 25_000);
    assert!(rt; clusters.iter().all(|cluster| cluster.population() == 4));
    Ok(())
}

const LYING: Bounds = Bounds {
    left: 0,
    top: 0,
    right: 997,
    bottom: 397,
};

const STANDING: Bounds = Bounds {
    left: 0,
    top: 0,
    right: 397,
    bottom: 997,
};

/// Returns the bounding box of the field's image in an orientation, moved to the corner (0, 0).
fn image_box(orientation: Orientation) -> Bounds {
    match orientation {
        Orientation::Same | Orientation::Half | Orientation::Mirror | Orientation::Flip => LYING,
        _ => STANDING,
    }
}

#[test]
fn a_large_pattern_moves_and_turns(rt: HostRuntime) -> Result<(), Fail> {
    let alloc = rt.alloc();
    let field = field(alloc)?;
    let moved = field.shift(alloc, -1_000_000, 999_000)?;
    assert!(rt; field.shift_to(&moved) == Some((-1_000_000, 999_000)));
    for orientation in orientations() {
        let image = moved.turn(alloc, *orientation)?;
        assert!(rt; image.population() == 100_000, "in {orientation:?}");
        assert!(rt;
            image.bounds() == Some(image_box(*orientation)),
            "in {orientation:?}"
        );
    }
    Ok(())
}

#[test]
fn a_large_text_is_read_and_written(rt: HostRuntime) -> Result<(), Fail> {
    let alloc = rt.alloc();
    let text = field_text(alloc)?;
    let field = field(alloc)?;
    assert!(rt;
        has_made(
            Pattern::read_plaintext(alloc, text.as_slice()),
            field.cells()
        )
    );
    let mut out = Out::new(Vec::new(alloc));
    field.write_plaintext(&mut out)?;
    assert!(rt; out.into_inner().as_slice() == text.as_slice());
    Ok(())
}

/// Two upright blinkers, 1,900,000 columns apart.
const FAR_BLINKERS: [Cell; 6] = [
    Cell { y: -1, x: -950_000 },
    Cell { y: 0, x: -950_000 },
    Cell { y: 1, x: -950_000 },
    Cell { y: -1, x: 950_000 },
    Cell { y: 0, x: 950_000 },
    Cell { y: 1, x: 950_000 },
];

// Both blinkers are horizontal after an odd number of generations.
#[test]
fn far_blinkers_turn(rt: HostRuntime) -> Result<(), Fail> {
    let blinkers = Pattern::from_cells(rt.alloc(), &FAR_BLINKERS)?;
    let later = blinkers.run(rt.alloc(), &Rule::life(), 301)?;
    assert!(rt; later.population() == 6);
    for x in [-950_001, -949_999, 949_999, 950_001] {
        assert!(rt; later.has(x, 0));
    }
    Ok(())
}
