//! Tests of a board. No clause says that spaceships are among its small clusters, or that its frontier is exact, not
//! only a bound.
use memory::OutOfMemory;
use plane_core::engine::board::Board;
use plane_core::plane::cell::Cell;
use plane_core::plane::orientation::Orientation;
use plane_core::plane::pattern::Pattern;
use plane_core::plane::rule::Rule;
use std::alloc::Global;
use std::test::Fail;

/// A glider, a block and a lightweight spaceship, far from each other.
const SKY: &[u8] = b"\
.O............................OO...........................................O..O.\n\
..O...........................OO...............................................O\n\
OOO........................................................................O...O\n\
............................................................................OOOO\n\
";

const GLIDER: &[u8] = b".O\n..O\nOOO\n";

/// The orientations, each with the diagonal direction (dx, dy) that it turns to the lower right.
const WAYS: [(Orientation, i32, i32); 8] = [
    (Orientation::Same, 1, 1),
    (Orientation::Quarter, 1, -1),
    (Orientation::Half, -1, -1),
    (Orientation::ThreeQuarter, -1, 1),
    (Orientation::Mirror, -1, 1),
    (Orientation::Flip, 1, -1),
    (Orientation::Diagonal, 1, 1),
    (Orientation::AntiDiagonal, -1, -1),
];

/// Returns a board under Life that shows the pattern, or is empty if it has no room for the pattern.
fn board_of(alloc: Global, pattern: &Pattern) -> Result<Board, OutOfMemory> {
    let life = Rule::life();
    let mut board = Board::large(alloc, &life)?;
    let _shown = board.show(&life, pattern)?;
    Ok(board)
}

/// Returns the greatest value of `across` times the column plus `down` times the row, over all cells that are in
/// `pattern` but not in `gone`, or `None` if there is no such cell.
fn greatest(pattern: &Pattern, gone: &Pattern, across: i32, down: i32) -> Option<i32> {
    let mut found = None;
    for cell in pattern.cells() {
        if !gone.has(cell.x, cell.y) {
            let sum = cell
                .x
                .wrapping_mul(across)
                .wrapping_add(cell.y.wrapping_mul(down));
            found = found.max(Some(sum));
        }
    }
    found
}

/// Returns the cells of 50 by 50 gliders, one in each square of ten by ten cells.
fn gliders(alloc: Global) -> Result<Vec<Cell>, OutOfMemory> {
    let mut cells = Vec::new(alloc);
    for i in 0..2_500_i32 {
        let x = i % 50 * 10;
        let y = i / 50 * 10;
        for (across, down) in [(1, 0), (2, 1), (0, 2), (1, 2), (2, 2)] {
            cells.push(Cell {
                y: y.wrapping_add(down),
                x: x.wrapping_add(across),
            })?;
        }
    }
    Ok(cells)
}

#[test]
fn ships_are_small_clusters(rt: HostRuntime) -> Result<(), Fail> {
    let sky = Pattern::read_plaintext(rt.alloc(), SKY)?;
    let board = board_of(rt.alloc(), &sky)?;
    let clusters = board.small_clusters(rt.alloc())?;
    let glider = Pattern::read_plaintext(rt.alloc(), GLIDER)?;
    assert!(rt; clusters.len() == 2);
    assert!(rt;
        clusters
            .iter()
            .any(|cluster| cluster.cells() == glider.cells())
    );
    assert!(rt; clusters.iter().any(|cluster| cluster.population() == 9));
    Ok(())
}

#[test]
fn nothing_has_no_clusters(rt: HostRuntime) -> Result<(), Fail> {
    let nothing = Pattern::read_plaintext(rt.alloc(), b"")?;
    let mut board = board_of(rt.alloc(), &nothing)?;
    assert!(rt; board.small_clusters(rt.alloc())?.is_empty());
    assert!(rt;
        board
            .frontier_without(Orientation::Same, &nothing)
            .is_none()
    );
    board.take_out(&nothing)?;
    assert!(rt; board.pattern(rt.alloc())?.population() == 0);
    Ok(())
}

// `small_clusters` finds a glider ahead of 2,500 others, and `take_out` can take all gliders off the board at once.
#[test]
fn the_foremost_of_many_gliders_is_found(rt: HostRuntime) -> Result<(), Fail> {
    let mut cells = gliders(rt.alloc())?;
    let glider = Pattern::read_plaintext(rt.alloc(), GLIDER)?;
    let foremost = glider.shift(rt.alloc(), 600, 600)?;
    for cell in foremost.cells() {
        cells.push(*cell)?;
    }
    let all = Pattern::from_cells(rt.alloc(), cells.as_slice())?;
    let mut board = board_of(rt.alloc(), &all)?;
    let clusters = board.small_clusters(rt.alloc())?;
    assert!(rt;
        clusters
            .iter()
            .any(|cluster| cluster.cells() == foremost.cells())
    );
    board.take_out(&all)?;
    assert!(rt; board.pattern(rt.alloc())?.population() == 0);
    Ok(())
}

#[test]
fn the_frontier_is_the_greatest_sum(rt: HostRuntime) -> Result<(), Fail> {
    let cells = gliders(rt.alloc())?;
    let all = Pattern::from_cells(rt.alloc(), cells.as_slice())?;
    let board = board_of(rt.alloc(), &all)?;
    let glider = Pattern::read_plaintext(rt.alloc(), GLIDER)?;
    for (way, across, down) in WAYS {
        let found = board.frontier_without(way, &glider);
        let wanted = greatest(&all, &glider, across, down);
        assert!(rt; found == wanted, "in {way:?}");
    }
    Ok(())
}

// The board has only the glider, so without it there is no frontier.
#[test]
fn a_lone_glider_has_no_frontier_without_itself(rt: HostRuntime) -> Result<(), Fail> {
    let glider = Pattern::read_plaintext(rt.alloc(), GLIDER)?;
    let board = board_of(rt.alloc(), &glider)?;
    for (way, _across, _down) in WAYS {
        assert!(rt;
            board.frontier_without(way, &glider).is_none(),
            "in {way:?}"
        );
    }
    Ok(())
}
