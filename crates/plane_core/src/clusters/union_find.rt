//! Finds which cells of a pattern share a cluster, with a forest over the places of the cells.
//!
//! ```text
//! O . O . . . O          0 . 1 . . . 2          place    0  1  2  3  4
//! . . . . . . O          . . . . . . 3          leads to 0  0  2  2  0
//! . . . O . . .          . . . 4 . . .
//! ```
//!
//! Each place leads to an earlier place of its tree, or to itself if it is a root. At first, all places are roots. Then
//! each place, in order, is joined with the earlier places whose cells are near: at most two columns and two rows away.
//! When two places are joined, the later one of their roots is made to lead to the earlier one. At the end, each tree
//! is a cluster.
//!
//! The earlier cells near a cell are in its own row or in the two rows above. The places of the two rows above are
//! found once for each row, so that only columns are compared. If a cell in the rows above is too far to the left of
//! one cell, it is also too far from the later cells of the row, so it is skipped from then on. In its own row, a cell
//! is joined with the cell just before it, if the two are near. The cell before has already been joined with each
//! earlier cell that is near both. So in the rows above, there is usually at most one cell left to join.
ghost use Rattle.std.specs.Prelude.{◌≡◌, ◌≢◌, ◌+◌, ◌<◌, ◌<ℤ◌, ◌≤◌, ◌≤ℤ◌, ◌-◌, ℕ, ℤ, true, IfOk, List, length, nat_le};
ghost use Rattle.std.specs.declared.cmp.Ordering.TheVariants.{Less};
ghost use Rattle.plane_core.specs.plane.Cells.{IsPattern, cell_cmp, king_distance, on_plane};
ghost use Rattle.plane_core.specs.clusters.UnionFind.{AreRowsAbove, IsForest, IsFresh, IsRow, Joined, JoinsAll};
ghost use Rattle.plane_core.specs.clusters.UnionFind.{Keeps, LeadsBack, NeedsJoin};
ghost use Rattle.plane_core.specs.clusters.Clusters.{Linked};
ghost use Rattle.plane_core.specs.clusters.UnionFind.{cell_of, parent_of};
ghost use Rattle.plane_core.specs.declared.plane.cell.Cell.{Cell};

use crate::plane::cell::Cell;
use crate::plane::coordinate::{along, apart};
use memory::OutOfMemory;
use std::alloc::Global;

/// Places from `from` to before `end`, whose cells are in one row above the cell that is being joined. Earlier cells of
/// that row are too far to the left to be near this cell.
#[derive(Clone, Copy)]
struct RowPlaces {
    from: usize,
    end: usize,
}

/// The places of the row just above a cell (`above`) and of the row above that (`top`). All cells at places before
/// `begin` are further up.
#[derive(Clone, Copy)]
struct RowsAbove {
    begin: usize,
    above: RowPlaces,
    top: RowPlaces,
}

/// Returns `count` places, each a root.
pub(crate) fn roots(alloc: Global, count: usize) -> Result<Vec<usize>, OutOfMemory>
    ensures count { IfOk result (λ parents. length parents.items ≡ count) }
    ensures roots { IfOk result (λ parents. (k : ℕ) → k < count → parent_of parents.items k ≡ k) }
{
    let mut parents = vec![in alloc; 0; count]?;
    for place in 0..count {
        parents[place] = place;
    }
    Ok(parents)
}

/// Joins the places of all cells that are near each other, which makes the forest of the pattern.
pub(crate) fn join_all(cells: &[Cell], parents: &mut [usize])
    requires pattern { IsPattern cells.now }
    requires forest { IsForest cells.now parents.old }
    ensures forest { IsForest cells.now parents.new }
    ensures joined { JoinsAll cells.now parents.new (length cells.now) }
{
    let none = RowPlaces { from: 0, end: 0 };
    let mut rows = RowsAbove {
        begin: 0,
        above: none,
        top: none,
    };
    // The first place has no earlier one.
    for place in 1..cells.len() {
        rows = rows_above(cells, place, rows);
        let fresh = join_before(cells, parents, place);
        let cell = cells[place];
        rows.above.from = join_row(
            cells,
            parents,
            place,
            rows.above,
            cell.moved(-2, -1),
            cell.moved(2, -1),
            fresh,
        );
        rows.top.from = join_row(
            cells,
            parents,
            place,
            rows.top,
            cell.moved(-2, -2),
            cell.moved(2, -2),
            fresh,
        );
    }
}

/// Computes the rows above a place from the rows above the previous place.
#[inline(always)]
fn rows_above(cells: &[Cell], place: usize, rows: RowsAbove) -> RowsAbove
    requires pattern { IsPattern cells.now }
    requires place { (0 < place) × (place < length cells.now) }
    requires rows { AreRowsAbove cells.now rows (place - 1) }
    ensures { AreRowsAbove cells.now result place }
{
    let cell = cells[place];
    if cells[place - 1].y == cell.y {
        return rows;
    }
    let begin = first_from::<Row>(cells, rows.begin, place, cell.moved(-2, -2).y);
    let end = first_from::<Row>(cells, begin, place, cell.moved(-2, -1).y);
    RowsAbove {
        begin,
        above: RowPlaces {
            from: end,
            end: place,
        },
        top: RowPlaces { from: begin, end },
    }
}

/// A coordinate of cells: the column or the row.
trait Axis {
    ghost coordinate: { Cell → ℤ };

    /// Returns the coordinate of the cell.
    fn of(cell: Cell) -> i32
        ensures { result ≡ coordinate cell };
}

struct Column;

struct Row;

impl Axis for Column {
    ghost coordinate = { λ c. c.x };

    fn of(cell: Cell) -> i32 {
        cell.x
    }
}

impl Axis for Row {
    ghost coordinate = { λ c. c.y };

    fn of(cell: Cell) -> i32 {
        cell.y
    }
}

/// Returns the first place, from `from` to before `end`, whose cell has the coordinate `least` or a greater one.
/// Returns `end` if there is none.
#[inline(always)]
fn first_from<A: Axis>(cells: &[Cell], from: usize, end: usize, least: i32) -> usize
    requires order { from ≤ end }
    requires end { end ≤ length cells.now }
    ensures low { from ≤ result }
    ensures high { result ≤ end }
    ensures before { (k : ℕ) → from ≤ k → k < result → A.coordinate (cell_of cells.now k) <ℤ least }
    ensures at { result < end → least ≤ℤ A.coordinate (cell_of cells.now result) }
{
    let mut at = from;
    while at < end && A::of(cells[at]) < least {
        at += 1;
    }
    at
}

/// Joins `place` with the place before it, if the cell there is in the same row and near. Returns the first column in
/// which cells of the rows above may still have to be joined with `place`. Near cells to the left of this column are
/// also near the cell before, so they are joined already.
#[inline(always)]
fn join_before(cells: &[Cell], parents: &mut [usize], place: usize) -> i32
    requires pattern { IsPattern cells.now }
    requires place { (0 < place) × (place < length cells.now) }
    requires forest { IsForest cells.now parents.old }
    ensures forest { IsForest cells.now parents.new }
    ensures keeps { Keeps parents.old parents.new }
    ensures joined { (cell_of cells.now (place - 1)).y ≡ (cell_of cells.now place).y
        → NeedsJoin cells.now (place - 1) place → Joined parents.new (place - 1) place }
    ensures fresh { IsFresh cells.now result place }
{
    let before = cells[place - 1];
    let cell = cells[place];
    if before.y != cell.y || !are_near(before, cell) {
        return cell.moved(-2, 0).x;
    }
    join(parents, place - 1, place);
    along(before.x, 3)
}

/// Joins `place` with the places of `row` whose cells are in the columns from `from` to `to`, both included, and not to
/// the left of column `fresh`. `from` and `to` are in that row, and all cells between them are near the cell at
/// `place`. Returns the first place of the row whose cell isn't to the left of `from`, or `row.end` if there is none.
#[inline(always)]
fn join_row(
    cells: &[Cell],
    parents: &mut [usize],
    place: usize,
    row: RowPlaces,
    from: Cell,
    to: Cell,
    fresh: i32,
) -> usize
    requires pattern { IsPattern cells.now }
    requires place { place < length cells.now }
    requires forest { IsForest cells.now parents.old }
    requires row { IsRow cells.now row place from }
    requires end { to.y ≡ from.y }
    requires above { from.y <ℤ (cell_of cells.now place).y }
    requires near { (c : Cell) → c.y ≡ from.y → from.x ≤ℤ c.x → c.x ≤ℤ to.x
        → king_distance c (cell_of cells.now place) ≤ 2 }
    requires fresh { IsFresh cells.now fresh place }
    ensures forest { IsForest cells.now parents.new }
    ensures keeps { Keeps parents.old parents.new }
    ensures joined { (k : ℕ) → k < place → cell_cmp (cell_of cells.now k) from ≢ Less
        → cell_cmp to (cell_of cells.now k) ≢ Less
        → NeedsJoin cells.now k place → Joined parents.new k place }
    ensures row { IsRow cells.now (record row { from = result }) place from }
{
    let first = first_from::<Column>(cells, row.from, row.end, from.x);
    let start = first_from::<Column>(cells, first, row.end, fresh);
    let mut at = start;
    while at < row.end && cells[at].x <= to.x {
        join(parents, at, place);
        at += 1;
    }
    first
}

/// Joins the trees of two places: the later one of their roots then leads to the earlier one.
#[inline(always)]
fn join(parents: &mut [usize], one: usize, other: usize)
    requires one { one < length parents.old }
    requires other { other < length parents.old }
    requires back { LeadsBack parents.old }
    ensures forest { (cells : List Cell) → IsForest cells parents.old
        → Linked cells (cell_of cells one) (cell_of cells other) → IsForest cells parents.new }
    ensures keeps { Keeps parents.old parents.new }
    ensures joined { Joined parents.new one other }
{
    let left = root(parents, one);
    let right = root(parents, other);
    let later = left.max(right);
    parents[later] = left.min(right);
}

/// Returns the root of a place's tree.
fn root(parents: &[usize], place: usize) -> usize
    requires place { place < length parents.now }
    requires back { LeadsBack parents.now }
    ensures place { result < length parents.now }
    ensures root { parent_of parents.now result ≡ result }
    ensures joined { Joined parents.now place result }
    ensures linked { (cells : List Cell) → IsForest cells parents.now
        → Linked cells (cell_of cells place) (cell_of cells result) }
{
    let mut at = place;
    while parents[at] != at {
        at = parents[at];
    }
    at
}

/// Checks whether two cells are at king distance at most 2.
#[tactic(auto, unfolding(crate::specs::plane::Cells::on_plane))]
fn are_near(one: Cell, other: Cell) -> bool
    requires one { on_plane one ≡ true }
    requires other { on_plane other ≡ true }
    ensures { result ≡ nat_le (king_distance one other) 2 }
{
    apart(one.x, other.x).max(apart(one.y, other.y)) <= 2
}
