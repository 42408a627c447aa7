//! Clusters that are run alone, each by itself, a generation at a time.
//!
//! For each cluster, the generation after the start is kept as `first`. So it needn't be computed again whenever the
//! cluster is the same as at the start:
//!
//! ```text
//! cluster    first    latest, after 1, 2, 3 .. generations
//!            .O.      .O.           .O.
//! OOO        .O.      .O.    OOO    .O.
//!            .O.      .O.           .O.
//! ```
ghost use Rattle.std.specs.Prelude.{◌≡◌, ◌↔◌, ◌<◌, ◌≤◌, All, AllPairs, IfNone, IfOk, IfSome, IsTrue, List, OnOk, length, map, true};
ghost use Rattle.plane_core.specs.plane.Cells.{InOrder, king_distance};
ghost use Rattle.plane_core.specs.clusters.Clusters.{LieApart, Partition};
ghost use Rattle.plane_core.specs.plane.Generations.{lies_within, next};
ghost use Rattle.plane_core.specs.declared.plane.cell.Cell.{Cell};
ghost use Rattle.survey_core.specs.rest.Alone.{LiesApartFrom, clusters_of, latest_of, stepped};
ghost use Rattle.survey_core.specs.rest.Groups.{union_of};

use crate::far_from_edge::{are_same, next, pattern_of};
use crate::shapes::envelope_bounds::{are_boxes_apart, box_round};
use memory::OutOfMemory;
use plane_core::plane::cell::Cell;
use plane_core::plane::pattern::Pattern;
use plane_core::plane::rule::Rule;
use std::alloc::Global;

/// The most clusters that are compared pair by pair, to find whether all are more than two cells apart. If there are
/// more, it costs less to advance their union.
const MOST_COMPARED: usize = 8;

/// The most cells of a cluster that is compared with another cluster cell by cell. If one of the two is larger, only
/// their bounding boxes are compared.
const MOST_CELLS: usize = 32;

/// A cluster that is run alone.
#[derive(Drop)]
pub(crate) struct Alone {
    pub(crate) cluster: Pattern,
    /// The generation after `cluster`.
    pub(crate) first: Pattern,
    /// The cluster as it is now.
    pub(crate) latest: Pattern,
}

impl Alone {
    /// Returns the next generation. This is `first` if the cluster is the same as at the start, as a still life always
    /// is.
    fn next(&self, alloc: Global, rule: &Rule) -> Result<Pattern, OutOfMemory>
        requires first { self.now.first ≡ next rule.now self.now.cluster }
        requires near { lies_within 999999 self.now.latest ≡ true }
        ensures { IfOk result (λ later. later ≡ next rule.now self.now.latest) }
    {
        let same = are_same(self.latest.cells(), self.cluster.cells());
        if same {
            return self.first.copy(alloc);
        }
        next(alloc, rule, &self.latest)
    }
}

/// Advances each of the clusters by one generation.
pub(crate) fn step_each(
    alloc: Global,
    rule: &Rule,
    clusters: &mut [Alone],
) -> Result<(), OutOfMemory>
    requires first { All (λ alone. alone.first ≡ next rule.now alone.cluster) clusters.old }
    requires near { All (λ alone. lies_within 999999 alone.latest ≡ true) clusters.old }
    ensures { OnOk result (clusters.new ≡ map (stepped rule.now) clusters.old) }
{
    for cluster in clusters.iter_mut() {
        cluster.latest = cluster.next(alloc, rule)?;
    }
    Ok(())
}

/// Checks whether each of the clusters is the same as at the start.
pub(crate) fn have_recurred(clusters: &[Alone]) -> bool
    ensures { IsTrue result ↔ (latest_of clusters.now ≡ clusters_of clusters.now) }
{
    for alone in clusters {
        let same = are_same(alone.latest.cells(), alone.cluster.cells());
        if !same {
            return false;
        }
    }
    true
}

/// Returns `true` only if all clusters are now more than two cells apart from each other. `false` says nothing. If
/// there are more than `MOST_COMPARED` clusters, the result is `false`.
pub(crate) fn lie_apart(clusters: &[Alone]) -> bool
    ensures { IsTrue result → AllPairs LieApart (latest_of clusters.now) }
{
    if clusters.len() > MOST_COMPARED {
        return false;
    }
    for place in 0..clusters.len() {
        let apart = lies_apart(clusters, place);
        if !apart {
            return false;
        }
    }
    true
}

/// Returns `true` only if the cluster at `place` is now more than two cells apart from each cluster before it in the
/// list. `false` says nothing.
fn lies_apart(clusters: &[Alone], place: usize) -> bool
    requires { place < length clusters.now }
    ensures { IsTrue result → LiesApartFrom place place clusters.now }
{
    for other in 0..place {
        let apart = are_apart(&clusters[other].latest, &clusters[place].latest);
        if !apart {
            return false;
        }
    }
    true
}

/// Returns `true` only if two patterns are more than two cells apart. `false` says nothing. First the bounding boxes
/// are compared, which usually suffices, and then the cells, unless a pattern has more than `MOST_CELLS`.
fn are_apart(one: &Pattern, other: &Pattern) -> bool
    ensures { IsTrue result → LieApart one.now other.now }
{
    if are_boxes_apart(box_round(one), box_round(other)) {
        return true;
    }
    if one.population().max(other.population()) > MOST_CELLS {
        return false;
    }
    are_cells_apart(one.cells(), other.cells())
}

/// Checks whether each cell of `cells` is at king distance 3 or more from each cell of `others`.
fn are_cells_apart(cells: &[Cell], others: &[Cell]) -> bool
    ensures { IsTrue result → LieApart cells.now others.now }
{
    for cell in cells {
        let apart = is_apart(*cell, others);
        if !apart {
            return false;
        }
    }
    true
}

/// Checks whether the cell is at king distance 3 or more from each cell of `others`.
fn is_apart(cell: Cell, others: &[Cell]) -> bool
    ensures { IsTrue result → All (λ other. 3 ≤ king_distance cell other) others.now }
{
    for other in others {
        if king_distance(cell, *other) < 3 {
            return false;
        }
    }
    true
}

/// Returns the king distance of two cells: the greater of their distances in columns and in rows.
fn king_distance(one: Cell, other: Cell) -> u32
    ensures { result ≡ king_distance one other }
{
    one.x.abs_diff(other.x).max(one.y.abs_diff(other.y))
}

/// Returns the union of the clusters as they are now, or `None` if two of them share a cell.
pub(crate) fn joined(alloc: Global, clusters: &[Alone]) -> Result<Option<Pattern>, OutOfMemory>
    requires order { All InOrder (latest_of clusters.now) }
    requires near { All (λ part. lies_within 999999 part ≡ true) (latest_of clusters.now) }
    ensures union { IfOk result (λ found. IfSome found (λ whole. whole ≡ union_of (latest_of clusters.now))) }
    ensures off { IfOk result (λ found. IfSome found (λ whole. Partition whole (latest_of clusters.now))) }
    ensures shared { IfOk result (λ found. IfNone found ((whole : List Cell) → InOrder whole
        → ¬ Partition whole (latest_of clusters.now))) }
{
    let mut cells = Vec::new(alloc);
    for alone in clusters {
        cells.extend_from_slice(alone.latest.cells())?;
    }
    let union = pattern_of(alloc, cells.as_slice())?;
    let apart = union.population() == cells.len();
    Ok(apart.then_some(union))
}
