//! Divides a pattern into clusters: each tree of its [forest](crate::clusters::union_find) is a cluster.
//!
//! ```text
//! O . O . . . O          place    0  1  2  3  4
//! . . . . . . O          leads to 0  0  2  2  0
//! . . . O . . .          cluster  0  0  1  1  0
//! ```
//!
//! The places, which are the indices of the cells, are visited in order. A root begins the next cluster. Any other
//! place leads to an earlier place, and belongs to the cluster of that place. When a place has been visited, its link
//! is replaced by the number of its cluster. So the clusters are in the order of their first cells, and the cells of
//! each cluster are in order.
ghost use Rattle.std.specs.Prelude.{◌+◌, ◌<◌, length, All, IfOk, OnOk};
ghost use Rattle.plane_core.specs.plane.Cells.{IsPattern};
ghost use Rattle.plane_core.specs.clusters.Clusters.{AreClusters};
ghost use Rattle.plane_core.specs.clusters.Clusters.{ClustersAreDetermined, ClustersLieApart, ClustersMoveAlong};
ghost use Rattle.plane_core.specs.clusters.Clusters.{ClustersPartition, LinkedIsAnEquivalence};
ghost use Rattle.plane_core.specs.clusters.UnionFind.{IsForest, IsGatheringCells, JoinsAll};

pub(crate) mod union_find;

use crate::clusters::union_find::{join_all, roots};
use crate::plane::cell::Cell;
use crate::plane::pattern::Pattern;
use memory::OutOfMemory;
use std::alloc::Global;

/// The number of cells for which a new cluster has room. Few clusters of a soup have more cells.
const COMMON_SIZE: usize = 8;

impl Pattern {
    /// Returns the clusters, ordered by their first cells.
    ///
    /// Two cells share a cluster if they are joined by a chain of live cells in which each cell is at most two columns
    /// and two rows away from the next.
    ///
    /// # Errors
    ///
    /// `OutOfMemory` if memory runs out.
    ///
    /// # Examples
    ///
    /// `crates/tour_tests/src/patterns.rt` finds the clusters of two gliders.
    pub fn clusters(&self, alloc: Global) -> Result<Vec<Pattern>, OutOfMemory>
        ensures clusters { IfOk result (λ clusters. AreClusters self.now clusters.items) }
        ensures patterns { IfOk result (λ clusters. All IsPattern clusters.items) }
    {
        let cells = self.cells();
        let mut parents = roots(alloc, cells.len())?;
        let places = parents.as_mut_slice();
        join_all(cells, places);
        gathered(alloc, cells, places)
    }
}

/// The law that being linked by a chain of live cells is an equivalence relation on the cells of a pattern.
#[tactic(auto, using(crate::proofs::lemmas::clusters::ClusterLaws::linked_law))]
pub fn linked_is_an_equivalence()
    ensures { LinkedIsAnEquivalence }
{}

/// The law that no two clusters share a cell, and that all clusters together are the pattern.
pub fn clusters_partition()
    ensures { ClustersPartition }
{}

/// The law that two cells of different clusters are at king distance 3 or more.
pub fn clusters_lie_apart()
    ensures { ClustersLieApart }
{}

/// The law that a pattern has only one list of clusters.
pub fn clusters_are_determined()
    ensures { ClustersAreDetermined }
{}

/// The law that the clusters of a moved pattern are the moved clusters.
pub fn clusters_move_along()
    ensures { ClustersMoveAlong }
{}

/// Returns each tree of a forest as the pattern of its cells. The forest is overwritten: each place gets the number of
/// its cluster.
fn gathered(
    alloc: Global,
    cells: &[Cell],
    parents: &mut [usize],
) -> Result<Vec<Pattern>, OutOfMemory>
    requires pattern { IsPattern cells.now }
    requires forest { IsForest cells.now parents.old }
    requires joined { JoinsAll cells.now parents.old (length cells.now) }
    ensures clusters { IfOk result (λ clusters. AreClusters cells.now clusters.items) }
    ensures patterns { IfOk result (λ clusters. All IsPattern clusters.items) }
{
    let mut clusters = Vec::new(alloc);
    for place in 0..cells.len() {
        gather(alloc, cells, parents, &mut clusters, place)?;
    }
    Ok(clusters)
}

/// Puts the cell at `place` into the cluster of the earlier place to which `place` leads, and replaces the link by the
/// number of that cluster. A root begins a new cluster.
fn gather(
    alloc: Global,
    cells: &[Cell],
    parents: &mut [usize],
    clusters: &mut Vec<Pattern>,
    place: usize,
) -> Result<(), OutOfMemory>
    requires pattern { IsPattern cells.now }
    requires place { place < length cells.now }
    requires gathering { IsGatheringCells cells.now parents.old clusters.old.items place }
    ensures { OnOk result (IsGatheringCells cells.now parents.new clusters.new.items (place + 1)) }
{
    let parent = parents[place];
    if parent == place {
        parents[place] = clusters.len();
        let mut first = Vec::with_capacity(alloc, COMMON_SIZE)?;
        first.push(cells[place])?;
        clusters.push(Pattern::from_ordered(first))?;
        return Ok(());
    }
    let number = parents[parent];
    parents[place] = number;
    clusters[number].push(cells[place])
}
