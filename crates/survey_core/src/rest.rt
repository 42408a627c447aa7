//! A pattern is at rest if each of its clusters recurs, and if the clusters, each run alone, together are the whole
//! pattern in every generation up to the horizon. Two blinkers with two empty rows between them show why the second
//! condition is needed:
//!
//! ```text
//! generation 0    generation 1    generation 2,    generation 2,
//!                                 each alone       the whole
//!                     .O.
//!     OOO             .O.             OOO              OOO
//!     ...             .O.             ...              OOO
//!     ...             .O.             ...              OOO
//!     OOO             .O.             OOO              OOO
//!                     .O.
//! ```
//!
//! At most checkpoints, the pattern isn't at rest, usually because some cluster doesn't recur. So the first test is
//! whether each cluster recurs. This test also gives each cluster's envelope, a box around all its phases. The
//! envelopes show which clusters may come near each other. These clusters form a group, and each group is run by
//! itself. The clusters of a group are advanced one generation at a time: until one influences another, until all of
//! them are the same as at the start, so that nothing new can follow, or until the horizon. For a cluster that is the
//! same as at the start, the next generation is known. While the clusters of a group are more than two cells apart,
//! they evolve together as they do alone. If they are closer, the whole group is advanced too, and compared with the
//! union of its clusters.

ghost use Rattle.std.specs.Prelude.{◌≡◌, ◌<◌, ◌≤◌, ◌↔◌, ℕ, All, IfNone, IfOk, IfSome, IsTrue, length, map};
ghost use Rattle.std.specs.Prelude.{◌==◌, OnOk, filter, true};
ghost use Rattle.plane_core.specs.plane.Cells.{InOrder};
ghost use Rattle.plane_core.specs.plane.Generations.{after, lies_within, next};
ghost use Rattle.survey_core.specs.rest.Alone.{alone_at, clusters_of, latest_of, stepped};
ghost use Rattle.survey_core.specs.rest.Groups.{GroupKeeps, ShareNoCell, members, union_of};
ghost use Rattle.survey_core.specs.rest.Rest.{IsAtRest, KeepApart, RestsAs};
ghost use Rattle.survey_core.specs.rest.RestLaws.{GroupsRunAlone, PartsRunAlone};
ghost use Rattle.survey_core.specs.UnderWay.{survey_reach};

/// Clusters that are run alone.
mod alone;
/// Groups of clusters that may meet.
mod groups;

use crate::far_from_edge::{are_same, next};
use crate::profile::Profile;
use crate::rest::alone::{Alone, have_recurred, joined, lie_apart, step_each};
use crate::rest::groups::groups;
use crate::shapes::memo::Memo;
use memory::OutOfMemory;
use plane_core::plane::pattern::Pattern;
use plane_core::plane::rule::Rule;
use std::alloc::Global;

/// Returns the clusters of the pattern if it is at rest, and otherwise `None`.
pub(crate) fn clusters_at_rest(
    alloc: Global,
    profile: &Profile,
    rule: &Rule,
    pattern: &Pattern,
    memo: &mut Memo,
) -> Result<Option<Vec<Pattern>>, OutOfMemory>
    requires { lies_within survey_reach pattern.now ≡ true }
    ensures rest { IfOk result
        (λ found. IfSome found (λ clusters. RestsAs rule.now profile.now pattern.now clusters.items)) }
    ensures moves { IfOk result (λ found. IfNone found (¬ IsAtRest rule.now profile.now pattern.now)) }
{
    pattern.recall_order();
    let limit = profile.period();
    let horizon = profile.horizon();
    let clusters = pattern.clusters(alloc)?;
    let parts = clusters.as_slice();
    let Some(envelopes) = memo.envelopes(alloc, rule, limit, parts)? else {
        return Ok(None);
    };
    let groups = groups(alloc, horizon, envelopes.as_slice())?;
    let apart = groups_keep_apart(alloc, rule, horizon, parts, groups.as_slice())?;
    Ok(apart.then_some(clusters))
}

/// Checks whether the clusters of each group keep apart: in each generation up to the horizon, the clusters of a group,
/// each run alone, share no cell, and together they are the same as their union, run as one pattern.
fn groups_keep_apart(
    alloc: Global,
    rule: &Rule,
    horizon: u32,
    clusters: &[Pattern],
    groups: &[usize],
) -> Result<bool, OutOfMemory>
    requires horizon { horizon ≤ 4096 }
    requires near { All (λ cluster. lies_within survey_reach cluster ≡ true) clusters.now }
    requires order { All InOrder clusters.now }
    requires off { ShareNoCell clusters.now }
    requires count { length groups.now ≡ length clusters.now }
    ensures { IfOk result
        (λ apart. IsTrue apart
        ↔ ((k : ℕ) → k < length clusters.now → GroupKeeps rule.now groups.now clusters.now horizon k)) }
{
    for number in 0..clusters.len() {
        if count_of(groups, number) < 2 {
            continue;
        }
        let mut members = members(alloc, rule, number, groups, clusters)?;
        let keeps = keep_apart(alloc, rule, horizon, members.as_mut_slice())?;
        if !keeps {
            return Ok(false);
        }
    }
    Ok(true)
}

/// Returns how many clusters the group with this number has. The loop has no branch that depends on a group number, so
/// the compiler can compare several group numbers at once.
fn count_of(groups: &[usize], number: usize) -> usize
    ensures { result ≡ length (filter (λ group. group == number) groups.now) }
{
    let mut count = 0;
    for group in groups {
        count += usize::from(*group == number);
    }
    count
}

/// Returns the clusters of the group with this number, to be run alone.
fn members(
    alloc: Global,
    rule: &Rule,
    number: usize,
    groups: &[usize],
    clusters: &[Pattern],
) -> Result<Vec<Alone>, OutOfMemory>
    requires near { All (λ cluster. lies_within survey_reach cluster ≡ true) clusters.now }
    requires count { length groups.now ≡ length clusters.now }
    ensures { IfOk result
        (λ found. found.items ≡ map (alone_at rule.now 0) (members number groups.now clusters.now)) }
{
    let mut members = Vec::new(alloc);
    for (place, cluster) in clusters.iter().enumerate() {
        if groups[place] != number {
            continue;
        }
        members.push(Alone {
            cluster: cluster.copy(alloc)?,
            first: next(alloc, rule, cluster)?,
            latest: cluster.copy(alloc)?,
        })?;
    }
    Ok(members)
}

/// Checks whether the clusters keep apart: in each generation up to the horizon, the clusters, each run alone, share no
/// cell, and together they are the same as their union, run as one pattern.
fn keep_apart(
    alloc: Global,
    rule: &Rule,
    horizon: u32,
    clusters: &mut [Alone],
) -> Result<bool, OutOfMemory>
    requires start { clusters.old ≡ map (alone_at rule.now 0) (clusters_of clusters.old) }
    requires horizon { horizon ≤ 4096 }
    requires near { All (λ cluster. lies_within survey_reach cluster ≡ true) (clusters_of clusters.old) }
    requires order { All InOrder (clusters_of clusters.old) }
    requires off { ShareNoCell (clusters_of clusters.old) }
    ensures { IfOk result
        (λ apart. IsTrue apart
        ↔ ((g : ℕ) → g ≤ horizon
        → KeepApart rule.now (union_of (clusters_of clusters.old)) (clusters_of clusters.old) g)) }
{
    for _ in 0..horizon {
        let keeps = step_apart(alloc, rule, clusters)?;
        if !keeps {
            return Ok(false);
        }
        if have_recurred(clusters) {
            return Ok(true);
        }
    }
    Ok(true)
}

/// Advances each of the clusters by one generation. Returns whether they then share no cell, and together are the same
/// as their old union, advanced by one generation.
fn step_apart(alloc: Global, rule: &Rule, clusters: &mut [Alone]) -> Result<bool, OutOfMemory>
    requires first { All (λ alone. alone.first ≡ next rule.now alone.cluster) clusters.old }
    requires near { All (λ alone. lies_within 999999 alone.latest ≡ true) clusters.old }
    requires later { All (λ part. lies_within 999999 part ≡ true)
        (map (λ part. after rule.now part 1) (latest_of clusters.old)) }
    requires order { All InOrder (latest_of clusters.old) }
    requires off { ShareNoCell (latest_of clusters.old) }
    ensures stepped { OnOk result (clusters.new ≡ map (stepped rule.now) clusters.old) }
    ensures apart { IfOk result
        (λ apart. IsTrue apart ↔ KeepApart rule.now (union_of (latest_of clusters.old)) (latest_of clusters.old) 1) }
{
    // Nearly always, this test shows that the clusters are apart. Then their union needn't be advanced.
    if lie_apart(clusters) {
        step_each(alloc, rule, clusters)?;
        return Ok(true);
    }
    let Some(whole) = joined(alloc, clusters)? else {
        return Ok(false);
    };
    let later = next(alloc, rule, &whole)?;
    step_each(alloc, rule, clusters)?;
    let Some(together) = joined(alloc, clusters)? else {
        return Ok(false);
    };
    let same = are_same(together.cells(), later.cells());
    Ok(same)
}

/// The laws of parts. Parts of a pattern that stay more than two cells apart evolve together as they do alone. If parts
/// of different groups stay more than two cells apart, each group can be tested by itself.
pub fn far_parts_run_alone()
    ensures parts { PartsRunAlone }
    ensures groups { GroupsRunAlone }
{}
