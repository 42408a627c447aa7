//! Clusters that may come near each other are in the same group, and each group is run by itself. At first each cluster
//! is a group of its own, whose number is the cluster's place in the list. If two clusters may come near each other,
//! their groups become one. In this example, clusters 3 and 0 may come near each other, and so may clusters 3 and 1:
//!
//! ```text
//! clusters    block   glider   block   blinker
//! at first    0       1        2       3
//! 3 and 0     0       1        2       0
//! 3 and 1     1       1        2       1
//! ```
//!
//! A cluster that is alone in its group isn't run.

ghost use Rattle.std.specs.Prelude.{◌≢◌, ◌<◌, ◌≤◌, ℕ, IfOk, get_or, length, map};
ghost use Rattle.survey_core.specs.rest.Grouping.{AreGroups, AreNumbers, AreRenamed, Coarser, PairIsRight};

use crate::shapes::envelope_bounds::{EnvelopeBounds, stay_apart};
use memory::OutOfMemory;
use std::alloc::Global;

/// The most clusters that are grouped. If there are more, they are one group, since comparing every pair would take
/// longer than running them together. A soup of Life leaves 19 on average.
const MOST_GROUPED: usize = 4096;

/// Returns the number of each cluster's group, given the clusters' envelopes. Clusters of different groups stay apart
/// up to the horizon.
pub(crate) fn groups(
    alloc: Global,
    horizon: u32,
    envelopes: &[EnvelopeBounds],
) -> Result<Vec<usize>, OutOfMemory>
    requires { horizon ≤ 4096 }
    ensures { IfOk result (λ groups. AreGroups horizon envelopes.now groups.items) }
{
    let mut groups = vec![in alloc; 0; envelopes.len()]?;
    if envelopes.len() > MOST_GROUPED {
        return Ok(groups);
    }
    for place in 0..envelopes.len() {
        // Each cluster is a group of its own before it is joined with others.
        groups[place] = place;
        join(horizon, envelopes, place, groups.as_mut_slice());
    }
    Ok(groups)
}

/// Compares the cluster at `place` with each cluster before it, and joins the groups of the two if they may meet.
// This isn't inlined, because the compiler would then spill registers that the loop needs for each pair.
#[inline(never)]
fn join(horizon: u32, envelopes: &[EnvelopeBounds], place: usize, groups: &mut [usize])
    requires horizon { horizon ≤ 4096 }
    requires place { place < length envelopes.now }
    requires numbers { AreNumbers envelopes.now groups.old }
    ensures numbers { AreNumbers envelopes.now groups.new }
    ensures coarser { Coarser groups.old groups.new }
    ensures apart { (j : ℕ) → j < place → PairIsRight horizon envelopes.now groups.new place j }
{
    let one = envelopes[place];
    for other in 0..place {
        let apart = stay_apart(horizon, &one, &envelopes[other]);
        if apart {
            continue;
        }
        let (from, to) = (groups[place], groups[other]);
        rename(groups, from, to);
    }
}

/// Replaces each group number `from` by `to`.
fn rename(groups: &mut [usize], from: usize, to: usize)
    ensures { AreRenamed from to groups.old groups.new }
{
    for group in groups.iter_mut() {
        if *group != from {
            continue;
        }
        *group = to;
    }
}
