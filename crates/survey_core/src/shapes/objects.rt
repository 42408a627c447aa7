//! The objects of a finding, counted: each apgcode once, in ASCII order, with the number of objects that have it.
ghost use Rattle.std.specs.Prelude.{◌≡◌, ◌+◌, ◌<◌, ◌≤◌, ◌↔◌, ◌≢◌, [], ℕ, All, IfNone, IfOk, IfSome, IsTrue, List, length};
ghost use Rattle.std.specs.Prelude.{◌^◌, OnOk, sum, true};
ghost use Rattle.std.specs.Map.{values_of};
ghost use Rattle.std.specs.Prelude.{unwrap_or};
ghost use Rattle.plane_core.specs.plane.Generations.{lies_within};
ghost use Rattle.code_core.specs.Apgcodes.{kind_in};
ghost use Rattle.code_core.specs.Names.{IsCode};
ghost use Rattle.code_core.specs.declared.apgcode.Kind.TheVariants.{Ship};
ghost use Rattle.survey_core.specs.shapes.Objects.{AreObjects, AreObjectsOf, IsCommonMultiple, IsCounted, IsOneMore};
ghost use Rattle.survey_core.specs.shapes.Objects.{IsLeastCommonMultiple, IsMultiple, StayForGood, period_in};
ghost use Rattle.survey_core.specs.shapes.RecurringShapes.{RecursWithin};
ghost use Rattle.survey_core.specs.UnderWay.{survey_reach};

use crate::shapes::memo::{Memo, code_of};
use code_core::apgcode::{Apgcode, Kind};
use memory::OutOfMemory;
use plane_core::plane::pattern::Pattern;
use plane_core::plane::rule::Rule;
use std::alloc::Global;
use std::collections::BTreeMap;
use std::marker::Model;

/// The objects of a finding: their apgcodes in ASCII order, each once, and each with the number of objects that have
/// it, which is at least 1.
#[derive(Debug, Drop)]
pub struct Objects {
    counted: Vec<(Apgcode, u64)>,
}

impl Model for Objects {
    ghost use Rattle.std.specs.Prelude.{ℕ, List};
    ghost use Rattle.survey_core.specs.shapes.Objects.{AreObjects};

    ghost Value = { List (List ℕ × ℕ) };

    ghost view = { λ o. o.counted.items };

    ghost invariant = { λ o. AreObjects o.counted.items };
}

impl Objects {
    /// Returns the apgcodes in ASCII order, each once, and each with the number of objects that have it.
    pub fn as_slice(&self) -> &[(Apgcode, u64)]
        ensures objects { result.now ≡ self.now }
        ensures lawful { AreObjects self.now }
    {
        self.counted.as_slice()
    }

    /// Returns the apgcodes of the clusters, counted. All clusters must recur within `limit` (1 to 64) generations.
    pub(crate) fn of_clusters(
        alloc: Global,
        rule: &Rule,
        limit: u32,
        clusters: &[Pattern],
        memo: &Memo,
    ) -> Result<Objects, OutOfMemory>
        requires least { 1 ≤ limit }
        requires most { limit ≤ 64 }
        requires some { All (λ cluster. cluster ≢ []) clusters.now }
        requires near { All (λ cluster. lies_within survey_reach cluster ≡ true) clusters.now }
        requires recurs { All (RecursWithin rule.now limit) clusters.now }
        ensures objects { IfOk result (AreObjectsOf rule.now limit clusters.now) }
        ensures number { IfOk result (λ objects. sum (values_of objects) ≡ length clusters.now) }
    {
        let mut counts = BTreeMap::new(alloc);
        for cluster in clusters {
            count_cluster(alloc, rule, limit, cluster, memo, &mut counts)?;
        }
        let counted = counts.into_iter().collect(alloc)?;
        Ok(Objects { counted })
    }

    /// Checks whether the objects stay for good: none of them is a spaceship, and the least common multiple of their
    /// periods is at most the horizon.
    pub(crate) fn stay_for_good(&self, horizon: u32) -> bool
        ensures { IsTrue result ↔ StayForGood horizon self.now }
    {
        let objects = self.as_slice();
        none_is_spaceship(objects) && common_period(objects, horizon).is_some()
    }
}

/// Counts a cluster under its apgcode. A cluster that the memo knows isn't named again.
fn count_cluster(
    alloc: Global,
    rule: &Rule,
    limit: u32,
    cluster: &Pattern,
    memo: &Memo,
    counts: &mut BTreeMap<Apgcode, u64>,
) -> Result<(), OutOfMemory>
    requires least { 1 ≤ limit }
    requires most { limit ≤ 64 }
    requires some { cluster.now ≢ [] }
    requires near { lies_within survey_reach cluster.now ≡ true }
    requires recurs { RecursWithin rule.now limit cluster.now }
    requires few { sum (values_of counts.old.entries) < 2 ^ 63 }
    ensures { OnOk result (IsCounted rule.now limit cluster.now counts.old.entries counts.new.entries) }
{
    if let Some(code) = memo.known_code(rule, limit, cluster) {
        return count_one(alloc, code, counts);
    }
    let code = code_of(alloc, rule, limit, cluster)?;
    count_one(alloc, &code, counts)
}

/// Counts one more object with an apgcode. The code is copied only for its first object.
fn count_one(
    alloc: Global,
    code: &Apgcode,
    counts: &mut BTreeMap<Apgcode, u64>,
) -> Result<(), OutOfMemory>
    requires few { sum (values_of counts.old.entries) < 2 ^ 63 }
    ensures { OnOk result (IsOneMore code.now counts.old.entries counts.new.entries) }
{
    if let Some(count) = counts.get_mut(code) {
        *count += 1;
        return Ok(());
    }
    let first = code.copy(alloc)?;
    counts.insert(first, 1)?;
    Ok(())
}

/// Checks whether none of the objects is a spaceship.
fn none_is_spaceship(objects: &[(Apgcode, u64)]) -> bool
    ensures { IsTrue result ↔ All (λ object. kind_in object.0 ≢ Ship) objects.now }
{
    for object in objects {
        match object.0.kind() {
            Kind::Ship => return false,
            Kind::Still | Kind::Oscillator => continue,
        }
    }
    true
}

/// Returns the least common multiple of the periods of the objects, or `None` if it is over `most`.
fn common_period(objects: &[(Apgcode, u64)], most: u32) -> Option<u32>
    ensures least { IfSome result (IsLeastCommonMultiple objects.now) }
    ensures within { IfSome result (λ multiple. multiple ≤ most) }
    ensures none { IfNone result ((m : ℕ) → IsCommonMultiple objects.now m → most < m) }
{
    if most == 0 {
        return None;
    }
    let mut multiple = 1;
    for object in objects {
        let Some(next) = joint_multiple(multiple, period_of(object), most) else {
            return None;
        };
        multiple = next;
    }
    Some(multiple)
}

/// Returns the period of an object, which is 1 for a still life.
fn period_of(object: &(Apgcode, u64)) -> u64
    ensures { result ≡ period_in object.now.0 }
{
    match object.0.kind() {
        Kind::Still => 1,
        Kind::Oscillator | Kind::Ship => object.0.number(),
    }
}

/// Returns the least common multiple of `one` and `period`, or `None` if it is over `most`.
fn joint_multiple(one: u32, period: u64, most: u32) -> Option<u32>
    requires some { 1 ≤ one }
    ensures some { IfSome result (λ multiple. 1 ≤ multiple) }
    ensures of_one { IfSome result (λ multiple. IsMultiple multiple one) }
    ensures of_period { IfSome result (λ multiple. IsMultiple multiple period) }
    ensures least { IfSome result
        (λ multiple. (m : ℕ) → 1 ≤ m → IsMultiple m one → IsMultiple m period → multiple ≤ m) }
    ensures within { IfSome result (λ multiple. multiple ≤ most) }
    ensures none { IfNone result ((m : ℕ) → 1 ≤ m → IsMultiple m one → IsMultiple m period → most < m) }
{
    if period == 0 {
        return None;
    }
    for below in 0..most / one {
        let multiple = (below + 1) * one;
        if u64::from(multiple) % period == 0 {
            return Some(multiple);
        }
    }
    None
}
