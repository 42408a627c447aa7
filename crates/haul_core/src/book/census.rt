//! The census of a haul: which objects its soups left.

use crate::book::census_rows::Rows;
use ranges::range::Ranges;
use survey_core::job::Job;

/// The census of the soups that a haul has taken.
#[derive(Debug, Drop)]
pub struct Census {
    pub job: Job,
    /// The set of soup numbers, in normal form.
    pub ranges: Ranges,
    /// The number of soups in the set.
    pub count: u64,
    /// The number of soups that were taken.
    pub soups: u64,
    /// The number of taken soups that are unsettled.
    pub unsettled: u64,
    /// The number of taken soups whose objects stay for good.
    pub for_good: u64,
    /// The number of objects that the taken soups left: the sum of all totals.
    pub objects: u128,
    /// A row for each code that an object of the taken soups has.
    pub rows: Rows,
}
