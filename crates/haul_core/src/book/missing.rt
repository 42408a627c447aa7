//! The numbers of a haul's set that haven't been taken.

ghost use Rattle.std.specs.Prelude.{◌≡◌, ◌≤◌, ◌++◌, IfOk, OnOk, filter};
ghost use Rattle.haul_core.specs.Missing.{numbers_of, numbers_of_range};
ghost use Rattle.haul_core.specs.MissingSteps.{has_no_worker};
ghost use Rattle.ranges.specs.Ranges.{AreBelow, end_of, number_bound};

use indexmap::IndexMap;
use memory::OutOfMemory;
use ranges::range::Range;
use std::alloc::Global;

/// Returns those numbers of the ranges that have no worker in `worker_of`, in the order of the ranges.
pub(crate) fn missing(
    alloc: Global,
    ranges: &[Range],
    worker_of: &IndexMap<u64, u8>,
) -> Result<Vec<u64>, OutOfMemory>
    requires { AreBelow number_bound ranges.now }
    ensures { IfOk result
        (λ missing. missing.items ≡ filter (has_no_worker worker_of.now.entries) (numbers_of ranges.now)) }
{
    let mut missing = Vec::new(alloc);
    for range in ranges {
        add_missing(&mut missing, range, worker_of)?;
    }
    Ok(missing)
}

/// Appends those numbers of a range that have no worker in `worker_of`.
fn add_missing(
    missing: &mut Vec<u64>,
    range: &Range,
    worker_of: &IndexMap<u64, u8>,
) -> Result<(), OutOfMemory>
    requires { end_of range.now ≤ number_bound }
    ensures { OnOk result (missing.new.items
        ≡ missing.old.items ++ filter (has_no_worker worker_of.now.entries) (numbers_of_range range.now)) }
{
    for number in range.first..range.first + range.count {
        if !worker_of.contains_key(&number) {
            missing.push(number)?;
        }
    }
    Ok(())
}
