//! Tests of range lists.

use crate::setup::range;
use memory::OutOfMemory;
use ranges::range::Range;
use std::alloc::Global;
use std::test::Fail;

#[test]
fn reads_lists_of_ranges(rt: HostRuntime) -> Result<(), Fail> {
    let read = Range::read_list(rt.alloc(), "0+4,10+2,18446744073709551615+0")?;
    let ranges = [range(0, 4), range(10, 2), range(u64::MAX, 0)];
    assert!(rt; read.as_slice() == ranges.as_slice());
    Ok(())
}

#[test]
fn reads_an_empty_list(rt: HostRuntime) -> Result<(), Fail> {
    assert!(rt; Range::read_list(rt.alloc(), "")?.is_empty());
    Ok(())
}

/// Returns a list of 2^18 + 1 ranges of one number each. The text has 2^20 + 3 bytes.
fn long_list(alloc: Global) -> Result<String, OutOfMemory> {
    let mut text = String::from_str(alloc, "0+1")?;
    for _ in 0..262_144u32 {
        text.push_str(",0+1")?;
    }
    Ok(text)
}

#[test]
fn reads_a_list_of_a_megabyte(rt: HostRuntime) -> Result<(), Fail> {
    let text = long_list(rt.alloc())?;
    let read = Range::read_list(rt.alloc(), text.as_str())?;
    assert!(rt; text.len() > 1_048_576 && read.len() == 262_145);
    Ok(())
}
