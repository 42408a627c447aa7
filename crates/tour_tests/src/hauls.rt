//! Hauls: open one, offer reports, and read its census.

use crate::soups::standard_job;
use haul_core::book::haul::Haul;
use haul_core::book::haul_text::write_haul;
use haul_core::report::Report;
use plane_core::output::Out;
use ranges::range::Range;
use std::alloc::Global;
use std::test::Fail;

/// Opens a haul of soups 0 to 3, for one worker, and offers the reports on all of them.
fn four_soups(alloc: Global) -> Result<Haul, Fail> {
    let job = standard_job()?;
    let mut haul = Haul::open(alloc, job, &[Range { first: 0, count: 4 }], 1)?;
    for number in 0..4 {
        let Ok(report) = Report::make(alloc, &job, 1, number) else {
            drop(haul);
            return Err(Fail::new("no memory"));
        };
        drop(haul.offer(report));
    }
    Ok(haul)
}

// The census of a complete haul has the objects of all its soups. `census take --count 4` prints the text of this
// census.
#[test]
fn counts_four_soups(rt: HostRuntime) -> Result<(), Fail> {
    let haul = four_soups(rt.alloc())?;
    let is_complete = haul.is_complete();
    let census = haul.census();
    drop(haul);
    let census = census?;
    assert!(rt; is_complete && census.soups == 4);
    let mut out = Out::new(Vec::new(rt.alloc()));
    write_haul(&census, &mut out)?;
    assert!(rt; out.into_inner().as_slice().starts_with(b"@VERSION 2\n"));
    Ok(())
}
