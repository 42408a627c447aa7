//! Tests a haul that one crew leaves incomplete, and another crew completes.
use crate::gates::{Patience, StopsSome};
use crate::left::go_on;
use crate::small::{haul_of, standard_job};
use crew::gate::OpenGate;
use crew::progress_observer::NoObserver;
use crew::take::CrewError;
use haul_core::book::haul::Haul;
use haul_core::book::haul_text::write_haul;
use plane_core::output::Out;
use std::alloc::Global;
use std::sync::Wait;
use std::test::Fail;
use std::thread::Threads;

/// Returns the haul text of what a haul has taken.
fn text_of(alloc: Global, haul: &Haul) -> Result<Vec<u8>, Fail> {
    let census = haul.census()?;
    let mut out = Out::new(Vec::new(alloc));
    write_haul(&census, &mut out)?;
    Ok(out.into_inner())
}

/// What became of a haul that was first left incomplete, then completed, and then closed.
#[derive(Drop)]
struct Outcome {
    /// After the first crew: why it didn't complete the haul, how many soups were missing, and whether the haul was
    /// closed.
    fault: Option<CrewError>,
    missing: u64,
    is_closed: bool,
    /// The error of the last crew, which was asked to complete the closed haul.
    last_fault: Option<CrewError>,
    text: Vec<u8>,
}

/// Takes forty soups under the standard profile with two workers. The second worker is stopped at its first soup,
/// before the first worker may go on. Then two other workers complete the haul, the haul is closed, and a last crew is
/// asked to complete it.
fn resumed<R: AllocGlobal + Threads + Wait + Sync>(rt: &R) -> Result<Outcome, Fail> {
    let gate = StopsSome {
        first: 2,
        last: 2,
        patience: Patience::new(rt.alloc())?,
    };
    let haul = haul_of(rt.alloc(), standard_job()?, 40, 2)?;
    let (haul, fault) = go_on(rt, haul, 2, &gate, &mut NoObserver);
    let (missing, is_closed) = (haul.missing_count(), haul.is_closed());
    let (mut haul, _) = go_on(rt, haul, 2, &OpenGate, &mut NoObserver);
    let _ = haul.close();
    let (haul, last_fault) = go_on(rt, haul, 2, &OpenGate, &mut NoObserver);
    let text = text_of(rt.alloc(), &haul);
    drop(haul);
    Ok(Outcome {
        fault,
        missing,
        is_closed,
        last_fault,
        text: text?,
    })
}

#[test]
fn completes_a_haul_after_a_stop(rt: HostRuntime) -> Result<(), Fail> {
    let left = resumed(&rt)?;
    assert!(rt; left.fault == Some(CrewError::Stopped { worker: 2 }));
    assert!(rt; left.missing == 1 && !left.is_closed);
    assert!(rt; left.last_fault == Some(CrewError::Closed));
    assert!(rt; left.text.as_slice() == FORTY.as_bytes());
    Ok(())
}

// The haul text of the forty soups. It was computed by a program in another language, which was written only from the
// definitions.
const FORTY: &str = "@VERSION 2
@ROOT seed=
@RULE b3s23
@SYMMETRY C1
@PROFILE 64 512 101 30300
@RANGE 0 40
@NUM_SOUPS 40
@NUM_UNSETTLED 0
@NUM_FOR_GOOD 14
@NUM_OBJECTS 796

@CENSUS TABLE
xp2_1110s 5
xp2_318c 1
xp2_33ws 2
xp2_6952w7 2
xp2_7 111
xp2_70ggg07 9
xp2_7e 1
xp2_s01110szw222 20
xq4_153 91
xs10_25208kk8 1
xs10_2530ok8 1
xs10_660696 1
xs10_gg0696z11 1
xs11_w69a4z33 1
xs12_696z696 2
xs12_g8o653z11 2
xs13_02596z696 1
xs13_0g2596z343 1
xs13_2596z696 1
xs14_0330ooz4aa4 1
xs4_252 13
xs4_33 277
xs5_253 44
xs6_356 28
xs6_696 140
xs6_bd 1
xs7_2596 30
xs7_25ac 1
xs8_330oo 1
xs8_6996 6

@SAMPLE_SOUPIDS
xp2_1110s 2 12 27
xp2_318c 37
xp2_33ws 21 29
xp2_6952w7 14 28
xp2_7 1 2 3
xp2_70ggg07 2 5 21
xp2_7e 37
xp2_s01110szw222 2 5 8
xq4_153 1 4 5
xs10_25208kk8 20
xs10_2530ok8 5
xs10_660696 7
xs10_gg0696z11 32
xs11_w69a4z33 37
xs12_696z696 2 27
xs12_g8o653z11 34
xs13_02596z696 27
xs13_0g2596z343 7
xs13_2596z696 24
xs14_0330ooz4aa4 37
xs4_252 1 5 7
xs4_33 0 1 2
xs5_253 2 3 4
xs6_356 0 1 5
xs6_696 0 1 2
xs6_bd 34
xs7_2596 1 2 5
xs7_25ac 37
xs8_330oo 5
xs8_6996 1 17 18
";
