//! Tests with patterns drawn by hand.
use plane_core::output::Out;
use plane_core::plane::orientation::Orientation;
use plane_core::plane::pattern::Pattern;
use plane_core::plane::rule::Rule;
use std::alloc::Global;
use std::test::Fail;

const START: &[u8] = b"OOO\nO..\n";

/// What `START` becomes in each orientation.
const IMAGES: [(Orientation, &[u8]); 8] = [
    (Orientation::Same, START),
    (Orientation::Quarter, b"OO\n.O\n.O\n"),
    (Orientation::Half, b"..O\nOOO\n"),
    (Orientation::ThreeQuarter, b"O.\nO.\nOO\n"),
    (Orientation::Mirror, b"OOO\n..O\n"),
    (Orientation::Flip, b"O..\nOOO\n"),
    (Orientation::Diagonal, b"OO\nO.\nO.\n"),
    (Orientation::AntiDiagonal, b".O\n.O\nOO\n"),
];

fn image_text(alloc: Global, start: &Pattern, orientation: Orientation) -> Result<Vec<u8>, Fail> {
    let image = start.turn(alloc, orientation)?;
    let mut out = Out::new(Vec::new(alloc));
    image.write_plaintext(&mut out)?;
    Ok(out.into_inner())
}

#[test]
fn turns_in_eight_orientations(rt: HostRuntime) -> Result<(), Fail> {
    let start = Pattern::read_plaintext(rt.alloc(), START)?;
    for (orientation, image) in IMAGES {
        let text = image_text(rt.alloc(), &start, orientation)?;
        assert!(rt; text.as_slice() == image, "in {orientation:?}");
    }
    Ok(())
}

// No clause says that `surely_changes` is ever `true`.
#[test]
fn a_row_of_seven_is_seen_to_change(rt: HostRuntime) -> Result<(), Fail> {
    let seven = Pattern::read_plaintext(rt.alloc(), b"OOOOOOO")?;
    assert!(rt; seven.surely_changes(&Rule::life(), 1));
    assert!(rt; seven.surely_changes(&Rule::life(), 64));
    Ok(())
}
