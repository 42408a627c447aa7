//! Tests of the soups of three digests, and a test that a seed is formatted as the text from which it was parsed.
use plane_core::plane::pattern::Pattern;
use std::test::Fail;
use survey_core::seed::Seed;
use survey_core::soup::soup_of_digest;

// If no bit of the digest is set, no cell is alive. In the test after this one, all bits are set, and all 256 cells are
// alive.
#[test]
fn draws_an_empty_soup(rt: HostRuntime) -> Result<(), Fail> {
    assert!(rt; soup_of_digest(rt.alloc(), &[0; 32])?.cells().is_empty());
    Ok(())
}

#[test]
fn draws_a_full_soup(rt: HostRuntime) -> Result<(), Fail> {
    let full = soup_of_digest(rt.alloc(), &[255; 32])?;
    assert!(rt; full.population() == 256 && full.has(0, 0) && full.has(15, 15));
    Ok(())
}

/// The SHA-256 of the text `0`, as `sha256sum` prints it.
const DIGEST_OF_0: [u8; 32] = [
    0x5f, 0xec, 0xeb, 0x66, 0xff, 0xc8, 0x6f, 0x38, 0xd9, 0x52, 0x78, 0x6c, 0x6d, 0x69, 0x6c, 0x79,
    0xc2, 0xdb, 0xc2, 0x39, 0xdd, 0x4e, 0x91, 0xb4, 0x67, 0x29, 0xd7, 0x3a, 0x27, 0xfb, 0x57, 0xe9,
];

/// The bits of `DIGEST_OF_0` as a picture, with two bytes in each row.
const SOUP_0: &str = "\
.O.OOOOOOOO.OO..\n\
OOO.O.OO.OO..OO.\n\
OOOOOOOOOO..O...\n\
.OO.OOOO..OOO...\n\
OO.OO..O.O.O..O.\n\
.OOOO....OO.OO..\n\
.OO.OO.O.OO.O..O\n\
.OO.OO...OOOO..O\n\
OO....O.OO.OO.OO\n\
OO....O...OOO..O\n\
OO.OOO.O.O..OOO.\n\
O..O...OO.OO.O..\n\
.OO..OOO..O.O..O\n\
OO.O.OOO..OOO.O.\n\
..O..OOOOOOOO.OO\n\
.O.O.OOOOOO.O..O";

#[test]
fn draws_soup_0(rt: HostRuntime) -> Result<(), Fail> {
    let soup = soup_of_digest(rt.alloc(), &DIGEST_OF_0)?;
    let drawn = Pattern::read_plaintext(rt.alloc(), SOUP_0.as_bytes())?;
    assert!(rt; soup.cells() == drawn.cells());
    Ok(())
}

#[test]
fn shows_the_seed_that_it_reads(rt: HostRuntime) -> Result<(), Fail> {
    let seed = "!~a{}".parse::<Seed>()?;
    assert!(rt; format!(in rt.alloc(); "{seed}")?.as_str() == "!~a{}");
    assert!(rt; "a b".parse::<Seed>().is_err());
    Ok(())
}
