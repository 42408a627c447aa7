//! Tests the texts of patterns against texts that don't come from the program.
use code_core::wechsler::wechsler;
use memory::OutOfMemory;
use plane_core::plane::cell::Cell;
use plane_core::plane::pattern::Pattern;
use std::alloc::Global;
use std::test::Fail;

/// Checks whether the pattern of a plaintext picture has this text.
fn is_text(alloc: Global, picture: &str, text: &str) -> Result<bool, Fail> {
    let pattern = Pattern::read_plaintext(alloc, picture.as_bytes())?;
    let found = wechsler(alloc, &pattern)?;
    Ok(found.is_some_and(|found| found.as_str() == text))
}

#[test]
fn spells_texts(rt: HostRuntime) -> Result<(), Fail> {
    for drawn in TEXTS.split("\n\n") {
        let (text, picture) = drawn.split_once('\n').expect(&rt, "a text and a picture");
        assert!(rt; is_text(rt.alloc(), picture, text)?, "{text}");
    }
    Ok(())
}

// Each text is followed by its picture. The first two are a block and a beehive: their texts end the apgcodes `xs4_33`
// and `xs6_696` (LifeWiki, "Apgcode"). The others test columns of growing height, gaps, strips, and the eight
// orientations of the eater.
const TEXTS: &str = "\
33
OO
OO

696
.O.
O.O
O.O
.O.

137fv
OOOOO
.OOOO
..OOO
...OO
....O

11
OO

101
O.O

1w1
O..O

1x1
O...O

1y01
O....O

1y91
O.............O

1ya1
O..............O

1yy1
O......................................O

h
O
.
.
.
O

1z1
O
.
.
.
.
O

1zg
O
.
.
.
.
.
.
.
.
O

1zz1
O
.
.
.
.
.
.
.
.
.
O

1zw14
O...
.
.
.
.
..O
.
...O

w11z1
..OO
.
.
.
.
O

c871
..OO
..O.
O.O.
OO..

354c
OO..
O...
.OOO
...O

8e13
..OO
.O.O
.O..
OO..

32ac
O...
OOO.
...O
..OO

178c
OO..
.O..
.O.O
..OO

31e8
OO..
O.O.
..O.
..OO

c453
..OO
...O
OOO.
O...

ca23
...O
.OOO
O...
OO..";

/// Returns all cells of a square of 40 by 40 cells.
fn full_square(alloc: Global) -> Result<Vec<Cell>, OutOfMemory> {
    let mut cells = Vec::new(alloc);
    for y in 0..40 {
        for x in 0..40 {
            cells.push(Cell { y, x })?;
        }
    }
    Ok(cells)
}

/// Checks whether a text is eight strips of 40 full columns each.
fn is_full(text: &str) -> bool {
    text.len() == 327
        && text.split('z').all(|strip| strip == "vvvvvvvvvvvvvvvvvvvvvvvvvvvvvvvvvvvvvvvv")
}

#[test]
fn spells_the_longest_text(rt: HostRuntime) -> Result<(), Fail> {
    let cells = full_square(rt.alloc())?;
    let square = Pattern::from_cells(rt.alloc(), cells.as_slice())?;
    let text = wechsler(rt.alloc(), &square)?;
    assert!(rt; text.is_some_and(|text| is_full(text.as_str())));
    Ok(())
}

#[test]
fn spells_nothing(rt: HostRuntime) -> Result<(), Fail> {
    let nothing = Pattern::from_cells(rt.alloc(), &[])?;
    assert!(rt; wechsler(rt.alloc(), &nothing)?.is_none());
    Ok(())
}
