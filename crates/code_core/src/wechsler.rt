//! Writes a pattern as a text in extended Wechsler format. The text describes strips of five rows, from the top, and
//! each strip column by column from the left. Each cell of a column has a weight, and the column's value is the sum of
//! the weights of its live cells.
//!
//! ```text
//! weight
//!    1     O...O
//!    2     O....     column 0 has 1 + 2 = 3, three columns are empty, column 4 has 1:    3x1
//!    4     .....
//!    8     .....
//!   16     .....
//!          -----     the next strip:                                                     z
//!    1     ..O..     two columns are empty, column 2 has 1, and the rest is left out:    w1
//! ```
//!
//! So this pattern's text is `3x1zw1`. A column with a live cell is written together with the run of empty columns
//! before it, so the run at a strip's end is never written.

ghost use Rattle.std.specs.Prelude.{◌≡◌, ◌+◌, ◌<◌, ◌≤◌, ◌++◌, ◌∷◌, [], pos, IfOk, OnOk, flat_map, option_map};
ghost use Rattle.std.specs.Prelude.{List, codes, replicate, if◌then◌else◌, ◌==◌};
ghost use Rattle.std.specs.String.{string_bytes};
ghost use Rattle.plane_core.specs.plane.Bounds.{at_corner};
ghost use Rattle.plane_core.specs.declared.plane.cell.Cell.{Cell};
ghost use Rattle.plane_core.specs.plane.Cells.{cell_at, distance, has};
ghost use Rattle.plane_core.specs.plane.Orientations.{turned};
ghost use Rattle.code_core.specs.Columns.{IsBoxed, column};
ghost use Rattle.code_core.specs.Texts.{TextsHaveTheirShape, TextsSpellPatterns, fits_forty_square, strip};
ghost use Rattle.code_core.specs.Texts.{strip_tokens, text, tokens_of};
ghost use Rattle.code_core.specs.Tokens.{character, gap_start, gap_text, spelling};

use crate::image_rows::{image_box, image_rows};
use memory::OutOfMemory;
use plane_core::plane::bounds::Bounds;
use plane_core::plane::orientation::Orientation;
use plane_core::plane::pattern::Pattern;
use std::alloc::Global;

/// A pattern has a text only if its bounding box has at most this many columns and at most this many rows.
pub const CODE_SIDE_LIMIT: u32 = 40;

/// The number of rows of a strip.
const STRIP: u32 = 5;

/// Returns the text of a pattern in extended Wechsler format (LifeWiki, "Apgcode"), or `None` if the pattern is empty
/// or its bounding box has more than 40 columns or more than 40 rows. The text doesn't depend on where the pattern is.
///
/// The box is divided from the top into strips of five rows, whose texts are separated by `z`. A strip is written
/// column by column from the left. A column with a live cell is one character, `1` to `9` or `a` to `v`, for its value
/// 1 to 31. The value is the sum of the column's live cells, where the top cell counts 1 and those below it 2, 4, 8 and
/// 16. A run of empty columns is left out at a strip's end. Elsewhere, a run of 1, 2 or 3 columns is `0`, `w` or `x`. A
/// longer run is `y` and another character: `0` to `9` for 4 to 13 columns, or `a` to `z` for 14 to 39.
///
/// # Errors
///
/// [`OutOfMemory`] if memory runs out.
pub fn wechsler(alloc: Global, pattern: &Pattern) -> Result<Option<String>, OutOfMemory>
    ensures { IfOk result (λ found. option_map string_bytes found ≡ text pattern.now) }
{
    pattern.recall_order();
    image_text(alloc, pattern, Orientation::Same)
}

/// Returns the text of the pattern's image in an orientation, or `None` if the pattern has no text.
pub(crate) fn image_text(
    alloc: Global,
    pattern: &Pattern,
    orientation: Orientation,
) -> Result<Option<String>, OutOfMemory>
    ensures { IfOk result (λ found. option_map string_bytes found ≡ text (turned orientation pattern.now)) }
{
    let Some(bounds) = pattern.bounds() else {
        return Ok(None);
    };
    if !fits_forty_square(bounds) {
        return Ok(None);
    }
    let rows = image_rows(pattern.cells(), bounds, orientation);
    let text = text_in(alloc, &rows, image_box(bounds, orientation))?;
    Ok(Some(text))
}

/// The laws of texts. The text of a pattern is spelled by tokens whose cells are the pattern, moved to the corner
/// (0, 0). Each run of empty columns is one token, and no such run is at a strip's end. A text has at most 327 bytes,
/// each one of `0` to `9` and `a` to `z`.
pub fn texts_spell_patterns()
    ensures spell { TextsSpellPatterns }
    ensures shape { TextsHaveTheirShape }
{}

/// Returns the number of the box's last column, counted from 0.
pub(crate) fn last_column(bounds: Bounds) -> u32
    ensures { result ≡ distance bounds.left bounds.right }
{
    bounds.left.abs_diff(bounds.right)
}

/// Returns the number of the box's last row, counted from 0.
pub(crate) fn last_row(bounds: Bounds) -> u32
    ensures { result ≡ distance bounds.top bounds.bottom }
{
    bounds.top.abs_diff(bounds.bottom)
}

/// Checks whether the box is small enough for a text.
fn fits_forty_square(bounds: Bounds) -> bool
    ensures { result ≡ fits_forty_square bounds }
{
    last_column(bounds) < CODE_SIDE_LIMIT && last_row(bounds) < CODE_SIDE_LIMIT
}

/// Returns the text of a pattern whose box is `bounds`. `rows` are its rows, counted from the corner of the box.
fn text_in(alloc: Global, rows: &[u64; 64], bounds: Bounds) -> Result<String, OutOfMemory>
    requires width { distance bounds.left bounds.right < CODE_SIDE_LIMIT }
    requires height { distance bounds.top bounds.bottom < CODE_SIDE_LIMIT }
    ensures { IfOk result (λ found. (cells : List Cell) → IsBoxed bounds rows.now cells
        → string_bytes found ≡ flat_map spelling (
        tokens_of (at_corner cells) (distance bounds.left bounds.right) (distance bounds.top bounds.bottom))) }
{
    let mut text = String::new(alloc);
    for k in 0..last_row(bounds) / STRIP + 1 {
        push_strip(&mut text, rows, bounds, k)?;
    }
    Ok(text)
}

/// Appends the text of strip `k`, 0 to 7. The pattern's box is `bounds`, and `rows` are its rows, counted from the
/// corner of the box. If `k` isn't 0, a `z` is appended before the strip.
fn push_strip(
    text: &mut String,
    rows: &[u64; 64],
    bounds: Bounds,
    k: u32,
) -> Result<(), OutOfMemory>
    requires width { distance bounds.left bounds.right < CODE_SIDE_LIMIT }
    requires strip { k < 8 }
    ensures { OnOk result ((cells : List Cell) → IsBoxed bounds rows.now cells
        → string_bytes text.new ≡ (string_bytes text.old ++ (if k == 0 then [] else codes "z"))
        ++ flat_map spelling (strip_tokens (strip (at_corner cells) (distance bounds.left bounds.right + 1) k))) }
{
    if k > 0 {
        text.push('z')?;
    }
    let mut gap = 0;
    for x in 0..last_column(bounds) + 1 {
        let value = column(rows, bounds, k, x);
        if value == 0 {
            gap += 1;
        } else {
            push_column(text, gap, value)?;
            gap = 0;
        }
    }
    Ok(())
}

/// Appends a run of `gap` empty columns, 0 to 39, and then a column with the value `value`, 1 to 31.
fn push_column(text: &mut String, gap: u8, value: u8) -> Result<(), OutOfMemory>
    requires gap { gap ≤ 39 }
    requires least { 1 ≤ value }
    requires most { value ≤ 31 }
    ensures { OnOk result (string_bytes text.new ≡ string_bytes text.old ++ flat_map spelling (
        strip_tokens (replicate gap 0 ++ value ∷ []))) }
{
    push_gap(text, gap)?;
    push_character(text, value)
}

/// Appends a run of `gap` empty columns, 0 to 39. Nothing is appended for 0.
#[tactic(auto, unfolding(crate::specs::Tokens::gap_text))]
fn push_gap(text: &mut String, gap: u8) -> Result<(), OutOfMemory>
    requires { gap ≤ 39 }
    ensures { OnOk result (string_bytes text.new ≡ string_bytes text.old ++ (if gap == 0 then [] else gap_text gap)) }
{
    if gap == 0 {
        return Ok(());
    }
    text.push(gap_start(gap))?;
    if gap < 4 {
        return Ok(());
    }
    push_character(text, gap - 4)
}

/// Returns the character that begins a run of `gap` empty columns, 1 to 39.
fn gap_start(gap: u8) -> char
    ensures { result ≡ gap_start gap }
{
    match gap {
        1 => '0',
        2 => 'w',
        3 => 'x',
        _ => 'y',
    }
}

/// Appends the character of a value, 0 to 35.
fn push_character(text: &mut String, value: u8) -> Result<(), OutOfMemory>
    requires { value ≤ 35 }
    ensures { OnOk result (string_bytes text.new ≡ string_bytes text.old ++ character value ∷ []) }
{
    Ok(text.push(char::from(character(value)))?)
}

/// Returns the character of a value: `0` to `9` for 0 to 9, and `a` to `z` for 10 to 35.
#[tactic(auto, unfolding(crate::specs::Tokens::character))]
fn character(value: u8) -> u8
    requires { value ≤ 35 }
    ensures value { result ≡ character value }
    ensures ascii { result < 128 }
{
    if value < 10 {
        b'0' + value
    } else {
        b'a' + (value - 10)
    }
}

/// Returns the value, 0 to 31, of column `x` in strip `k`. The pattern's box is `bounds`, and `rows` are its rows.
/// Strips, columns and rows are counted from the corner of the box.
fn column(rows: &[u64; 64], bounds: Bounds, k: u32, x: u32) -> u8
    requires width { x < CODE_SIDE_LIMIT }
    requires strip { k < 8 }
    ensures value { (cells : List Cell) → IsBoxed bounds rows.now cells → result ≡ column (at_corner cells) k x }
    ensures bound { result ≤ 31 }
{
    let y = STRIP * k;
    one_at(rows, bounds, x, y)
        + 2 * one_at(rows, bounds, x, y + 1)
        + 4 * one_at(rows, bounds, x, y + 2)
        + 8 * one_at(rows, bounds, x, y + 3)
        + 16 * one_at(rows, bounds, x, y + 4)
}

/// Returns 1 if the cell (x, y), counted from the box's corner, is alive, and 0 otherwise.
#[inline(always)]
fn one_at(rows: &[u64; 64], bounds: Bounds, x: u32, y: u32) -> u8
    requires column { x < CODE_SIDE_LIMIT }
    requires row { y < CODE_SIDE_LIMIT }
    ensures value { (cells : List Cell) → IsBoxed bounds rows.now cells
        → result ≡ (if has (at_corner cells) (cell_at (pos x) (pos y)) then 1 else 0) }
    ensures bound { result ≤ 1 }
{
    (rows[y as usize] >> x & 1) as u8
}
