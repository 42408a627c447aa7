//! Leaps: one to four generations of a board at once.
//!
//! All windows are read from the board and run, each by itself, and then all inner parts are put back:
//!
//! ```text
//! board  ->  window 0  ->  ..  ->  window 0  ->
//!        ->  window 1  ->  ..  ->  window 1  ->  board, up to four generations later
//!        ->  window 2  ->  ..  ->  window 2  ->
//! ```
//!
//! So windows may overlap: where the inner parts of two windows overlap, both windows put back the same cells.
ghost use Rattle.std.specs.Prelude.{◌≡◌, ◌*◌, ◌<◌, ◌≤◌, [], All, IfOk, IfSome, OnOk, length, true};
ghost use Rattle.plane_core.specs.windows.RuleLogic.{rule_of};
ghost use Rattle.plane_core.specs.engine.Frames.{FillsFrame, IsFrame};
ghost use Rattle.plane_core.specs.engine.Leaps.{ArePutBack, AreRun, CanRun, IsRun, IsRunAt};
ghost use Rattle.plane_core.specs.engine.LeapWindows.{IsOnBoard};
ghost use Rattle.plane_core.specs.engine.RowSpans.{AreWidened, HoldCovered};

use crate::engine::difference_box::DifferenceMask;
use crate::engine::frame::Frame;
use crate::engine::leap_window::LeapWindow;
use crate::engine::row_spans::{RowSpan, widen};
use crate::engine::window_difference::difference_of;
use crate::engine::window_io::{column_of, read_rows, row_of, write};
use crate::plane::bounds::Bounds;
use crate::windows::geometry::MARGIN;
use crate::windows::row_packing::{packed, unpack};
use crate::windows::rule_logic::RuleLogic;
use crate::windows::rule_tables::{CellLogic, Life};
use crate::windows::window::generations_with_logic;
use memory::OutOfMemory;
use std::simd::u64x4;

/// Runs a window for `count` generations, 1 to 4. Returns where the last generation differs from the generation two
/// earlier if `count` is even, and where there are live cells if `count` is odd.
#[inline(always)]
fn run<const N: usize, A: CellLogic>(
    window: &mut [u64x4; N],
    rule: &A,
    count: usize,
) -> DifferenceMask
    requires height { 0 < N }
    requires low { N ≤ 16 }
    requires some { 1 ≤ count }
    requires few { count ≤ 4 }
    ensures { IsRun N (A.rule rule.now) count window.old window.new result }
{
    if count % 2 == 1 {
        generations_with_logic(window, rule, count);
        return difference_of(window, &[u64x4::splat(0); N]);
    }
    generations_with_logic(window, rule, count - 2);
    let earlier = *window;
    generations_with_logic(window, rule, 2);
    difference_of(window, &earlier)
}

/// Runs a window of N vectors, and stores its rows in `held`. Returns what [`run`] returns.
fn run_vectors<const R: usize, const N: usize, A: CellLogic>(
    words: &[u64],
    at: Frame,
    window: LeapWindow,
    rule: &A,
    count: usize,
    held: &mut [u64; 64],
) -> Option<DifferenceMask>
    requires vectors { 0 < N }
    requires rows { R ≡ 4 * N }
    requires height { window.rows ≡ R }
    requires run { CanRun at words.now window count }
    ensures { IfSome result (IsRunAt at words.now (A.rule rule.now) count window held.new) }
{
    let rows = read_rows::<R>(words, at, column_of(at, window), row_of(at, window));
    let mut vectors = packed::<R, N>(&rows);
    let change = run(&mut vectors, rule, count);
    unpack(&vectors, held);
    Some(change)
}

/// Runs a window, and stores its rows in `held`. Returns what [`run`] returns, or `None` if there is no function for
/// the window's number of rows.
fn run_window<A: CellLogic>(
    words: &[u64],
    at: Frame,
    window: LeapWindow,
    rule: &A,
    count: usize,
    held: &mut [u64; 64],
) -> Option<DifferenceMask>
    requires { CanRun at words.now window count }
    ensures { IfSome result (IsRunAt at words.now (A.rule rule.now) count window held.new) }
{
    match window.rows {
        20 => run_vectors::<20, 5, A>(words, at, window, rule, count, held),
        24 => run_vectors::<24, 6, A>(words, at, window, rule, count, held),
        28 => run_vectors::<28, 7, A>(words, at, window, rule, count, held),
        32 => run_vectors::<32, 8, A>(words, at, window, rule, count, held),
        36 => run_vectors::<36, 9, A>(words, at, window, rule, count, held),
        40 => run_vectors::<40, 10, A>(words, at, window, rule, count, held),
        44 => run_vectors::<44, 11, A>(words, at, window, rule, count, held),
        48 => run_vectors::<48, 12, A>(words, at, window, rule, count, held),
        52 => run_vectors::<52, 13, A>(words, at, window, rule, count, held),
        56 => run_vectors::<56, 14, A>(words, at, window, rule, count, held),
        _ => None,
    }
}

/// Makes room for the rows of `count` windows.
fn make_room(held: &mut Vec<[u64; 64]>, count: usize) -> Result<(), OutOfMemory>
    ensures { OnOk result (count ≤ length held.new.items) }
{
    while held.len() < count {
        held.push([0; 64])?;
    }
    Ok(())
}

/// Runs all windows. Returns `false` if a window isn't on the board, or if there is no function for its number of rows.
/// Life has functions of its own, which hold no code for other rules.
///
/// The rows of each window are stored in `held`, and `boxes` is replaced. If `count` is even, there is a box for each
/// window in which a cell differs from its state two generations earlier. If `count` is odd, there is a box for each
/// window with a live cell. Nothing is written to the board here. So if memory runs out, the board shows the same
/// pattern as before.
pub(crate) fn run_all(
    words: &[u64],
    at: Frame,
    windows: &[LeapWindow],
    rule: &RuleLogic,
    count: usize,
    held: &mut Vec<[u64; 64]>,
    boxes: &mut Vec<Bounds>,
) -> Result<bool, OutOfMemory>
    requires frame { IsFrame at }
    requires long { FillsFrame at words.now }
    requires some { 1 ≤ count }
    requires few { count ≤ 4 }
    ensures on_board { IfOk result (λ inside. inside ≡ true → All (IsOnBoard at) windows.now) }
    ensures run { IfOk result (λ inside. inside ≡ true
        → AreRun at words.now (rule_of rule.now) count windows.now held.new.items boxes.new.items) }
{
    boxes.clear();
    make_room(held, windows.len())?;
    let held = held.as_mut_slice();
    match rule {
        RuleLogic::Life => run_each(words, at, windows, &Life, count, held, boxes),
        RuleLogic::Any(rule) => run_each(words, at, windows, rule, count, held, boxes),
    }
}

/// Runs one window after another, as [`run_all`] does. There is room in `held` for the rows of each window.
fn run_each<A: CellLogic>(
    words: &[u64],
    at: Frame,
    windows: &[LeapWindow],
    rule: &A,
    count: usize,
    held: &mut [[u64; 64]],
    boxes: &mut Vec<Bounds>,
) -> Result<bool, OutOfMemory>
    requires frame { IsFrame at }
    requires long { FillsFrame at words.now }
    requires some { 1 ≤ count }
    requires few { count ≤ 4 }
    requires room { length windows.now ≤ length held.old }
    requires empty { boxes.old.items ≡ [] }
    ensures on_board { IfOk result (λ inside. inside ≡ true → All (IsOnBoard at) windows.now) }
    ensures run { IfOk result (λ inside. inside ≡ true
        → AreRun at words.now (A.rule rule.now) count windows.now held.new boxes.new.items) }
{
    for k in 0..windows.len() {
        let window = windows[k];
        if !window.is_on_board(at) {
            return Ok(false);
        }
        let Some(change) = run_window(words, at, window, rule, count, &mut held[k]) else {
            return Ok(false);
        };
        let Some(bounds) = change.bounds(window) else {
            continue;
        };
        boxes.push(bounds)?;
    }
    Ok(true)
}

/// Puts all inner parts back, and widens the spans so that they contain the rows of these parts. An inner part may be
/// in two word columns.
pub(crate) fn put_all(
    words: &mut [u64],
    spans: &mut [RowSpan],
    at: Frame,
    windows: &[LeapWindow],
    held: &[[u64; 64]],
)
    requires frame { IsFrame at }
    requires long { FillsFrame at words.old }
    requires word_columns { length spans.old ≡ at.word_columns }
    requires on_board { All (IsOnBoard at) windows.now }
    requires each { length windows.now ≤ length held.now }
    ensures put { ArePutBack at windows.now held.now (length windows.now) words.old words.new }
    ensures kept { AreWidened spans.old spans.new }
    ensures covered { HoldCovered at spans.new windows.now }
{
    for k in 0..windows.len() {
        let window = windows[k];
        let x = column_of(at, window);
        let y = row_of(at, window);
        let end = window.rows - MARGIN;
        write(words, at, x, y, end, &held[k]);
        let rows = RowSpan {
            from: y + MARGIN,
            end: y + end,
        };
        let word_column = x / 64;
        widen(spans, word_column, rows);
        widen(spans, word_column + 1, rows);
    }
}
