//! The spans of a board: for each word column, the rows that may have a live cell. They make it cheap to read and clear
//! a large board that is nearly empty:
//!
//! ```text
//! word column   0     1     2     3
//! row 0         .     .     .     .
//! row 1         .     #     .     .      The span of a word column goes from the first to the last of its rows that
//! row 2         .     #     #     .      have been written. Outside of the spans, everything is dead.
//! row 3         .     .     #     .
//! ```
ghost use Rattle.std.specs.Prelude.{◌≡◌, ◌+◌, ◌/◌, ◌<◌, ◌≤◌, ◌⊎◌};
ghost use Rattle.std.specs.Prelude.{[], ℕ, length, slice_index};
ghost use Rattle.plane_core.specs.engine.Frames.{FillsFrame, IsFrame, word_of};
ghost use Rattle.plane_core.specs.engine.OnBoard.{cells_on};
ghost use Rattle.plane_core.specs.engine.RowSpans.{AreWidened, HoldsSpans};
ghost use Rattle.plane_core.specs.engine.RowSpans.{HasRow, IsInSpan, LieInSpans};

use crate::engine::frame::Frame;

/// The numbers from `from` to before `end`, usually of rows.
#[derive(Clone, Copy)]
pub(crate) struct RowSpan {
    pub(crate) from: usize,
    pub(crate) end: usize,
}

impl RowSpan {
    /// Returns the empty span.
    pub(crate) fn empty() -> RowSpan
        ensures { (n : ℕ) → ¬ HasRow result n }
    {
        RowSpan {
            from: usize::MAX,
            end: 0,
        }
    }

    /// Returns the smallest span that contains both spans.
    pub(crate) fn joined(self, other: RowSpan) -> RowSpan
        ensures first { (n : ℕ) → HasRow self n → HasRow result n }
        ensures second { (n : ℕ) → HasRow other n → HasRow result n }
    {
        RowSpan {
            from: self.from.min(other.from),
            end: self.end.max(other.end),
        }
    }

    /// Returns the span of those numbers of this span that are less than `limit`. The result is never reversed: its
    /// `from` is at most its `end`.
    pub(crate) fn below(self, limit: usize) -> RowSpan
        ensures order { result.from ≤ result.end }
        ensures most { result.end ≤ limit }
        ensures held { (n : ℕ) → n < limit → HasRow self n → HasRow result n }
    {
        let from = self.from.min(limit);
        RowSpan {
            from,
            end: self.end.min(limit).max(from),
        }
    }
}

/// Widens the span of a word column so that it contains these rows.
pub(crate) fn widen(spans: &mut [RowSpan], word_column: usize, rows: RowSpan)
    requires { word_column < length spans.old }
    ensures kept { AreWidened spans.old spans.new }
    ensures held { (r : ℕ) → HasRow rows r → IsInSpan spans.new word_column r }
{
    spans[word_column] = spans[word_column].joined(rows);
}

/// The hull of the spans of a board: the word columns from the first to the last one whose span has rows, and the rows
/// from the first to the last row of these spans.
#[derive(Clone, Copy)]
pub(crate) struct Hull {
    pub(crate) word_columns: RowSpan,
    pub(crate) rows: RowSpan,
}

/// Returns the hull of the spans.
pub(crate) fn hull_of(at: Frame, spans: &[RowSpan]) -> Hull
    requires frame { IsFrame at }
    requires long { length spans.now ≡ at.word_columns }
    ensures { HoldsSpans spans.now at.word_columns result }
{
    let mut hull = Hull {
        word_columns: RowSpan::empty(),
        rows: RowSpan::empty(),
    };
    for word_column in 0..at.word_columns {
        let rows = spans[word_column];
        if rows.from < rows.end {
            let here = RowSpan {
                from: word_column,
                end: word_column + 1,
            };
            hull.word_columns = hull.word_columns.joined(here);
            hull.rows = hull.rows.joined(rows);
        }
    }
    hull
}

/// Clears the board, whose live cells are all in the spans, and empties the spans.
pub(crate) fn empty(at: Frame, words: &mut [u64], spans: &mut [RowSpan])
    requires frame { IsFrame at }
    requires long { FillsFrame at words.old }
    requires word_columns { length spans.old ≡ at.word_columns }
    requires live { LieInSpans at spans.old (cells_on at words.old) }
    ensures { cells_on at words.new ≡ [] }
{
    for word_column in 0..at.word_columns {
        empty_word_column(at, words, word_column, spans[word_column]);
        spans[word_column] = RowSpan::empty();
    }
}

/// Clears the rows of a word column that are in the span.
fn empty_word_column(at: Frame, words: &mut [u64], word_column: usize, span: RowSpan)
    requires frame { IsFrame at }
    requires word_column { word_column < at.word_columns }
    requires long { FillsFrame at words.old }
    ensures dead { (r : ℕ) → r < at.rows → HasRow span r → slice_index words.new (word_of at word_column r) ≡ 0 }
    ensures others { (m : ℕ) → slice_index words.new m ≡ slice_index words.old m ⊎ slice_index words.new m ≡ 0 }
{
    for row in span.from..span.end.min(at.rows) {
        words[at.index(word_column, row)] = 0;
    }
}
