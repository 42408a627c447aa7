//! Puts cells on an empty board, one after another. The bit of each cell is set in the word of its row and word column,
//! and the span of the word column is widened so that it contains the row.
ghost use Rattle.std.specs.Prelude.{◌≡◌, ◌*◌, [], length};
ghost use Rattle.plane_core.specs.engine.Frames.{FillsFrame, IsFrame, LieOn, Shows};
ghost use Rattle.plane_core.specs.engine.RowSpans.{LieInSpans};

use crate::engine::frame::Frame;
use crate::engine::row_spans::{RowSpan, widen};
use crate::plane::cell::Cell;

/// Puts all cells on an empty board, and widens the board's spans so that they contain the rows of the cells.
pub(crate) fn fill(at: Frame, words: &mut [u64], spans: &mut [RowSpan], cells: &[Cell])
    requires frame { IsFrame at }
    requires on { LieOn at cells.now }
    requires long { FillsFrame at words.old }
    requires word_columns { length spans.old ≡ at.word_columns }
    requires empty { Shows at words.old [] }
    ensures shown { Shows at words.new cells.now }
    ensures held { LieInSpans at spans.new cells.now }
{
    for cell in cells {
        let across = at.across(*cell);
        let word_column = across / 64;
        let row = at.down(*cell);
        words[at.index(word_column, row)] |= 1 << (across % 64);
        let rows = RowSpan {
            from: row,
            end: row + 1,
        };
        widen(spans, word_column, rows);
    }
}
