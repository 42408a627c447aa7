//! The lines of a stretch of generations, during which the parts of the pattern don't meet.

ghost use Rattle.std.specs.Prelude.{◌≡◌, ◌+◌, ◌≤◌, false, IfOk, IfSome, List, flat_map, map};
ghost use Rattle.plane_core.specs.declared.plane.cell.Cell.{Cell};
ghost use Rattle.plane_core.specs.plane.Rules.{Numbers};
ghost use Rattle.pattern_commands.specs.SizeSteps.{PutsLines, RunApart, advanced, later_sizes, pattern_size};
ghost use Rattle.pattern_commands.specs.Streams.{stream};

use crate::ending::complaint::Complaint;
use crate::sizes::parts::{advance_each, boards_for, size_together};
use crate::sizes::size::Size;
use memory::OutOfMemory;
use plane_core::engine::board::Board;
use plane_core::output::Out;
use plane_core::plane::pattern::Pattern;
use plane_core::plane::rule::Rule;
use std::alloc::Global;
use std::io::Write;

/// Writes the lines of the next generations of a pattern, and returns their number, which is at most `most`. The number
/// is 0 if some part of the pattern gets no board. `pattern` is generation `generation`.
pub(crate) fn put_stretch<W: Write>(
    alloc: Global,
    rule: &Rule,
    pattern: &Pattern,
    generation: u32,
    most: u32,
    output: &mut Out<W>,
) -> Result<u32, Complaint>
    requires most { most ≤ 1000 }
    requires generation { generation + most ≤ 100000 }
    requires output { output.old.failed ≡ false }
    ensures made { IfOk result (λ made. made ≤ most) }
    ensures lines { PutsLines (later_sizes rule.now pattern.now generation)
        (later_sizes rule.now pattern.now generation most) result (stream W.contents output.old output.new) }
{
    let Some(mut boards) = boards_for(alloc, rule, pattern, most)? else {
        return Ok(0);
    };
    put_board_sizes(alloc, boards.as_mut_slice(), generation, most, output)
}

/// Advances the boards one generation at a time, and writes the line of each new generation. At first, the boards
/// together show generation `generation` of a pattern. Returns the number of lines, which is at most `most`.
fn put_board_sizes<W: Write>(
    alloc: Global,
    boards: &mut [Board],
    generation: u32,
    most: u32,
    output: &mut Out<W>,
) -> Result<u32, Complaint>
    requires generation { generation + most ≤ 100000 }
    requires output { output.old.failed ≡ false }
    ensures made { IfOk result (λ made. made ≤ most) }
    ensures lines { (rule : Numbers) (cells : List Cell) → RunApart rule cells most boards.old
        → PutsLines (later_sizes rule cells generation) (later_sizes rule cells generation most) result
        (stream W.contents output.old output.new) }
{
    let mut made = 0;
    while made < most {
        let Some(size) = next_size(alloc, boards)? else {
            return Ok(made);
        };
        made += 1;
        size.put_line(generation + made, output)?;
    }
    Ok(made)
}

/// Advances each board by one generation, and returns the size of the pattern that the boards then show together.
/// Returns `None` if some board has no room for the next generation, or if a `usize` can't count the cells.
fn next_size(alloc: Global, boards: &mut [Board]) -> Result<Option<Size>, OutOfMemory>
    ensures { IfOk result (λ found. IfSome found (λ size. (boards.new ≡ map advanced boards.old)
        × (size ≡ pattern_size (flat_map (λ board. board.cells) boards.new)))) }
{
    let all = advance_each(boards)?;
    if !all {
        return Ok(None);
    }
    size_together(alloc, boards)
}
