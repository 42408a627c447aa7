//! The size of a pattern, and the line that `run --sizes` writes for it.

ghost use Rattle.std.specs.Prelude.{◌≡◌, ◌++◌, [], false, IfSome, List};
ghost use Rattle.plane_core.specs.Outputs.{Writes};
ghost use Rattle.plane_core.specs.declared.plane.cell.Cell.{Cell};
ghost use Rattle.plane_core.specs.plane.Bounds.{box_of};
ghost use Rattle.pattern_commands.specs.SizeSteps.{pattern_size, sized_line};
ghost use Rattle.pattern_commands.specs.Sizes.{sides};

use code_core::decimal::put_number;
use plane_core::output::{Out, WriteError};
use plane_core::plane::bounds::Bounds;
use plane_core::plane::pattern::Pattern;
use std::io::Write;

/// The size of a pattern: its population and its bounding box.
#[derive(Clone, Copy)]
pub(crate) struct Size {
    /// The number of live cells.
    pub(crate) population: usize,
    /// The smallest box around the pattern, or `None` for the empty pattern.
    pub(crate) bounds: Option<Bounds>,
}

impl Size {
    /// Returns the size of the empty pattern.
    pub(crate) fn none() -> Size
        ensures { result ≡ pattern_size [] }
    {
        Size {
            population: 0,
            bounds: None,
        }
    }

    /// Returns the size of the pattern.
    pub(crate) fn of(pattern: &Pattern) -> Size
        ensures { result ≡ pattern_size pattern.now }
    {
        Size {
            population: pattern.population(),
            bounds: pattern.bounds(),
        }
    }

    /// Returns the size of two lists of cells together, given the size of each, or `None` if a `usize` can't count the
    /// cells.
    pub(crate) fn joined(self, other: Size) -> Option<Size>
        ensures { IfSome result (λ size. (cells others : List Cell)
            → self ≡ pattern_size cells → other ≡ pattern_size others
            → size ≡ pattern_size (cells ++ others)) }
    {
        let population = self.population.checked_add(other.population)?;
        Some(Size {
            population,
            bounds: joined(self.bounds, other.bounds),
        })
    }

    /// Writes the line of a generation with this size.
    pub(crate) fn put_line<W: Write>(
        self,
        generation: u32,
        output: &mut Out<W>,
    ) -> Result<(), WriteError>
        requires { output.old.failed ≡ false }
        ensures { Writes W.contents output.old output.new result (sized_line generation self) }
    {
        put_number(output, b"", generation)?;
        put_number(output, b" ", self.population)?;
        put_sides(self.bounds, output)?;
        output.put(b"\n")
    }
}

/// Returns the smallest box around two boxes. `None` is the box of no cells.
fn joined(one: Option<Bounds>, other: Option<Bounds>) -> Option<Bounds>
    ensures { (cells others : List Cell) → one ≡ box_of cells → other ≡ box_of others
        → result ≡ box_of (cells ++ others) }
{
    match one {
        None => other,
        Some(one) => match other {
            None => Some(one),
            Some(other) => Some(one.joined(other)),
        },
    }
}

/// Writes the four sides of a box, each after a space, or nothing if there is no box.
fn put_sides<W: Write>(bounds: Option<Bounds>, output: &mut Out<W>) -> Result<(), WriteError>
    requires { output.old.failed ≡ false }
    ensures { Writes W.contents output.old output.new result (sides bounds) }
{
    let Some(bounds) = bounds else {
        return Ok(());
    };
    put_number(output, b" ", bounds.left)?;
    put_number(output, b" ", bounds.top)?;
    put_number(output, b" ", bounds.right)?;
    put_number(output, b" ", bounds.bottom)
}
