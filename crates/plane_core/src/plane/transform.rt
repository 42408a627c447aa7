//! Moves and turns patterns:
//!
//! ```text
//! O . .        . . O
//! O O .   ->   . O O      A turned image is moved so that its smallest column and its smallest row are 0.
//! . O O        O O .
//! ```
ghost use Rattle.std.specs.Prelude.{◌≡◌, map, true};
ghost use Rattle.std.specs.Prelude.{IfOk, IfErr, IfSome, OnOk, is_some};
ghost use Rattle.std.specs.List.{list_all};
ghost use Rattle.memory.specs.Witness.{out_of_memory};
ghost use Rattle.plane_core.specs.plane.Bounds.{box_of, shifted};
ghost use Rattle.plane_core.specs.plane.Orientations.{corner_transform, image, landed, turned, turned_cell};
ghost use Rattle.plane_core.specs.declared.plane.orientation.Orientation.TheVariants.{Diagonal};
ghost use Rattle.plane_core.specs.plane.Cells.{IsPattern, on_plane};
ghost use Rattle.plane_core.specs.plane.Refusals.{RefusesPlace};
ghost use Rattle.plane_core.specs.declared.plane.transform.PlaceError.TheVariants.{Memory};

use crate::plane::bounds::grown;
use crate::plane::cell::{BOUND, Cell};
use crate::plane::coordinate::negated;
use crate::plane::orientation::Orientation;
use crate::plane::pattern::{Pattern, in_order};
use memory::OutOfMemory;
use std::alloc::Global;
use std::fmt::{self, Display};
use thiserror::Error;

/// Why a pattern can't be moved or turned.
#[derive(Clone, Copy, PartialEq, Eq, Error)]
pub enum PlaceError {
    /// A cell would be past the bound of the plane.
    OutOfPlane,
    /// Memory ran out.
    Memory(OutOfMemory),
}

impl fmt::Display for PlaceError {
    fn fmt<W: fmt::Write>(&self, f: &mut fmt::Formatter<W>) -> fmt::Result {
        match self {
            PlaceError::OutOfPlane => f.write_str("a cell would lie past the bound of the plane"),
            PlaceError::Memory(refused) => refused.fmt(f),
        }
    }
}

/// Shows the message, as `Display` does.
impl fmt::Debug for PlaceError {
    fn fmt<W: fmt::Write>(&self, f: &mut fmt::Formatter<W>) -> fmt::Result {
        fmt::Display::fmt(self, f)
    }
}

impl<E: Into<OutOfMemory>> From<E> for PlaceError {
    ghost from_gives = { λ _ e. e ≡ Memory out_of_memory };

    fn from(refused: E) -> PlaceError {
        PlaceError::Memory(refused.into())
    }
}

impl Pattern {
    /// Returns the pattern moved by (dx, dy).
    ///
    /// # Errors
    ///
    /// `OutOfPlane` if a cell would be past the bound, even if there is no memory. Otherwise `Memory` if memory runs
    /// out.
    pub fn shift(&self, alloc: Global, dx: i32, dy: i32) -> Result<Pattern, PlaceError>
        ensures shifted { IfOk result (λ pattern. pattern ≡ shifted dx dy self.now) }
        ensures plane { OnOk result (list_all on_plane (shifted dx dy self.now) ≡ true) }
        ensures refused { IfErr result (RefusesPlace (shifted dx dy self.now)) }
    {
        let transform = Transform {
            orientation: Orientation::Same,
            dx,
            dy,
        };
        let cells = self.cells();
        for cell in cells {
            if !transform.landing(*cell).is_on_plane() {
                return Err(PlaceError::OutOfPlane);
            }
        }
        let placed = transform.transform_all(alloc, cells)?;
        Ok(Pattern::from_ordered(placed))
    }

    /// Returns the image of the pattern in an orientation, moved so that its smallest x and its smallest y are 0. The
    /// empty pattern stays empty.
    ///
    /// # Errors
    ///
    /// `OutOfPlane` if a cell would be past the bound, even if there is no memory. This happens if a side of the
    /// image's bounding box has more than 1,000,001 cells. Otherwise `Memory` if memory runs out.
    pub fn turn(&self, alloc: Global, orientation: Orientation) -> Result<Pattern, PlaceError>
        ensures turned { IfOk result (λ pattern. pattern ≡ turned orientation self.now) }
        ensures plane { OnOk result (list_all on_plane (turned orientation self.now) ≡ true) }
        ensures refused { IfErr result (RefusesPlace (turned orientation self.now)) }
    {
        let cells = self.cells();
        let Some(transform) = to_corner(cells, orientation) else {
            return Err(PlaceError::OutOfPlane);
        };
        let placed = transform.transform_all(alloc, cells)?;
        Ok(Pattern::from_ordered(in_order(placed)))
    }

    /// Returns the pattern with columns and rows exchanged.
    pub(crate) fn transposed(&self, alloc: Global) -> Result<Pattern, OutOfMemory>
        ensures turned { IfOk result (λ pattern. pattern ≡ image Diagonal self.now) }
        ensures pattern { IsPattern self.now }
    {
        let transform = Transform {
            orientation: Orientation::Diagonal,
            dx: 0,
            dy: 0,
        };
        let placed = transform.transform_all(alloc, self.cells())?;
        Ok(Pattern::from_ordered(in_order(placed)))
    }
}

/// A map of cells: an orientation, followed by a move by (dx, dy).
#[derive(Clone, Copy)]
pub(crate) struct Transform {
    orientation: Orientation,
    dx: i32,
    dy: i32,
}

impl Transform {
    /// Returns the image of the cell. If the image is off the plane, the result may be another cell off the plane.
    fn landing(self, cell: Cell) -> Cell
        requires { on_plane cell ≡ true }
        ensures plane { on_plane result ≡ on_plane (landed self cell) }
        ensures landed { on_plane result ≡ true → result ≡ landed self cell }
    {
        let Cell { x, y } = self.orientation.image_of(cell);
        Cell {
            x: x.saturating_add(self.dx),
            y: y.saturating_add(self.dy),
        }
    }

    /// Returns the images of the cells, in the order of the cells. All images must be on the plane.
    fn transform_all(self, alloc: Global, cells: &[Cell]) -> Result<Vec<Cell>, OutOfMemory>
        requires cells { list_all on_plane cells.now ≡ true }
        requires landed { list_all on_plane (map (landed self) cells.now) ≡ true }
        ensures { IfOk result (λ placed. placed.items ≡ map (landed self) cells.now) }
    {
        let mut placed = Vec::from_slice(alloc, cells)?;
        for cell in placed.iter_mut() {
            *cell = self.landing(*cell);
        }
        Ok(placed)
    }
}

/// Returns the transform that turns the cells and then moves their image so that its smallest column and its smallest
/// row are 0, or `None` if a cell would then be past the bound.
fn to_corner(cells: &[Cell], orientation: Orientation) -> Option<Transform>
    requires { list_all on_plane cells.now ≡ true }
    ensures transform { IfSome result
        (λ transform. transform ≡ corner_transform orientation (box_of (map (turned_cell orientation) cells.now))) }
    ensures plane { is_some result ≡ list_all on_plane (turned orientation cells.now) }
{
    let mut bounds = None;
    for cell in cells {
        bounds = Some(grown(bounds, orientation.image_of(*cell)));
    }
    let Some(bounds) = bounds else {
        return Some(Transform {
            orientation,
            dx: 0,
            dy: 0,
        });
    };
    let across = bounds.right.abs_diff(bounds.left);
    let down = bounds.bottom.abs_diff(bounds.top);
    let transform = Transform {
        orientation,
        dx: negated(bounds.left),
        dy: negated(bounds.top),
    };
    (across.max(down) <= BOUND).then_some(transform)
}
