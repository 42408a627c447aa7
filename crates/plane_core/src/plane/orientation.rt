//! The eight orientations of a pattern on the square grid:
//!
//! ```text
//! O O O    O O .    . . O    O . .    O O O      and so on: four turns of the pattern, and four of its mirror image
//! O . .    . O .    O O O    O . .    . . O
//! . . .    . O .    . . .    O O .    . . .
//! ```
ghost use Rattle.std.specs.Prelude.{◌≡◌, true};
ghost use Rattle.plane_core.specs.plane.Cells.{on_plane};
ghost use Rattle.plane_core.specs.plane.Orientations.{orientations, turned_cell};
ghost use Rattle.plane_core.specs.plane.OrientationLaws.{OrientationsDiffer, ProductAssociates};
ghost use Rattle.plane_core.specs.plane.OrientationLaws.{SameIsIdentity, TurningBack, TurningMoved, TurningTwice};

use crate::plane::cell::Cell;
use crate::plane::coordinate::negated;

/// One of the eight orientations of a pattern on the square grid.
///
/// Each maps the cell (x, y) to the cell given below. [`Pattern::turn`](crate::plane::pattern::Pattern::turn) then
/// moves the image so that its smallest x and its smallest y are 0.
#[derive(Clone, Copy, Debug, PartialEq, Eq)]
pub enum Orientation {
    /// (x, y)
    Same,
    /// (-y, x)
    Quarter,
    /// (-x, -y)
    Half,
    /// (y, -x)
    ThreeQuarter,
    /// (-x, y)
    Mirror,
    /// (x, -y)
    Flip,
    /// (y, x)
    Diagonal,
    /// (-y, -x)
    AntiDiagonal,
}

const ORIENTATIONS: [Orientation; 8] = [
    Orientation::Same,
    Orientation::Quarter,
    Orientation::Half,
    Orientation::ThreeQuarter,
    Orientation::Mirror,
    Orientation::Flip,
    Orientation::Diagonal,
    Orientation::AntiDiagonal,
];

/// Returns all eight orientations, each once.
pub fn orientations() -> &'static [Orientation]
    ensures { result.now ≡ orientations }
{
    &ORIENTATIONS
}

impl Orientation {
    /// Returns the cell to which the orientation maps a cell of the plane.
    #[tactic(auto, unfolding(crate::specs::plane::Cells::on_plane))]
    pub(crate) fn image_of(self, cell: Cell) -> Cell
        requires { on_plane cell ≡ true }
        ensures { result ≡ turned_cell self cell }
    {
        let Cell { x, y } = cell;
        match self {
            Orientation::Same => cell,
            Orientation::Quarter => Cell {
                x: negated(y),
                y: x,
            },
            Orientation::Half => Cell {
                x: negated(x),
                y: negated(y),
            },
            Orientation::ThreeQuarter => Cell {
                x: y,
                y: negated(x),
            },
            Orientation::Mirror => Cell { x: negated(x), y },
            Orientation::Flip => Cell { x, y: negated(y) },
            Orientation::Diagonal => Cell { x: y, y: x },
            Orientation::AntiDiagonal => Cell {
                x: negated(y),
                y: negated(x),
            },
        }
    }
}

/// The laws of the eight orientations: they are the symmetry group of the square.
///
/// Their product is associative, `Same` is its identity, and each orientation has an inverse. Different orientations
/// are different maps. Turning a pattern by one orientation and then by another gives the same image as turning it by
/// their product. The image of a pattern doesn't depend on where the pattern is.
pub fn square_group()
    ensures associative { ProductAssociates }
    ensures identity { SameIsIdentity }
    ensures back { TurningBack }
    ensures different { OrientationsDiffer }
    ensures twice { TurningTwice }
    ensures moved { TurningMoved }
{}
