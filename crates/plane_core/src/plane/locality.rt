//! How far errors spread. If everything outside a box is taken for dead, cells inside the box may become wrong.
//! With each generation, wrong cells reach one cell further inside:
//!
//! ```text
//! +-----------------+
//! |  ?  ?  ?  ?  ?  |    A cell that is marked ? has neighbours outside the box, so it may be wrong after one
//! |  ?  1  1  1  ?  |    generation. A number says for how many generations a cell is surely correct.
//! |  ?  1  2  1  ?  |
//! |  ?  1  1  1  ?  |
//! |  ?  ?  ?  ?  ?  |
//! +-----------------+
//! ```
ghost use Rattle.plane_core.specs.plane.Locality.{RightInside, SeesNoFurther};

/// The laws of locality. After k generations, a cell depends only on the cells that are at most k columns and k rows
/// away from it. So if everything outside a box is cut off, the cells that are at least k columns and k rows inside its
/// sides are still correct when k generations have been run.
pub fn cut_off()
    ensures sees { SeesNoFurther }
    ensures inside { RightInside }
{}
