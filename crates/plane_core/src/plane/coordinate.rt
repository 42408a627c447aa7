//! The arithmetic of coordinates. Each function limits the size of its arguments, so that nothing overflows. A
//! coordinate is within the bound if its absolute value is at most 1,000,000.
ghost use Rattle.std.specs.Prelude.{◌≡◌, ◌+◌, ◌≤◌, ◌+ℤ◌, ◌-ℤ◌, neg_ℤ, pos};
ghost use Rattle.std.specs.Prelude.{unsigned_abs};
ghost use Rattle.plane_core.specs.plane.Cells.{distance, plane_bound};

/// Returns `at + step`. `step` is from -2 to 2, and `at` is at most one cell past the bound, so the result is at most
/// three cells past the bound.
pub fn stepped(at: i32, step: i32) -> i32
    requires at { unsigned_abs at ≤ plane_bound + 1 }
    requires step { unsigned_abs step ≤ 2 }
    ensures { result ≡ at +ℤ step }
{
    at + step
}

/// Returns the coordinate that is `cells` cells to the right of `from`, or below it. `from` is within the bound, and
/// `cells` is at most [`BOUND`]. The result may be past the bound.
pub fn along(from: i32, cells: u32) -> i32
    requires from { unsigned_abs from ≤ plane_bound }
    requires cells { cells ≤ plane_bound }
    ensures { result ≡ from +ℤ pos cells }
{
    from + cells as i32
}

/// Returns the coordinate that is `cells` cells to the left of `from`, or above it. `from` is within the bound, and
/// `cells` is at most [`BOUND`]. The result may be past the bound.
pub(crate) fn back(from: i32, cells: u32) -> i32
    requires from { unsigned_abs from ≤ plane_bound }
    requires cells { cells ≤ plane_bound }
    ensures { result ≡ from -ℤ pos cells }
{
    from - cells as i32
}

/// Returns the distance between two coordinates, which are both within the bound.
pub(crate) fn apart(a: i32, b: i32) -> u32
    requires a { unsigned_abs a ≤ plane_bound }
    requires b { unsigned_abs b ≤ plane_bound }
    ensures { result ≡ distance a b }
{
    (a - b).unsigned_abs()
}

/// Returns `-at`. `at` is within the bound.
pub fn negated(at: i32) -> i32
    requires { unsigned_abs at ≤ plane_bound }
    ensures { result ≡ neg_ℤ at }
{
    -at
}

/// Returns `to - from`. Both coordinates are within the bound. The result is negative if the way from `from` to `to`
/// goes left or up.
pub fn difference(from: i32, to: i32) -> i32
    requires from { unsigned_abs from ≤ plane_bound }
    requires to { unsigned_abs to ≤ plane_bound }
    ensures { result ≡ to -ℤ from }
{
    to - from
}
