//! Chooses the slot of a memo in which a pattern belongs. The slot doesn't depend on where the pattern is.
use plane_core::plane::pattern::Pattern;

/// Returns the number of the slot in which a pattern belongs, below `slots`, or 0 if there are no slots. The number is
/// a hash of the cells relative to the first cell. The multiplier of the hash is the odd number nearest to the quotient
/// of 2^64 and the golden ratio. It spreads numbers that differ in few bits.
pub(crate) fn slot_of(pattern: &Pattern, slots: usize) -> usize {
    let cells = pattern.cells();
    let Some(first) = cells.first() else {
        return 0;
    };
    let mut hash = 0u64;
    for cell in cells {
        let place = from_to(first.y, cell.y).rotate_left(32) ^ from_to(first.x, cell.x);
        hash = (hash.rotate_left(5) ^ place).wrapping_mul(0x9e37_79b9_7f4a_7c15);
    }
    // The hash is brought below `slots` by a multiplication: a division would take longer than everything else.
    ((hash >> 32).wrapping_mul(slots as u64) >> 32) as usize
}

/// Returns the distance from one column or row to another, modulo 2^32, so that it isn't negative.
fn from_to(from: i32, to: i32) -> u64 {
    u64::from(to.wrapping_sub(from).cast_unsigned())
}
