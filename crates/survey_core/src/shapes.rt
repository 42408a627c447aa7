//! What is known of the shape of a cluster: how it recurs, the envelope of its phases, and its apgcode.

/// The bounding box of all phases of a cluster that recurs, and how it moves.
pub mod envelope_bounds;
/// What a worker remembers of shapes.
pub(crate) mod memo;
/// The objects of a finding: their apgcodes, and how many objects have each apgcode.
pub mod objects;
/// Which slot of a memo a shape has.
mod slot;
