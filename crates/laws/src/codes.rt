//! Laws of apgcodes.

ghost use Rattle.code_core.specs.Names.{CodesMoved};
ghost use Rattle.laws.specs.Codes.{CodesAreFaithful, CodesLater, CodesTurned};

/// The laws that a pattern keeps its apgcode when it is moved, when it is turned or mirrored, and in each later
/// generation.
pub fn codes_are_of_objects()
    ensures moved { CodesMoved }
    ensures turned { CodesTurned }
    ensures later { CodesLater }
{}

/// The law that two patterns with the same apgcode are one object, if the apgcode contains a Wechsler text. They are
/// one object if the second pattern is some generation of the first, moved and possibly turned or mirrored.
pub fn codes_are_faithful()
    ensures { CodesAreFaithful }
{}
