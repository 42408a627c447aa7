//! Laws of sets of soup numbers.

ghost use Rattle.laws.specs.RangeLists.{TextsHaveOneFault, TextsHaveOneList};

/// The laws that a text spells at most one list of ranges, and that the place of a text's first fault is unique.
pub fn list_texts_tell_ranges()
    ensures one { TextsHaveOneList }
    ensures place { TextsHaveOneFault }
{}
