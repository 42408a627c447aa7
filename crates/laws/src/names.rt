//! Laws of what `name` prints.

ghost use Rattle.laws.specs.NameTexts.{NameTextsAreFaithful};

/// The law that, under one rule and profile, two patterns within 1,000 columns and rows of the origin for which `name`
/// prints the same lines have the same finding.
pub fn name_texts_are_faithful()
    ensures { NameTextsAreFaithful }
{}
