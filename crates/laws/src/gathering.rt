//! Laws of what `gather` and `take` print.

ghost use Rattle.commands.specs.CorrectLines.{GatherTakesCorrectLines};
ghost use Rattle.laws.specs.Gathering.{GatherPrintsCorrectLines};
ghost use Rattle.laws.specs.SplitWork.{OneRightText, SplitWorkEnds, SplitWorkIsWhole};

/// The laws of what `gather` prints. It ends with a complaint if the plan is refused, the input is too long, memory
/// runs out or a stream fails. In all other cases, it prints the haul text over those numbers of its set that have a
/// correct line, each once, whatever the other lines are. It ends with status `Done` if each number of the set has a
/// correct line, and otherwise with `Incomplete`.
pub fn gather_takes_correct_lines()
    ensures tells { GatherTakesCorrectLines }
    ensures prints { GatherPrintsCorrectLines }
{}

/// The laws of split work. If a set is split among calls of `work`, and each line that these calls print is among the
/// lines of the input of `gather`, then `gather` prints what `take` prints for the set, and no soup is missing. This
/// holds for inputs of at most 2^32 bytes and lines of at most 2^24, unless memory runs out or a stream fails.
pub fn split_work_is_whole()
    ensures whole { SplitWorkIsWhole }
    ensures ends { SplitWorkEnds }
{}

/// The law that, for each plan, at most one text is correct for `take`.
pub fn one_right_text()
    ensures { OneRightText }
{}
