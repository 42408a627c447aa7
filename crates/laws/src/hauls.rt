//! Laws of what a haul takes, of censuses and their texts, and of report lines.

ghost use Rattle.laws.specs.Books.{FirstOffersAreTaken, WorkersAreTakenInOrder};
ghost use Rattle.laws.specs.Censuses.{CompleteHaulsPrintTheSame, JoinedHaulsAddUp, SameSoupsPrintTheSame, SplitSetsAddUp};
ghost use Rattle.laws.specs.HaulTexts.{HaulCensusesAreShort, HaulTextsAreFaithful};
ghost use Rattle.laws.specs.ReportLines.{FaultyLinesHaveNoClaim, LinesHaveOneClaim, LinesHaveOneFault};

/// The law that a haul takes a number if and only if some eligible offer has it, and then from the worker of the first
/// such offer. An offer is eligible if no closing came before it, its job is the haul's, its worker is one of the
/// haul's workers, and its number is in the haul's set.
pub fn first_offers_are_taken()
    ensures { FirstOffersAreTaken }
{}

/// The law that the reports taken from a worker are a subsequence of what the worker offered before any closing. Each
/// number is taken at most once, and is in the set.
pub fn workers_are_taken_in_order()
    ensures { WorkersAreTakenInOrder }
{}

/// The laws that a haul text doesn't depend on the order in which the soups arrived: censuses of one job and set have
/// the same text if they are over the same soups, and complete hauls of one job and set have the same text.
pub fn complete_hauls_print_the_same()
    ensures same { SameSoupsPrintTheSame }
    ensures complete { CompleteHaulsPrintTheSame }
{}

/// The law that if a haul has taken the soups of two other hauls of its job, its census is the sum of their censuses:
/// in the numbers of objects, soups, unsettled soups and soups whose objects stay for good, and in each code's total. A
/// code's samples are the three lowest of its samples in the two censuses.
pub fn joined_hauls_add_up()
    ensures { JoinedHaulsAddUp }
{}

/// The law that the census of the union of two sets is the sum of their censuses, if the two sets share no number.
pub fn split_sets_add_up()
    ensures { SplitSetsAddUp }
{}

/// The laws that two short censuses with the same haul text are equal, and that the census of every haul is short. A
/// census is short if its job is valid, its ranges are in normal form, its count is the size of these ranges, its codes
/// have the shape of apgcodes, and its other numbers are below 10^64.
pub fn haul_texts_are_faithful()
    ensures faithful { HaulTextsAreFaithful }
    ensures hauls { HaulCensusesAreShort }
{}

/// The laws of report lines: a line is the line of at most one claim, a line with a fault is the line of no claim, and
/// a line has its first fault at only one place.
pub fn lines_tell_claims()
    ensures one { LinesHaveOneClaim }
    ensures faulty { FaultyLinesHaveNoClaim }
    ensures place { LinesHaveOneFault }
{}
