//! Laws of soups, findings and patterns at rest.

ghost use Rattle.laws.specs.Findings.{CountsAddUp, FindingsMoved, FindingsOfImages, FindingsTurned};
ghost use Rattle.laws.specs.ForGood.{AtRestForGood, EmptyIsAtRest, FindingsForGood, ForGoodComesBack};
ghost use Rattle.laws.specs.ForGood.{MarksAreInCodes, MarksMatchRecurrences};
ghost use Rattle.laws.specs.Limits.{SettledStaySettled, UnsettledSettleLater};
ghost use Rattle.laws.specs.Soups.{SoupsAreFaithful};

/// The law that two soups are equal only if the SHA-256 digests from which they are made are equal.
pub fn soups_are_faithful()
    ensures { SoupsAreFaithful }
{}

/// The laws that a pattern keeps its finding when it is moved, and when it is turned or mirrored.
pub fn findings_are_kept()
    ensures moved { FindingsMoved }
    ensures images { FindingsOfImages }
    ensures turned { FindingsTurned }
{}

/// The law that the counts of objects add up to the number of clusters.
pub fn counts_add_up()
    ensures { CountsAddUp }
{}

/// The laws of a higher limit. A pattern that settles under a limit settles at the same generation, with the same
/// objects, under every higher limit. A pattern that is unsettled under a limit settles after that limit, if at all.
pub fn higher_limits_settle_no_less()
    ensures settled { SettledStaySettled }
    ensures unsettled { UnsettledSettleLater }
{}

/// The laws of patterns at rest. The empty pattern is at rest. If the clusters of a pattern at rest stay for good, they
/// keep apart in every later generation, and the pattern recurs after the least common multiple of their periods.
pub fn at_rest_for_good()
    ensures empty { EmptyIsAtRest }
    ensures forever { AtRestForGood }
{}

/// The law that objects stay for good if a finding says so: in every later generation, the clusters, each run alone,
/// keep apart and make up the whole pattern, and the pattern recurs after the least common multiple of their periods.
pub fn findings_for_good()
    ensures { FindingsForGood }
{}

/// The law that if a pattern settles at generation t with objects that stay for good, then for every k, generation
/// t + k * L is equal to generation t, and is settled with the same objects. L is the least common multiple of the
/// periods.
pub fn for_good_comes_back()
    ensures { ForGoodComesBack }
{}

/// The laws that, under a given profile, the codes of a finding's objects determine its mark *for good*. The mark is
/// defined by the recurrences of the clusters, and the kinds and numbers in the codes give the same result.
pub fn marks_match_recurrences()
    ensures codes { MarksMatchRecurrences }
    ensures mark { MarksAreInCodes }
{}
