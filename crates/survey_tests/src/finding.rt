//! Tests of the findings of patterns and soups. The findings of two soups are compared with those of an independent
//! program.
ghost use Rattle.std.specs.Prelude.{◌≡◌, IfOk, true};
ghost use Rattle.plane_core.specs.plane.Generations.{lies_within};

use memory::OutOfMemory;
use plane_core::plaintext::PlaintextError;
use plane_core::plane::pattern::Pattern;
use plane_core::plane::rule::Rule;
use std::alloc::Global;
use std::test::Fail;
use survey_core::finding::{Finding, survey, survey_pattern};
use survey_core::job::Job;
use survey_core::profile::Profile;
use survey_core::seed::Seed;
use survey_core::surveyor::Surveyor;

/// Returns the pattern of a picture.
fn drawn(alloc: Global, picture: &str) -> Result<Pattern, PlaintextError>
    ensures { IfOk result (λ pattern. lies_within 1000 pattern ≡ true) }
{
    let pattern = Pattern::read_plaintext(alloc, picture.as_bytes())?;
    Ok(pattern)
}

/// Returns a profile with this period and this horizon. Its only checkpoint is generation 0.
fn at_once(period: u32, horizon: u32) -> Result<Profile, Fail> {
    Ok(Profile::new(period, horizon, 1, 0)?)
}

/// Checks whether the pattern settled at checkpoint `at`: for good if `good`, and otherwise not for good.
fn is_settled(finding: &Finding, at: u32, good: bool) -> bool {
    match finding {
        Finding::Settled {
            checkpoint,
            for_good,
            ..
        } => *checkpoint == at && *for_good == good,
        Finding::Unsettled => false,
    }
}

/// Checks whether a picture is at rest in Life in generation 0: for good if `good`, and otherwise not for good.
fn rests(alloc: Global, picture: &str, profile: Profile, good: bool) -> Result<bool, Fail> {
    let pattern = drawn(alloc, picture)?;
    let finding = survey_pattern(alloc, &profile, &Rule::life(), pattern)?;
    Ok(is_settled(&finding, 0, good))
}

const GLIDER: &str = ".O.\n..O\nOOO";

// The empty pattern and a blinker stay for good. A glider doesn't, since it leaves its place.
#[test]
fn tells_what_stays_for_good(rt: HostRuntime) -> Result<(), Fail> {
    let profile = Profile::standard();
    assert!(rt; rests(rt.alloc(), "", profile, true)?);
    assert!(rt; rests(rt.alloc(), "OOO", profile, true)?);
    assert!(rt; rests(rt.alloc(), GLIDER, profile, false)?);
    Ok(())
}

const PULSAR_AND_BLINKER: &str =
    "..OO.....OO..............OOO\n...OO...OO...\nO..O.O.O.O..O\nOOO.OO.OO.OOO\n\
                                  .O.O.O.O.O.O.\n..OOO...OOO..\n.............\n..OOO...OOO..\n.O.O.O.O.O.O.\n\
                                  OOO.OO.OO.OOO\nO..O.O.O.O..O\n...OO...OO...\n..OO.....OO..";

// The periods are 3 and 2, so the two objects are themselves again at the same time only after 6 generations.
#[test]
fn knows_what_stays_once_all_has_come_back(rt: HostRuntime) -> Result<(), Fail> {
    assert!(rt; rests(rt.alloc(), PULSAR_AND_BLINKER, at_once(3, 3)?, false)?);
    assert!(rt; rests(rt.alloc(), PULSAR_AND_BLINKER, at_once(3, 6)?, true)?);
    Ok(())
}

/// Returns a picture of `count` upright lines, two empty columns apart: the first line has one cell, and each further
/// line has one cell more than the line before it.
fn lines(alloc: Global, count: usize) -> Result<String, OutOfMemory> {
    let mut picture = String::new(alloc);
    for row in 0..count {
        for line in 0..count {
            picture.push_str(if line < row { "..." } else { "O.." })?;
        }
        picture.push_str("\n")?;
    }
    Ok(picture)
}

/// Returns the number of codes of the finding, or `None` if the pattern didn't settle.
fn code_count(finding: &Finding) -> Option<usize> {
    match finding {
        Finding::Settled { objects, .. } => Some(objects.as_slice().len()),
        Finding::Unsettled => None,
    }
}

/// Returns the finding of a picture under a rule by which nothing is born or dies.
fn of_still_picture(alloc: Global, picture: &str) -> Result<Finding, Fail> {
    let rule = Rule::read("bs012345678")?;
    let profile = at_once(1, 1)?;
    let pattern = drawn(alloc, picture)?;
    Ok(survey_pattern(alloc, &profile, &rule, pattern)?)
}

// Each line is a still life, and no two lines have the same population.
#[test]
fn counts_120_codes(rt: HostRuntime) -> Result<(), Fail> {
    let picture = lines(rt.alloc(), 120)?;
    let finding = of_still_picture(rt.alloc(), picture.as_str())?;
    assert!(rt; code_count(&finding) == Some(120));
    Ok(())
}

/// Returns the finding of soup `number` of the empty seed in Life.
fn of_soup(alloc: Global, profile: Profile, number: u64) -> Result<Finding, Fail> {
    let seed = Seed::new("")?;
    let rule = Rule::life();
    let job = Job {
        seed,
        profile,
        rule,
    };
    Ok(survey(alloc, &job, number)?)
}

// The expected findings are from a program in another language. That program was written only from the definitions.
#[test]
fn surveys_soups(rt: HostRuntime) -> Result<(), Fail> {
    let profile = Profile::standard();
    assert!(rt; is_settled(&of_soup(rt.alloc(), profile, 101)?, 202, true));
    assert!(rt; is_settled(&of_soup(rt.alloc(), profile, 102)?, 202, false));
    Ok(())
}

// Only still lifes recur after one generation, and this soup has clusters that aren't still lifes.
#[test]
fn leaves_a_soup_unsettled(rt: HostRuntime) -> Result<(), Fail> {
    let finding = of_soup(rt.alloc(), at_once(1, 1)?, 0)?;
    assert!(rt; matches!(finding, Finding::Unsettled));
    Ok(())
}

/// Checks whether the surveyor finds that the R-pentomino settles at checkpoint 1111, and not for good. The R-pentomino
/// comes to rest in generation 1103 (LifeWiki, "R-pentomino"), and 1111 is the first checkpoint after that.
fn settles_with(alloc: Global, surveyor: &mut Surveyor) -> Result<bool, Fail> {
    let pattern = drawn(alloc, ".OO\nOO.\n.O.")?;
    let finding = surveyor.survey_pattern(alloc, &Profile::standard(), &Rule::life(), pattern)?;
    Ok(is_settled(&finding, 1111, false))
}

#[test]
fn finds_the_same_with_a_surveyor_that_has_seen_it(rt: HostRuntime) -> Result<(), Fail> {
    let mut surveyor = Surveyor::new(rt.alloc());
    assert!(rt; settles_with(rt.alloc(), &mut surveyor)?);
    assert!(rt; settles_with(rt.alloc(), &mut surveyor)?);
    Ok(())
}

#[test]
fn finds_the_same_without_a_memo(rt: HostRuntime) -> Result<(), Fail> {
    let mut none = Surveyor::without_memo(rt.alloc());
    assert!(rt; settles_with(rt.alloc(), &mut none)?);
    Ok(())
}
