//! The plan of a census, as a call gives it: which soups, under which profile and rule.

ghost use Rattle.std.specs.Prelude.{◌≡◌};

use std::marker::Model;

/// The plan of a census: the soups to survey, the profile and the rule.
///
/// The texts haven't been parsed yet.
#[derive(Drop)]
pub struct Plan<'a> {
    /// The soups.
    pub set: SoupSet<'a>,
    /// The numbers of the profile.
    pub profile: ProfileNumbers,
    /// The text of the rule.
    pub rule: Text<'a>,
}

/// Soups of a seed: those whose number is in a range, or in one of the ranges of a list.
///
/// The texts haven't been parsed yet.
#[derive(Drop)]
pub struct SoupSet<'a> {
    /// The seed.
    pub seed: Text<'a>,
    /// The first number of the range, at most 2^40.
    pub first: u64,
    /// The number of soups in the range, at most 2^24.
    pub count: u64,
    /// The list of the other ranges, such as `0+4,10+2`.
    pub also: Text<'a>,
}

/// The four numbers of a profile: when a pattern counts as settled.
#[derive(Clone, Copy, Debug, PartialEq, Eq)]
pub struct ProfileNumbers {
    /// The longest period that a cluster of a settled pattern may have, in generations: 1 to 64.
    pub period: u32,
    /// For how many generations clusters must keep apart: at most 4,096. The horizon must be at least `period`, but
    /// this hasn't been checked yet.
    pub horizon: u32,
    /// The number of generations between two checkpoints: 1 to 10,000.
    pub stride: u32,
    /// The last generation that may be a checkpoint: 0 to 100,000.
    pub limit: u32,
}

/// A text among the command-line arguments, such as a rule. It hasn't been parsed yet.
///
/// Contracts see a `Text` as the list of its bytes.
#[derive(Drop)]
pub struct Text<'a> {
    text: &'a str,
}

impl<'a> Model for Text<'a> {
    ghost use Rattle.std.specs.Prelude.{ℕ, List};

    ghost Value = { List ℕ };

    ghost view = { λ text. text.text.now };
}

impl<'a> Text<'a> {
    /// Returns `text` as a value that hasn't been parsed yet.
    pub fn new(text: &'a str) -> Text<'a>
        ensures { result ≡ text.now }
    {
        Text { text }
    }

    /// Returns the text as a string slice.
    pub fn as_str(&self) -> &'a str
        ensures { result.now ≡ self.now }
    {
        self.text
    }
}
