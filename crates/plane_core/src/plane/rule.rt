//! Life-like rules and their texts, such as `b3s23` for Conway's Life.
ghost use Rattle.std.specs.Prelude.{◌≡◌, ◌↔◌, ◌+◌, ◌<◌, ◌≤◌, ◌++◌, ◌∷◌, [], ℕ, true, false};
ghost use Rattle.std.specs.Prelude.{length, take, codes, IfOk, IsTrue, Some};
ghost use Rattle.plane_core.specs.Outputs.{Writes};
ghost use Rattle.plane_core.specs.plane.Rules.{Numbers, IsRule, IsFirstFault, is_birth, is_survival, digits, rule_text};
ghost use Rattle.plane_core.specs.plane.Rules.{begins, numbers_at, rule_read};

use crate::output::{Out, WriteError};
use std::fmt;
use std::io::Write;
use std::marker::Model;
use std::str::FromStr;
use thiserror::Error;

/// The length of the longest text of a rule, in bytes: two letters and 17 digits.
const LONGEST: usize = 19;

/// Why a text isn't a rule.
#[derive(Clone, Copy, PartialEq, Eq, Error)]
pub enum RuleFault {
    /// The byte at `place` isn't allowed there, or the text ends there too early. Places count bytes from 0.
    BadRule { place: usize },
    /// There is a `0` directly after the `b`.
    BirthZero,
}

impl fmt::Display for RuleFault {
    fn fmt<W: fmt::Write>(&self, f: &mut fmt::Formatter<W>) -> fmt::Result {
        match self {
            RuleFault::BadRule { place } => write!(f, "bad rule at {place}"),
            RuleFault::BirthZero => f.write_str("birth on zero neighbours"),
        }
    }
}

/// Shows the message, as `Display` does.
impl fmt::Debug for RuleFault {
    fn fmt<W: fmt::Write>(&self, f: &mut fmt::Formatter<W>) -> fmt::Result {
        fmt::Display::fmt(self, f)
    }
}

/// A Life-like rule without birth on zero neighbours, such as Conway's Life, `b3s23`.
///
/// Its birth numbers are among 1 to 8, and its survival numbers among 0 to 8. A dead cell is born if the number of its
/// live neighbours is a birth number. A live cell survives if this number is a survival number. Every other cell is
/// dead in the next generation.
#[derive(Clone, Copy, Debug, PartialEq, Eq)]
pub struct Rule {
    births: [bool; 8],
    survivals: [bool; 9],
}

impl Model for Rule {
    ghost use Rattle.plane_core.specs.plane.Rules.{Numbers};

    ghost Value = { Numbers };

    ghost view = { λ r. record { births = r.births; survivals = r.survivals } };

    ghost inverse = { λ n. record { births = n.births; survivals = n.survivals } };
}

impl FromStr for Rule {
    type Err = RuleFault;

    ghost from_str_gives = { λ text result. result ≡ rule_read text };

    /// Reads a rule, as [`Rule::read`] does.
    fn from_str(text: &str) -> Result<Rule, RuleFault> {
        Rule::read(text)
    }
}

/// Shows the text of the rule, such as `b3s23`.
impl fmt::Display for Rule {
    ghost output = { λ rule. Some (rule_text rule) };

    fn fmt<W: fmt::Write>(&self, f: &mut fmt::Formatter<W>) -> fmt::Result {
        let mut text = [0; LONGEST];
        let end = self.put_text(&mut text);
        match std::str::from_utf8(&text[..end]) {
            Ok(text) => f.write_str(text),
            Err(_) => unreachable!(),
        }
    }
}

impl Rule {
    /// Returns Conway's Game of Life, `b3s23`.
    #[tactic(auto, unfolding(crate::specs::plane::Rules::rule_text, crate::specs::plane::Rules::digits))]
    pub fn life() -> Rule
        ensures births { result.births ≡ false ∷ false ∷ true ∷ false ∷ false ∷ false ∷ false ∷ false ∷ [] }
        ensures survivals { result.survivals
            ≡ false ∷ false ∷ true ∷ true ∷ false ∷ false ∷ false ∷ false ∷ false ∷ [] }
        ensures text { rule_text result ≡ codes "b3s23" }
    {
        Rule {
            births: [false, false, true, false, false, false, false, false],
            survivals: [false, false, true, true, false, false, false, false, false],
        }
    }

    /// Reads a rule such as `b3s23` (LifeWiki, "Rulestring"): a `b`, the digits of the birth numbers, an `s`, and the
    /// digits of the survival numbers. The digits after each letter ascend, and the letters are lower case.
    ///
    /// # Errors
    ///
    /// The leftmost fault:
    ///
    /// - [`RuleFault::BadRule`] if a byte isn't allowed where it is, or the text ends too early.
    /// - [`RuleFault::BirthZero`] if there is a `0` directly after the `b`.
    pub fn read(text: &str) -> Result<Rule, RuleFault>
        // If a rule is read, `text` is the text of that rule. The text of each rule is read as that rule.
        ensures rule { IfOk result IsRule }
        ensures text { IfOk result (λ rule. rule_text rule ≡ text.now) }
        ensures complete { (rule : Numbers) → IsRule rule → rule_text rule ≡ text.now → result ≡ Ok rule }

        // These clauses say when each fault is returned.
        ensures bad_rule { (place : ℕ) → result ≡ Err (RuleFault.BadRule place) → IsFirstFault text.now place }
        ensures birth_zero { (result ≡ Err RuleFault.BirthZero) ↔ IsTrue (begins text.now (codes "b0")) }

        ensures exact { result ≡ rule_read text.now }
    {
        Rule::of_bytes(text.as_bytes())
    }

    /// Reads a rule, as [`Rule::read`] does.
    fn of_bytes(text: &[u8]) -> Result<Rule, RuleFault>
        ensures { result ≡ rule_read text.now }
    {
        if !text.starts_with(b"b") {
            return Err(RuleFault::BadRule { place: 0 });
        }
        if text.starts_with(b"b0") {
            return Err(RuleFault::BirthZero);
        }
        let (births, remainder) = read_numbers(&text[1..], 1);
        if !remainder.starts_with(b"s") {
            let place = text.len() - remainder.len();
            return Err(RuleFault::BadRule { place });
        }
        let (survivals, remainder) = read_numbers(&remainder[1..], 0);
        if !remainder.is_empty() {
            let place = text.len() - remainder.len();
            return Err(RuleFault::BadRule { place });
        }
        Ok(Rule { births, survivals })
    }

    /// Checks whether `n` is a birth number. This is false for 0 and for every number over 8.
    pub fn births(&self, n: u8) -> bool
        ensures birth { result ≡ is_birth self.now n }
        ensures zero { n ≡ 0 → result ≡ false }
        ensures over { 8 < n → result ≡ false }
        ensures rule { IsRule self.now }
    {
        let Rule { births, .. } = self;
        match n {
            1..=8 => births[(n - 1) as usize],
            _ => false,
        }
    }

    /// Checks whether `n` is a survival number. This is false for every number over 8.
    pub fn survives(&self, n: u8) -> bool
        ensures survival { result ≡ is_survival self.now n }
        ensures over { 8 < n → result ≡ false }
        ensures rule { IsRule self.now }
    {
        let Rule { survivals, .. } = self;
        match n {
            0..=8 => survivals[n as usize],
            _ => false,
        }
    }

    /// Writes the text of the rule, which [`Rule::read`] reads as this rule. No earlier write to the `Out` may have
    /// failed.
    ///
    /// # Errors
    ///
    /// [`WriteError`] if a write fails or takes no byte. A prefix of the text may have been written.
    pub fn write_text<V: Write>(&self, out: &mut Out<V>) -> Result<(), WriteError>
        requires { out.old.failed ≡ false }
        ensures text { Writes V.contents out.old out.new result (rule_text self.now) }
        ensures rule { IsRule self.now }
    {
        let mut text = [0; LONGEST];
        let end = self.put_text(&mut text);
        out.put(&text[..end])
    }

    /// Puts the text of the rule at the beginning of `text`, and returns its length in bytes.
    fn put_text(&self, text: &mut [u8; LONGEST]) -> usize
        ensures end { result ≤ 19 }
        ensures text { take result text.new ≡ rule_text self.now }
        ensures rule { IsRule self.now }
    {
        let middle = put_numbers(text, 0, b'b', 1, &self.births);
        put_numbers(text, middle, b's', 0, &self.survivals)
    }
}

/// Puts `letter` at `place` in the text, followed by the digits of the numbers that have the answer `true`. The first
/// answer is for the number `least`, the second for `least` + 1, and so on. Returns the place after the last byte put.
fn put_numbers(
    text: &mut [u8; LONGEST],
    place: usize,
    letter: u8,
    least: u8,
    answers: &[bool],
) -> usize
    requires digits { least + length answers.now ≤ 10 }
    requires room { place + 1 + length answers.now ≤ 19 }
    ensures end { result ≤ place + 1 + length answers.now }
    ensures text { take result text.new ≡ take place text.old ++ letter ∷ digits least answers.now }
{
    text[place] = letter;
    let mut end = place + 1;
    for (i, answer) in answers.iter().enumerate() {
        if *answer {
            text[end] = b'0' + least + i as u8;
            end += 1;
        }
    }
    end
}

/// Reads the ascending digits with which the text begins, each for one of the `N` numbers from `least` on. Returns
/// which of these numbers were read, and the text after the digits.
fn read_numbers<const N: usize>(text: &[u8], least: u8) -> ([bool; N], &[u8])
    requires { least + N ≤ 10 }
    ensures logic { result.0 ≡ (numbers_at N least text.now).logic }
    ensures remainder { result.1.now ≡ (numbers_at N least text.now).remainder }
{
    let mut logic = [false; N];
    let mut remainder = text;
    for i in 0..N {
        if remainder.starts_with(&[b'0' + least + i as u8]) {
            logic[i] = true;
            remainder = &remainder[1..];
        }
    }
    (logic, remainder)
}
