//! Apgcodes: Catagolue's names of patterns that recur. The spaces in these examples aren't part of the apgcodes:
//!
//! ```text
//! xs 4 _ 33       a still life of 4 cells, whose text is 33
//! xp 2 _ 7        an oscillator of period 2
//! xq 4 _ 153      a spaceship of period 4
//! ov_s 56         a still life of 56 cells that is too large for a text
//! ```
ghost use Rattle.std.specs.Prelude.{◌≡◌, ◌<◌, ◌^◌, ℕ, Some, ◌++◌, IfOk, OnOk, IfSome, List, Option, nat_eq, option_map};
ghost use Rattle.std.specs.Prelude.{refl, string_bytes};
ghost use Rattle.std.specs.Ordering.{nat_cmp};
ghost use Rattle.std.specs.Hash as fed;
ghost use Rattle.std.specs.Cmp.Lexicographic.{pointwise, slice_cmp, nat_list_eq_equiv, nat_list_cmp_total, texts_ties};
ghost use Rattle.std.specs.Cmp.Lexicographic.{texts_po};
ghost use Rattle.std.specs.Cmp.{partial_equiv_from_equiv};
ghost use Rattle.std.specs.Cmp.Rules.{hashing};
ghost use Rattle.std.proofs.Common.{rules};
ghost use Rattle.code_core.specs.Apgcodes.{HasCodeShape, code_text, ending, kind_in, letter, number_in, opening};
ghost use Rattle.code_core.specs.Texts.{HasTextShape};
ghost use Rattle.code_core.specs.declared.apgcode.Kind.{Kind};

use itoa::Buffer;
use memory::OutOfMemory;
use std::alloc::Global;
use std::cmp::Ordering;
use std::fmt;
use std::hash::{Hash, Hasher};
use std::marker::Model;

/// The three kinds of patterns that recur.
#[derive(Clone, Copy, Debug, PartialEq, Eq)]
pub enum Kind {
    /// A still life: the next generation is the pattern itself.
    Still,
    /// An oscillator: it recurs in place, after two or more generations.
    Oscillator,
    /// A spaceship: it recurs elsewhere.
    Ship,
}

impl Kind {
    /// Returns the letter that stands for the kind in an apgcode.
    fn letter(self) -> &'static str
        ensures { result.now ≡ letter self }
    {
        match self {
            Kind::Still => "s",
            Kind::Oscillator => "p",
            Kind::Ship => "q",
        }
    }
}

/// The apgcode of a pattern that recurs (LifeWiki, "Apgcode").
///
/// It begins with `xs` and the population for a still life, or with `xp` or `xq` and the period for an oscillator or a
/// spaceship. It ends with `_` and the least of the extended Wechsler texts of all phases in all orientations, where
/// shorter texts come first, and texts of the same length are in ASCII order. If the object is too large for a text,
/// the apgcode is only `ov_s`, `ov_p` or `ov_q` and the same number. Three examples: `xs4_33`, `xq4_153`, `ov_s56`.
///
/// Apgcodes are compared and hashed as whole texts, such as `xs4_33`, byte by byte. In contracts, an apgcode is the
/// list of the bytes of this text.
#[derive(Drop)]
pub struct Apgcode {
    text: String,
    kind: Kind,
    number: u64,
}

impl Model for Apgcode {
    ghost use Rattle.std.specs.Prelude.{◌≡◌, ℕ, List, string_bytes};

    ghost Value = { List ℕ };

    ghost use Rattle.code_core.specs.Apgcodes.{HasCodeShape, kind_in, number_in};

    ghost view = { λ a. string_bytes a.text };

    ghost invariant = { λ a. (kind_in (string_bytes a.text) ≡ a.kind) × (number_in (string_bytes a.text) ≡ a.number)
        × HasCodeShape (string_bytes a.text) };
}

impl Apgcode {
    /// Makes the apgcode with this kind, number and text. `text` is `None` if the object is too large for a text.
    pub(crate) fn make(
        alloc: Global,
        kind: Kind,
        number: u64,
        text: Option<&str>,
    ) -> Result<Apgcode, OutOfMemory>
        requires { IfSome (option_map (λ t. t.now) text) HasTextShape }
        ensures { IfOk result (λ code. code ≡ code_text kind number (option_map (λ t. t.now) text.entry)) }
    {
        Ok(Apgcode {
            text: spelled(alloc, kind, number, text)?,
            kind,
            number,
        })
    }

    /// Returns the whole apgcode, such as `xs4_33`: 1 to 400 bytes, each one of `a` to `z`, `0` to `9` and `_`.
    pub fn text(&self) -> &str
        ensures text { result.now ≡ self.now }
        ensures shape { HasCodeShape self.now }
    {
        self.text.as_str()
    }

    /// Returns the kind of the object.
    pub fn kind(&self) -> Kind
        ensures { result ≡ kind_in self.now }
    {
        self.kind
    }

    /// Returns the number of live cells of a still life, or the period of an oscillator or a spaceship in generations.
    pub fn number(&self) -> u64
        ensures { result ≡ number_in self.now }
    {
        self.number
    }

    /// Returns a copy of the apgcode.
    ///
    /// # Errors
    ///
    /// [`OutOfMemory`] if memory runs out.
    pub fn copy(&self, alloc: Global) -> Result<Apgcode, OutOfMemory>
        ensures { IfOk result (λ code. code ≡ self.now) }
    {
        Ok(Apgcode {
            text: String::from_str(alloc, self.text())?,
            kind: self.kind,
            number: self.number,
        })
    }
}

/// The laws that the kind of an apgcode can be read from its bytes, and also its number if the number fits in 64 bits.
#[tactic(auto, using(crate::proofs::ApgcodeLemmas::kind_of_name, crate::proofs::ApgcodeLemmas::number_of_name))]
pub fn readings()
    ensures kind { (kind : Kind) (number : ℕ) (text : Option (List ℕ)) → kind_in (code_text kind number text) ≡ kind }
    ensures number { (kind : Kind) (number : ℕ) (text : Option (List ℕ)) → number < 2 ^ 64
        → number_in (code_text kind number text) ≡ number }
{}

/// Returns the text of the apgcode with this kind, number and extended Wechsler text. `text` is `None` if the object is
/// too large for a text.
#[tactic(auto, unfolding(crate::specs::Apgcodes::code_text))]
fn spelled(
    alloc: Global,
    kind: Kind,
    number: u64,
    text: Option<&str>,
) -> Result<String, OutOfMemory>
    ensures { IfOk result (λ code. string_bytes code ≡ code_text kind number (option_map (λ t. t.now) text.entry)) }
{
    let letter = kind.letter();
    match text {
        Some(text) => Ok(format!(in alloc; "x{letter}{number}_{text}")?),
        None => Ok(format!(in alloc; "ov_{letter}{number}")?),
    }
}

impl PartialEq for Apgcode {
    ghost eq = { pointwise nat_eq };

    ghost laws = { partial_equiv_from_equiv nat_list_eq_equiv };

    fn eq(&self, other: &Apgcode) -> bool {
        self.text() == other.text()
    }
}

impl Eq for Apgcode {
    ghost laws = { nat_list_eq_equiv };
}

impl PartialOrd for Apgcode {
    ghost partial_cmp = { λ x y. Some (slice_cmp nat_cmp x y) };

    ghost laws = { texts_po };

    fn partial_cmp(&self, other: &Apgcode) -> Option<Ordering> {
        Some(self.cmp(other))
    }
}

impl Ord for Apgcode {
    ghost cmp = { slice_cmp nat_cmp };

    ghost total = { nat_list_cmp_total };

    ghost matches_partial_cmp = { λ x y. refl };

    ghost matches_eq = { texts_ties };

    fn cmp(&self, other: &Apgcode) -> Ordering {
        self.text().cmp(other.text())
    }
}

impl Hash for Apgcode {
    ghost hash_input = { fed.str };

    ghost respects_eq = { Prim.search (hashing, rules) };

    fn hash<H: Hasher>(&self, state: &mut H) {
        self.text().hash(state);
    }
}

/// Writes the text of the apgcode.
impl fmt::Display for Apgcode {
    ghost output = { λ code. Some code };

    fn fmt<W: fmt::Write>(&self, f: &mut fmt::Formatter<W>) -> fmt::Result {
        f.write_str(self.text())
    }
}

/// Writes the text of the apgcode, as `Display` does.
impl fmt::Debug for Apgcode {
    fn fmt<W: fmt::Write>(&self, f: &mut fmt::Formatter<W>) -> fmt::Result {
        f.write_str(self.text())
    }
}
