//! Seeds: the texts from which soups are made.
ghost use Rattle.std.specs.Prelude.{◌≡◌, Some};
ghost use Rattle.survey_core.specs.Seeds.{IsSeed, is_visible, seed_read};

use std::fmt;
use std::marker::Model;
use std::str::FromStr;
use thiserror::Error;

/// The most bytes of a seed.
pub const MOST_BYTES: usize = 64;

/// Why a text is not a seed.
#[derive(Clone, Copy, PartialEq, Eq, Error)]
pub enum SeedFault {
    /// The text has more than 64 bytes.
    TooLong,
    /// The byte at `place` is the first that isn't a visible ASCII character. Places count from 0.
    BadByte { place: usize },
}

impl fmt::Display for SeedFault {
    fn fmt<W: fmt::Write>(&self, f: &mut fmt::Formatter<W>) -> fmt::Result {
        match self {
            SeedFault::TooLong => f.write_str("seed too long"),
            SeedFault::BadByte { place } => write!(f, "bad byte in seed at {place}"),
        }
    }
}

/// Writes the message, as `Display` does.
impl fmt::Debug for SeedFault {
    fn fmt<W: fmt::Write>(&self, f: &mut fmt::Formatter<W>) -> fmt::Result {
        fmt::Display::fmt(self, f)
    }
}

/// A text from which soups are made: at most 64 bytes, each one of `!` to `~`. It may be empty.
///
/// Seeds are equal if their bytes are. Contracts see a seed as the list of its bytes.
#[derive(Clone, Copy, Debug, PartialEq, Eq)]
pub struct Seed {
    /// The bytes, followed by zeros.
    padded: [u8; 64],
    count: usize,
}

impl Model for Seed {
    ghost use Rattle.std.specs.Prelude.{◌≡◌, ◌++◌, ◌-◌, ◌≤◌, ℕ, List, length, replicate, take};
    ghost use Rattle.survey_core.specs.Seeds.{IsSeed, most_bytes};

    ghost Value = { List ℕ };

    ghost view = { λ s. take s.count s.padded };

    ghost inverse = { λ bytes. record
        { padded = bytes ++ replicate (most_bytes - length bytes) 0; count = length bytes } };

    ghost invariant = { λ s.
        (take s.count s.padded ++ replicate (most_bytes - length (take s.count s.padded)) 0 ≡ s.padded)
        × (length (take s.count s.padded) ≡ s.count) × IsSeed (take s.count s.padded) };
}

impl FromStr for Seed {
    type Err = SeedFault;

    ghost from_str_gives = { λ text result. result ≡ seed_read text };

    /// Reads a seed, as [`Seed::new`] does.
    fn from_str(text: &str) -> Result<Seed, SeedFault> {
        Seed::new(text)
    }
}

/// Writes the text.
impl fmt::Display for Seed {
    ghost output = { λ seed. Some seed };

    fn fmt<W: fmt::Write>(&self, f: &mut fmt::Formatter<W>) -> fmt::Result {
        match std::str::from_utf8(self.bytes()) {
            Ok(text) => f.write_str(text),
            Err(_) => unreachable!(),
        }
    }
}

impl Seed {
    /// Returns the seed with this text.
    ///
    /// # Errors
    ///
    /// - [`SeedFault::TooLong`] if the text has more than 64 bytes.
    /// - [`SeedFault::BadByte`] with the place of the first byte that isn't one of `!` to `~` (33 to 126).
    pub fn new(text: &str) -> Result<Seed, SeedFault>
        ensures { result ≡ seed_read text.now }
    {
        let bytes = text.as_bytes();
        if bytes.len() > MOST_BYTES {
            return Err(SeedFault::TooLong);
        }
        let mut padded = [0; 64];
        for (place, byte) in bytes.iter().enumerate() {
            if !is_visible(*byte) {
                return Err(SeedFault::BadByte { place });
            }
            padded[place] = *byte;
        }
        Ok(Seed {
            padded,
            count: bytes.len(),
        })
    }

    /// Returns the bytes of the text.
    pub fn bytes(&self) -> &[u8]
        ensures bytes { result.now ≡ self.now }
        ensures seed { IsSeed self.now }
    {
        let Seed { padded, count } = self;
        &padded[..*count]
    }
}

/// Checks whether the byte is a visible ASCII character.
fn is_visible(byte: u8) -> bool
    ensures { result ≡ is_visible byte }
{
    33 <= byte && byte <= 126
}
