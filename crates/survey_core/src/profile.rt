//! Profiles: four numbers of generations that decide when a pattern counts as settled.
ghost use Rattle.std.specs.Prelude.{◌≡◌};
ghost use Rattle.survey_core.specs.Profiles.{IsProfile, is_from_to, profile_of, standard};

use std::fmt;
use std::marker::Model;
use thiserror::Error;

/// Why four numbers are not a profile.
#[derive(Clone, Copy, PartialEq, Eq, Error)]
pub enum ProfileError {
    /// The period is 0, or over 64.
    Period,
    /// The horizon is less than the period, or over 4,096.
    Horizon,
    /// The stride is 0, or over 10,000.
    Stride,
    /// The limit is over 100,000.
    Limit,
}

impl fmt::Display for ProfileError {
    fn fmt<W: fmt::Write>(&self, f: &mut fmt::Formatter<W>) -> fmt::Result {
        f.write_str(match self {
            ProfileError::Period => "bad period",
            ProfileError::Horizon => "bad horizon",
            ProfileError::Stride => "bad stride",
            ProfileError::Limit => "bad limit",
        })
    }
}

/// Writes the message, as `Display` does.
impl fmt::Debug for ProfileError {
    fn fmt<W: fmt::Write>(&self, f: &mut fmt::Formatter<W>) -> fmt::Result {
        fmt::Display::fmt(self, f)
    }
}

/// Four numbers of generations that decide when a pattern counts as settled.
///
/// The checkpoints of a pattern are the generations 0, `stride`, twice `stride` and so on, up to `limit`. The pattern
/// settles at the first checkpoint at which each of its clusters recurs within `period` generations, and no cluster
/// influences another for `horizon` generations.
#[derive(Clone, Copy, Debug, PartialEq, Eq)]
pub struct Profile {
    period: u32,
    horizon: u32,
    stride: u32,
    limit: u32,
}

impl Model for Profile {
    ghost use Rattle.survey_core.specs.Profiles.{IsProfile, Settling};

    ghost Value = { Settling };

    ghost view = { λ p. record { period = p.period; horizon = p.horizon; stride = p.stride; limit = p.limit } };

    ghost inverse = { λ p. record { period = p.period; horizon = p.horizon; stride = p.stride; limit = p.limit } };

    ghost invariant = { λ p. IsProfile
        (record { period = p.period; horizon = p.horizon; stride = p.stride; limit = p.limit }) };
}

impl Profile {
    /// Returns the profile with these numbers.
    ///
    /// # Errors
    ///
    /// The first of these that holds:
    ///
    /// - [`ProfileError::Period`] if the period is 0, or over 64.
    /// - [`ProfileError::Horizon`] if the horizon is less than the period, or over 4,096.
    /// - [`ProfileError::Stride`] if the stride is 0, or over 10,000.
    /// - [`ProfileError::Limit`] if the limit is over 100,000.
    pub fn new(period: u32, horizon: u32, stride: u32, limit: u32) -> Result<Profile, ProfileError>
        ensures { result ≡ profile_of (record { period = period; horizon = horizon; stride = stride; limit = limit }) }
    {
        if !is_from_to(1, 64, period) {
            return Err(ProfileError::Period);
        }
        if !is_from_to(period, 4096, horizon) {
            return Err(ProfileError::Horizon);
        }
        if !is_from_to(1, 10_000, stride) {
            return Err(ProfileError::Stride);
        }
        if limit > 100_000 {
            return Err(ProfileError::Limit);
        }
        Ok(Profile {
            period,
            horizon,
            stride,
            limit,
        })
    }

    /// Returns the default profile: period 64, horizon 512, stride 101 and limit 30,300.
    pub fn standard() -> Profile
        ensures { result ≡ standard }
    {
        Profile {
            period: 64,
            horizon: 512,
            stride: 101,
            limit: 30_300,
        }
    }

    /// Returns the longest period that a cluster of a settled pattern may have, in generations: 1 to 64.
    pub fn period(&self) -> u32
        ensures period { result ≡ self.now.period }
        ensures profile { IsProfile self.now }
    {
        self.period
    }

    /// Returns for how many generations clusters must not influence each other: at least the period, and at most 4,096.
    pub fn horizon(&self) -> u32
        ensures horizon { result ≡ self.now.horizon }
        ensures profile { IsProfile self.now }
    {
        self.horizon
    }

    /// Returns the number of generations from one checkpoint to the next, 1 to 10,000.
    pub fn stride(&self) -> u32
        ensures stride { result ≡ self.now.stride }
        ensures profile { IsProfile self.now }
    {
        self.stride
    }

    /// Returns the last generation that may be a checkpoint, at most 100,000.
    pub fn limit(&self) -> u32
        ensures limit { result ≡ self.now.limit }
        ensures profile { IsProfile self.now }
    {
        self.limit
    }
}

/// Checks whether `n` is from `least` to `most`.
fn is_from_to(least: u32, most: u32, n: u32) -> bool
    ensures { result ≡ is_from_to least most n }
{
    least <= n && n <= most
}
