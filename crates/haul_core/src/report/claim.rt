//! Claims: what a report line says, right or wrong. A claim is read from its line, and then checked.

ghost use Rattle.std.specs.Prelude.{◌≡◌, option_map};
ghost use Rattle.haul_core.specs.LawfulClaims.{IsClaim};

use crate::report::claim::claimed_code::ClaimedCode;
use std::marker::Model;
use survey_core::job::Job;

/// Checking claims.
pub mod check;
/// The codes of claims.
pub mod claimed_code;
mod read_field;
/// Reading report lines.
pub mod read_line;
mod read_start;

/// What a worker claims about a soup: the job, the worker, the soup's number, and the finding.
///
/// The claim's numbers and texts are within the limits of report lines. What the claim says about the soup may be
/// wrong.
#[derive(Debug, Drop)]
pub struct Claim {
    version: u8,
    job: Job,
    worker: u8,
    number: u64,
    settled: Option<SettledClaim>,
}

impl Model for Claim {
    ghost use Rattle.haul_core.specs.LawfulClaims.{Claimed, IsClaim};

    ghost Value = { Claimed };

    ghost view = { λ c. record
        { version = c.version; job = c.job; worker = c.worker; number = c.number; found = c.settled } };

    ghost invariant = { λ c. IsClaim
        (record { version = c.version; job = c.job; worker = c.worker; number = c.number; found = c.settled }) };
}

impl Claim {
    /// Returns the version of the line, 1 or 2. A line of version 1 doesn't say whether the objects stay for good.
    pub fn version(&self) -> u8
        ensures version { result ≡ self.now.version }
        ensures claim { IsClaim self.now }
    {
        self.version
    }

    /// Returns the job.
    pub fn job(&self) -> Job
        ensures { result ≡ self.now.job }
    {
        self.job
    }

    /// Returns the worker, 1 to 16.
    pub fn worker(&self) -> u8
        ensures worker { result ≡ self.now.worker }
        ensures claim { IsClaim self.now }
    {
        self.worker
    }

    /// Returns the number of the soup, below 2^40.
    pub fn number(&self) -> u64
        ensures number { result ≡ self.now.number }
        ensures claim { IsClaim self.now }
    {
        self.number
    }

    /// Returns what the claim says about a soup that settled, or `None` if the claim says that the soup didn't settle.
    pub fn settled(&self) -> Option<&SettledClaim>
        ensures found { option_map (λ said. said.now) result ≡ self.now.found }
        ensures claim { IsClaim self.now }
    {
        self.settled.as_ref()
    }
}

/// What a claim says about a soup that settled.
#[derive(Debug, Drop)]
pub struct SettledClaim {
    checkpoint: u32,
    for_good: Option<bool>,
    counts: Vec<(ClaimedCode, u64)>,
}

impl Model for SettledClaim {
    ghost use Rattle.haul_core.specs.LawfulClaims.{SaidOfSoup};

    ghost Value = { SaidOfSoup };

    ghost view = { λ s. record { checkpoint = s.checkpoint; for_good = s.for_good; counts = s.counts.items } };
}

impl SettledClaim {
    /// Returns the codes, each with the number of objects that have it according to the claim. By `IsClaim`, the codes
    /// of a claim are in ASCII order, each once, and the numbers are at least 1.
    pub fn counts(&self) -> &[(ClaimedCode, u64)]
        ensures { result.now ≡ self.now.counts }
    {
        self.counts.as_slice()
    }
}
