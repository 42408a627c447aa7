//! Checks a claim: the soup is surveyed, and the finding is compared with what the claim says.

ghost use Rattle.std.specs.Prelude.{◌≡◌, ◌==◌, ◌↔◌, All, IfErr, IfOk, IsTrue, MatchResult, None, Some, if◌then◌else◌};
ghost use Rattle.memory.specs.Witness.{out_of_memory};
ghost use Rattle.code_core.specs.Apgcodes.{HasCodeShape};
ghost use Rattle.haul_core.specs.ClaimChecks.{Agrees, HaveShape, IsCheckedClaim, IsConfirmed};
ghost use Rattle.haul_core.specs.ReportLines.{claim_of};
ghost use Rattle.haul_core.specs.LawfulClaims.{IsClaim};
ghost use Rattle.haul_core.specs.Reports.{Reported};
ghost use Rattle.haul_core.specs.declared.report.claim.check.CheckError.TheVariants.{Memory};

use crate::report::claim::claimed_code::ClaimedCode;
use crate::report::claim::{Claim, SettledClaim};
use crate::report::{Report, ReportError};
use code_core::apgcode::Apgcode;
use memory::OutOfMemory;
use std::alloc::Global;
use survey_core::finding::{Finding, findings_are_determined};
use survey_core::job::{Job, is_same_job};
use survey_core::shapes::objects::Objects;
use survey_core::surveyor::Surveyor;

/// Why a claim didn't become a report.
#[derive(Debug, Drop)]
pub enum CheckError {
    /// The claim is of another job.
    OtherJob,
    /// The finding is `found`, and the claim says something else.
    Disagrees { found: Finding },
    /// Memory ran out.
    Memory(OutOfMemory),
}

impl Claim {
    /// Turns the claim into a report if the claim is of this job and agrees with the finding of its soup. To get this
    /// finding, the soup is surveyed. A claim of version 1 doesn't say whether the objects stay for good, so only the
    /// rest of the finding is compared.
    ///
    /// # Errors
    ///
    /// The claim, unchanged, and the first of these that holds:
    ///
    /// - [`CheckError::OtherJob`] if the claim has another seed, profile or rule.
    /// - [`CheckError::Memory`] if memory runs out while the soup is surveyed.
    /// - [`CheckError::Disagrees`], which contains the finding, if the claim says something else.
    pub fn check(self, alloc: Global, job: &Job) -> Result<Report, (Claim, CheckError)>
        ensures { IsCheckedClaim self job.now result }
    {
        let mut surveyor = Surveyor::without_memo(alloc);
        self.check_with_surveyor(alloc, &mut surveyor, job)
    }

    /// Checks the claim as [`check`](Claim::check) does, using a surveyor that may have surveyed other soups before.
    /// Using one surveyor for many claims is faster.
    ///
    /// # Errors
    ///
    /// Those of [`check`](Claim::check).
    pub fn check_with_surveyor(
        self,
        alloc: Global,
        surveyor: &mut Surveyor,
        job: &Job,
    ) -> Result<Report, (Claim, CheckError)>
        ensures { IsCheckedClaim self job.now result }
    {
        if !is_same_job(&self.job, job) {
            return Err((self, CheckError::OtherJob));
        }
        // For the prover: a soup has only one finding, so a claim that disagrees with it agrees with no finding of the
        // soup.
        findings_are_determined();
        let report = match Report::make_with_surveyor(
            alloc,
            surveyor,
            job,
            self.worker,
            self.number,
        ) {
            Ok(report) => report,
            Err(ReportError::Memory(error)) => return Err((self, CheckError::Memory(error))),
            Err(ReportError::BadWorker) => unreachable!(),
        };
        let agrees = agrees(&self, report.finding());
        if agrees {
            Ok(report)
        } else {
            let found = report.into_finding();
            Err((self, CheckError::Disagrees { found }))
        }
    }
}

/// Checks whether a claim agrees with the finding.
fn agrees(claim: &Claim, finding: &Finding) -> bool
    ensures { IsTrue result ↔ Agrees claim.now finding.now }
{
    match finding {
        Finding::Settled {
            checkpoint,
            objects,
            for_good,
        } => {
            let Some(said) = &claim.settled else {
                return false;
            };
            agrees_on_settled(claim.version, said, *checkpoint, objects, *for_good)
        }
        Finding::Unsettled => claim.settled.is_none(),
    }
}

/// Checks whether a claim of this version agrees with the finding of a soup that settled.
fn agrees_on_settled(
    version: u8,
    said: &SettledClaim,
    checkpoint: u32,
    objects: &Objects,
    for_good: bool,
) -> bool
    ensures { IsTrue result
        ↔ (said.now ≡ record {
          checkpoint = checkpoint;
          for_good = if version == 1 then None else Some for_good;
          counts = objects.now;
        }) }
{
    let mark = if version == 1 { None } else { Some(for_good) };
    said.checkpoint == checkpoint
        && said.for_good == mark
        && are_same_counts(said.counts.as_slice(), objects.as_slice())
}

/// Checks whether the counts of a claim have the same codes and numbers as the objects of a finding, in the same order.
fn are_same_counts(counts: &[(ClaimedCode, u64)], objects: &[(Apgcode, u64)]) -> bool
    ensures { IsTrue result ↔ (counts.now ≡ objects.now) }
{
    if counts.len() != objects.len() {
        return false;
    }
    for place in 0..counts.len() {
        let same = is_same_count(&counts[place], &objects[place]);
        if !same {
            return false;
        }
    }
    true
}

/// Checks whether a count of a claim has the same code and the same number as an entry of a finding's objects.
fn is_same_count(count: &(ClaimedCode, u64), object: &(Apgcode, u64)) -> bool
    ensures { IsTrue result ↔ (count.now ≡ object.now) }
{
    count.0.bytes() == object.0.text().as_bytes() && count.1 == object.1
}

/// The law that a report's line is the line of a lawful claim, and that checking this claim gives the report back,
/// unless memory runs out.
pub fn reports_are_claims(report: &Report)
    ensures claim { IsClaim (claim_of 2 report.now) }
    ensures confirmed { IsConfirmed (claim_of 2 report.now) report.now.job report.now }
{
    let job = report.job();
    job.rule.births(0);
    job.profile.limit();
    job.seed.bytes();
    codes_have_shape(report.finding());
}

/// Recalls, for a proof, that each code of a finding has the shape of an apgcode.
fn codes_have_shape(finding: &Finding)
    ensures { HaveShape finding.now }
{
    match finding {
        Finding::Settled { objects, .. } => have_shape(objects.as_slice()),
        Finding::Unsettled => {}
    }
}

/// Recalls, for a proof, that each of these codes has the shape of an apgcode.
fn have_shape(objects: &[(Apgcode, u64)])
    ensures { All (λ object. HasCodeShape object.0) objects.now }
{
    for object in objects {
        object.0.text();
    }
}
