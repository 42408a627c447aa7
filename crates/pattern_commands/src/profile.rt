//! The profile with four given numbers.

ghost use Rattle.std.specs.Prelude.{◌≡◌};
ghost use Rattle.pattern_commands.specs.Profiles.{AreInRange, profile_named};

use crate::ending::complaint::Complaint;
use crate::ending::refusal::Refusal;
use requests::plan::ProfileNumbers;
use survey_core::profile::{Profile, ProfileError};

/// Returns the profile with these numbers, each of which has to be in its range.
///
/// # Errors
///
/// [`Refusal::HorizonBelowPeriod`] if the horizon is below the period.
pub fn profile_named(numbers: ProfileNumbers) -> Result<Profile, Complaint>
    requires { AreInRange numbers }
    ensures { result ≡ profile_named numbers }
{
    match Profile::new(
        numbers.period,
        numbers.horizon,
        numbers.stride,
        numbers.limit,
    ) {
        Ok(profile) => Ok(profile),
        Err(ProfileError::Horizon) => Err(Complaint::Refused(Refusal::HorizonBelowPeriod)),
        Err(ProfileError::Period | ProfileError::Stride | ProfileError::Limit) => unreachable!(),
    }
}
