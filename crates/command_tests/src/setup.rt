//! What the tests share: plans, the haul text of soups that don't settle, and machines.
ghost use Rattle.std.specs.Prelude.{◌≡◌, false};
ghost use Rattle.pattern_commands.specs.Profiles.{AreInRange};

use crate::streams::{FaultyWriter, Left};
use commands::machine::Machine;
use memory::OutOfMemory;
use pattern_commands::ending::status::Status;
use plane_core::output::Out;
use requests::plan::{Plan, ProfileNumbers, SoupSet, Text};
use std::alloc::Global;

/// A profile under which a soup settles only if the soup itself is a still life.
const SMALL: ProfileNumbers = ProfileNumbers {
    period: 1,
    horizon: 1,
    stride: 1,
    limit: 0,
};

/// Returns the plan of the first `count` soups of the empty seed and those of the list `also`, in Life, under the
/// profile `SMALL`.
pub(crate) fn plan_of(count: u64, also: &str) -> Plan<'_>
    ensures { AreInRange result.profile }
{
    let set = SoupSet {
        seed: Text::new(""),
        first: 0,
        count,
        also: Text::new(also),
    };
    Plan {
        set,
        profile: SMALL,
        rule: Text::new("b3s23"),
    }
}

/// Returns the haul text for the plan of the first `count` soups, if `soups` of them were taken and none of these
/// settled. In each of the soups 0 to 7 of the empty seed, a live cell dies in the first generation, so none of these
/// eight soups is a still life.
fn haul_text(alloc: Global, count: u64, soups: u64) -> Result<String, OutOfMemory> {
    let text = format!(in alloc;
        "@VERSION 2\n@ROOT seed=\n@RULE b3s23\n@SYMMETRY C1\n@PROFILE 1 1 1 0\n@RANGE 0 {count}\n\
        @NUM_SOUPS {soups}\n@NUM_UNSETTLED {soups}\n@NUM_FOR_GOOD 0\n@NUM_OBJECTS 0\n\n\
        @CENSUS TABLE\n\n@SAMPLE_SOUPIDS\n"
    )?;
    Ok(text)
}

impl Left {
    /// Checks whether the command ended with this status, the haul text of `soups` taken soups out of `count`, and
    /// these bytes on standard error.
    pub(crate) fn has_printed(
        &self,
        alloc: Global,
        status: Status,
        count: u64,
        soups: u64,
        errors: &[u8],
    ) -> bool {
        match haul_text(alloc, count, soups) {
            Ok(text) => self.is(status, text.as_bytes(), errors),
            Err(_) => false,
        }
    }
}

/// Returns a machine with `errors` as standard error, and with this observer of the progress.
pub(crate) fn machine_of<R: AllocGlobal, H>(
    rt: &R,
    errors: FaultyWriter,
    observer: H,
) -> Machine<'_, R, FaultyWriter, H>
    ensures { result.errors.failed ≡ false }
{
    Machine {
        alloc: rt.alloc(),
        threads: rt,
        errors: Out::new(errors),
        observer,
    }
}
