//! Tests of numbers that aren't a profile.
use survey_core::profile::{Profile, ProfileError};

/// Each row has a period, a horizon, a stride and a limit that aren't a profile, and the error. The error is about the
/// first of the four numbers that is out of its range.
const REFUSED: [(u32, u32, u32, u32, ProfileError); 10] = [
    (0, 0, 0, 0, ProfileError::Period),
    (65, 512, 101, 0, ProfileError::Period),
    (2, 1, 1, 0, ProfileError::Horizon),
    (64, 63, 0, 0, ProfileError::Horizon),
    (1, 4_097, 0, 100_001, ProfileError::Horizon),
    (64, 512, 0, 0, ProfileError::Stride),
    (64, 512, 10_001, 100_001, ProfileError::Stride),
    (64, 512, 101, 100_001, ProfileError::Limit),
    (1, 1, 1, 100_001, ProfileError::Limit),
    (64, 4_096, 10_000, u32::MAX, ProfileError::Limit),
];

#[test]
fn refuses_what_is_no_profile(rt: HostRuntime) {
    for (period, horizon, stride, limit, error) in REFUSED {
        let refused = Profile::new(period, horizon, stride, limit).err();
        assert!(rt;
            refused == Some(error),
            "{period}, {horizon}, {stride}, {limit}"
        );
    }
}
