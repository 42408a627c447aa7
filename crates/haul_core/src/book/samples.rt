//! The samples of a code: the three lowest numbers of soups that left an object with this code.
//!
//! ```text
//! 5 12 40   and then 7     7 goes before 12, and 40 falls out
//! 5 7 12
//! ```

ghost use Rattle.std.specs.Prelude.{◌≡◌, ◌≤◌, ◌++◌, ◌∷◌, [], take};
ghost use Rattle.haul_core.specs.SampleSteps.{with_each, with_number};
ghost use Rattle.haul_core.specs.Samples.{IsAscending, LeastThreeAreDetermined};

use std::marker::Model;

/// The most samples that a code may have. With three, a user can look at more than one soup.
pub const MOST_SAMPLES: usize = 3;

/// The samples of a code: the three lowest numbers of soups that left an object with it, ascending, or all numbers if
/// there are fewer.
#[derive(Debug, Drop)]
pub struct Samples {
    numbers: [u64; MOST_SAMPLES],
    count: usize,
}

impl Model for Samples {
    ghost use Rattle.std.specs.Prelude.{◌≤◌, ℕ, List, take};
    ghost use Rattle.haul_core.specs.Samples.{IsAscending};

    ghost Value = { List ℕ };

    ghost view = { λ s. take s.count s.numbers };

    ghost invariant = { λ s. (s.count ≤ 3) × IsAscending (take s.count s.numbers) };
}

impl Samples {
    /// Returns the numbers, ascending.
    pub fn as_slice(&self) -> &[u64]
        ensures samples { result.now ≡ self.now }
        ensures ascending { IsAscending self.now }
    {
        let Samples { numbers, count } = self;
        &numbers[..*count]
    }

    /// Returns an empty list of samples.
    pub(crate) fn none() -> Samples
        ensures { result ≡ [] }
    {
        Samples {
            numbers: [0; MOST_SAMPLES],
            count: 0,
        }
    }

    /// Returns a copy of the samples.
    pub(crate) fn copy(&self) -> Samples
        ensures { result ≡ self.now }
    {
        let Samples { numbers, count } = self;
        Samples {
            numbers: *numbers,
            count: *count,
        }
    }

    /// Returns the three lowest among these numbers and the numbers of the other samples.
    pub(crate) fn with_all(&self, other: &Samples) -> Samples
        ensures { result ≡ with_each self.now other.now }
    {
        let mut least = self.copy();
        for number in other.as_slice() {
            least = least.with_number(*number);
        }
        least
    }

    /// Returns the three lowest of these numbers and `number`. The number is inserted in order. If that makes four
    /// numbers, the highest is dropped.
    pub(crate) fn with_number(&self, number: u64) -> Samples
        ensures { result ≡ take 3 (with_number number self.now) }
    {
        let Samples { numbers, count } = self;
        let mut numbers = *numbers;
        let left = put(&mut numbers, *count, number);
        if *count == MOST_SAMPLES {
            return Samples {
                numbers,
                count: MOST_SAMPLES,
            };
        }
        numbers[*count] = left;
        Samples {
            numbers,
            count: *count + 1,
        }
    }
}

/// The law that a list of numbers has only one list of its three lowest numbers.
pub fn least_three_are_determined()
    ensures { LeastThreeAreDetermined }
{}

/// Inserts a number into the first `count` numbers of the array, which stay ascending. Returns the highest of these
/// `count` + 1 numbers, for which there is no room among the first `count`.
fn put(numbers: &mut [u64; MOST_SAMPLES], count: usize, number: u64) -> u64
    requires few { count ≤ 3 }
    requires ascending { IsAscending (take count numbers.old) }
    ensures { take count numbers.new ++ result ∷ [] ≡ with_number number (take count numbers.old) }
{
    let mut left = number;
    for place in 0..count {
        let kept = numbers[place];
        if left <= kept {
            numbers[place] = left;
            left = kept;
        }
    }
    left
}
