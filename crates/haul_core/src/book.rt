//! The book: which reports a haul takes, and the census of the soups that it has taken.
//!
//! ```text
//! reports ── offer ──> haul ── census ──> census ── write_haul ──> haul text
//!              │         │
//!         or refused     ├─ taken    1 5 | 2 4 | 1 6      worker 1 reported soup 5, then worker 2 soup 4, ..
//!                        └─ scores   xs4_33 9 | xp2_7 5   the total of each code; its samples aren't shown here
//! ```
//!
//! A soup is taken at most once. A later report on it is refused as a double. A haul keeps no reports. It stores its
//! ranges, the worker and the number of each report taken, and a score for each code that was found.

/// What arrives at a haul, and the replies.
pub mod arrival;
/// The census of the soups that were taken.
pub mod census;
/// The rows of a census.
pub mod census_rows;
/// A haul: which soups of a job have been taken.
pub mod haul;
/// The text of a census.
pub mod haul_text;
/// Passing a list of arrivals to a haul.
pub mod keep;
mod missing;
/// Why a report is refused.
pub mod refused;
/// The samples of a code: the three lowest numbers of soups that left an object with it.
pub mod samples;
mod scores;
