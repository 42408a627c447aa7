//! A soup is a square of 16 by 16 cells, made from a digest of 32 bytes. Each row is two bytes, and the most
//! significant bit of a byte is its leftmost cell:
//!
//! ```text
//!            byte 2y            byte 2y + 1
//! row y      0 1 0 1 1 1 1 1    1 1 1 0 1 0 0 1
//!            . O . O O O O O    O O O . O . . O
//! ```
//!
//! So the cell at place i of the square, counted row by row, is bit 7 - i mod 8 of byte i div 8.

ghost use Rattle.std.specs.Prelude.{◌≡◌, ◌<◌, All, IfOk};
ghost use Rattle.plane_core.specs.plane.Bounds.{IsWithin};
ghost use Rattle.survey_core.specs.Soups.{SoupsByCells, is_alive_at, soup, soup_of, square};
ghost use Rattle.survey_core.specs.Soups.{square_cell};

use crate::far_from_edge::pattern_of;
use crate::job::Job;
use itoa::Buffer;
use memory::OutOfMemory;
use plane_core::plane::cell::Cell;
use plane_core::plane::pattern::Pattern;
use sha2::{Digest, Sha256};
use std::alloc::Global;

/// Returns soup `number` as a square of 16 by 16 cells: the 256 bits of the SHA-256 digest of a text, which is the
/// job's seed followed by the number in decimal. The job's profile and rule don't matter.
///
/// # Errors
///
/// [`OutOfMemory`] if memory runs out.
pub fn soup(alloc: Global, job: &Job, number: u64) -> Result<Pattern, OutOfMemory>
    ensures soup { IfOk result (λ pattern. pattern ≡ soup job.now.seed number) }
    ensures small { IfOk result (All (IsWithin square)) }
{
    let mut buffer = Buffer::new();
    let mut hasher = Sha256::new();
    hasher.update(job.seed.bytes());
    hasher.update(buffer.format(number).as_bytes());
    soup_of_digest(alloc, &hasher.finalize())
}

/// Returns the soup of a digest: the cell in column x of row y, both 0 to 15, is bit 7 - x mod 8 of byte 2y + x div 8,
/// where bit 7 is the most significant.
///
/// # Errors
///
/// [`OutOfMemory`] if memory runs out.
pub fn soup_of_digest(alloc: Global, digest: &[u8; 32]) -> Result<Pattern, OutOfMemory>
    ensures soup { IfOk result (λ pattern. pattern ≡ soup_of digest.now) }
    ensures small { IfOk result (All (IsWithin square)) }
{
    let mut cells = [square_cell(0); 256];
    let mut count = 0;
    for place in 0..256 {
        // A dead cell is overwritten by the next cell, so that no branch depends on a random bit.
        cells[count] = square_cell(place);
        count += usize::from(is_alive_at(digest, place));
    }
    pattern_of(alloc, &cells[..count])
}

/// The law of all soups, cell by cell: the cell in column x of row y, both 0 to 15, is alive if and only if its bit of
/// the digest is 1.
#[tactic(auto, using(crate::proofs::lemmas::SoupLemmas::soups_by_cells))]
pub fn soups_by_cells()
    ensures { SoupsByCells }
{}

/// Checks whether the cell at this place of the square, 0 to 255, is alive.
#[tactic(auto, unfolding(crate::specs::Soups::is_alive_at))]
fn is_alive_at(digest: &[u8; 32], place: u32) -> bool
    requires { place < 256 }
    ensures { result ≡ is_alive_at digest.now place }
{
    let (x, y) = (place % 16, place / 16);
    let byte = digest[(2 * y + x / 8) as usize];
    (byte >> (7 - x % 8)) % 2 == 1
}

/// Returns the cell at this place of the square, 0 to 255.
fn square_cell(place: u32) -> Cell
    requires { place < 256 }
    ensures { result ≡ square_cell place }
{
    Cell {
        y: (place / 16) as i32,
        x: (place % 16) as i32,
    }
}
