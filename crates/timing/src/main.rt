//! A program that `bench/run` times. It reads a plaintext pattern from standard input. If N is left out, it is 1.
//!
//! - `timing clusters N` finds the pattern's clusters N times, and prints their number.
//! - `timing names N` names the pattern N times, and prints the name.
//! - `timing surveys N` prints how many of the soups 0 to N - 1 settle.
//! - `timing gliders N` prints the population of two gliders, which are far apart, after N generations.
//! - `timing reports N` makes reports of N soups, under a profile that makes surveys cheap, and prints their number.
//! - `timing offers N` offers N such reports to a haul, and then a thousand more. It prints how many reports the haul
//!   has taken, and how many microseconds the offers of the last thousand reports took.
//!
//! Only the first two commands use the pattern, but all commands read it.
#![tactic(auto)]

ghost use Rattle.std.specs.Prelude.{◌≡◌, IfOk, List, length};
ghost use Rattle.plane_core.specs.clusters.Clusters.{AreClusters};
ghost use Rattle.plane_core.specs.declared.plane.cell.Cell.{Cell as Place};

use code_core::apgcode::Apgcode;
use code_core::name::name;
use haul_core::book::haul::{Haul, OpenError};
use haul_core::report::{Report, ReportError};
use memory::OutOfMemory;
use plane_core::clusters::clusters_are_determined;
use plane_core::generation::StepError;
use plane_core::plane::cell::Cell;
use plane_core::plane::pattern::{FromCellsError, Pattern};
use plane_core::plane::rule::Rule;
use ranges::range::Range;
use std::alloc::Global;
use std::env;
use std::io::{self, Read};
use std::time::Instant;
use survey_core::finding::Finding;
use survey_core::job::Job;
use survey_core::profile::Profile;
use survey_core::seed::Seed;
use survey_core::surveyor::Surveyor;

/// Returns the number of clusters of the pattern.
fn cluster_count(alloc: Global, pattern: &Pattern) -> Result<usize, OutOfMemory>
    ensures { IfOk result
        (λ count. (clusters : List (List Place)) → AreClusters pattern.now clusters → count ≡ length clusters) }
{
    // For the prover: a pattern has only one list of clusters, and so only one number of clusters.
    clusters_are_determined();
    let clusters = pattern.clusters(alloc)?;
    Ok(clusters.len())
}

/// Returns the apgcode of the pattern in Life, or `None` if it has no cell or doesn't recur within 64 generations.
fn name_in_life(alloc: Global, pattern: &Pattern) -> Result<Option<Apgcode>, StepError> {
    if pattern.population() == 0 {
        return Ok(None);
    }
    name(alloc, pattern, &Rule::life(), 64)
}

/// Finds the clusters `times` times, and prints their number.
fn find_clusters(rt: &HostRuntime, pattern: &Pattern, times: u32) -> io::Result<()> {
    let mut found = Ok(0);
    for _ in 0..times {
        found = cluster_count(rt.alloc(), pattern);
    }
    match found {
        Ok(count) => println!(rt; "{count}"),
        Err(error) => println!(rt; "{error}"),
    }
}

/// Names the pattern `times` times, and prints the name.
fn find_names(rt: &HostRuntime, pattern: &Pattern, times: u32) -> io::Result<()> {
    let mut found = Ok(None);
    for _ in 0..times {
        found = name_in_life(rt.alloc(), pattern);
    }
    match found {
        Ok(Some(code)) => println!(rt; "{}", code.text()),
        Ok(None) => println!(rt; "no name"),
        Err(error) => println!(rt; "{error}"),
    }
}

/// Returns two gliders that are 100,000 columns apart and fly in the same direction.
fn two_gliders(alloc: Global) -> Result<Pattern, FromCellsError> {
    let mut cells = Vec::new(alloc);
    for left in [0, 100_000] {
        for (x, y) in [(1, 0), (2, 1), (0, 2), (1, 2), (2, 2)] {
            cells.push(Cell { y, x: left + x })?;
        }
    }
    Pattern::from_cells(alloc, cells.as_slice())
}

/// Runs two gliders, which are far apart, for `generations` generations of Life, and prints their population.
fn fly_gliders(rt: &HostRuntime, generations: u32) -> io::Result<()> {
    let Ok(gliders) = two_gliders(rt.alloc()) else {
        return println!(rt; "no gliders");
    };
    match gliders.run(rt.alloc(), &Rule::life(), generations) {
        Ok(later) => println!(rt; "{}", later.population()),
        Err(error) => println!(rt; "{error}"),
    }
}

/// Returns how many of the first `soups` soups of `job` settle.
fn settled_count(alloc: Global, job: &Job, soups: u32) -> Result<usize, OutOfMemory> {
    let mut settled = Vec::new(alloc);
    let mut surveyor = Surveyor::new(alloc);
    for number in 0..soups {
        let finding = surveyor.survey(alloc, job, u64::from(number))?;
        if let Finding::Settled { checkpoint, .. } = finding {
            settled.push(checkpoint)?;
        }
    }
    Ok(settled.len())
}

/// Surveys the first `soups` soups of `seed`, in Life and under the standard profile, and prints how many settle.
fn survey_soups(rt: &HostRuntime, seed: Seed, soups: u32) -> io::Result<()> {
    let job = Job {
        seed,
        profile: Profile::standard(),
        rule: Rule::life(),
    };
    match settled_count(rt.alloc(), &job, soups) {
        Ok(settled) => println!(rt; "{settled}"),
        Err(error) => println!(rt; "{error}"),
    }
}

/// The number of offers that are timed.
const TIMED: u32 = 1000;

/// Returns a job under whose profile a soup is settled only if it is a still life from the start.
fn cheap_job(seed: Seed) -> Option<Job> {
    let profile = Profile::new(1, 1, 1, 0).ok()?;
    Some(Job {
        seed,
        profile,
        rule: Rule::life(),
    })
}

/// Returns the reports of worker 1 on the soups `from` to `to` - 1.
fn reports(alloc: Global, job: &Job, from: u32, to: u32) -> Result<Vec<Report>, OutOfMemory> {
    let mut reports = Vec::new(alloc);
    for number in from..to {
        let report = match Report::make(alloc, job, 1, u64::from(number)) {
            Ok(report) => report,
            Err(ReportError::Memory(error)) => return Err(error),
            // The workers are numbered from 1 to 16, so 1 is a worker.
            Err(ReportError::BadWorker) => unreachable!(),
        };
        reports.push(report)?;
    }
    Ok(reports)
}

/// Opens a haul of the first `soups` soups, for one worker.
fn open_haul(alloc: Global, job: Job, soups: u32) -> Result<Haul, OpenError> {
    let range = Range {
        first: 0,
        count: u64::from(soups),
    };
    Haul::open(alloc, job, &[range], 1)
}

/// Offers the reports one after another.
fn offer_each(haul: &mut Haul, reports: Vec<Report>) {
    for report in reports {
        // The reply isn't needed: `Haul::taken` has the reports that weren't refused.
        let _ = haul.offer(report);
    }
}

/// Makes `count` reports, and prints their number.
fn make_reports(rt: &HostRuntime, job: &Job, count: u32) -> io::Result<()> {
    match reports(rt.alloc(), job, 0, count) {
        Ok(reports) => println!(rt; "{}", reports.len()),
        Err(error) => println!(rt; "{error}"),
    }
}

/// Offers `count` reports to a haul, and then `TIMED` more. Prints how many reports the haul has taken, and how many
/// microseconds the offers of the last `TIMED` reports took.
fn offer_reports(rt: &HostRuntime, job: Job, count: u32) -> io::Result<()> {
    let all = count.saturating_add(TIMED);
    let Ok(first) = reports(rt.alloc(), &job, 0, count) else {
        return println!(rt; "no reports");
    };
    let Ok(more) = reports(rt.alloc(), &job, count, all) else {
        return println!(rt; "no reports");
    };
    let Ok(mut haul) = open_haul(rt.alloc(), job, all) else {
        return println!(rt; "no haul");
    };
    offer_each(&mut haul, first);
    let start = Instant::now(rt)?;
    offer_each(&mut haul, more);
    let taken = start.elapsed(rt)?;
    println!(rt; "{} {}", haul.taken().len(), taken.as_micros())
}

/// Runs the command `timing offers` if `offered`, and otherwise `timing reports`. N is `count`.
fn time_reports(rt: &HostRuntime, offered: bool, count: u32) -> io::Result<()> {
    let job = Seed::new("").ok().and_then(cheap_job);
    match job {
        None => println!(rt; "no job"),
        Some(job) if offered => offer_reports(rt, job, count),
        Some(job) => make_reports(rt, &job, count),
    }
}

fn main(rt: HostRuntime) -> io::Result<()> {
    let alloc = rt.alloc();
    let words: Vec<String> = env::args(&rt)?.collect(alloc)?;
    let mut input = Vec::new(alloc);
    rt.stdin().read_to_end(&mut input)?;
    let Ok(pattern) = Pattern::read_plaintext(alloc, input.as_slice()) else {
        return println!(rt; "no pattern");
    };
    let times = words.get(2).and_then(|word| word.as_str().parse().ok());
    let times = times.unwrap_or(1);
    match words.get(1).map(|word| word.as_str()) {
        Some("gliders") => fly_gliders(&rt, times),
        Some("names") => find_names(&rt, &pattern, times),
        Some("offers") => time_reports(&rt, true, times),
        Some("reports") => time_reports(&rt, false, times),
        Some("surveys") => match Seed::new("") {
            Ok(seed) => survey_soups(&rt, seed, times),
            Err(error) => println!(rt; "{error}"),
        },
        _ => find_clusters(&rt, &pattern, times),
    }
}
