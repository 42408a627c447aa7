//! `soup`: a random soup, as plaintext or as coordinates.

ghost use Rattle.std.specs.Prelude.{◌≡◌, ◌<◌, ◌^◌, ℕ, List, Option, false};
ghost use Rattle.pattern_commands.specs.Answers.{only};
ghost use Rattle.pattern_commands.specs.Ends.{Ends};
ghost use Rattle.pattern_commands.specs.Found.{Finds, answer_with};
ghost use Rattle.pattern_commands.specs.PatternText.{pattern_text};
ghost use Rattle.pattern_commands.specs.Soup.{soup_answer, soup_behaviour};
ghost use Rattle.pattern_commands.specs.Streams.{stream};
ghost use Rattle.requests.specs.declared.form.PatternForm.{PatternForm as Form};

use crate::ending::complaint::Complaint;
use crate::ending::status::Status;
use crate::pattern_text::end_with_pattern;
use plane_core::output::Out;
use plane_core::plane::pattern::Pattern;
use plane_core::plane::rule::Rule;
use requests::form::PatternForm;
use std::alloc::Global;
use std::io::Write;
use survey_core::job::Job;
use survey_core::profile::Profile;
use survey_core::seed::Seed;
use survey_core::soup::soup;

/// Writes soup `number` of a seed in the given form. The number has to be below 2^40. The soup's coordinates are from 0
/// to 15.
///
/// The cells are the 256 bits of the SHA-256 digest of a text: the seed's bytes followed by the number in decimal. No
/// earlier write to either writer may have failed. `census soup [--seed SEED] N` is this call with the standard
/// streams.
///
/// # Errors
///
/// The status is `Refused` if `seed_text` isn't a seed, `Memory` if memory runs out, and `Failed` if the output can't
/// be written. In these cases, a line is written to `errors`. A failure to write that line is not reported.
pub fn do_soup<W: Write, E: Write>(
    alloc: Global,
    seed_text: &str,
    number: u64,
    form: PatternForm,
    output: &mut Out<W>,
    errors: &mut Out<E>,
) -> Status
    requires number { number < 2 ^ 40 }
    requires output { output.old.failed ≡ false }
    requires errors { errors.old.failed ≡ false }
    ensures ends { (reader : Option (List ℕ)) (bytes : List ℕ)
        → Ends (soup_behaviour form seed_text.now number) reader bytes result
        (stream W.contents output.old output.new) (stream E.contents errors.old errors.new) }
    ensures untouched { result ≡ Status.Refused → output.new ≡ output.old }
    ensures no_memory { result ≡ Status.Memory → output.new ≡ output.old }
{
    let found = soup_named(alloc, seed_text, number);
    end_with_pattern(found, form, output, errors)
}

/// Returns soup `number` of the seed with this text.
fn soup_named(alloc: Global, seed_text: &str, number: u64) -> Result<Pattern, Complaint>
    ensures { (form : Form) → Finds false
        (λ found. only (soup_answer form seed_text.now number) (answer_with (pattern_text form) found)) result }
{
    let seed = Seed::new(seed_text)?;
    // The soup's cells don't depend on the profile or the rule.
    let job = Job {
        seed,
        profile: Profile::standard(),
        rule: Rule::life(),
    };
    Ok(soup(alloc, &job, number)?)
}
