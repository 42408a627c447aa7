//! `show`: the object of a code, as plaintext or as coordinates.
//!
//! ```text
//! xp2_7 ── cut at the first _ ──┬─ xp2    a kind and a number, or the code is refused
//!                               └─ 7 ── read_wechsler ── pattern ── text
//! ```

ghost use Rattle.std.specs.Prelude.{◌≡◌, ℕ, List, Option, Some, IfErr, IfOk, false, option_map};
ghost use Rattle.std.specs.Char.{is_ascii_digit};
ghost use Rattle.std.specs.List.{list_all};
ghost use Rattle.pattern_commands.specs.Answers.{only};
ghost use Rattle.pattern_commands.specs.Ends.{Ends};
ghost use Rattle.pattern_commands.specs.Found.{Finds, answer_with};
ghost use Rattle.pattern_commands.specs.PatternText.{pattern_text};
ghost use Rattle.pattern_commands.specs.Show.{is_kind, is_number, is_prefix, parted, show_answer, show_behaviour, text_in};
ghost use Rattle.pattern_commands.specs.Streams.{stream};
ghost use Rattle.requests.specs.declared.form.PatternForm.{PatternForm as Form};

use crate::ending::complaint::Complaint;
use crate::ending::refusal::Refusal;
use crate::ending::status::Status;
use crate::pattern_text::end_with_pattern;
use code_core::reader::read_wechsler;
use plane_core::output::Out;
use plane_core::plane::pattern::Pattern;
use requests::form::PatternForm;
use std::alloc::Global;
use std::io::Write;

/// Writes the object that `code` describes, in the given form. The origin of the coordinates is the top left cell of
/// the first strip. A strip is five rows of the pattern.
///
/// A code is a text in extended Wechsler format. A prefix and a `_` may precede the text. A prefix is `xs`, `xp` or
/// `xq`, followed by a number. The number isn't compared with the object. No earlier write to either writer may have
/// failed. `census show CODE` is this call with the standard streams.
///
/// # Errors
///
/// The status is `Refused` if the code has a `_` and the part before the first `_` isn't a prefix, or if the text has
/// more than 10,000 bytes, isn't in extended Wechsler format or has no live cell; `Memory` if memory runs out; and
/// `Failed` if the output can't be written. In these cases, a line is written to `errors`. A failure to write that line
/// is not reported.
pub fn do_show<W: Write, E: Write>(
    alloc: Global,
    code: &str,
    form: PatternForm,
    output: &mut Out<W>,
    errors: &mut Out<E>,
) -> Status
    requires output { output.old.failed ≡ false }
    requires errors { errors.old.failed ≡ false }
    ensures ends { (reader : Option (List ℕ)) (bytes : List ℕ) → Ends (show_behaviour form code.now) reader bytes result
        (stream W.contents output.old output.new) (stream E.contents errors.old errors.new) }
    ensures untouched { result ≡ Status.Refused → output.new ≡ output.old }
    ensures no_memory { result ≡ Status.Memory → output.new ≡ output.old }
{
    let found = pattern_of_code(alloc, code);
    end_with_pattern(found, form, output, errors)
}

/// Returns the pattern of a code.
fn pattern_of_code(alloc: Global, code: &str) -> Result<Pattern, Complaint>
    ensures { (form : Form) → Finds false
        (λ found. only (show_answer form code.now) (answer_with (pattern_text form) found)) result }
{
    let text = text_in(code)?;
    Ok(read_wechsler(alloc, text)?)
}

/// Returns the text of a code, without its prefix.
fn text_in(code: &str) -> Result<&str, Complaint>
    ensures ok { IfOk result (λ text. text_in code.now ≡ Ok text.now) }
    ensures err { IfErr result (λ complaint. text_in code.now ≡ Err complaint) }
{
    let Some((prefix, text)) = parted(code) else {
        return Ok(code);
    };
    if is_prefix(prefix.as_bytes()) {
        Ok(text)
    } else {
        Err(Complaint::Refused(Refusal::NotACode))
    }
}

/// Returns the parts of a code before and after its first `_`, or `None` if it has no `_`.
fn parted(code: &str) -> Option<(&str, &str)>
    ensures { option_map (λ parts. (parts.0.now, parts.1.now)) result ≡ parted code.now }
{
    code.split_once('_')
}

/// Checks whether this part of a code may precede its first `_`: `xs`, `xp` or `xq`, and a number.
#[tactic(auto, unfolding(crate::specs::Show::is_prefix))]
fn is_prefix(prefix: &[u8]) -> bool
    ensures { result ≡ is_prefix prefix.now }
{
    match prefix {
        [x, kind, number @ ..] => *x == b'x' && is_kind(*kind) && is_number(number),
        _ => false,
    }
}

/// Checks whether this is the letter of a kind: `s`, `p` or `q`.
fn is_kind(byte: u8) -> bool
    ensures { result ≡ is_kind byte }
{
    matches!(byte, b's' | b'p' | b'q')
}

/// Checks whether these bytes are a number: only digits, and at least one.
fn is_number(bytes: &[u8]) -> bool
    ensures { result ≡ is_number bytes.now }
{
    !bytes.is_empty() && are_digits(bytes)
}

/// Checks whether these bytes are only digits.
fn are_digits(bytes: &[u8]) -> bool
    ensures { result ≡ list_all is_ascii_digit bytes.now }
{
    bytes.iter().all(|byte| byte.is_ascii_digit())
}
