//! Finishes a haul: closes it, prints its haul text, and counts the missing soups.

ghost use Rattle.std.specs.Prelude.{◌≡◌, ◌≢◌, ◌↔◌, ◌++◌, ◌∷◌, ℕ, [], Err, IfErr, IfOk, List, false, length};
ghost use Rattle.std.specs.Result.{result_map_both};
ghost use Rattle.memory.specs.Witness.{out_of_memory};
ghost use Rattle.plane_core.specs.Outputs.{Writes};
ghost use Rattle.haul_core.specs.Books.{StandsFor};
ghost use Rattle.haul_core.specs.HaulTexts.{haul_text};
ghost use Rattle.haul_core.specs.Missing.{IsComplete, missing_of};
ghost use Rattle.haul_core.specs.declared.book.arrival.Arrival.{Arrival};
ghost use Rattle.haul_core.specs.declared.book.arrival.Arrival.TheVariants as arrival;
ghost use Rattle.pattern_commands.specs.Complaints.{status_of};
ghost use Rattle.commands.specs.Finish.{Finishes};
ghost use Rattle.pattern_commands.specs.Streams.{Has, stream};

use haul_core::book::census::Census;
use haul_core::book::haul::Haul;
use haul_core::book::haul_text::write_haul;
use pattern_commands::ending::complaint::Complaint;
use pattern_commands::ending::status::Status;
use plane_core::output::{Out, WriteError};
use std::io::Write;

/// Closes a haul, writes its haul text, and returns how many soups are missing.
pub(crate) fn finish<W: Write>(haul: &mut Haul, output: &mut Out<W>) -> Result<u64, Complaint>
    requires { output.old.failed ≡ false }
    ensures finishes { Finishes haul.old result (stream W.contents output.old output.new) }
    ensures none { (length (missing_of haul.old.terms.ranges haul.old.taken) ≡ 0)
        ↔ IsComplete haul.old.terms.ranges haul.old.taken }
    ensures stands { (arrivals : List Arrival) → StandsFor arrivals haul.old
        → StandsFor (arrivals ++ arrival.Closing ∷ []) haul.new }
    ensures taken { haul.new.taken ≡ haul.old.taken }
    ensures terms { haul.new.terms ≡ haul.old.terms }
    ensures accepted { IfErr result (λ complaint. status_of complaint ≢ Status.Refused) }
    ensures no_memory { IfErr result (λ complaint. complaint ≡ Complaint.Memory out_of_memory
        → output.new ≡ output.old) }
{
    let missing = haul.missing_count();
    let _ = haul.close();
    match put_haul_text(haul, output) {
        Ok(()) => Ok(missing),
        Err(complaint) => Err(complaint),
    }
}

/// Writes the haul text of a haul.
fn put_haul_text<W: Write>(haul: &Haul, output: &mut Out<W>) -> Result<(), Complaint>
    requires { output.old.failed ≡ false }
    ensures prints { (missing : ℕ) → missing ≡ length (missing_of haul.now.terms.ranges haul.now.taken)
        → Finishes haul.now (result_map_both (λ _. missing) (λ complaint. complaint) result)
        (stream W.contents output.old output.new) }
    ensures no_memory { IfErr result (λ complaint. complaint ≡ Complaint.Memory out_of_memory
        → output.new ≡ output.old) }
{
    let census = haul.census()?;
    put_census(&census, output)?;
    Ok(())
}

/// Writes the haul text of a census, and flushes it.
fn put_census<W: Write>(census: &Census, output: &mut Out<W>) -> Result<(), WriteError>
    requires { output.old.failed ≡ false }
    ensures { Writes W.contents output.old output.new result (haul_text census.now) }
{
    write_haul(census, output)?;
    // Flushed before the line about missing soups is written, so that a reader of that line knows that the text was
    // printed.
    output.flush()
}

/// Finishes a haul if `taken` is `Ok`. Otherwise returns the complaint in `taken`, which must not be a refusal, and
/// prints nothing. This is a function of its own because its callers own the haul, and each further exit of a function
/// that owns the haul is expensive to prove.
pub(crate) fn finish_unless<W: Write>(
    taken: Result<(), Complaint>,
    haul: &mut Haul,
    output: &mut Out<W>,
) -> Result<u64, Complaint>
    requires output { output.old.failed ≡ false }
    requires stops { IfErr taken (λ complaint. status_of complaint ≢ Status.Refused) }
    ensures finishes { IfOk taken (λ _. Finishes haul.old result (stream W.contents output.old output.new)) }
    ensures none { IfOk taken (λ _. (length (missing_of haul.old.terms.ranges haul.old.taken) ≡ 0)
        ↔ IsComplete haul.old.terms.ranges haul.old.taken) }
    ensures gives_up { IfErr taken (λ complaint. (result ≡ Err complaint)
        × Has (stream W.contents output.old output.new) []) }
    ensures accepted { IfErr result (λ complaint. status_of complaint ≢ Status.Refused) }
    ensures no_memory { IfErr result (λ complaint. complaint ≡ Complaint.Memory out_of_memory
        → output.new ≡ output.old) }
{
    match taken {
        Ok(()) => finish(haul, output),
        Err(complaint) => Err(complaint),
    }
}
