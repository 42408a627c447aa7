//! The rows of a census: for each code, how many objects have it, and its sample soups.

ghost use Rattle.std.specs.Prelude.{◌≡◌, ◌<◌, ◌^◌, ℕ, List, IfOk, OnOk, map, sum_by};
ghost use Rattle.std.specs.BTreeMap.{IsOrdered};
ghost use Rattle.std.specs.Cmp.Lexicographic.{slice_cmp};
ghost use Rattle.std.specs.Map.{lookup};
ghost use Rattle.std.specs.Ordering.{nat_cmp};
ghost use Rattle.survey_core.specs.shapes.Objects.{is_code};
ghost use Rattle.haul_core.specs.Rows.{AreInOrder};
ghost use Rattle.haul_core.specs.RowSteps.{AreRowsFrom, row_from, with_objects};
ghost use Rattle.haul_core.specs.Scores.{found_score};

use crate::book::samples::Samples;
use crate::book::scores::Score;
use code_core::apgcode::Apgcode;
use indexmap::IndexMap;
use memory::OutOfMemory;
use std::alloc::Global;
use std::collections::BTreeMap;
use std::marker::Model;

/// The row of a code in a census.
#[derive(Debug, Drop)]
pub struct Row {
    pub code: Apgcode,
    /// The number of objects that have the code, at least 1.
    pub total: u128,
    /// The three lowest numbers (or all) of soups that left an object with the code, ascending.
    pub samples: Samples,
}

/// The rows of a census, in ASCII order of their codes, each code once.
#[derive(Debug, Drop)]
pub struct Rows {
    rows: Vec<Row>,
}

impl Model for Rows {
    ghost use Rattle.std.specs.Prelude.{List};
    ghost use Rattle.haul_core.specs.Rows.{AreInOrder};
    ghost use Rattle.haul_core.specs.declared.book.census_rows.Row.{Row as CensusRow};

    ghost Value = { List CensusRow };

    ghost view = { λ r. r.rows.items };

    ghost invariant = { λ r. AreInOrder r.rows.items };
}

impl Rows {
    /// Returns the rows, in ASCII order of their codes.
    pub fn as_slice(&self) -> &[Row]
        ensures rows { result.now ≡ self.now }
        ensures in_order { AreInOrder self.now }
    {
        self.rows.as_slice()
    }

    /// Returns a row for each code with a total of at least 1.
    pub(crate) fn of_scores(
        alloc: Global,
        scores: &IndexMap<Apgcode, Score>,
    ) -> Result<Rows, OutOfMemory>
        ensures { IfOk result (λ rows. AreRowsFrom scores.now.entries rows) }
    {
        let kept = with_objects(alloc, scores)?;
        let rows = listed(alloc, kept)?;
        Ok(Rows { rows })
    }
}

/// Returns the scores with a total of at least 1, in order of code.
fn with_objects(
    alloc: Global,
    scores: &IndexMap<Apgcode, Score>,
) -> Result<BTreeMap<Apgcode, Score>, OutOfMemory>
    ensures { IfOk result (λ kept. (code : List ℕ)
        → lookup (is_code code) kept.entries ≡ with_objects (found_score scores.now.entries code)) }
{
    let mut kept = BTreeMap::new(alloc);
    for index in 0..scores.len() {
        if let Some((code, score)) = scores.get_index(index) {
            if score.total > 0 {
                let code = code.copy(alloc)?;
                kept.insert(code, score.copy())?;
            }
        }
    }
    Ok(kept)
}

/// Returns the scores as rows.
fn listed(alloc: Global, scores: BTreeMap<Apgcode, Score>) -> Result<Vec<Row>, OutOfMemory>
    ensures rows { IfOk result (λ rows. rows.items
        ≡ map (λ entry. row_from entry.0 entry.1) scores.entries) }
    ensures ordered { OnOk result (IsOrdered (slice_cmp nat_cmp) scores) }
{
    let mut rows = Vec::with_capacity(alloc, scores.len())?;
    for (code, score) in scores {
        let Score { total, samples } = score;
        rows.push(Row {
            code,
            total,
            samples,
        })?;
    }
    Ok(rows)
}

/// Returns the sum of the totals of all rows.
pub(crate) fn sum_of_totals(rows: &[Row]) -> u128
    requires { sum_by (λ row. row.total) rows.now < 2 ^ 128 }
    ensures { result ≡ sum_by (λ row. row.total) rows.now }
{
    let mut sum = 0;
    for row in rows {
        sum += row.total;
    }
    sum
}
