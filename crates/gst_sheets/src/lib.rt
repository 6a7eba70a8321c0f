// The sheet of a gate set with its records, kind 7.
#![tactic(auto)]

ghost use Rattle.std.specs.Prelude.{◌≡◌, ◌≤◌, length, true};
ghost use Rattle.model_words.specs.Words.{numbers_of};
ghost use Rattle.diagnostics.specs.Diagnostics.{likelihood_of};
ghost use Rattle.outcome.specs.Outcome.{Gives};
ghost use Rattle.gst_sheets.specs.Sheets.{tolerance_sheet, diagnostics_sheet};

use card_parts::GstRecords;
use likelihood::{Diagnostics, Unfit};
use numbers::word_of;
use outcome::Answer;
use refusal::Refusal;

// The diagnostics of the card's own model.
fn diagnose(records: &GstRecords<'_>, tolerance: f64) -> Result<Diagnostics, Unfit>
    requires { 5 ≤ records.now.card.header.kind }
    ensures { result ≡ likelihood_of true tolerance records.now.card.bytes.now records.now.card.header (numbers_of records.now.card.bytes.now records.now.card.header) }
{
    let n = model_words::model_numbers(records.card.header);
    let mut model = [0.0; 2320];
    let mut columns = [0.0; 2048];
    model_words::load(&records.card, &mut model[..n]);
    diagnostics::fit_diagnostics(records, &model[..n], true, tolerance, &mut columns)
}

#[tactic(auto, using(outcome::proofs::Outcomes::stays, outcome::proofs::Outcomes::same_outcome), unfolding(crate::specs::Sheets::tolerance_sheet, refusal::specs::Verdicts::tolerance_of))]
fn tolerance_sheet(
    records: &GstRecords<'_>,
    tolerance: f64,
    res: &mut [u64],
) -> Result<Answer, Refusal>
    requires { (5 ≤ records.now.card.header.kind) × (2 ≤ length res.old) }
    ensures { Gives (tolerance_sheet records.now.card.bytes.now records.now.card.header tolerance) res.old res.new result }
{
    refusal::check_tolerance(tolerance)?;
    let d = diagnose(records, tolerance)?;
    res[..2].copy_from_slice(&[word_of(d.log_likelihood), word_of(d.deviance)]);
    Ok(Answer::Diagnostics)
}

// Kind 7.
#[tactic(auto, using(crate::proofs::Shown::tolerance_inside, outcome::proofs::Outcomes::stays, outcome::proofs::Outcomes::same_outcome), unfolding(crate::specs::Sheets::diagnostics_sheet, model::specs::Checked::checked_of))]
pub fn diagnostics_sheet(records: &GstRecords<'_>, res: &mut [u64]) -> Result<Answer, Refusal>
    requires { (records.now.card.header.kind ≡ 7) × (4096 ≤ length res.old) }
    ensures { Gives (diagnostics_sheet records.now.card.bytes.now records.now.card.header) res.old res.new result }
{
    model::check(&records.card)?;
    let tolerance = numbers::number_of(numbers::word_at(records.card.bytes, 1));
    tolerance_sheet(records, tolerance, res)
}
