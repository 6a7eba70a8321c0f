// The sheet of a fit, kind 5.
#![tactic(auto)]

ghost use Rattle.std.specs.Prelude.{◌≡◌, ◌≤◌, ◌++◌, length, drop, Ok};
ghost use Rattle.numbers.specs.Slice.{words_of};
ghost use Rattle.lists.specs.Build.{over};
ghost use Rattle.refusal.specs.Verdicts.{good};
ghost use Rattle.model_words.specs.Words.{model_numbers};
ghost use Rattle.descent.specs.Fit.{fitted, fit_of};
ghost use Rattle.parameters.specs.Parameters.{request_verdict};
ghost use Rattle.fit.specs.Outcome.{job_of, fitted_of};
ghost use Rattle.outcome.specs.Outcome.{Gives};
ghost use Rattle.fit_sheets.specs.Sheets.{fit_numbers, fit_words, FitRequest, outcome_sheet, fit_sheet};

use card_parts::{Card, GstRecords};
use fit::Shown;
use outcome::Answer;
use refusal::Refusal;

// The six numbers before the model.
fn put_numbers(f: Shown, res: &mut [u64])
    requires { 6 ≤ length res.old }
    ensures { res.new ≡ words_of 6 (fit_numbers f.initial f.final_fit f.objective f.norm) ++ drop 6 res.old }
{
    let start = f.initial;
    let end = f.final_fit;
    let six = [
        start.log_likelihood,
        start.deviance,
        end.log_likelihood,
        end.deviance,
        f.objective,
        f.norm,
    ];
    numbers::emit(&six, 6, res);
}

// All words of a fit's sheet.
fn put_words(card: &Card<'_>, f: Shown, model: &[f64], res: &mut [u64])
    requires { (length model.now ≡ model_numbers card.now.header) × (4096 ≤ length res.old) }
    ensures { res.new ≡ over (fit_words card.now.bytes.now card.now.header (fitted_of f model.now)) res.old }
{
    put_numbers(f, res);
    model_words::put(card, model, &mut res[6..]);
}

// The sheet of a fit that has left its model's numbers in `model`.
fn show_fit(card: &Card<'_>, f: Shown, model: &[f64], res: &mut [u64]) -> Answer
    requires { (length model.now ≡ model_numbers card.now.header) × (4096 ≤ length res.old) }
    ensures { Gives (outcome_sheet card.now.bytes.now card.now.header (fitted (fitted_of f model.now))) res.old res.new (Ok result) }
{
    put_words(card, f, model, res);
    Answer::Fit {
        stop: f.stop.number(),
        steps: f.steps,
        evaluations: f.evaluations,
        converged: f.stop.has_converged(),
        words: card.layout().model_words() as u64,
    }
}

// The fit of a card whose model and request are good.
fn run_fit(records: &GstRecords<'_>, res: &mut [u64]) -> Result<Answer, Refusal>
    requires { FitRequest records.now.card.bytes.now records.now.card.header × (request_verdict records.now.card.bytes.now records.now.card.header ≡ good) × (4096 ≤ length res.old) }
    ensures { Gives (outcome_sheet records.now.card.bytes.now records.now.card.header (fit_of (job_of records.now.card.bytes.now records.now.card.header))) res.old res.new result }
{
    let n = model_words::model_numbers(records.card.header);
    let mut model = [0.0; 2320];
    let mut columns = [0.0; 2048];
    let f = fit::reconstruct_gate_set(records, &mut model, &mut columns)?;
    Ok(show_fit(&records.card, f, &model[..n], res))
}

// Kind 5. The model is tested before what is asked of the fit.
pub fn fit_sheet(records: &GstRecords<'_>, res: &mut [u64]) -> Result<Answer, Refusal>
    requires { FitRequest records.now.card.bytes.now records.now.card.header × (4096 ≤ length res.old) }
    ensures { Gives (fit_sheet records.now.card.bytes.now records.now.card.header) res.old res.new result }
{
    model::check(&records.card)?;
    parameters::check_request(&records.card)?;
    run_fit(records, res)
}
