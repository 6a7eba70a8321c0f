// Coordinates evaluated, and the gradient of the objective by finite differences.
#![tactic(auto)]

ghost use Rattle.std.specs.Prelude.{◌≡◌, ◌≤◌, ◌<◌, [], ◌∷◌, false, length, take};
ghost use Rattle.model_words.specs.Words.{model_numbers};
ghost use Rattle.diagnostics.specs.Diagnostics.{likelihood_of};
ghost use Rattle.descent.specs.Fit as spec;
ghost use Rattle.objective.specs.Job.{slopes_of};
ghost use Rattle.objective.specs.Tasks.{job_in, RoomFor};

use likelihood::{Diagnostics, Unfit};
use objective::{Task, fill, objective};
use refusal::{Reason, Refusal};

// What xs gives by the likelihood of its model: none where the probabilities fail.
fn score(t: &Task<'_>, l: Result<Diagnostics, Unfit>, xs: &[f64]) -> Result<Option<f64>, Refusal>
    requires { length xs.now ≡ length t.now.places.now }
    ensures { result ≡ spec.scored (job_in t.now) l xs.now }
{
    match l {
        Ok(d) => Ok(Some(objective(t.config, t.anchor, d.log_likelihood, xs))),
        Err(Unfit::Probabilities) => Ok(None),
        Err(Unfit::Refused(r)) => Err(r),
    }
}

// The likelihood of the model that has xs, which is left at the front of `model`.
pub fn likelihood_at(
    t: &Task<'_>,
    xs: &[f64],
    deviance: bool,
    model: &mut [f64],
    columns: &mut [f64],
) -> Result<Diagnostics, Unfit>
    requires { (length xs.now ≡ length t.now.places.now) × RoomFor t.now model.old columns.old }
    ensures { (take (model_numbers t.now.records.now.card.header) model.new ≡ spec.model_of (job_in t.now) xs.now)
        × (result ≡ likelihood_of deviance t.now.config.probability_tolerance t.now.records.now.card.bytes.now t.now.records.now.card.header (spec.model_of (job_in t.now) xs.now)) }
{
    let m = &mut model[..model_words::model_numbers(t.records.card.header)];
    fill(&t.records.card, t.places, xs, m);
    diagnostics::fit_diagnostics(
        t.records,
        m,
        deviance,
        t.config.probability_tolerance,
        columns,
    )
}

// The coordinates xs evaluated. The deviance, which no objective has, is left out. The room is two slices: lent in one struct, `likelihood_at` and fit's, which
// promise the model's numbers in the slice that they were lent, would have to say that the struct keeps its references.
pub fn evaluate(
    t: &Task<'_>,
    xs: &[f64],
    model: &mut [f64],
    columns: &mut [f64],
) -> Result<Option<f64>, Refusal>
    requires { (length xs.now ≡ length t.now.places.now) × RoomFor t.now model.old columns.old }
    ensures { result ≡ spec.evaluate (job_in t.now) xs.now }
{
    if !numbers::all_finite(xs) {
        return Err(Refusal::NonFinite);
    }
    score(t, likelihood_at(t, xs, false, model, columns), xs)
}

// The likelihoods of the models that have xs and ys, worked out in one pass over the records.
fn likelihoods_at(
    t: &Task<'_>,
    xs: &[f64],
    ys: &[f64],
    model: &mut [f64],
    columns: &mut [f64],
    other: &mut [f64],
    others: &mut [f64],
) -> [Result<Diagnostics, Unfit>; 2]
    requires { (length xs.now ≡ length t.now.places.now) × (length ys.now ≡ length t.now.places.now) × RoomFor t.now model.old columns.old × RoomFor t.now other.old others.old }
    ensures { result ≡ likelihood_of false t.now.config.probability_tolerance t.now.records.now.card.bytes.now t.now.records.now.card.header (spec.model_of (job_in t.now) xs.now)
        ∷ (likelihood_of false t.now.config.probability_tolerance t.now.records.now.card.bytes.now t.now.records.now.card.header (spec.model_of (job_in t.now) ys.now) ∷ []) }
{
    let n = model_words::model_numbers(t.records.card.header);
    let m = &mut model[..n];
    let o = &mut other[..n];
    fill(&t.records.card, t.places, xs, m);
    fill(&t.records.card, t.places, ys, o);
    let tolerance = t.config.probability_tolerance;
    diagnostics::fit_diagnostics_both(t.records, m, o, tolerance, columns, others)
}

// Two coordinate lists evaluated: together where both are finite, and otherwise one after the other.
fn evaluate_both(
    t: &Task<'_>,
    xs: &[f64],
    ys: &[f64],
    model: &mut [f64],
    columns: &mut [f64],
    other: &mut [f64],
    others: &mut [f64],
) -> [Result<Option<f64>, Refusal>; 2]
    requires { (length xs.now ≡ length t.now.places.now) × (length ys.now ≡ length t.now.places.now) × RoomFor t.now model.old columns.old × RoomFor t.now other.old others.old }
    ensures { result ≡ spec.evaluate (job_in t.now) xs.now ∷ (spec.evaluate (job_in t.now) ys.now ∷ []) }
{
    if numbers::all_finite(xs) && numbers::all_finite(ys) {
        let [r, l] = likelihoods_at(t, xs, ys, model, columns, other, others);
        return [score(t, r, xs), score(t, l, ys)];
    }
    [
        evaluate(t, xs, model, columns),
        evaluate(t, ys, other, others),
    ]
}

fn usable(v: f64) -> Result<f64, Refusal>
    ensures { result ≡ spec.usable v }
{
    if numbers::is_finite(v) {
        return Ok(v);
    }
    Err(Refusal::InvalidGstOptimization(Reason::GradientNotFinite))
}

// The derivative from the probes on both sides, h away, where the objective is o.
fn difference(
    o: f64,
    h: f64,
    right: Result<Option<f64>, Refusal>,
    left: Result<Option<f64>, Refusal>,
) -> Result<f64, Refusal>
    ensures { result ≡ spec.difference_of o h right left }
{
    match (right?, left?) {
        (Some(r), Some(l)) => usable((r - l) / (2.0 * h)),
        (Some(r), None) => usable((r - o) / h),
        (None, Some(l)) => usable((o - l) / h),
        (None, None) => usable(0.0),
    }
}

// The derivative in coordinate i at xs, where the objective is o. The probe on the right and the one on the left have rooms of their own.
fn derivative(
    t: &Task<'_>,
    xs: &[f64],
    o: f64,
    i: usize,
    model: &mut [f64],
    columns: &mut [f64],
    other: &mut [f64],
    others: &mut [f64],
) -> Result<f64, Refusal>
    requires { (length xs.now ≡ length t.now.places.now) × (i < length t.now.places.now) × RoomFor t.now model.old columns.old × RoomFor t.now other.old others.old }
    ensures { result ≡ spec.derivative (job_in t.now) xs.now o i }
{
    let x = xs[i];
    let e = t.config.finite_difference_step * numbers::max_of(numbers::abs_of(x), 1.0);
    let n = xs.len();
    let mut ahead = [0.0; 64];
    let mut behind = [0.0; 64];
    let a = &mut ahead[..n];
    let b = &mut behind[..n];
    a.copy_from_slice(xs);
    b.copy_from_slice(xs);
    a[i] = x + e;
    b[i] = x - e;
    let [r, l] = evaluate_both(t, a, b, model, columns, other, others);
    difference(o, e, r, l)
}

// The gradient at xs, where the objective is o, into g, up to the first derivative that is unusable. The probes on the right use the room that is lent.
pub fn gradient(
    t: &Task<'_>,
    xs: &[f64],
    o: f64,
    g: &mut [f64],
    model: &mut [f64],
    columns: &mut [f64],
) -> Result<(), Refusal>
    requires { (length xs.now ≡ length t.now.places.now) × (length g.old ≡ length t.now.places.now) × RoomFor t.now model.old columns.old }
    ensures { slopes_of result g.new ≡ spec.gradient (job_in t.now) xs.now o }
{
    let mut other = [0.0; 2320];
    let mut others = [0.0; 2048];
    for (i, slope) in g.iter_mut().enumerate() {
        *slope = derivative(t, xs, o, i, model, columns, &mut other, &mut others)?;
    }
    Ok(())
}
