// The Rust's `reconstruct_gate_set`: steps of descent from the card's model, and the sheet of the point where they end.
#![tactic(auto)]

ghost use Rattle.std.specs.Prelude.{◌≡◌, true, Some, Ok, map, ℕ, ◌≤◌, ◌<◌, length, get_or, take};
ghost use Rattle.numbers.specs.Slice.{at};
ghost use Rattle.model_words.specs.Words.{model_numbers, numbers_of};
ghost use Rattle.diagnostics.specs.Diagnostics.{likelihood_of, Roomy};
ghost use Rattle.descent.specs.Fit as spec;
ghost use Rattle.parameters.specs.Parameters.{config_of, places_of};
ghost use Rattle.objective.specs.Tasks.{job_in, RoomFor};
ghost use Rattle.steps.specs.Running.{keeps_norm, Normed, Underway};
ghost use Rattle.fit.specs.Outcome.{job_of, shown_of, outcome_of};

use card_parts::GstRecords;
use descent::GstTermination;
use evaluation::likelihood_at;
use likelihood::{Diagnostics, Unfit};
use objective::{Limited, Task, objective};
use refusal::Refusal;
use steps::{Running, run, slope_at};

// What a sheet shows of a fit beside its model.
#[derive(Clone, Copy)]
pub struct Shown {
    pub stop: GstTermination,
    pub steps: u64,
    pub evaluations: u64,
    pub initial: Diagnostics,
    pub final_fit: Diagnostics,
    pub objective: f64,
    pub norm: f64,
}

fn reason(stop: GstTermination, flat: bool) -> GstTermination
    ensures { result ≡ spec.reason_at stop flat }
{
    if flat && matches!(stop, GstTermination::MaximumIterations) {
        return GstTermination::GradientTolerance;
    }
    stop
}

// Whether the gradient at which a fit stops for this reason is the final one.
fn keeps_norm(k: GstTermination) -> bool
    ensures { result ≡ keeps_norm k }
{
    matches!(
        k,
        GstTermination::GradientTolerance | GstTermination::LineSearchStalled
    )
}

fn diagnostics_in(l: Result<Diagnostics, Unfit>) -> Diagnostics
    ensures { result ≡ spec.diagnostics_in l }
{
    l.unwrap_or(Diagnostics {
        log_likelihood: 0.0,
        deviance: 0.0,
    })
}

// A fit of a task from a model with the diagnostics `initial`, which is to end at `at`. The counts have room for a step more, which a step uses up: so `Underway`
// is no fact of every `Running`.
#[derive(Clone, Copy)]
struct Ending<'a> {
    task: &'a Task<'a>,
    initial: Diagnostics,
    at: &'a Running,
    ghost underway: { Underway at.now },
}

impl Ending<'_> {
    ghost use Rattle.fit.specs.Ends.{job_at, point_at, state_at};

    // The sheet of the fit that stops here, where the gradient's norm is z; its model is left at the front of `model`.
    fn show(&self, stop: GstTermination, z: f64, model: &mut [f64], columns: &mut [f64]) -> Shown
        requires { RoomFor self.now.task.now model.old columns.old }
        ensures { (take (model_numbers self.now.task.now.records.now.card.header) model.new ≡ spec.model_of (job_at self.now) (point_at self.now).coordinates)
            × (result ≡ shown_of (job_at self.now) self.now.initial stop z (point_at self.now)) }
    {
        let r = self.at;
        let p = self.task.places.len();
        let l = likelihood_at(self.task, &r.coordinates[..p], true, model, columns);
        Shown {
            stop,
            steps: r.steps,
            evaluations: r.evaluations + 2 * (p as u64),
            initial: self.initial,
            final_fit: diagnostics_in(l),
            objective: r.objective,
            norm: z,
        }
    }

    // The final gradient, and the sheet.
    fn close(
        &self,
        stop: GstTermination,
        model: &mut [f64],
        columns: &mut [f64],
    ) -> Result<Shown, Refusal>
        requires { RoomFor self.now.task.now model.old columns.old }
        ensures { outcome_of result (take (model_numbers self.now.task.now.records.now.card.header) model.new) ≡ spec.closed (job_at self.now) self.now.initial stop (point_at self.now) }
    {
        let mut g = [0.0; 64];
        let z = slope_at(self.task, self.at, &mut g, model, columns)?;
        let k = reason(stop, z <= self.task.config.gradient_tolerance);
        Ok(self.show(k, z, model, columns))
    }

    // The same, where the last gradient may be the final one: then it is not worked out again.
    fn stop_at(
        &self,
        k: GstTermination,
        model: &mut [f64],
        columns: &mut [f64],
    ) -> Result<Shown, Refusal>
        requires { Normed (job_at self.now) (point_at self.now) self.now.at.now.norm (Some k)
            × RoomFor self.now.task.now model.old columns.old }
        ensures { outcome_of result (take (model_numbers self.now.task.now.records.now.card.header) model.new) ≡ spec.closed (job_at self.now) self.now.initial k (point_at self.now) }
    {
        if keeps_norm(k) {
            return Ok(self.show(k, self.at.norm, model, columns));
        }
        self.close(k, model, columns)
    }

    // The end of the fit that has stopped, or has reached the limit.
    fn finish(&self, model: &mut [f64], columns: &mut [f64]) -> Result<Shown, Refusal>
        requires { Normed (job_at self.now) (point_at self.now) self.now.at.now.norm self.now.at.now.stop
            × RoomFor self.now.task.now model.old columns.old }
        ensures { outcome_of result (take (model_numbers self.now.task.now.records.now.card.header) model.new) ≡ spec.finished (job_at self.now) self.now.initial (state_at self.now) }
    {
        match self.at.stop {
            None => self.close(GstTermination::MaximumIterations, model, columns),
            Some(k) => self.stop_at(k, model, columns),
        }
    }
}

// The fit from the card's model on, whose diagnostics are d.
fn fit_from(
    limited: &Limited<'_>,
    d: Diagnostics,
    model: &mut [f64],
    columns: &mut [f64],
) -> Result<Shown, Refusal>
    requires { (spec.Job.likelihood (job_in limited.now.task) (spec.Job.model (job_in limited.now.task)) ≡ Ok d)
        × RoomFor limited.now.task model.old columns.old }
    ensures { outcome_of result (take (model_numbers limited.now.task.records.now.card.header) model.new) ≡ spec.fit_of (job_in limited.now.task) }
{
    let t = &limited.task;
    let mut coordinates = [0.0; 64];
    coordinates[..t.places.len()].copy_from_slice(t.anchor);
    let start = Running {
        coordinates,
        objective: objective(t.config, t.anchor, d.log_likelihood, t.anchor),
        norm: 0.0,
        steps: 0,
        evaluations: 1,
        stop: None,
    };
    let r = run(limited, start, model, columns)?;
    let ending = Ending {
        task: t,
        initial: d,
        at: &r,
    };
    ending.finish(model, columns)
}

// The likelihood of the card's model, and its numbers at the coordinates' entries.
fn begin(
    records: &GstRecords<'_>,
    places: &[usize],
    tolerance: f64,
    anchor: &mut [f64],
    model: &mut [f64],
    columns: &mut [f64],
) -> Result<Diagnostics, Unfit>
    requires { (5 ≤ records.now.card.header.kind)
        × ((i : ℕ) → i < length places.now → get_or places.now i 0 < model_numbers records.now.card.header)
        × (length anchor.old ≡ length places.now) × Roomy records.now.card.header model.old columns.old }
    ensures { (result ≡ likelihood_of true tolerance records.now.card.bytes.now records.now.card.header (numbers_of records.now.card.bytes.now records.now.card.header))
        × (anchor.new ≡ map (at (numbers_of records.now.card.bytes.now records.now.card.header)) places.now) }
{
    let n = model_words::model_numbers(records.card.header);
    let m = &mut model[..n];
    model_words::load(&records.card, m);
    numbers::gather(m, places, anchor);
    diagnostics::fit_diagnostics(records, m, true, tolerance, columns)
}

// The fit of a card whose coordinates have entries; the model that it ends at is left at the front of `model`.
pub fn reconstruct_gate_set(
    records: &GstRecords<'_>,
    model: &mut [f64],
    columns: &mut [f64],
) -> Result<Shown, Refusal>
    requires { (records.now.card.header.kind ≡ 5) × (records.now.card.header.coordinates ≤ 64)
        × ((i : ℕ) → i < records.now.card.header.coordinates → get_or (places_of records.now.card.bytes.now records.now.card.header) i 0 < model_numbers records.now.card.header)
        × ((config_of records.now.card.bytes.now).max_backtracks ≤ 255) × ((config_of records.now.card.bytes.now).max_iterations ≤ 65535)
        × Roomy records.now.card.header model.old columns.old }
    ensures { outcome_of result (take (model_numbers records.now.card.header) model.new) ≡ spec.fit_of (job_of records.now.card.bytes.now records.now.card.header) }
{
    let n = records.card.header.coordinates;
    let config = parameters::config_of(records.card.bytes);
    let mut places = [0usize; 64];
    let mut anchor = [0.0; 64];
    parameters::load_places(&records.card, &mut places);
    let p = &places[..n];
    let tolerance = config.probability_tolerance;
    let d = begin(records, p, tolerance, &mut anchor[..n], model, columns)?;
    let task = Task {
        records: &*records,
        places: p,
        config,
        anchor: &anchor[..n],
    };
    fit_from(&Limited { task }, d, model, columns)
}
