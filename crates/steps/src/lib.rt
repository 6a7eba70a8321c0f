// The steps of a fit, on a small state that is passed on by value.
#![tactic(auto)]

ghost use Rattle.std.specs.Prelude.{◌≡◌, ◌≤◌, ◌<◌, Ok, None, length, take, drop};
ghost use Rattle.std.specs.Float.Ieee.{le};
ghost use Rattle.numbers.specs.Number.{◌-ᶠ◌};
ghost use Rattle.objective.specs.Tasks.{job_in, RoomFor};
ghost use Rattle.steps.specs.Running.{point_of, Sloped, Underway, Led, Ended, rest_of, accepted_of};

use descent::GstTermination;
use evaluation::gradient;
use objective::{Limited, Task, norm};
use refusal::Refusal;
use search::search;

// A running fit. Its first numbers are the coordinates'; `norm` is that of the last gradient; `stop` says why it has stopped, if it has.
#[derive(Clone, Copy)]
pub struct Running {
    pub coordinates: [f64; 64],
    pub objective: f64,
    pub norm: f64,
    pub steps: u64,
    pub evaluations: u64,
    pub stop: Option<GstTermination>,
}

// The same point with n evaluations more and its gradient's norm, where the fit stops.
fn stopped(r: &Running, n: u64, z: f64, k: GstTermination) -> Running
    requires { (r.now.evaluations < 4294967296) × (n < 1024) }
    ensures { result ≡ rest_of r.now n z k }
{
    Running {
        norm: z,
        evaluations: r.evaluations + n,
        stop: Some(k),
        ..*r
    }
}

// An accepted step to t, of objective v.
fn moved(tolerance: f64, r: &Running, t: [f64; 64], v: f64, n: u64) -> Running
    requires { (r.now.evaluations < 4294967296) × (r.now.steps < 65536) × (n < 1024) }
    ensures { result ≡ accepted_of r.now t v n (le (r.now.objective -ᶠ v) tolerance) }
{
    let small = r.objective - v <= tolerance;
    Running {
        coordinates: t,
        objective: v,
        norm: r.norm,
        steps: r.steps + 1,
        evaluations: r.evaluations + n,
        stop: small.then_some(GstTermination::ObjectiveTolerance),
    }
}

// The gradient at r to the front of g, and its norm.
pub fn slope_at(
    task: &Task<'_>,
    r: &Running,
    g: &mut [f64],
    model: &mut [f64],
    columns: &mut [f64],
) -> Result<f64, Refusal>
    requires { (length task.now.places.now ≤ length g.old) × RoomFor task.now model.old columns.old }
    ensures { Sloped (job_in task.now) (point_of (length task.now.places.now) r.now) (take (length task.now.places.now) g.new) result
        × (drop (length task.now.places.now) g.new ≡ drop (length task.now.places.now) g.old) }
{
    let p = task.places.len();
    let slopes = &mut g[..p];
    let xs = &r.coordinates[..p];
    gradient(task, xs, r.objective, slopes, model, columns)?;
    Ok(norm(slopes))
}

// The step from r along its gradient g, of norm z.
fn descend(
    limited: &Limited<'_>,
    r: &Running,
    g: &[f64],
    z: f64,
    model: &mut [f64],
    columns: &mut [f64],
) -> Result<Running, Refusal>
    requires { Underway r.now × (length g.now ≡ length limited.now.task.places.now) × Sloped (job_in limited.now.task) (point_of (length limited.now.task.places.now) r.now) g.now (Ok z)
        × RoomFor limited.now.task model.old columns.old }
    ensures { Led (job_in limited.now.task) (length limited.now.task.places.now) r.now result }
{
    let task = &limited.task;
    let c = task.config;
    let p = task.places.len();
    let n = 2 * (p as u64);
    if z <= c.gradient_tolerance {
        return Ok(stopped(r, n, z, GstTermination::GradientTolerance));
    }
    let mut t = [0.0; 64];
    let xs = &r.coordinates[..p];
    let found = search(task, xs, g, r.objective, &mut t[..p], model, columns)?;
    match found {
        None => {
            let stalled = GstTermination::LineSearchStalled;
            Ok(stopped(r, n + c.max_backtracks, z, stalled))
        }
        Some(a) => {
            let tolerance = c.objective_tolerance;
            Ok(moved(tolerance, r, t, a.objective, n + (a.trial + 1)))
        }
    }
}

// One gradient and its search. The counts have room for a step more, which a step uses up: so `Underway` is no fact of every `Running`.
fn step(
    limited: &Limited<'_>,
    r: &Running,
    model: &mut [f64],
    columns: &mut [f64],
) -> Result<Running, Refusal>
    requires { Underway r.now × RoomFor limited.now.task model.old columns.old }
    ensures { Led (job_in limited.now.task) (length limited.now.task.places.now) r.now result }
{
    let task = &limited.task;
    let mut g = [0.0; 64];
    let z = slope_at(task, r, &mut g, model, columns)?;
    descend(limited, r, &g[..task.places.len()], z, model, columns)
}

// Steps until the fit stops, or the limit is reached.
pub fn run(
    limited: &Limited<'_>,
    start: Running,
    model: &mut [f64],
    columns: &mut [f64],
) -> Result<Running, Refusal>
    requires { (start.evaluations ≡ 1) × (start.steps ≡ 0) × (start.stop ≡ None) × RoomFor limited.now.task model.old columns.old }
    ensures { Ended (job_in limited.now.task) (length limited.now.task.places.now) start result }
{
    let mut r = start;
    // So many at most: nothing is gone over.
    for _ in 0..limited.task.config.max_iterations {
        if r.stop.is_some() {
            return Ok(r);
        }
        r = step(limited, &r, model, columns)?;
    }
    Ok(r)
}
