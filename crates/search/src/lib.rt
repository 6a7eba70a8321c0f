// The trials of one step: the gradient's direction, with a length that is halved until the objective falls.
#![tactic(auto)]

ghost use Rattle.std.specs.Prelude.{◌≡◌, ◌≤◌, length};
ghost use Rattle.lists.specs.Build.{build};
ghost use Rattle.numbers.specs.Number.{◌-ᶠ◌, ◌*ᶠ◌};
ghost use Rattle.numbers.specs.Slice.{at};
ghost use Rattle.descent.specs.Fit as spec;
ghost use Rattle.objective.specs.Tasks.{job_in, RoomFor};
ghost use Rattle.search.specs.Found.{FoundAt};

use descent::Accepted;
use evaluation::evaluate;
use objective::Task;
use refusal::Refusal;

// The coordinates xs less s times g.
fn trial(xs: &[f64], g: &[f64], s: f64, t: &mut [f64])
    requires { (length xs.now ≡ length t.old) × (length g.now ≡ length t.old) }
    ensures { t.new ≡ build (length t.old) (λ i. at xs.now i -ᶠ s *ᶠ at g.now i) }
{
    // By an index: over a `zip` with `iter_mut` the slice that is written has no name in the loop's invariant.
    for (i, x) in t.iter_mut().enumerate() {
        *x = xs[i] - s * g[i];
    }
}

// The first trial from xs along g that is not refused, where the objective is o; t holds its numbers.
pub fn search(
    task: &Task<'_>,
    xs: &[f64],
    g: &[f64],
    o: f64,
    t: &mut [f64],
    model: &mut [f64],
    columns: &mut [f64],
) -> Result<Option<Accepted>, Refusal>
    requires { (length xs.now ≡ length task.now.places.now) × (length g.now ≡ length task.now.places.now) × (length t.old ≡ length task.now.places.now) × (task.now.config.max_backtracks ≤ 255)
        × RoomFor task.now model.old columns.old }
    ensures { (result ≡ spec.search_to (job_in task.now) xs.now g.now o task.now.config.max_backtracks) × FoundAt (job_in task.now) xs.now g.now t.new result }
{
    let mut s = task.config.initial_step;
    // By number, which the answer tells.
    for k in 0..task.config.max_backtracks {
        trial(xs, g, s, t);
        if let Some(v) = evaluate(task, t, model, columns)? {
            if v < o {
                return Ok(Some(Accepted {
                    trial: k,
                    objective: v,
                }));
            }
        }
        s = s * 0.5;
    }
    Ok(None)
}
