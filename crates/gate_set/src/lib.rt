// Outcome probabilities of a gate sequence. Gates are kept by columns, so that a product adds up columns and vectorises: each number of the state is still the
// sum of the same products in the same order.
#![tactic(auto)]

ghost use Rattle.std.specs.Prelude.{◌≡◌, ◌++◌, ◌+◌, ◌*◌, ◌≤◌, ◌<◌, length, take, drop};
ghost use Rattle.lists.specs.Part.{part};
ghost use Rattle.matrix.specs.Product.{row_mat_of};
ghost use Rattle.gate_set.specs.GateSet.{state_in, measured, present_of, columns_in, Lying, probabilities_by};
ghost use Rattle.gate_set.specs.Models.{AllWhole, AllLying, AllThrough, AllMeasured};

use matrix::{by_size, row};
use refusal::Refusal;

// Whether every gate of the sequence is there, or the first that is not.
pub fn check_sequence(sequence: &[usize], gates: usize) -> Result<(), Refusal>
    ensures { result ≡ present_of gates sequence.now }
{
    for g in sequence {
        if gates <= *g {
            return Err(Refusal::UnknownGate(*g as u64));
        }
    }
    Ok(())
}

// All gates of a model by columns, at the front of `out`.
pub fn gates_by_columns(model: &[f64], d: usize, e: usize, gates: usize, out: &mut [f64])
    requires { (d ≤ 16) × (e ≤ 16) × (gates ≤ 8) × (d + e * d + gates * (d * d) ≤ length model.now) × (gates * (d * d) ≤ length out.old) }
    ensures { out.new ≡ columns_in d e gates model.now ++ drop (gates * (d * d)) out.old }
{
    let m = d * d;
    let gates_at = &model[d + e * d..];
    // By places: see `matrix::row`.
    for g in 0..gates {
        matrix::transpose(&gates_at[row(g, m)], d, &mut out[row(g, m)]);
    }
}

// A model: its numbers, and its gates by columns. How many numbers a state has and how many effects there are stand beside it: they are the same for all models of a
// call, and `by_size` passes the first on as a constant.
#[derive(Clone, Copy)]
pub struct Model<'a> {
    pub numbers: &'a [f64],
    pub columns: &'a [f64],
}

// The state at the front of x put through gate g.
fn pass(x: &mut [f64; 16], columns: &[f64], g: usize, d: usize)
    requires { (d ≤ 16) × (g * (d * d) + d * d ≤ length columns.now) }
    ensures { take d x.new ≡ row_mat_of d (take d x.old) (part (g * (d * d)) (d * d) columns.now) }
{
    matrix::row_times(&mut x[..d], &columns[row(g, d * d)], d);
}

// The states at the fronts of xs, one for each model, put through a sequence by the gates of their models. The sequence is read once for all, and the
// processor works on one state while it waits for another. Here and below models are a slice whose length is N: of an array of N models the parts got no proof.
fn run_of<const N: usize>(
    models: &[Model<'_>],
    d: usize,
    sequence: &[usize],
    xs: &mut [[f64; 16]; N],
)
    requires { (d ≤ 16) × (length models.now ≡ N) × AllLying d models.now sequence.now }
    ensures { AllThrough d models.now sequence.now xs.old xs.new }
{
    for g in sequence {
        for (k, x) in xs.iter_mut().enumerate() {
            pass(x, models[k].columns, *g, d);
        }
    }
}

// The same, by size. Of a closure over a const parameter no clauses are inferred, so it has those of `run_of`.
fn run<const N: usize>(models: &[Model<'_>], d: usize, sequence: &[usize], xs: &mut [[f64; 16]; N])
    requires { (d ≤ 16) × (length models.now ≡ N) × AllLying d models.now sequence.now }
    ensures { AllThrough d models.now sequence.now xs.old xs.new }
{
    by_size(
        d,
        &mut |d|
            requires { (d ≤ 16) × (length models.now ≡ N) × AllLying d models.now sequence.now }
            ensures { AllThrough d models.entry.now sequence.entry.now xs.entry.now xs.exit.now }
        { run_of(models, d, sequence, xs) },
    )
}

// What the effects give of the state x. They lie behind the state, as rows of its length.
fn measure(model: &[f64], x: &[f64], e: usize, out: &mut [f64])
    requires { (length x.now ≤ 16) × (e ≤ 16) × (length x.now + e * length x.now ≤ length model.now) × (e ≤ length out.old) }
    ensures { out.new ≡ measured (length x.now) e model.now x.now ++ drop e out.old }
{
    for (k, p) in out[..e].iter_mut().enumerate() {
        *p = matrix::dot(&model[row(k + 1, x.len())], x);
    }
}

// The state of a model, at the front of x.
fn load_state(model: &[f64], d: usize, x: &mut [f64; 16])
    requires { (d ≤ 16) × (d ≤ length model.now) }
    ensures { take d x.new ≡ state_in d model.now }
{
    matrix::put_row(&mut x[..d], model);
}

// What the effects of a model give of the state at the front of x.
fn measure_front(model: &[f64], x: &[f64; 16], d: usize, e: usize, out: &mut [f64; 16])
    requires { (d ≤ 16) × (e ≤ 16) × (d + e * d ≤ length model.now) }
    ensures { out.new ≡ measured d e model.now (take d x.now) ++ drop e out.old }
{
    measure(model, &x[..d], e, out);
}

// The probabilities of a sequence under each model, at the front of its row of `out`.
pub fn probabilities_under<const N: usize>(
    models: &[Model<'_>],
    sequence: &[usize],
    d: usize,
    e: usize,
    out: &mut [[f64; 16]; N],
)
    requires { (d ≤ 16) × (e ≤ 16) × (length models.now ≡ N) × AllWhole d e models.now × AllLying d models.now sequence.now }
    ensures { AllMeasured d e models.now sequence.now out.old out.new }
{
    let mut xs = [[0.0; 16]; N];
    for (k, x) in xs.iter_mut().enumerate() {
        load_state(models[k].numbers, d, x);
    }
    run(models, d, sequence, &mut xs);
    // Lent as a slice: a part of an array whose length is a const parameter gets no proof.
    let states = &xs[..];
    for (k, p) in out.iter_mut().enumerate() {
        measure_front(models[k].numbers, &states[k], d, e, p);
    }
}

// The same under one model, at the front of `out`; the state and the effects stand at the front of `model`.
pub fn probabilities(
    model: &[f64],
    columns: &[f64],
    sequence: &[usize],
    d: usize,
    e: usize,
    out: &mut [f64],
)
    requires { (d ≤ 16) × (e ≤ 16) × (d + e * d ≤ length model.now) × (e ≤ length out.old) × Lying d columns.now sequence.now }
    ensures { out.new ≡ probabilities_by d e model.now columns.now sequence.now ++ drop e out.old }
{
    let mut ps = [[0.0; 16]; 1];
    let m = Model {
        numbers: &*model,
        columns: &*columns,
    };
    probabilities_under(&[m], sequence, d, e, &mut ps);
    out[..e].copy_from_slice(&ps[0][..e]);
}
