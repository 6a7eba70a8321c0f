// The library's entries beside the sheets. They ask nothing of their callers, test the lengths of the slices first, and clear the work slice at every exit.
#![tactic(auto)]

ghost use Rattle.std.specs.Prelude.{◌≡◌, ◌≤◌, ◌<◌, length};
ghost use Rattle.lists.specs.Build.{over};
ghost use Rattle.outcome.specs.Outcome.{Gives, Call};
ghost use Rattle.library.specs.Entries.{qubits_of, setting_verdict, apply_verdict, apply_numbers, probes_entry, setting_entry, apply_entry, choi_verdict, choi_left, choi_entry, probabilities_entry};

use outcome::{Answer, in_room};
use refusal::Refusal;
use sizes::{four_to, square, three_to};

// n is 1 to `most`.
#[tactic(auto, unfolding(crate::specs::Entries::qubits_of))]
fn check_qubits(most: u64, n: u64) -> Result<(), Refusal>
    ensures { result ≡ qubits_of most n }
{
    if n == 0 || most < n {
        return Err(Refusal::InvalidQubits);
    }
    Ok(())
}

fn probes(n: u64, res: &mut [u64], work: &mut [f64]) -> Result<Answer, Refusal>
    requires { (4096 ≤ length res.old) × (8192 ≤ length work.old) }
    ensures { Gives (probes_entry n) res.old res.new result }
{
    check_qubits(3, n)?;
    let count = four_to(n as usize);
    designs::probes(n as usize, work);
    numbers::emit(work, count * count, res);
    Ok(Answer::Probes {
        count: count as u64,
    })
}

// The expectations of all Pauli strings in each of the 4^n product probes, a row for each probe.
pub fn product_probe_expectations(
    n: u64,
    res: &mut [u64],
    work: &mut [f64],
) -> Result<Answer, Refusal>
    ensures { Call (probes_entry n) res.old res.new work.old work.new result }
{
    in_room(res, work, |res, work| probes(n, res, work))
}

fn check_setting(n: u64, index: u64) -> Result<(), Refusal>
    ensures { result ≡ setting_verdict n index }
{
    check_qubits(3, n)?;
    if three_to(n as usize) as u64 <= index {
        return Err(Refusal::InvalidCard(index));
    }
    Ok(())
}

fn setting(n: u64, index: u64, res: &mut [u64]) -> Result<Answer, Refusal>
    requires { 4096 ≤ length res.old }
    ensures { Gives (setting_entry n index) res.old res.new result }
{
    check_setting(n, index)?;
    designs::setting(n as usize, index as usize, res);
    Ok(Answer::Setting { qubits: n })
}

// The axes of setting number `index` of the 3^n: X is 1, Y is 2 and Z is 3.
pub fn local_pauli_setting(
    n: u64,
    index: u64,
    res: &mut [u64],
    work: &mut [f64],
) -> Result<Answer, Refusal>
    ensures { Call (setting_entry n index) res.old res.new work.old work.new result }
{
    in_room(res, work, |res, _| setting(n, index, res))
}

// The expectations afterwards go to the front of the work slice.
fn apply_within<'a>(
    n: u64,
    values: &'a [f64],
    input: &'a [f64],
    work: &mut [f64],
) -> Result<(), Refusal>
    requires { 8192 ≤ length work.old }
    ensures { (result ≡ apply_verdict n values.now input.now) × (work.new ≡ over (apply_numbers n values.now input.now) work.old) }
{
    check_qubits(2, n)?;
    transfer::apply_expectations(values, input, four_to(n as usize), work)
}

fn apply<'a>(
    n: u64,
    values: &'a [f64],
    input: &'a [f64],
    res: &mut [u64],
    work: &mut [f64],
) -> Result<Answer, Refusal>
    requires { (4096 ≤ length res.old) × (8192 ≤ length work.old) }
    ensures { Gives (apply_entry n values.now input.now) res.old res.new result }
{
    apply_within(n, values, input, work)?;
    let p = four_to(n as usize);
    numbers::emit(work, p, res);
    Ok(Answer::Applied { size: p as u64 })
}

// A transfer matrix of 4^n by 4^n values, by rows, applied to 4^n expectations. What comes of it is not tested.
pub fn apply_expectations<'a>(
    n: u64,
    values: &'a [f64],
    input: &'a [f64],
    res: &mut [u64],
    work: &mut [f64],
) -> Result<Answer, Refusal>
    ensures { Call (apply_entry n values.now input.now) res.old res.new work.old work.new result }
{
    in_room(res, work, |res, work| apply(n, values, input, res, work))
}

// The Choi matrix goes to the front of the work slice.
fn choi_within(n: u64, values: &[f64], work: &mut [f64]) -> Result<(), Refusal>
    requires { 8192 ≤ length work.old }
    ensures { (result ≡ choi_verdict n values.now) × (work.new ≡ over (choi_left n values.now) work.old) }
{
    check_qubits(2, n)?;
    choi::normalized_choi(n as usize, values, work)
}

fn choi_matrix(n: u64, values: &[f64], res: &mut [u64], work: &mut [f64]) -> Result<Answer, Refusal>
    requires { (4096 ≤ length res.old) × (8192 ≤ length work.old) }
    ensures { Gives (choi_entry n values.now) res.old res.new result }
{
    choi_within(n, values, work)?;
    let p = four_to(n as usize);
    numbers::emit(work, 2 * square(p), res);
    Ok(Answer::Choi {
        dimension: p as u64,
    })
}

// The normalized Choi matrix of a transfer matrix of 4^n by 4^n values, by rows: real and imaginary part of each entry.
pub fn normalized_choi(
    n: u64,
    values: &[f64],
    res: &mut [u64],
    work: &mut [f64],
) -> Result<Answer, Refusal>
    ensures { Call (choi_entry n values.now) res.old res.new work.old work.new result }
{
    in_room(res, work, |res, work| choi_matrix(n, values, res, work))
}

// The arguments come one by one, as C passes them: see `sequences::check`.
fn sequence_outcome<'a>(
    d: u64,
    effects: u64,
    names: &'a [u64],
    numbers: &'a [f64],
    sequence: &'a [u64],
    res: &mut [u64],
    work: &mut [f64],
) -> Result<Answer, Refusal>
    requires { (4096 ≤ length res.old) × (8192 ≤ length work.old) }
    ensures { Gives (probabilities_entry d effects names.now numbers.now sequence.now) res.old res.new result }
{
    let e = effects as usize;
    sequences::check(d as usize, e, names, numbers, sequence)?;
    let mut out = [0.0; 16];
    sequences::probabilities(
        d as usize,
        e,
        names.len(),
        numbers,
        sequence,
        work,
        &mut out,
    );
    numbers::emit(&out, e, res);
    Ok(Answer::Probabilities { count: effects })
}

// The outcome probabilities of a gate sequence, the first gate applied first. The model has a name for each gate; its numbers are d of the state, d of each
// effect, and d by d of each gate, by rows. What comes of it is not tested.
pub fn probabilities<'a>(
    d: u64,
    effects: u64,
    names: &'a [u64],
    numbers: &'a [f64],
    sequence: &'a [u64],
    res: &mut [u64],
    work: &mut [f64],
) -> Result<Answer, Refusal>
    ensures { Call (probabilities_entry d effects names.now numbers.now sequence.now) res.old res.new work.old work.new result }
{
    in_room(
        res,
        work,
        |res, work| sequence_outcome(d, effects, names, numbers, sequence, res, work),
    )
}
