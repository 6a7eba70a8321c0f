// An answer in five words, for callers in C: the number of what is told with the numbers of its header, or 0 with a refusal's N, A and B.
#![tactic(auto)]

ghost use Rattle.std.specs.Prelude.{◌≡◌, ◌≤◌, length};
ghost use Rattle.lists.specs.Build.{over};
ghost use Rattle.refusal.specs.Values.{code_of};
ghost use Rattle.answer_words.specs.Words.{refusal_words, told_words, answer_words, answer_code, reading_words, reading_code};

use card_layout::Header;
use outcome::Answer;
use refusal::Refusal;

// The numbers 1 to 12 of what is told are fixed by the C interface.
fn told_words(a: Answer) -> [u64; 5]
    ensures { result ≡ told_words a }
{
    match a {
        Answer::Density { dimension } => [1, dimension, 0, 0, 0],
        Answer::Projected { dimension } => [2, dimension, 0, 0, 0],
        Answer::Process { size } => [3, size, 0, 0, 0],
        Answer::Physical {
            trace_preserving: t,
            unital: u,
            completely_positive: c,
        } => [4, u64::from(t), u64::from(u), u64::from(c), 0],
        Answer::Fit {
            stop,
            steps,
            evaluations,
            converged,
            ..
        } => [5, stop, steps, evaluations, u64::from(converged)],
        Answer::Model { words } => [6, words, 0, 0, 0],
        Answer::Diagnostics => [7, 0, 0, 0, 0],
        Answer::Probes { count } => [8, count, 0, 0, 0],
        Answer::Setting { qubits } => [9, qubits, 0, 0, 0],
        Answer::Applied { size } => [10, size, 0, 0, 0],
        Answer::Choi { dimension } => [11, dimension, 0, 0, 0],
        Answer::Probabilities { count } => [12, count, 0, 0, 0],
    }
}

// A function that puts any `Result` of five words, called with `.map(..)` by the two below, is two lines shorter, and its contract takes two definitions more.
fn put_refusal(r: Refusal, out: &mut [u64]) -> u64
    requires { 5 ≤ length out.old }
    ensures { (result ≡ code_of r) × (out.new ≡ over (refusal_words r) out.old) }
{
    let n = r.code();
    out[..5].copy_from_slice(&[0, n, r.value_a(), r.value_b(), 0]);
    n
}

// The answer of a sheet or a library call. Returned is N for a refusal, and 0 for all else.
pub fn put_answer(a: Result<Answer, Refusal>, out: &mut [u64]) -> u64
    requires { 5 ≤ length out.old }
    ensures { (result ≡ answer_code a) × (out.new ≡ over (answer_words a) out.old) }
{
    match a {
        Ok(told) => {
            out[..5].copy_from_slice(&told_words(told));
            0
        }
        Err(r) => put_refusal(r, out),
    }
}

// The same for the reading of a card: its kind, or a refusal.
pub fn put_reading(a: Result<Header, Refusal>, out: &mut [u64]) -> u64
    requires { 5 ≤ length out.old }
    ensures { (result ≡ reading_code a) × (out.new ≡ over (reading_words a) out.old) }
{
    match a {
        Ok(h) => {
            out[..5].copy_from_slice(&[h.kind as u64, 0, 0, 0, 0]);
            0
        }
        Err(r) => put_refusal(r, out),
    }
}
