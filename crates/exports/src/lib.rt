// The entry points for C and Rust: numbers and slices only. include/mintshuttle.h says the same in C's terms.
#![tactic(auto)]

ghost use Rattle.std.specs.Prelude.{◌≡◌};
ghost use Rattle.std.specs.Float.Ieee.{Float};
ghost use Rattle.root.specs.Root.{sqrt};
ghost use Rattle.logarithm.specs.Steps.{ln};
ghost use Rattle.library.specs.Entries.{probes_entry, setting_entry, apply_entry, choi_entry, probabilities_entry};
ghost use Rattle.exports.specs.Exported.{AnyCall, Told, Exported, SheetExported, ReadExported, Mapped};

use answer_words::{put_answer, put_reading};
use outcome::Answer;
use refusal::Refusal;

// Runs a call where there is room for its answer in words, and tells the answer; 16 before it where there is none.
fn told<F: FnOnce(&mut [u64], &mut [f64]) -> Result<Answer, Refusal>>(
    res: &mut [u64],
    work: &mut [f64],
    answer: &mut [u64],
    call: F,
) -> u64
    requires { AnyCall F.FnOnce call }
    ensures { Told F.FnOnce call res.old res.new work.old work.new answer.old answer.new result }
{
    if answer.len() < 5 {
        numbers::clear(work);
        return Refusal::ShortBuffer.code();
    }
    put_answer(call(res, work), answer)
}

// The sheet of a card.
#[unsafe(no_mangle)]
pub extern "C" fn mintshuttle_sheet(
    card: &[u8],
    res: &mut [u64],
    work: &mut [f64],
    answer: &mut [u64],
) -> u64
    ensures { SheetExported card.now res.old res.new work.old work.new answer.old answer.new result }
{
    told(
        res,
        work,
        answer,
        |res, work| tomography::sheet(card, res, work),
    )
}

// The expectations of the product probes of n qubits.
#[unsafe(no_mangle)]
pub extern "C" fn mintshuttle_probes(
    n: u64,
    res: &mut [u64],
    work: &mut [f64],
    answer: &mut [u64],
) -> u64
    ensures { Exported (probes_entry n) res.old res.new work.old work.new answer.old answer.new result }
{
    told(
        res,
        work,
        answer,
        |res, work| library::product_probe_expectations(n, res, work),
    )
}

// The axes of one setting of n qubits.
#[unsafe(no_mangle)]
pub extern "C" fn mintshuttle_setting(
    n: u64,
    index: u64,
    res: &mut [u64],
    work: &mut [f64],
    answer: &mut [u64],
) -> u64
    ensures { Exported (setting_entry n index) res.old res.new work.old work.new answer.old answer.new result }
{
    told(
        res,
        work,
        answer,
        |res, work| library::local_pauli_setting(n, index, res, work),
    )
}

// A transfer matrix of 4^n by 4^n values applied to 4^n expectations.
#[unsafe(no_mangle)]
pub extern "C" fn mintshuttle_apply<'a>(
    n: u64,
    values: &'a [f64],
    input: &'a [f64],
    res: &mut [u64],
    work: &mut [f64],
    answer: &mut [u64],
) -> u64
    ensures { Exported (apply_entry n values.now input.now) res.old res.new work.old work.new answer.old answer.new result }
{
    told(
        res,
        work,
        answer,
        |res, work| library::apply_expectations(n, values, input, res, work),
    )
}

// The normalized Choi matrix of a transfer matrix of 4^n by 4^n values.
#[unsafe(no_mangle)]
pub extern "C" fn mintshuttle_choi(
    n: u64,
    values: &[f64],
    res: &mut [u64],
    work: &mut [f64],
    answer: &mut [u64],
) -> u64
    ensures { Exported (choi_entry n values.now) res.old res.new work.old work.new answer.old answer.new result }
{
    told(
        res,
        work,
        answer,
        |res, work| library::normalized_choi(n, values, res, work),
    )
}

// The probabilities of a gate sequence.
#[unsafe(no_mangle)]
pub extern "C" fn mintshuttle_probabilities<'a>(
    d: u64,
    effects: u64,
    names: &'a [u64],
    numbers: &'a [f64],
    sequence: &'a [u64],
    res: &mut [u64],
    work: &mut [f64],
    answer: &mut [u64],
) -> u64
    ensures { Exported (probabilities_entry d effects names.now numbers.now sequence.now) res.old res.new work.old work.new answer.old answer.new result }
{
    told(
        res,
        work,
        answer,
        |res, work| library::probabilities(d, effects, names, numbers, sequence, res, work),
    )
}

// What the reader says of a card, of any kind of document 01: whether it would be refused by its layout alone.
#[unsafe(no_mangle)]
pub extern "C" fn mintshuttle_read(card: &[u8], answer: &mut [u64]) -> u64
    ensures { ReadExported card.now answer.old answer.new result }
{
    if answer.len() < 5 {
        return Refusal::ShortBuffer.code();
    }
    put_reading(card::read(card), answer)
}

// f of each number, as many as both slices have; how many that is.
fn map_all<F: Fn(f64) -> f64>(x: &[f64], out: &mut [f64], f: F) -> usize
    requires { F.IsAlwaysCallable f }
    ensures { (g : Float → Float) → ((v r : Float) → F.post f v r → r ≡ g v) → Mapped g x.now out.old out.new result }
{
    let n = x.len().min(out.len());
    for (i, y) in out[..n].iter_mut().enumerate() {
        *y = f(x[i]);
    }
    n
}

// The square root of each number.
#[unsafe(no_mangle)]
pub extern "C" fn mintshuttle_sqrt_all(x: &[f64], out: &mut [f64]) -> usize
    ensures { Mapped sqrt x.now out.old out.new result }
{
    map_all(x, out, |v| root::sqrt(v))
}

// The natural logarithm of each number.
#[unsafe(no_mangle)]
pub extern "C" fn mintshuttle_ln_all(x: &[f64], out: &mut [f64]) -> usize
    ensures { Mapped ln x.now out.old out.new result }
{
    let t = logarithm::LnTables::new();
    map_all(x, out, |v| t.ln(v))
}
