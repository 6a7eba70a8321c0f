// Designs of experiments: the probes that make a process known, and the settings that make a state known.
#![tactic(auto)]

ghost use Rattle.std.specs.Prelude.{◌≡◌, ◌++◌, ◌+◌, ◌*◌, ◌^◌, ◌≤◌, ◌<◌, length, drop};
ghost use Rattle.designs.specs.Digit.{digit_of};
ghost use Rattle.designs.specs.Probes.{local, expectation, probes_of};
ghost use Rattle.designs.specs.Settings.{setting_of};

use sizes::four_to;

// The qubit's digit. Each division is by a constant, which in base 4 is a shift.
fn digit<const BASE: usize>(n: usize, code: usize, qubit: usize) -> usize
    requires { (n ≤ 3) × (qubit < n) × (0 < BASE) × (BASE ≤ 4) }
    ensures { (result ≡ digit_of BASE n code qubit) × (result < BASE) }
{
    match n - 1 - qubit {
        0 => code % BASE,
        1 => code / BASE % BASE,
        _ => code / (BASE * BASE) % BASE,
    }
}

// A row for each state.
fn local(state: usize, axis: usize) -> f64
    requires { (state < 4) × (axis < 4) }
    ensures { result ≡ local state axis }
{
    let table = [
        [1.0, 0.0, 0.0, 1.0],
        [1.0, 0.0, 0.0, -1.0],
        [1.0, 1.0, 0.0, 0.0],
        [1.0, 0.0, 1.0, 0.0],
    ];
    table[state][axis]
}

fn expectation(n: usize, probe: usize, string: usize) -> f64
    requires { n ≤ 3 }
    ensures { result ≡ expectation n probe string }
{
    (0..n)
        .map(|qubit| local(digit::<4>(n, probe, qubit), digit::<4>(n, string, qubit)))
        .product()
}

// The Rust's `product_probe_expectations`, at the front of `out`.
pub fn probes(n: usize, out: &mut [f64])
    requires { (n ≤ 3) × (4 ^ n * 4 ^ n ≤ length out.old) }
    ensures { out.new ≡ probes_of n ++ drop (4 ^ n * 4 ^ n) out.old }
{
    let count = four_to(n);
    let front = &mut out[..count * count];
    for (k, x) in front.iter_mut().enumerate() {
        *x = expectation(n, k / count, k % count);
    }
}

// Setting number `index` of the Rust's `LocalPauliPlan::complete`, at the front of `out`.
pub fn setting(n: usize, index: usize, out: &mut [u64])
    requires { (n ≤ 3) × (index < 3 ^ n) × (n ≤ length out.old) }
    ensures { out.new ≡ setting_of n index ++ drop n out.old }
{
    let front = &mut out[..n];
    for (qubit, axis) in front.iter_mut().enumerate() {
        *axis = digit::<3>(n, index, qubit) as u64 + 1;
    }
}
