// Pauli strings, and the linear inversion of their expectations (kind 1).
#![tactic(auto, unfolding(crate::specs::Entry::flipped, crate::specs::Entry::turned, crate::specs::Entry::unit_of))]

ghost use Rattle.std.specs.Prelude.{◌≡◌, true, cond, eqb, pos, ◌%◌, ◌+◌, ◌*◌, ◌^◌, ◌≤◌, ◌<◌, length};
ghost use Rattle.std.specs.Float.{binary64};
ghost use Rattle.std.specs.Float.Ieee.{of_int};
ghost use Rattle.lists.specs.Build.{over};
ghost use Rattle.numbers.specs.Number.{one_f, ◌/ᶠ◌, finite};
ghost use Rattle.numbers.specs.Slice.{all_finite};
ghost use Rattle.pauli.specs.Entry.{digit, flipped, turned, filled_column, filled_power, unit_of, with_entry, AllPlain};
ghost use Rattle.pauli.specs.Density.{with_string, density_of, tested_of, vet_of, inverted_of, computed_of};

use refusal::Refusal;
use sizes::two_to;

// The one entry of a string's row that is not zero: its column, and the power of i, 0 to 3, that it is.
#[derive(Clone, Copy)]
pub struct Filled {
    pub column: usize,
    pub power: usize,
}

// The filled entries of the axes' two rows, column and power: X and Y fill the other column; Y has -i and i there, Z has 1 and -1. With a `match` for them a density
// matrix took 1.2 to 2.3 times as long; a `const` is laid on the stack at each use.
static FILLED: [[(usize, usize); 2]; 4] = [
    [(0, 0), (1, 0)],
    [(1, 0), (0, 0)],
    [(1, 3), (0, 1)],
    [(0, 0), (1, 2)],
];

// The matrices that a string is made of. The digits of its code number them, 0 to 3.
#[derive(Clone, Copy, Debug, PartialEq, Eq)]
enum Axis {
    I,
    X,
    Y,
    Z,
}

impl Axis {
    // That of a code's last digit.
    fn last(code: usize) -> Axis
        ensures { digit result ≡ code % 4 }
    {
        match code % 4 {
            0 => Axis::I,
            1 => Axis::X,
            2 => Axis::Y,
            _ => Axis::Z,
        }
    }

    // The filled entry of row x.
    fn filled(self, x: usize) -> Filled
        requires { x < 2 }
        ensures { (result.column ≡ flipped (digit self) x) × (result.power ≡ turned (digit self) x) × (result.column < 2) × (result.power < 4) }
    {
        let (column, power) = FILLED[self as usize][x];
        Filled { column, power }
    }
}

// Digit by digit from the lowest, which is the last axis.
pub fn filled_of(n: usize, code: usize, row: usize) -> Filled
    requires { n ≤ 3 }
    ensures { (result.column ≡ filled_column n code row) × (result.power ≡ filled_power n code row) × (result.column < 2 ^ n) × (result.power < 4) }
{
    let mut column: usize = 0;
    let mut power: usize = 0;
    let mut place: usize = 1;
    let mut c = code;
    let mut x = row;
    // By count: the digits come by division, and five numbers are carried on.
    for _ in 0..n {
        let f = Axis::last(c).filled(x % 2);
        column += place * f.column;
        power = (power + f.power) % 4;
        place *= 2;
        c /= 4;
        x /= 2;
    }
    Filled { column, power }
}

pub fn unit_of(power: usize) -> f64
    ensures { result ≡ unit_of power }
{
    if power < 2 { 1.0 } else { -1.0 }
}

// The sizes of a density matrix on n qubits: d = 2^n rows. Not one struct with choi's, whose facts are those of one and two qubits: here there may be none or three.
#[derive(Clone, Copy)]
struct Sizes {
    n: usize,
    d: usize,
    ghost few: { n ≤ 3 },
    ghost side: { d ≡ 2 ^ n },
}

impl Sizes {
    fn of(n: usize) -> Sizes
        requires { n ≤ 3 }
        ensures { result.n ≡ n }
    {
        Sizes { n, d: two_to(n) }
    }

    fn add_entry(self, code: usize, row: usize, w: f64, out: &mut [f64])
        requires { (row < self.d) × (length out.old ≡ 2 * (self.d * self.d)) }
        ensures { out.new ≡ with_entry self.n code w row out.old }
    {
        let f = filled_of(self.n, code, row);
        let k = 2 * (row * self.d + f.column) + f.power % 2;
        out[k] += unit_of(f.power) * w;
    }

    // The string's zeros are passed over: added to a sum that is not -0 they change nothing.
    fn add_string(self, code: usize, w: f64, out: &mut [f64])
        requires { (length out.old ≡ 2 * (self.d * self.d)) × (finite w ≡ true) × AllPlain out.old }
        ensures { out.new ≡ with_string self.n code w out.old }
    {
        // By places: a row of a string has one entry, anywhere in its row of `out`.
        for row in 0..self.d {
            self.add_entry(code, row, w, out);
        }
    }

    // What a string of this code and expectation is multiplied by. The identity's expectation is pinned to 1.
    fn weight_of(self, e: f64, code: usize) -> f64
        ensures { result ≡ cond (eqb code 0) one_f e /ᶠ of_int binary64 (pos self.d) }
    {
        let pinned = if code == 0 { 1.0 } else { e };
        pinned / self.d as f64
    }

    fn density(self, es: &[f64], out: &mut [f64])
        requires { (length es.now ≡ 4 ^ self.n) × (length out.old ≡ 2 * (self.d * self.d)) × (all_finite es.now ≡ true) }
        ensures { out.new ≡ density_of self.n es.now }
    {
        out.fill(0.0);
        for (code, e) in es.iter().enumerate() {
            self.add_string(code, self.weight_of(*e, code), out);
        }
    }
}

// The density matrix at the front of `out`, once the expectations are admitted.
fn density_tested(n: usize, es: &[f64], out: &mut [f64]) -> Result<(), Refusal>
    requires { (n ≤ 3) × (length es.now ≡ 4 ^ n) × (2 * (2 ^ n * 2 ^ n) ≤ length out.old) × (all_finite es.now ≡ true) }
    ensures { (result ≡ tested_of n es.now) × (out.new ≡ over (density_of n es.now) out.old) }
{
    let sizes = Sizes::of(n);
    let front = &mut out[..2 * (sizes.d * sizes.d)];
    sizes.density(es, front);
    refusal::finite_or(Refusal::Operator, front)
}

// Tests a vector of expectations.
#[tactic(auto, using(refusal::proofs::Verdicts::passed_on, crate::proofs::Admission::not_finite, crate::proofs::Admission::not_normalized, crate::proofs::Admission::normalized))]
pub fn vet(tolerance: f64, es: &[f64]) -> Result<(), Refusal>
    requires { 0 < length es.now }
    ensures { result ≡ vet_of tolerance es.now }
{
    refusal::finite_or(Refusal::NonFinite, es)?;
    let e = es[0];
    if numbers::abs_of(e - 1.0) > tolerance {
        return Err(Refusal::InvalidNormalization(e));
    }
    Ok(())
}

// The Rust's `linear_inversion`. An accepted call leaves the density matrix at the front of `out`, real and imaginary part of each entry by rows.
pub fn linear_inversion(
    n: usize,
    tolerance: f64,
    es: &[f64],
    out: &mut [f64],
) -> Result<(), Refusal>
    requires { (n ≤ 3) × (length es.now ≡ 4 ^ n) × (2 * (2 ^ n * 2 ^ n) ≤ length out.old) }
    ensures { (result ≡ inverted_of n tolerance es.now) × (out.new ≡ over (computed_of n tolerance es.now) out.old) }
{
    refusal::check_tolerance(tolerance)?;
    vet(tolerance, es)?;
    density_tested(n, es, out)
}
