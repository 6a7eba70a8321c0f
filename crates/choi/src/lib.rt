// The normalized Choi matrix of a transfer matrix, from the terms that are not zero.
#![tactic(auto, using(lists::proofs::Folding::fold_more), unfolding(lists::specs::Fold::fold, crate::specs::Sparse::signed))]

ghost use Rattle.std.specs.Prelude.{◌≡◌, true, ◌*◌, ◌^◌, ◌≤◌, ◌<◌, length};
ghost use Rattle.lists.specs.Build.{over};
ghost use Rattle.numbers.specs.Slice.{all_finite};
ghost use Rattle.choi.specs.Choi.{choi_of, normalized_choi, choi_numbers};
ghost use Rattle.choi.specs.Sparse.{Sides, place_of, share, signed, with_term, with_row, with_pair, with_string};

use pauli::Filled;
use refusal::Refusal;
use sizes::{four_to, two_to};

// v, the product of the parts of i^p and i^q, with the sign that i times i gives it.
fn signed(p: usize, q: usize, v: f64) -> f64
    ensures { result ≡ signed p q v }
{
    if p % 2 + q % 2 == 2 {
        return -v;
    }
    v
}

// The sizes of a process on n qubits: d = 2^n rows of a string, and p = 4^n strings.
#[derive(Clone, Copy)]
struct Sizes {
    n: usize,
    d: usize,
    p: usize,
    ghost sides: { Sides n d p },
}

impl Sizes {
    fn of(n: usize) -> Sizes
        requires { (1 ≤ n) × (n ≤ 2) }
        ensures { result.n ≡ n }
    {
        Sizes {
            n,
            d: two_to(n),
            p: four_to(n),
        }
    }

    // The part of a coefficient that is not zero.
    fn share_of(self, power: usize, x: f64) -> f64
        ensures { result ≡ share self.n power x }
    {
        let side = self.d as f64;
        pauli::unit_of(power) / side * x / side
    }

    // The place of part q of entry ((i, r), (j, s)).
    fn place_of(self, q: usize, i: usize, r: usize, j: usize, s: usize) -> usize
        requires { (q < 2) × (i < self.d) × (r < self.d) × (j < self.d) × (s < self.d) }
        ensures { (result ≡ place_of self.n q i r j s) × (result < 2 * (self.p * self.p)) }
    {
        2 * ((i * self.d + r) * self.p + (j * self.d + s)) + q
    }

    // The term of row r of P_a; f is the entry of row j of P_b, w its share.
    fn add_term(self, a: usize, f: Filled, w: f64, j: usize, r: usize, out: &mut [f64])
        requires { (f.column < self.d) × (f.power < 4) × (j < self.d) × (r < self.d) × (length out.old ≡ 2 * (self.p * self.p)) }
        ensures { out.new ≡ with_term self.n a f.column f.power w j r out.old }
    {
        let g = pauli::filled_of(self.n, a, r);
        let k = self.place_of((f.power + g.power) % 2, f.column, r, j, g.column);
        out[k] += signed(f.power, g.power, w * pauli::unit_of(g.power));
    }

    // The terms of row j of P_b, times x = R_ab.
    fn add_row(self, b: usize, a: usize, x: f64, j: usize, out: &mut [f64])
        requires { (j < self.d) × (length out.old ≡ 2 * (self.p * self.p)) }
        ensures { out.new ≡ with_row self.n b a x j out.old }
    {
        let f = pauli::filled_of(self.n, b, j);
        let w = self.share_of(f.power, x);
        // By places, here and below: see crate entries. A term may fall on any entry.
        for r in 0..self.d {
            self.add_term(a, f, w, j, r, out);
        }
    }

    // The terms of a pair of strings.
    fn add_pair(self, b: usize, a: usize, x: f64, out: &mut [f64])
        requires { length out.old ≡ 2 * (self.p * self.p) }
        ensures { out.new ≡ with_pair self.n b a x out.old }
    {
        for j in 0..self.d {
            self.add_row(b, a, x, j, out);
        }
    }

    // The terms of P_b and every P_a, in their order.
    fn add_string(self, values: &[f64], b: usize, out: &mut [f64])
        requires { (b < self.p) × (length values.now ≡ self.p * self.p) × (length out.old ≡ 2 * (self.p * self.p)) }
        ensures { out.new ≡ with_string self.n values.now b out.old }
    {
        for a in 0..self.p {
            self.add_pair(b, a, values[a * self.p + b], out);
        }
    }

    // The zeros of the strings are passed over: added to a sum that is not -0 they change nothing.
    fn choi(self, values: &[f64], out: &mut [f64])
        requires { (length values.now ≡ self.p * self.p) × (length out.old ≡ 2 * (self.p * self.p)) × (all_finite values.now ≡ true) }
        ensures { out.new ≡ choi_of self.n values.now }
    {
        out.fill(0.0);
        for b in 0..self.p {
            self.add_string(values, b, out);
        }
    }
}

// The Rust's `PauliTransferMatrix::try_new` and `normalized_choi`. A call whose values are good leaves the matrix at the front of `out`, real and imaginary
// part of each entry by rows.
pub fn normalized_choi(n: usize, values: &[f64], out: &mut [f64]) -> Result<(), Refusal>
    requires { (1 ≤ n) × (n ≤ 2) × (2 * (4 ^ n * 4 ^ n) ≤ length out.old) }
    ensures { (result ≡ normalized_choi n values.now) × (out.new ≡ over (choi_numbers n values.now) out.old) }
{
    let sizes = Sizes::of(n);
    let m = sizes.p * sizes.p;
    refusal::check_numbers(m, values)?;
    let front = &mut out[..2 * m];
    sizes.choi(values, front);
    refusal::finite_or(Refusal::Operator, front)
}
