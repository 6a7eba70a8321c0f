// A rotation of classical Jacobi, in place: only rows and columns p and q are touched.
#![tactic(auto, using(lists::proofs::Folding::fold_more), unfolding(crate::specs::Rotation::tangent, crate::specs::Rotation::turn_of, crate::specs::Rotation::turned_p, crate::specs::Rotation::turned_q, crate::specs::Steps::row_turned, crate::specs::Steps::row_rotated, crate::specs::Steps::crossed, lists::specs::Fold::fold))]

ghost use Rattle.std.specs.Prelude.{◌≡◌, ◌+◌, ◌*◌, ◌≤◌, ◌<◌, length};
ghost use Rattle.entries.specs.Entries.{entries};
ghost use Rattle.turns.specs.Rotation as spec;
ghost use Rattle.turns.specs.Steps.{row_turned, row_rotated, crossed};

use complex::Complex;
use magnitudes::Pivot;

// Places p and q are below the size, which the contracts below ask: a ghost field that says so would refuse the turns that a caller makes of its own numbers.
#[derive(Clone, Copy, Debug, PartialEq)]
pub struct Turn {
    pub p: usize,
    pub q: usize,
    pub c: f64,
    pub s: f64,
    pub phase: Complex,
    pub pp: f64,
    pub qq: f64,
}

fn tangent(tau: f64) -> f64
    ensures { result ≡ spec.tangent tau }
{
    let root = root::sqrt(1.0 + tau * tau);
    if 0.0 <= tau {
        return 1.0 / (tau + root);
    }
    -1.0 / (-tau + root)
}

// The rotation that brings the pivot to zero.
pub fn turn_of(a: &[f64], n: usize, g: Pivot) -> Turn
    requires { (length a.now ≡ 2 * (n * n)) × (g.p < n) × (g.q < n) }
    ensures { result ≡ spec.turn_of n (entries a.now) g }
{
    let Pivot { best, p, q } = g;
    let app = entries::read(a, n, p, p).re;
    let aqq = entries::read(a, n, q, q).re;
    let t = tangent((aqq - app) / (2.0 * best));
    let c = 1.0 / root::sqrt(1.0 + t * t);
    let s = t * c;
    let phase = entries::read(a, n, p, q) / best;
    Turn {
        p,
        q,
        c,
        s,
        phase,
        pp: c * c * app + s * s * aqq - 2.0 * c * s * best,
        qq: s * s * app + c * c * aqq + 2.0 * c * s * best,
    }
}

fn turned_p(t: Turn, x: Complex, y: Complex) -> Complex
    ensures { result ≡ spec.turned_p t x y }
{
    x * t.phase * t.c - y * t.s
}

fn turned_q(t: Turn, x: Complex, y: Complex) -> Complex
    ensures { result ≡ spec.turned_q t x y }
{
    x * t.phase * t.s + y * t.c
}

// Columns p and q of row i.
fn turn_row(a: &mut [f64], n: usize, t: Turn, i: usize)
    requires { (2 * (i * n + n) ≤ length a.old) × (t.p < n) × (t.q < n) }
    ensures { entries a.new ≡ row_turned n t i (entries a.old) }
{
    let p = t.p;
    let q = t.q;
    let x = entries::read(a, n, i, p);
    let y = entries::read(a, n, i, q);
    entries::write(a, n, i, q, turned_q(t, x, y));
    entries::write(a, n, i, p, turned_p(t, x, y));
}

/// Columns p and q of the r rows of n entries in `a`: the rotation of the vectors.
pub fn turn_columns(a: &mut [f64], r: usize, n: usize, t: Turn)
    requires { (length a.old ≡ 2 * (r * n)) × (t.p < n) × (t.q < n) }
    ensures { entries a.new ≡ spec.columns_turned r n t (entries a.old) }
{
    // By places, here and below: see crate entries.
    for i in 0..r {
        turn_row(a, n, t, i);
    }
}

// Columns p and q of row i, and from these its place in rows p and q.
fn rotate_row(a: &mut [f64], n: usize, t: Turn, i: usize)
    requires { (length a.old ≡ 2 * (n * n)) × (i < n) × (t.p < n) × (t.q < n) }
    ensures { entries a.new ≡ row_rotated n t i (entries a.old) }
{
    let p = t.p;
    let q = t.q;
    let x = entries::read(a, n, i, p);
    let y = entries::read(a, n, i, q);
    let u = turned_p(t, x, y);
    let w = turned_q(t, x, y);
    entries::write(a, n, i, q, w);
    entries::write(a, n, i, p, u);
    entries::write(a, n, q, i, w.conjugate());
    entries::write(a, n, p, i, u.conjugate());
}

// The four entries where rows and columns p and q meet.
fn cross(a: &mut [f64], n: usize, t: Turn)
    requires { (length a.old ≡ 2 * (n * n)) × (t.p < n) × (t.q < n) }
    ensures { entries a.new ≡ crossed n t (entries a.old) }
{
    let p = t.p;
    let q = t.q;
    entries::write(a, n, q, q, Complex::from(t.qq));
    entries::write(a, n, q, p, Complex::from(0.0));
    entries::write(a, n, p, q, Complex::from(0.0));
    entries::write(a, n, p, p, Complex::from(t.pp));
}

/// The rotation of the n by n matrix in `a`.
pub fn rotate(a: &mut [f64], n: usize, t: Turn)
    requires { (length a.old ≡ 2 * (n * n)) × (t.p < n) × (t.q < n) }
    ensures { entries a.new ≡ spec.turned n t (entries a.old) }
{
    for i in 0..n {
        rotate_row(a, n, t, i);
    }
    cross(a, n, t);
}
