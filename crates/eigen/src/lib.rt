//! Eigenvalues and eigenvectors of a Hermitian matrix by classical Jacobi. The tolerance and the most
//! rotations are two numbers of a card that owe one another nothing, and go through as they are.
#![tactic(auto, using(lists::proofs::Folding::fold_more), unfolding(lists::specs::Fold::fold, entries::specs::Laid::laid_row, crate::specs::Jacobi::unit_at, crate::specs::Jacobi::ran))]

ghost use Rattle.std.specs.Prelude.{◌≡◌, ℕ, ◌*◌, ◌≤◌, ◌<◌, length, get_or, is_ok};
ghost use Rattle.numbers.specs.Number.{◌*ᶠ◌};
ghost use Rattle.entries.specs.Entries.{entries, entry_at};
ghost use Rattle.entries.specs.Laid.{laid_row};
ghost use Rattle.magnitudes.specs.Pivot.{scale_of};
ghost use Rattle.sorting.specs.Sort.{order_of, sorted};
ghost use Rattle.eigen.specs.Jacobi as spec;
ghost use Rattle.eigen.specs.Steps.{Stepped, jacobi_with};

use complex::Complex;
use magnitudes::{Magnitudes, Pivot};

/// The rotations are used up; what the last one gives is not tested.
#[derive(Clone, Copy, Debug, PartialEq, Eq)]
pub struct NotConverged;

// One rotation at the pivot g, of the matrix, of the r rows of vectors and of the magnitudes that are
// kept.
fn step(a: &mut [f64], v: &mut [f64], r: usize, n: usize, g: Pivot, kept: &mut Magnitudes)
    requires { (length a.old ≡ 2 * (n * n)) × (length v.old ≡ 2 * (r * n)) × (n ≤ 16) × (g.p < n) × (g.q < n) }
    ensures { Stepped r n g (entries a.old) (entries v.old) kept.old.cells (entries a.new) (entries v.new) kept.new.cells }
{
    let t = turns::turn_of(a, n, g);
    turns::rotate(a, n, t);
    kept.renew(a, n, g.p, g.q);
    turns::turn_columns(v, r, n, t);
}

// Rotations of the matrix and of the r rows of vectors, until the pivot is small beside the scale.
fn run(
    a: &mut [f64],
    v: &mut [f64],
    r: usize,
    n: usize,
    tolerance: f64,
    rotations: u64,
) -> Result<(), NotConverged>
    requires { (length a.old ≡ 2 * (n * n)) × (length v.old ≡ 2 * (r * n)) × (0 < n) × (n ≤ 16) }
    ensures { spec.ran (is_ok result) (entries a.new) (entries v.new) ≡ jacobi_with rotations r n (tolerance *ᶠ scale_of n (entries a.old)) (entries a.old) (entries v.old) }
{
    let mut kept = Magnitudes::of(a, n);
    let limit = tolerance * magnitudes::scale(a, n);
    // So many at most: nothing is gone over.
    for _ in 0..rotations {
        let g = kept.pivot(n);
        if g.best <= limit {
            return Ok(());
        }
        step(a, v, r, n, g, &mut kept);
    }
    Err(NotConverged)
}

fn unit_at(i: usize, j: usize) -> Complex
    ensures { result ≡ spec.unit_at i j }
{
    Complex::from(if i == j { 1.0 } else { 0.0 })
}

// Row i of the unit vectors.
fn unit_row(v: &mut [f64], n: usize, i: usize)
    requires { (length v.old ≡ 2 * (n * n)) × (i < n) }
    ensures { entries v.new ≡ laid_row n spec.unit_at i (entries v.old) }
{
    // By places, here and below: see crate entries.
    for j in 0..n {
        entries::write(v, n, i, j, unit_at(i, j));
    }
}

fn unit(v: &mut [f64], n: usize)
    requires { length v.old ≡ 2 * (n * n) }
    ensures { entries v.new ≡ spec.unit n }
{
    for i in 0..n {
        unit_row(v, n, i);
    }
}

// The real parts of the diagonal.
fn diagonal(a: &[f64], n: usize, d: &mut [f64])
    requires { (length a.now ≡ 2 * (n * n)) × (length d.old ≡ n) }
    ensures { d.new ≡ spec.diagonal n (entries a.now) }
{
    for (k, x) in d.iter_mut().enumerate() {
        *x = entries::read(a, n, k, k).re;
    }
}

// Row i of v with its columns in this order, into row i of a.
fn columns_row(v: &[f64], order: &[usize], n: usize, i: usize, a: &mut [f64])
    requires { (length a.old ≡ 2 * (n * n)) × (length v.now ≡ 2 * (n * n)) × (length order.now ≡ n) × (i < n) × ((k : ℕ) → k < n → get_or order.now k 0 < n) }
    ensures { entries a.new ≡ laid_row n (λ i j. entry_at n (entries v.now) i (get_or order.now j 0)) i (entries a.old) }
{
    for (j, k) in order.iter().enumerate() {
        entries::write(a, n, i, j, entries::read(v, n, i, *k));
    }
}

// The columns of v in this order, into a.
fn columns(v: &[f64], order: &[usize], n: usize, a: &mut [f64])
    requires { (length a.old ≡ 2 * (n * n)) × (length v.now ≡ 2 * (n * n)) × (length order.now ≡ n) × ((k : ℕ) → k < n → get_or order.now k 0 < n) }
    ensures { entries a.new ≡ spec.columns_in order.now n (entries v.now) }
{
    for i in 0..n {
        columns_row(v, order, n, i, a);
    }
}

// The eigenvalues on the diagonal of a, ascending, into w, and their order.
fn ascend(a: &[f64], n: usize, order: &mut [usize], w: &mut [f64])
    requires { (length a.now ≡ 2 * (n * n)) × (length order.old ≡ n) × (length w.old ≡ n) × (n ≤ 16) }
    ensures { (order.new ≡ order_of (spec.diagonal n (entries a.now)) n) × (w.new ≡ sorted (spec.diagonal n (entries a.now))) }
{
    let mut d = [0.0; 16];
    let d = &mut d[..n];
    diagonal(a, n, d);
    sorting::arrange(false, d, order, w);
}

/// The eigenvalues of the n by n Hermitian matrix in `a`, ascending, into `w`, and their vectors, in
/// columns, into `a`. `v` is room; what is left in it is not said, nor, where the rotations are used
/// up, what is left in `a` and `w`.
pub fn eigen(
    a: &mut [f64],
    n: usize,
    tolerance: f64,
    rotations: u64,
    v: &mut [f64],
    w: &mut [f64],
) -> Result<(), NotConverged>
    requires { (length a.old ≡ 2 * (n * n)) × (length v.old ≡ 2 * (n * n)) × (length w.old ≡ n) × (0 < n) × (n ≤ 16) }
    ensures { spec.told (is_ok result) w.new (entries a.new) ≡ spec.eig_of n tolerance rotations (entries a.old) }
{
    let mut order = [0; 16];
    let order = &mut order[..n];
    unit(v, n);
    run(a, v, n, n, tolerance, rotations)?;
    ascend(a, n, order, w);
    columns(v, order, n, a);
    Ok(())
}

/// The eigenvalues alone, into `w`: those that `eigen` gives, without the vectors. What is left in `a`
/// is not said, nor, where the rotations are used up, what is left in `w`.
pub fn eigenvalues(
    a: &mut [f64],
    n: usize,
    tolerance: f64,
    rotations: u64,
    w: &mut [f64],
) -> Result<(), NotConverged>
    requires { (length a.old ≡ 2 * (n * n)) × (length w.old ≡ n) × (0 < n) × (n ≤ 16) }
    ensures { spec.told_values (is_ok result) w.new ≡ spec.values_of (spec.eig_of n tolerance rotations (entries a.old)) }
{
    let mut order = [0; 16];
    run(a, &mut [], 0, n, tolerance, rotations)?;
    ascend(a, n, &mut order[..n], w);
    Ok(())
}
