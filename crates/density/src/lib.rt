// The density matrix nearest to an estimate (kind 2).
#![tactic(auto, using(lists::proofs::Folding::fold_more), unfolding(lists::specs::Fold::fold, entries::specs::Laid::laid_row, entries::specs::Laid::changed_row, crate::specs::Projection::halved_at, crate::specs::Steps::with_row))]

ghost use Rattle.std.specs.Prelude.{◌≡◌, ◌*◌, ◌≤◌, ◌<◌, length};
ghost use Rattle.lists.specs.Build.{over};
ghost use Rattle.entries.specs.Entries.{entries};
ghost use Rattle.entries.specs.Laid.{laid_row};
ghost use Rattle.density.specs.Projection as spec;
ghost use Rattle.density.specs.Steps as steps;

use complex::Complex;
use refusal::Refusal;

fn halved_at(e: &[f64], n: usize, i: usize, j: usize) -> Complex
    requires { (length e.now ≡ 2 * (n * n)) × (i < n) × (j < n) }
    ensures { result ≡ spec.halved_at n (entries e.now) i j }
{
    (entries::read(e, n, i, j) + entries::read(e, n, j, i).conjugate()) * 0.5
}

// Row i of the Hermitian part.
fn halve_row(e: &[f64], n: usize, i: usize, h: &mut [f64])
    requires { (length e.now ≡ 2 * (n * n)) × (length h.old ≡ 2 * (n * n)) × (i < n) }
    ensures { entries h.new ≡ laid_row n (spec.halved_at n (entries e.now)) i (entries h.old) }
{
    // By places, here and below: see crate entries.
    for j in 0..n {
        entries::write(h, n, i, j, halved_at(e, n, i, j));
    }
}

// The Hermitian part of the estimate e, into h.
fn halve(e: &[f64], n: usize, h: &mut [f64])
    requires { (length e.now ≡ 2 * (n * n)) × (length h.old ≡ 2 * (n * n)) }
    ensures { entries h.new ≡ spec.halved n (entries e.now) }
{
    for i in 0..n {
        halve_row(e, n, i, h);
    }
}

// The conjugates of column k, into u, so that the sum goes along rows.
fn conjugate_column(v: &[f64], n: usize, k: usize, u: &mut [f64])
    requires { (length v.now ≡ 2 * (n * n)) × (length u.old ≡ 2 * n) × (k < n) }
    ensures { entries u.new ≡ steps.conjugates n (entries v.now) k }
{
    for j in 0..n {
        entries::put(u, j, entries::read(v, n, j, k).conjugate());
    }
}

// Adds x times u to row i.
fn add_row(x: Complex, u: &[f64], n: usize, i: usize, out: &mut [f64])
    requires { (length u.now ≡ 2 * n) × (length out.old ≡ 2 * (n * n)) × (i < n) }
    ensures { entries out.new ≡ steps.with_row n x (entries u.now) i (entries out.old) }
{
    for j in 0..n {
        let sum = entries::read(out, n, i, j);
        entries::write(out, n, i, j, sum + x * entries::get(u, j));
    }
}

// Adds the term of column k and the probability p; u is room for a row.
fn add_term(v: &[f64], n: usize, k: usize, p: f64, u: &mut [f64], out: &mut [f64])
    requires { (length v.now ≡ 2 * (n * n)) × (length u.old ≡ 2 * n) × (length out.old ≡ 2 * (n * n)) × (k < n) }
    ensures { entries out.new ≡ steps.with_term n (entries v.now) k p (entries out.old) }
{
    conjugate_column(v, n, k, u);
    for i in 0..n {
        add_row(entries::read(v, n, i, k) * p, u, n, i, out);
    }
}

// The mixture of the columns of v with the probabilities p, into out.
fn mix(v: &[f64], n: usize, p: &[f64], out: &mut [f64])
    requires { (length v.now ≡ 2 * (n * n)) × (length p.now ≡ n) × (length out.old ≡ 2 * (n * n)) × (n ≤ 16) }
    ensures { entries out.new ≡ spec.mixed n (entries v.now) p.now }
{
    let mut u = [0.0; 32];
    let u = &mut u[..2 * n];
    out.fill(0.0);
    for (k, x) in p.iter().enumerate() {
        add_term(v, n, k, *x, u, out);
    }
}

// The projection at the front of `out`, once estimate and tolerance are admitted. Each of its two rooms
// has ROOM numbers.
fn project<const ROOM: usize>(
    e: &[f64],
    n: usize,
    tolerance: f64,
    rotations: u64,
    out: &mut [f64],
) -> Result<(), Refusal>
    requires { (length e.now ≡ 2 * (n * n)) × (0 < n) × (n ≤ 16) × (2 * (n * n) ≤ length out.old) × (2 * (n * n) ≤ ROOM) × (ROOM ≤ 512) }
    ensures { (result ≡ spec.spectral_verdict n (spec.spectrum_of n tolerance rotations e.now))
        × (out.new ≡ over (spec.where_good result (spec.spectral_numbers n (spec.spectrum_of n tolerance rotations e.now))) out.old) }
{
    let mut v = [0.0; ROOM];
    let mut w = [0.0; 16];
    let mut r = [0.0; ROOM];
    let v = &mut v[..e.len()];
    let w = &mut w[..n];
    let r = &mut r[..e.len()];
    halve(e, n, v);
    eigen::eigen(v, n, tolerance, rotations, r, w).map_err(|_| Refusal::EigensolverDidNotConverge)?;
    filling::fill(w);
    mix(v, n, w, r);
    refusal::finite_or(Refusal::Operator, r)?;
    out[..r.len()].copy_from_slice(r);
    Ok(())
}

// Tests estimate and tolerance.
#[tactic(auto, using(refusal::proofs::Verdicts::passed_on, crate::proofs::Outcome::not_finite, crate::proofs::Outcome::by_tolerance))]
fn admit(tolerance: f64, e: &[f64]) -> Result<(), Refusal>
    ensures { result ≡ spec.admission tolerance e.now }
{
    refusal::finite_or(Refusal::NonFinite, e)?;
    refusal::check_tolerance(tolerance)
}

/// The Rust's `project_density_with_tolerance`, with a limit on the rotations of `eig`. A good call
/// leaves the density matrix at the front of `out`, real and imaginary part of each entry by rows; a
/// refused one leaves `out` as it is. ROOM numbers have to hold a matrix; setting many to zero is no
/// small part of a projection at d 4.
pub fn project_density<const ROOM: usize>(
    estimate: &[f64],
    d: usize,
    tolerance: f64,
    rotations: u64,
    out: &mut [f64],
) -> Result<(), Refusal>
    requires { (length estimate.now ≡ 2 * (d * d)) × (0 < d) × (d ≤ 16) × (2 * (d * d) ≤ length out.old) × (2 * (d * d) ≤ ROOM) × (ROOM ≤ 512) }
    ensures { (result ≡ spec.projected_verdict d tolerance rotations estimate.now) × (out.new ≡ over (spec.projected_numbers d tolerance rotations estimate.now) out.old) }
{
    admit(tolerance, estimate)?;
    project::<ROOM>(estimate, d, tolerance, rotations, out)
}
