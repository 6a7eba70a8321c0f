// The inverse of a real matrix by Gauss-Jordan elimination, on kept rows.
#![tactic(auto, using(lists::proofs::Filling::fill_none, lists::proofs::Filling::fill_more, lists::proofs::Filling::map_more, lists::proofs::Rows::rows_none), unfolding(crate::specs::Kept::relabelled))]

ghost use Rattle.std.specs.Prelude.{◌≡◌, ◌++◌, ℕ, ◌+◌, ◌*◌, ◌≤◌, ◌<◌, true, length, get_or, drop, is_ok};
ghost use Rattle.lists.specs.Build.{build, over};
ghost use Rattle.lists.specs.Fold.{fold};
ghost use Rattle.inversion.specs.Inversion.{beside_identity, Reduction, rows, column_reduced, invertible, inverse_of};
ghost use Rattle.inversion.specs.Kept.{start_at, start_rows, relabelled, kept_right};

use matrix::{by_size, row};

// A pivot is too small beside the largest size.
#[derive(Clone, Copy, Debug, PartialEq, Eq)]
pub struct Singular;

// Row i of the matrix, and zeros.
fn start_row(a: &[f64], n: usize, i: usize, entries: &mut [f64])
    requires { (n ≤ 16) × (i < n) × (n * n ≤ length a.now) × (length entries.old ≡ 2 * n + 2) }
    ensures { entries.new ≡ build (2 * n + 2) (start_at n a.now i) }
{
    entries[..n].copy_from_slice(&a[row(i, n)]);
    numbers::clear(&mut entries[n..]);
}

// The rows before the first step: each is lent as a part of the work slice.
fn start_rows_of(a: &[f64], n: usize, work: &mut [f64])
    requires { (n ≤ 16) × (n * n ≤ length a.now) × (length work.old ≡ n * (2 * n + 2)) }
    ensures { work.new ≡ start_rows n a.now }
{
    let w = 2 * n + 2;
    // By places: see `matrix::row`.
    for i in 0..n {
        start_row(a, n, i, &mut work[row(i, w)]);
    }
}

// The same, by size.
fn start_rows(a: &[f64], n: usize, work: &mut [f64])
    requires { (n ≤ 16) × (n * n ≤ length a.now) × (length work.old ≡ n * (2 * n + 2)) }
    ensures { work.new ≡ start_rows n a.now }
{
    by_size(n, &mut |n| start_rows_of(a, n, work))
}

// Before the first step column c of the right half has its 1 in row c.
fn number_places(places: &mut [usize])
    ensures { places.new ≡ build (length places.old) (λ c. c) }
{
    for (c, place) in places.iter_mut().enumerate() {
        *place = c;
    }
}

// The place q, when rows k and p change places.
fn moved(k: usize, p: usize, q: usize) -> usize
    ensures { result ≡ relabelled k p q }
{
    if q == k {
        p
    } else if q == p {
        k
    } else {
        q
    }
}

// The places of all columns, when rows k and p change places.
fn relabel(places: &mut [usize], k: usize, p: usize)
    ensures { places.new ≡ build (length places.old) (λ c. relabelled k p (get_or places.old c 0)) }
{
    if p == k {
        return;
    }
    for place in places.iter_mut() {
        *place = moved(k, p, *place);
    }
}

// The right half, each column from its place.
fn right_halves_of(work: &[f64], places: &[usize], n: usize, out: &mut [f64])
    requires { (n ≤ 16) × (n * (2 * n + 2) ≤ length work.now) × (length places.now ≡ n) × ((c : ℕ) → c < n → get_or places.now c 0 < n) × (n * n ≤ length out.old) }
    ensures { out.new ≡ kept_right n places.now work.now ++ drop (n * n) out.old }
{
    let w = 2 * n + 2;
    // By places: see `matrix::row`.
    for i in 0..n {
        let kept = &work[row(i, w)];
        numbers::gather(&kept[n..], places, &mut out[row(i, n)]);
    }
}

// The kept rows of an n by n matrix, and the places of the columns of its right half.
#[derive(Drop)]
struct Kept<'a> {
    rows: &'a mut [f64],
    places: &'a mut [usize],
    n: usize,
    ghost few: { n ≤ 16 },
    ghost whole: { length rows.now ≡ n * (2 * n + 2) },
    ghost placed: { length places.now ≡ n },
}

impl Kept<'_> {
    ghost use Rattle.inversion.specs.Held.{Held};

    // Clears column k, unless the reduction ends here.
    fn reduce_column(&mut self, k: usize, limit: f64) -> Result<(), Singular>
        requires { k < self.old.n }
        ensures { (n : ℕ) (s : Reduction) → Held n k true self.old s → Held n (k + 1) (is_ok result) self.new (column_reduced n limit k s) }
    {
        let n = self.n;
        let w = 2 * n + 2;
        let rows = &mut *self.rows;
        let p = pivots::pivot_row(rows, n, w, k);
        if pivots::size_at(rows, n, w, k, p) <= limit {
            return Err(Singular);
        }
        elimination::clear_column(rows, n, k, p);
        relabel(self.places, k, p);
        Ok(())
    }

    // The matrix a, column after column.
    fn reduce(&mut self, a: &[f64], limit: f64) -> Result<(), Singular>
        requires { self.old.n * self.old.n ≤ length a.now }
        ensures { Held self.old.n self.old.n (is_ok result) self.new (fold self.old.n (column_reduced self.old.n limit) (rows (beside_identity self.old.n a.now))) }
    {
        start_rows(a, self.n, self.rows);
        number_places(self.places);
        // By number: a step changes every row.
        for k in 0..self.n {
            self.reduce_column(k, limit)?;
        }
        Ok(())
    }

    // The right half, by size.
    fn right_half(&self, out: &mut [f64])
        requires { ((c : ℕ) → c < self.now.n → get_or self.now.places.now c 0 < self.now.n) × (self.now.n * self.now.n ≤ length out.old) }
        ensures { out.new ≡ kept_right self.now.n self.now.places.now self.now.rows.now ++ drop (self.now.n * self.now.n) out.old }
    {
        by_size(
            self.n,
            &mut |n| right_halves_of(self.rows, self.places, n, out),
        )
    }
}

// The same as `invert`, in the room for the rows that it is lent.
fn invert_within(
    a: &[f64],
    n: usize,
    threshold: f64,
    work: &mut [f64],
    out: &mut [f64],
) -> Result<(), Singular>
    requires { (n ≤ 16) × (n * n ≤ length a.now) × (n * (2 * n + 2) ≤ length work.old) × (n * n ≤ length out.old) }
    ensures { (is_ok result ≡ invertible n threshold a.now) × (out.new ≡ over (inverse_of n threshold a.now) out.old) }
{
    let scale = pivots::scale_of(a, n);
    if scale == 0.0 || !numbers::is_finite(scale) {
        return Err(Singular);
    }
    let size = n * (2 * n + 2);
    let mut places = [0usize; 16];
    let mut kept = Kept {
        rows: &mut work[..size],
        places: &mut places[..n],
        n,
    };
    kept.reduce(a, threshold * scale)?;
    kept.right_half(out);
    Ok(())
}

// The inverse of the matrix a, by rows, into the first n * n numbers of `out`; a singular matrix leaves `out` as it was.
pub fn invert(a: &[f64], n: usize, threshold: f64, out: &mut [f64]) -> Result<(), Singular>
    requires { (n ≤ 16) × (n * n ≤ length a.now) × (n * n ≤ length out.old) }
    ensures { (is_ok result ≡ invertible n threshold a.now) × (out.new ≡ over (inverse_of n threshold a.now) out.old) }
{
    if n <= 4 {
        invert_within(a, n, threshold, &mut [0.0; 40], out)
    } else {
        invert_within(a, n, threshold, &mut [0.0; 544], out)
    }
}
