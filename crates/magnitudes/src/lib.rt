//! The pivot of classical Jacobi: the largest magnitude above the diagonal. A rotation changes the
//! magnitudes of two rows and two columns; the others are kept from one rotation to the next.
#![tactic(auto, using(lists::proofs::Folding::fold_more), unfolding(crate::specs::Pivot::larger, crate::specs::Kept::put, crate::specs::Kept::filled_row, crate::specs::Kept::filled, crate::specs::Kept::renewed_row, crate::specs::Kept::renewed, crate::specs::Kept::column_found, crate::specs::Kept::row_found, lists::specs::Fold::fold))]

ghost use Rattle.std.specs.Prelude.{◌≡◌, ◌+◌, ◌*◌, ◌<◌, ◌≤◌, List, length};
ghost use Rattle.complex.specs.declared.Complex.{Complex as Entry};
ghost use Rattle.lists.specs.Build.{build};
ghost use Rattle.entries.specs.Entries.{entries};
ghost use Rattle.magnitudes.specs.Pivot as spec;
ghost use Rattle.magnitudes.specs.Kept as kept;

use complex::Complex;
use std::simd::prelude::*;

/// The place (p, q) of the largest magnitude above the diagonal, and that magnitude.
#[derive(Clone, Copy, Debug, PartialEq)]
pub struct Pivot {
    pub best: f64,
    pub p: usize,
    pub q: usize,
}

/// The magnitudes of a matrix of up to 16 rows. Cells (i, j) and (j, i) hold that of the entry above
/// the diagonal, and the diagonal holds 0. A row is 16 numbers wide whatever the matrix.
#[derive(Drop)]
pub struct Magnitudes {
    pub cells: [f64; 256],
}

/// The largest magnitude of the n by n matrix in `a`, and at least the smallest normal number.
pub fn scale(a: &[f64], n: usize) -> f64
    requires { length a.now ≡ 2 * (n * n) }
    ensures { result ≡ spec.scale_of n (entries a.now) }
{
    let (entries, _) = a.as_chunks::<2>();
    let mut s = 0.0;
    for [re, im] in entries {
        let z = Complex { re: *re, im: *im };
        s = numbers::max_of(s, z.magnitude());
    }
    numbers::max_of(s, f64::MIN_POSITIVE)
}

impl Pivot {
    // No place yet.
    fn none() -> Pivot
        ensures { result ≡ spec.no_pivot }
    {
        Pivot {
            best: 0.0,
            p: 0,
            q: 0,
        }
    }

    // Place (i, j) instead, where its magnitude x is larger.
    fn or(self, x: f64, i: usize, j: usize) -> Pivot
        ensures { result ≡ spec.larger x i j self }
    {
        if self.best < x {
            return Pivot {
                best: x,
                p: i,
                q: j,
            };
        }
        self
    }
}

impl Magnitudes {
    /// Those of the n by n matrix in `a`.
    pub fn of(a: &[f64], n: usize) -> Self
        requires { (length a.now ≡ 2 * (n * n)) × (n ≤ 16) }
        ensures { result.cells ≡ kept.filled n (entries a.now) }
    {
        let mut magnitudes = Magnitudes { cells: [0.0; 256] };
        for i in 0..n {
            magnitudes.fill_row(a, n, i);
        }
        magnitudes
    }

    // Row i, right of the diagonal.
    fn fill_row(&mut self, a: &[f64], n: usize, i: usize)
        requires { (length a.now ≡ 2 * (n * n)) × (n ≤ 16) × (i < n) }
        ensures { self.new.cells ≡ kept.filled_row n (entries a.now) i self.old.cells }
    {
        for j in i + 1..n {
            self.put(i, j, entries::read(a, n, i, j).magnitude());
        }
    }

    // x in cells (i, j) and (j, i).
    fn put(&mut self, i: usize, j: usize, x: f64)
        requires { (i < 16) × (j < 16) }
        ensures { self.new.cells ≡ kept.put i j x self.old.cells }
    {
        self.cells[i * 16 + j] = x;
        self.cells[j * 16 + i] = x;
    }

    // Columns p and q of row i.
    fn renew_row(&mut self, a: &[f64], n: usize, p: usize, q: usize, i: usize)
        requires { (length a.now ≡ 2 * (n * n)) × (n ≤ 16) × (p < n) × (q < n) × (i < n) }
        ensures { self.new.cells ≡ kept.renewed_row n (entries a.now) p q i self.old.cells }
    {
        let x = entries::read(a, n, i, p);
        let y = entries::read(a, n, i, q);
        let re = f64x2::from_array([x.re, y.re]);
        let im = f64x2::from_array([x.im, y.im]);
        let [x, y] = complex::magnitudes_of(re, im).to_array();
        self.put(i, p, x);
        self.put(i, q, y);
    }

    /// Works out anew those of rows and columns p and q of the n by n matrix in `a`, whose rows p and q
    /// are the conjugates of its columns p and q. The others stay.
    pub fn renew(&mut self, a: &[f64], n: usize, p: usize, q: usize)
        requires { (length a.now ≡ 2 * (n * n)) × (n ≤ 16) × (p < n) × (q < n) }
        ensures { self.new.cells ≡ kept.renewed n (entries a.now) p q self.old.cells }
    {
        for i in 0..n {
            self.renew_row(a, n, p, q, i);
        }
        self.put(p, p, 0.0);
        self.put(q, q, 0.0);
    }

    // The largest magnitude below the diagonal, and maybe of some above it, of each of columns 8 half to
    // 8 half + 7, side by side. Rows up to 8 half hold none below it.
    fn eight_columns(&self, n: usize, half: usize) -> f64x8
        requires { (n ≤ 16) × (half ≤ 1) }
        ensures { result ≡ build 8 (kept.largest_in n self.now.cells half) }
    {
        let mut largest = f64x8::splat(0.0);
        for j in half * 8 + 1..n {
            let row = f64x8::from_slice(&self.cells[j * 16 + half * 8..]);
            largest = largest.simd_lt(row).select(row, largest);
        }
        largest
    }

    // The same of each column.
    fn columns(&self, n: usize) -> [f64; 16]
        requires { n ≤ 16 }
        ensures { result ≡ build 16 (kept.column n self.now.cells) }
    {
        let mut columns = [0.0; 16];
        columns[..8].copy_from_slice(&self.eight_columns(n, 0).to_array());
        columns[8..].copy_from_slice(&self.eight_columns(n, 1).to_array());
        columns
    }

    // The first column with the largest magnitude, as the pivot's p.
    fn column(&self, n: usize) -> Pivot
        requires { n ≤ 16 }
        ensures { result ≡ kept.column_found n self.now.cells }
    {
        let columns = self.columns(n);
        let mut g = Pivot::none();
        for (c, x) in columns[..n].iter().enumerate() {
            g = g.or(*x, c, 0);
        }
        g
    }

    // The first of the largest magnitudes in row p, right of the diagonal.
    fn row(&self, n: usize, p: usize) -> Pivot
        requires { (n ≤ 16) × (p < n) }
        ensures { result ≡ kept.row_found n self.now.cells p }
    {
        let mut g = Pivot::none();
        for q in p + 1..n {
            g = g.or(self.cells[p * 16 + q], p, q);
        }
        g
    }

    /// The first of the largest magnitudes above the diagonal, by rows.
    pub fn pivot(&self, n: usize) -> Pivot
        requires { (0 < n) × (n ≤ 16) }
        ensures pivot { (a : List Entry) → kept.Kept n a self.now.cells → result ≡ spec.pivot_of n a }
        ensures largest { (a : List Entry) → kept.Kept n a self.now.cells → spec.IsPivot n a result }
    {
        self.row(n, self.column(n).p)
    }
}
