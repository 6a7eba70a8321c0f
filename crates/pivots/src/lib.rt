// The search for a pivot, and the largest size of a matrix. Sizes are compared without branches on their signs.
#![tactic(auto)]

ghost use Rattle.std.specs.Prelude.{◌≡◌, cond, ◌+◌, ◌*◌, ◌≤◌, ◌<◌, length};
ghost use Rattle.std.specs.Float.Ieee.{lt};
ghost use Rattle.numbers.specs.Slice.{at};
ghost use Rattle.pivots.specs.Pivots.{scale_of, pivot_row, magnitude, stays_largest};

// x without its sign, but for a -0.
fn size_of(x: f64) -> f64
    ensures { result ≡ magnitude x }
{
    if x < 0.0 { -x } else { x }
}

// The size s, or x where it is above s.
fn larger(s: f64, x: f64) -> f64
    ensures { result ≡ cond (lt s x) x s }
{
    if s < x { x } else { s }
}

// The largest size of a row.
fn row_scale(row: &[f64]) -> f64
    ensures { result ≡ scale_of (length row.now) row.now }
{
    let mut s = 0.0;
    for x in row {
        s = larger(s, size_of(*x));
    }
    s
}

// The largest size of n rows of n numbers. Each row starts from zero, so that the processor need not wait for the row before.
pub fn scale_of(a: &[f64], n: usize) -> f64
    requires { (n ≤ 16) × (n * n ≤ length a.now) }
    ensures { result ≡ scale_of (n * n) a.now }
{
    let mut s = 0.0;
    // By places, since `chunks_exact` refuses rows of no number.
    for i in 0..n {
        let start = i * n;
        s = larger(s, row_scale(&a[start..start + n]));
    }
    s
}

// The size of entry k of row i.
pub fn size_at(work: &[f64], n: usize, w: usize, k: usize, i: usize) -> f64
    requires { (k < w) × (i < n) × (n * w ≤ length work.now) }
    ensures { result ≡ magnitude (at work.now (i * w + k)) }
{
    size_of(work[i * w + k])
}

// Whether the size s stays the largest beside x.
fn stays_largest(x: f64, s: f64) -> bool
    ensures { result ≡ stays_largest x s }
{
    if x < s {
        return true;
    }
    if x.is_nan() {
        return false;
    }
    s.is_nan()
}

// The one that is kept, or the other.
fn chosen<T: Copy>(keep: bool, kept: T, other: T) -> T
    ensures { result ≡ cond keep kept other }
{
    if keep { kept } else { other }
}

// The pivot's row in column k. The loop carries the row of the largest entry so far with that entry's size.
pub fn pivot_row(work: &[f64], n: usize, w: usize, k: usize) -> usize
    requires { (k < n) × (k < w) × (n * w ≤ length work.now) }
    ensures { (result ≡ pivot_row n w k work.now) × (result < n) }
{
    let m = n - k;
    let mut p = k;
    let mut size = size_at(work, n, w, k, k);
    // By places: the entries of a column stand w numbers apart, and the place of the largest is what is sought.
    for t in 0..m {
        let x = size_at(work, n, w, k, k + t);
        let keep = stays_largest(x, size);
        p = chosen(keep, p, k + t);
        size = chosen(keep, size, x);
    }
    p
}
