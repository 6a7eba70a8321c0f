// Products of vectors and matrices that lie by rows in slices of numbers. Each is written once, for every size. A matrix is
// passed as its slice and its size n, since `by_size` passes n on as a constant, which the field of a struct would not be.
#![tactic(auto)]

ghost use Rattle.std.specs.Prelude.{◌≡◌, ◌++◌, ◌+◌, ◌*◌, ◌^◌, ◌≤◌, ◌<◌, length, take, drop};
ghost use Rattle.std.specs.List.{fold, zip};
ghost use Rattle.lists.specs.Build.{build};
ghost use Rattle.numbers.specs.Number.{◌+ᶠ◌, ◌*ᶠ◌};
ghost use Rattle.numbers.specs.Slice.{at};
ghost use Rattle.matrix.specs.Product.{cell, dot_of, mat_vec_of, row_mat_of, mat_mul_of, transposed_of};

use std::ops::Range;

// Calls f at the size n. The sizes of one and two qubits, 4 and 16, are passed on as constants, so that the compiler unrolls the loops of f and keeps a row
// in registers. f is lent: of a closure that is moved in, the caller does not learn what it wrote.
pub fn by_size<R, F: FnMut(usize) -> R>(n: usize, f: &mut F) -> R
    requires { F.pre f.old n }
    ensures { F.step f.old n result f.new }
{
    match n {
        4 => f(4),
        16 => f(16),
        _ => f(n),
    }
}

// The places of row i, where rows of w numbers lie one after the other. Loops over rows go by these places: of what `chunks_exact_mut` lends, std tells nothing
// afterwards, and it refuses rows of no number.
pub fn row(i: usize, w: usize) -> Range<usize>
    requires { i * w + w < 2 ^ 64 }
    ensures { (result.start ≡ i * w) × (result.end ≡ i * w + w) }
{
    let start = i * w;
    start..start + w
}

// s and the products of the entries of a and b, added up one after the other.
fn with_products(s: f64, a: &[f64], b: &[f64]) -> f64
    ensures { result ≡ fold (λ s p. s +ᶠ p.0 *ᶠ p.1) s (zip a.now b.now) }
{
    a.iter().zip(b).fold(s, |s, (x, y)| s + x * y)
}

// a · b, over the entries of a. b is cut to their number, so that the compiler sees one bound.
pub fn dot(a: &[f64], b: &[f64]) -> f64
    requires { length a.now ≤ length b.now }
    ensures { result ≡ dot_of (length a.now) a.now b.now }
{
    with_products(-0.0, a, &b[..a.len()])
}

// Row after row of a, times x.
fn mat_vec_of(a: &[f64], x: &[f64], n: usize, out: &mut [f64])
    requires { (n ≤ 16) × (n * n ≤ length a.now) × (n ≤ length x.now) × (n ≤ length out.old) }
    ensures { out.new ≡ mat_vec_of n a.now x.now ++ drop n out.old }
{
    for (i, y) in out[..n].iter_mut().enumerate() {
        *y = dot(&a[row(i, n)], x);
    }
}

// The matrix a times the column x, into the first n numbers of `out`.
pub fn mat_vec(a: &[f64], x: &[f64], n: usize, out: &mut [f64])
    requires { (n ≤ 16) × (n * n ≤ length a.now) × (n ≤ length x.now) × (n ≤ length out.old) }
    ensures { out.new ≡ mat_vec_of n a.now x.now ++ drop n out.old }
{
    by_size(n, &mut |n| mat_vec_of(a, x, n, out))
}

// Adds f times another row.
fn add_row(row: &mut [f64], f: f64, other: &[f64])
    requires { length row.old ≤ length other.now }
    ensures { row.new ≡ build (length row.old) (λ j. at row.old j +ᶠ f *ᶠ at other.now j) }
{
    for (j, x) in row.iter_mut().enumerate() {
        *x += f * other[j];
    }
}

// The rows of a, each times its number of x, added up row by row: for each entry the same sum in the same order.
fn add_rows(x: &[f64], a: &[f64], n: usize, sums: &mut [f64])
    requires { (n ≤ 16) × (n ≤ length x.now) × (n * n ≤ length a.now) × (length sums.old ≡ n) }
    ensures { sums.new ≡ row_mat_of n x.now a.now }
{
    sums.fill(-0.0);
    for (i, f) in x[..n].iter().enumerate() {
        add_row(sums, *f, &a[row(i, n)]);
    }
}

// The same, in a local array, which no other slice overlaps.
fn sums_of(x: &[f64], a: &[f64], n: usize) -> [f64; 16]
    requires { (n ≤ 16) × (n ≤ length x.now) × (n * n ≤ length a.now) }
    ensures { take n result ≡ row_mat_of n x.now a.now }
{
    let mut sums = [0.0; 16];
    add_rows(x, a, n, &mut sums[..n]);
    sums
}

// The row x times the matrix a, in place.
pub fn row_times(x: &mut [f64], a: &[f64], n: usize)
    requires { (n ≤ 16) × (length x.old ≡ n) × (n * n ≤ length a.now) }
    ensures { x.new ≡ row_mat_of n x.old a.now }
{
    by_size(
        n,
        &mut |n| {
            let sums = sums_of(x, a, n);
            x.copy_from_slice(&sums[..n]);
        },
    )
}

// The row x times the matrix a, into the first n numbers of `out`.
pub fn row_mat(x: &[f64], a: &[f64], n: usize, out: &mut [f64])
    requires { (n ≤ 16) × (n ≤ length x.now) × (n * n ≤ length a.now) × (n ≤ length out.old) }
    ensures { out.new ≡ row_mat_of n x.now a.now ++ drop n out.old }
{
    by_size(n, &mut |n| out[..n].copy_from_slice(&sums_of(x, a, n)[..n]))
}

// Writes the row over with the front of `from`.
pub fn put_row(row: &mut [f64], from: &[f64])
    requires { length row.old ≤ length from.now }
    ensures { row.new ≡ take (length row.old) from.now }
{
    row.copy_from_slice(&from[..row.len()]);
}

// Row after row of a, times b.
fn mat_mul_of(a: &[f64], b: &[f64], n: usize, out: &mut [f64])
    requires { (n ≤ 16) × (n * n ≤ length a.now) × (n * n ≤ length b.now) × (n * n ≤ length out.old) }
    ensures { out.new ≡ mat_mul_of n a.now b.now ++ drop (n * n) out.old }
{
    // By places: see `row`.
    for i in 0..n {
        let sums = sums_of(&a[row(i, n)], b, n);
        out[row(i, n)].copy_from_slice(&sums[..n]);
    }
}

// The product of the matrices a and b, into the first n * n numbers of `out`.
pub fn mat_mul(a: &[f64], b: &[f64], n: usize, out: &mut [f64])
    requires { (n ≤ 16) × (n * n ≤ length a.now) × (n * n ≤ length b.now) × (n * n ≤ length out.old) }
    ensures { out.new ≡ mat_mul_of n a.now b.now ++ drop (n * n) out.old }
{
    by_size(n, &mut |n| mat_mul_of(a, b, n, out))
}

// Column j of the matrix a.
fn put_column(a: &[f64], n: usize, j: usize, row: &mut [f64])
    requires { (n ≤ 16) × (n * n ≤ length a.now) × (j < n) × (length row.old ≡ n) }
    ensures { row.new ≡ build n (λ i. cell n a.now i j) }
{
    for (i, x) in row.iter_mut().enumerate() {
        *x = a[i * n + j];
    }
}

// Column after column of a, each as a row.
fn transpose_of(a: &[f64], n: usize, out: &mut [f64])
    requires { (n ≤ 16) × (n * n ≤ length a.now) × (n * n ≤ length out.old) }
    ensures { out.new ≡ transposed_of n a.now ++ drop (n * n) out.old }
{
    // By places: see `row`.
    for j in 0..n {
        put_column(a, n, j, &mut out[row(j, n)]);
    }
}

// The transpose of the matrix a, into the first n * n numbers of `out`.
pub fn transpose(a: &[f64], n: usize, out: &mut [f64])
    requires { (n ≤ 16) × (n * n ≤ length a.now) × (n * n ≤ length out.old) }
    ensures { out.new ≡ transposed_of n a.now ++ drop (n * n) out.old }
{
    by_size(n, &mut |n| transpose_of(a, n, out))
}
