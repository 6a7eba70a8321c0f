// The row operations of Gauss-Jordan elimination. A row is lent as a part of the work slice; a row that another one needs is copied to a local array.
// They are written once, for every size. The sizes of one and two qubits, 4 and 16, are passed on as constants, so that the compiler unrolls their loops.
#![tactic(auto)]

ghost use Rattle.std.specs.Prelude.{◌≡◌, ◌++◌, ◌+◌, ◌*◌, ◌≤◌, ◌<◌, length, drop};
ghost use Rattle.lists.specs.Fold.{fold};
ghost use Rattle.lists.specs.Part.{part, on_part};
ghost use Rattle.elimination.specs.Rows.{on_row, less_row};
ghost use Rattle.elimination.specs.Kept.{quotients, kept_part, kept_row, kept_cleared};

use matrix::row;

// Copies w numbers from `start` on to the front of `out`.
pub fn copy_row(from: &[f64], start: usize, w: usize, out: &mut [f64])
    requires { (start + w ≤ length from.now) × (w ≤ length out.old) }
    ensures { out.new ≡ part start w from.now ++ drop w out.old }
{
    out[..w].copy_from_slice(&from[start..start + w]);
}

// Copies m numbers from place `from` on over those from place `to` on. With std's `copy_within` the compiler no longer unrolls a step by size: it took 1.4 times
// the instructions.
fn move_part(work: &mut [f64], from: usize, to: usize, m: usize)
    requires { (m ≤ 18) × (from + m ≤ length work.old) × (to + m ≤ length work.old) }
    ensures { work.new ≡ on_part to m (λ _. part from m work.old) work.old }
{
    if to == from {
        return;
    }
    let mut row = [0.0; 18];
    copy_row(work, from, m, &mut row);
    matrix::put_row(&mut work[to..to + m], &row);
}

// The pivot's row, divided by its first number, with one added to number n, where the identity has its 1.
fn divide_row(row: &[f64], n: usize, out: &mut [f64])
    requires { (length row.now ≡ n + 2) × (length out.old ≡ n + 2) }
    ensures { out.new ≡ quotients n row.now }
{
    let d = row[0];
    for (j, x) in out.iter_mut().enumerate() {
        *x = row[j] / d;
    }
    out[n] = (row[n] + 1.0) / d;
}

// Takes f times the pivot row from the row.
fn subtract_row(row: &mut [f64], pivot: &[f64], f: f64)
    requires { length row.old ≤ length pivot.now }
    ensures { row.new ≡ less_row pivot.now f row.old }
{
    for (j, x) in row.iter_mut().enumerate() {
        *x -= f * pivot[j];
    }
}

// The numbers of row i that count, after step k.
fn keep_part(row: &mut [f64], pivot: &[f64], k: usize, i: usize)
    requires { (0 < length row.old) × (length pivot.now ≡ length row.old) }
    ensures { row.new ≡ kept_part k pivot.now i row.old }
{
    if i == k {
        row.copy_from_slice(pivot);
    } else {
        let f = row[0];
        subtract_row(row, pivot, f);
    }
}

// Row i after step k.
fn keep_row(row: &mut [f64], pivot: &[f64], n: usize, k: usize, i: usize)
    requires { (n ≤ 16) × (k < n) × (length row.old ≡ 2 * n + 2) × (length pivot.now ≡ n + 2) }
    ensures { row.new ≡ kept_row n k pivot.now i row.old }
{
    let end = k + n + 2;
    keep_part(&mut row[k..end], pivot, k, i);
    row[end] = row[k + n + 1];
}

// Every row after step k.
fn keep_rows(work: &mut [f64], pivot: &[f64], n: usize, k: usize)
    requires { (n ≤ 16) × (k < n) × (n * (2 * n + 2) ≤ length work.old) × (length pivot.now ≡ n + 2) }
    ensures { work.new ≡ fold n (λ i. on_row (2 * n + 2) i (kept_row n k pivot.now i)) work.old }
{
    let w = 2 * n + 2;
    // By places: see `matrix::row`.
    for i in 0..n {
        keep_row(&mut work[row(i, w)], pivot, n, k, i);
    }
}

// The pivot's row, divided, goes to a local array, and row k to its place; then each row is lent in turn. Inlined, so that each size gets code of its own: an
// inverse takes 0.7 of the instructions, at 4 and at 16.
#[inline(always)]
fn clear_by(work: &mut [f64], n: usize, k: usize, p: usize)
    requires { (n ≤ 16) × (k < n) × (p < n) × (n * (2 * n + 2) ≤ length work.old) }
    ensures { work.new ≡ kept_cleared n k p work.old }
{
    let w = 2 * n + 2;
    let m = n + 2;
    let mut pivot = [0.0f64; 18];
    let from = p * w + k;
    let until = from + m;
    divide_row(&work[from..until], n, &mut pivot[..m]);
    move_part(work, k * w + k, from, m);
    keep_rows(work, &pivot[..m], n, k);
}

// Clears column k of n kept rows by the pivot in row p.
pub fn clear_column(work: &mut [f64], n: usize, k: usize, p: usize)
    requires { (n ≤ 16) × (k < n) × (p < n) × (n * (2 * n + 2) ≤ length work.old) }
    ensures { work.new ≡ kept_cleared n k p work.old }
{
    // Not by `matrix::by_size`: a closure takes no hint on inlining, and an inverse took 1.4 times the instructions.
    match n {
        16 => clear_by(work, 16, k, p),
        4 => clear_by(work, 4, k, p),
        _ => clear_by(work, n, k, p),
    }
}
