// Complex matrices in slices of numbers, real and imaginary part of each entry. Loops over them go by places, as an entry is two numbers of the slice. Here and in the
// crates above a matrix is passed as its slice and its size n: public functions take any slice, and private ones with a struct of both would promise besides that n
// stays.
#![tactic(auto)]

ghost use Rattle.std.specs.Prelude.{◌≡◌, ◌+◌, ◌*◌, ◌<◌, length, get_or, set};
ghost use Rattle.entries.specs.Entries.{entries, entry_at, nowhere};

use complex::Complex;

// Entry k.
pub fn get(a: &[f64], k: usize) -> Complex
    requires { 2 * k + 1 < length a.now }
    ensures { result ≡ get_or (entries a.now) k nowhere }
{
    Complex {
        re: a[2 * k],
        im: a[2 * k + 1],
    }
}

// Stores z as entry k.
pub fn put(a: &mut [f64], k: usize, z: Complex)
    requires { 2 * k + 1 < length a.old }
    ensures { entries a.new ≡ set (entries a.old) k z }
{
    a[2 * k] = z.re;
    a[2 * k + 1] = z.im;
}

// Entry (i, j) of a matrix with n columns.
pub fn read(a: &[f64], n: usize, i: usize, j: usize) -> Complex
    requires { 2 * (i * n + j) + 1 < length a.now }
    ensures { result ≡ entry_at n (entries a.now) i j }
{
    get(a, i * n + j)
}

// Stores z as entry (i, j).
pub fn write(a: &mut [f64], n: usize, i: usize, j: usize, z: Complex)
    requires { 2 * (i * n + j) + 1 < length a.old }
    ensures { entries a.new ≡ set (entries a.old) (i * n + j) z }
{
    put(a, i * n + j, z);
}
