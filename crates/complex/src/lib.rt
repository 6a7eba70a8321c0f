// Complex numbers, by value.
#![tactic(auto, unfolding(crate::specs::Arithmetic::plus, crate::specs::Arithmetic::minus, crate::specs::Arithmetic::times, crate::specs::Arithmetic::scaled, crate::specs::Arithmetic::divided, crate::specs::Arithmetic::conjugate))]

ghost use Rattle.std.specs.Prelude.{◌≡◌, ◌≤◌, length, map};
ghost use Rattle.std.specs.Simd.Lanes.{zip2};
ghost use Rattle.root.specs.Root.{sqrt};
ghost use Rattle.numbers.specs.Number.{zero_f};
ghost use Rattle.complex.specs.Arithmetic.{plus, minus, times, scaled, divided, conjugate, magnitude, magnitude_by};

use std::ops::{Add, Div, Mul, Sub};
use std::simd::prelude::*;

#[derive(Clone, Copy, Debug, PartialEq)]
pub struct Complex {
    pub re: f64,
    pub im: f64,
}

impl From<f64> for Complex {
    ghost from_gives = { λ x r. r ≡ record { re = x; im = zero_f } };

    fn from(re: f64) -> Complex {
        Complex { re, im: 0.0 }
    }
}

impl Add for Complex {
    type Output = Complex;

    ghost add_gives = { λ x y r. r ≡ plus x y };

    fn add(self, y: Complex) -> Complex {
        Complex {
            re: self.re + y.re,
            im: self.im + y.im,
        }
    }
}

impl Sub for Complex {
    type Output = Complex;

    ghost sub_gives = { λ x y r. r ≡ minus x y };

    fn sub(self, y: Complex) -> Complex {
        Complex {
            re: self.re - y.re,
            im: self.im - y.im,
        }
    }
}

impl Mul for Complex {
    type Output = Complex;

    ghost mul_gives = { λ x y r. r ≡ times x y };

    fn mul(self, y: Complex) -> Complex {
        Complex {
            re: self.re * y.re - self.im * y.im,
            im: self.re * y.im + self.im * y.re,
        }
    }
}

// By a real number, part by part.
impl Mul<f64> for Complex {
    type Output = Complex;

    ghost mul_gives = { λ x c r. r ≡ scaled x c };

    fn mul(self, c: f64) -> Complex {
        Complex {
            re: self.re * c,
            im: self.im * c,
        }
    }
}

impl Div<f64> for Complex {
    type Output = Complex;

    ghost div_gives = { λ x c r. r ≡ divided x c };

    fn div(self, c: f64) -> Complex {
        Complex {
            re: self.re / c,
            im: self.im / c,
        }
    }
}

impl Complex {
    pub fn conjugate(self) -> Complex
        ensures { result ≡ conjugate self }
    {
        Complex {
            re: self.re,
            im: -self.im,
        }
    }

    /// m·sqrt(1 + (s/m)²), m the larger part's size and s the smaller one's: no square is too large.
    /// A NaN beside a number counts as that number, and an infinity in both parts gives a NaN.
    pub fn magnitude(self) -> f64
        ensures { result ≡ magnitude self }
    {
        let [size] = magnitudes_of(
            Simd::from_array([self.re]),
            Simd::from_array([self.im]),
        ).to_array();
        size
    }
}

// The roots of all lanes.
fn roots<const N: usize>(x: Simd<f64, N>) -> Simd<f64, N>
    requires { (length x ≡ N) × (N ≤ 64) }
    ensures { result ≡ map sqrt x.entry }
{
    let x = x.to_array();
    let mut lanes = x;
    for (i, y) in lanes.iter_mut().enumerate() {
        *y = root::sqrt(x[i]);
    }
    Simd::from_array(lanes)
}

/// The magnitude of each lane, whose real part is in `re` and whose imaginary part is in `im`.
// A division and a root take no longer for two numbers than for one.
pub fn magnitudes_of<const N: usize>(re: Simd<f64, N>, im: Simd<f64, N>) -> Simd<f64, N>
    requires { (length re ≡ N) × (length im ≡ N) × (N ≤ 64) }
    ensures { result ≡ zip2 magnitude_by re.entry im.entry }
{
    let zero = Simd::splat(0.0);
    // Sizes, but for a -0: no comparison and no square tells it from +0.
    let a = re.simd_lt(-re).select(-re, re);
    let b = im.simd_lt(-im).select(-im, im);
    // Where b is a NaN, a stands for it.
    let c = b.simd_eq(b).select(b, a);
    let m = c.simd_le(a).select(a, c);
    let q = a.simd_le(c).select(a, c) / m;
    let r = m * roots(Simd::splat(1.0) + q * q);
    m.simd_eq(zero).select(zero, r)
}
