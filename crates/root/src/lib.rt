//! The square root, the machine's: what IEEE 754 says of it, and that it is the number nearest the real root.
#![tactic(auto)]

ghost use Rattle.std.specs.Prelude.{◌≡◌, true, false};
ghost use Rattle.std.specs.Float.Ieee.{eq, lt};
ghost use Rattle.std.specs.Float.{nan, inf};
ghost use Rattle.numbers.specs.Number.{finite, zero_f};
ghost use Rattle.root.specs.Root.{sqrt};
ghost use Rattle.root.specs.Nearest.{Nearest};

/// The square root of `x`, as IEEE 754 has it: of a finite number above zero the number nearest the
/// real root, of a zero that zero, of the positive infinity itself, and of all else a NaN.
pub fn sqrt(x: f64) -> f64
    ensures value { result ≡ sqrt x }
    ensures nearest { finite x ≡ true → lt zero_f x ≡ true → Nearest x result }
    ensures of_a_zero { eq x zero_f ≡ true → result ≡ x }
    ensures of_infinity { x ≡ inf false → result ≡ inf false }
    ensures of_a_negative { lt x zero_f ≡ true → result ≡ nan }
    ensures of_a_nan { x ≡ nan → result ≡ nan }
{
    x.sqrt()
}
