// The significand and the exponent of a number.
#![tactic(auto)]

ghost use Rattle.std.specs.Prelude.{◌≡◌, ◌^◌, ◌≤◌, ◌<◌, MatchOption};
ghost use Rattle.rounding.specs.Units.{units_of};
ghost use Rattle.significand.specs.Significand.{significand_of, exponent_of};

// M and e + 1074 of document 01: a finite number is M · 2^(e - 52) in size, with 2^52 ≤ M < 2^53.
#[derive(Clone, Copy)]
pub struct Parts {
    pub significand: u64,
    pub exponent: u64,
    ghost low: { 2 ^ 52 ≤ significand },
    ghost high: { significand < 2 ^ 53 },
    ghost reach: { exponent ≤ 2097 },
}

// The parts of a finite number other than zero. A zero, a NaN and an infinity have none.
pub fn parts_of(x: f64) -> Option<Parts>
    ensures { MatchOption result ((units_of x ≡ 0) × (significand_of x ≡ 0) × (exponent_of x ≡ 0)) (λ p. (0 < units_of x) × (p.significand ≡ significand_of x) × (p.exponent ≡ exponent_of x)) }
{
    if !numbers::is_finite(x) {
        return None;
    }
    let w = f64::to_bits(x) % 0x8000_0000_0000_0000;
    if w == 0 {
        return None;
    }
    let field = w / 0x0010_0000_0000_0000;
    if field == 0 {
        let s = (u64::leading_zeros(w) - 11) as u64;
        return Some(Parts {
            significand: w << s,
            exponent: 52 - s,
        });
    }
    Some(Parts {
        significand: 0x0010_0000_0000_0000 + w % 0x0010_0000_0000_0000,
        exponent: field + 51,
    })
}
