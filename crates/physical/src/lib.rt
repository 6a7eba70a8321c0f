// What a transfer matrix says of its process: whether it keeps the trace, and whether it keeps the identity.
#![tactic(auto)]

ghost use Rattle.std.specs.Prelude.{◌≡◌, ◌*◌, ◌≤◌, ◌<◌, length};
ghost use Rattle.numbers.specs.Slice.{at};
ghost use Rattle.physical.specs.Physical.{unit_at, near, near_unit, trace_preserving, unital};

fn unit_at(k: usize) -> f64
    ensures { result ≡ unit_at k }
{
    if k == 0 { 1.0 } else { 0.0 }
}

fn is_near(tolerance: f64, x: f64, y: f64) -> bool
    ensures { result ≡ near tolerance x y }
{
    numbers::abs_of(x - y) <= tolerance
}

// Every number that stands `step` after the last, from the first on.
fn is_near_unit(values: &[f64], p: usize, tolerance: f64, step: usize) -> bool
    requires { (p ≤ 16) × (step ≤ p) × (p * p ≤ length values.now) }
    ensures { result ≡ near_unit p tolerance (λ k. at values.now (k * step)) }
{
    (0..p).all(|k| is_near(tolerance, values[k * step], unit_at(k)))
}

// The Rust's `is_trace_preserving`, of row 0.
pub fn is_trace_preserving(values: &[f64], p: usize, tolerance: f64) -> bool
    requires { (1 ≤ p) × (p ≤ 16) × (p * p ≤ length values.now) }
    ensures { result ≡ trace_preserving p tolerance values.now }
{
    is_near_unit(values, p, tolerance, 1)
}

// The Rust's `is_unital`, of column 0.
pub fn is_unital(values: &[f64], p: usize, tolerance: f64) -> bool
    requires { (p ≤ 16) × (p * p ≤ length values.now) }
    ensures { result ≡ unital p tolerance values.now }
{
    is_near_unit(values, p, tolerance, p)
}
