// Squares and powers of small whole numbers. Here and in the crates above, each contract says how many qubits there are at most: a type for such a number would ask
// more of callers.
#![tactic(auto)]

ghost use Rattle.std.specs.Prelude.{◌≡◌, ◌*◌, ◌^◌, ◌≤◌, ◌<◌};

pub fn square(d: usize) -> usize
    requires { d ≤ 64 }
    ensures { (result ≡ d * d) × (result ≤ 4096) }
{
    d * d
}

// B to the power n.
pub fn power<const B: usize>(n: usize) -> usize
    requires { (0 < B) × (B ≤ 8) × (n ≤ 3) }
    ensures { (result ≡ B ^ n) × (0 < result) × (result ≤ B ^ 3) }
{
    B.pow(n as u32)
}

// 2 to the power n.
pub fn two_to(n: usize) -> usize
    requires { n ≤ 3 }
    ensures { (result ≡ 2 ^ n) × (result ≤ 8) }
{
    power::<2>(n)
}

// 3 to the power n.
pub fn three_to(n: usize) -> usize
    requires { n ≤ 3 }
    ensures { (result ≡ 3 ^ n) × (0 < result) × (result ≤ 27) }
{
    power::<3>(n)
}

// 4 to the power n. A division by a shift of 1 is a shift too: by `power` a loop of such divisions took 1.3 to 5.5 times as long, measured.
pub fn four_to(n: usize) -> usize
    requires { n ≤ 3 }
    ensures { (result ≡ 4 ^ n) × (result ≤ 64) }
{
    1 << (2 * n)
}
