// Complete positivity of a process, by the eigenvalues of its normalized Choi matrix.
#![tactic(auto)]

ghost use Rattle.std.specs.Prelude.{◌≡◌, ◌*◌, ◌^◌, ◌≤◌, ◌<◌, length};
ghost use Rattle.entries.specs.Entries.{entries};
ghost use Rattle.eigen.specs.Jacobi.{eig_of, values_of};
ghost use Rattle.refusal.specs.Verdicts.{first_of, checked_numbers, tolerance_of};
ghost use Rattle.choi.specs.Choi.{normalized_choi};
ghost use Rattle.positivity.specs.Positivity.{none_below, known, judged, choi_values, positivity_verdict, completely_positive, told};

use refusal::Refusal;
use sizes::{four_to, square};

fn none_below(bound: f64, w: &[f64]) -> bool
    ensures { result ≡ none_below bound w.now }
{
    w.iter().fold(true, |good, x| good & (bound <= *x))
}

// The eigenvalues of the p by p matrix, beside minus the tolerance. The matrix is used up.
fn test_matrix(
    matrix: &mut [f64],
    p: usize,
    tolerance: f64,
    rotations: u64,
) -> Result<bool, Refusal>
    requires { (length matrix.old ≡ 2 * (p * p)) × (0 < p) × (p ≤ 16) }
    ensures { result ≡ judged tolerance (values_of (eig_of p tolerance rotations (entries matrix.old))) }
{
    let mut w = [0.0; 16];
    let w = &mut w[..p];
    eigen::eigenvalues(matrix, p, tolerance, rotations, w).map_err(
        |_| Refusal::EigensolverDidNotConverge,
    )?;
    Ok(none_below(-tolerance, w))
}

// The Choi matrix, and its eigenvalues.
fn test_choi(n: usize, transfer: &[f64], tolerance: f64, rotations: u64) -> Result<bool, Refusal>
    requires { (1 ≤ n) × (n ≤ 2) }
    ensures { result ≡ told (first_of (normalized_choi n transfer.now) (known (choi_values n tolerance rotations transfer.now))) (completely_positive n tolerance rotations transfer.now) }
{
    let p = four_to(n);
    let mut matrix = [0.0; 512];
    choi::normalized_choi(n, transfer, &mut matrix)?;
    test_matrix(&mut matrix[..2 * (p * p)], p, tolerance, rotations)
}

fn check(n: usize, transfer: &[f64], tolerance: f64) -> Result<(), Refusal>
    requires { n ≤ 2 }
    ensures { result ≡ first_of (checked_numbers (4 ^ n * 4 ^ n) transfer.now) (tolerance_of tolerance) }
{
    refusal::check_numbers(square(four_to(n)), transfer)?;
    refusal::check_tolerance(tolerance)
}

// The Rust's `PauliTransferMatrix::try_new` and `is_completely_positive`, with a limit of rotations.
#[tactic(auto, using(refusal::proofs::Verdicts::passed_on, crate::proofs::Found::tests_refused, crate::proofs::Found::tests_good))]
pub fn is_completely_positive(
    n: usize,
    transfer: &[f64],
    tolerance: f64,
    rotations: u64,
) -> Result<bool, Refusal>
    requires { (1 ≤ n) × (n ≤ 2) }
    ensures { result ≡ told (positivity_verdict n tolerance rotations transfer.now) (completely_positive n tolerance rotations transfer.now) }
{
    check(n, transfer, tolerance)?;
    test_choi(n, transfer, tolerance, rotations)
}
