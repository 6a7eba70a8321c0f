// Transfer matrices: the linear inversion of a process, and a transfer matrix applied to expectations.
#![tactic(auto)]

ghost use Rattle.std.specs.Prelude.{◌≡◌, ◌++◌, ◌*◌, ◌≤◌, ◌<◌, length, drop, is_ok};
ghost use Rattle.lists.specs.Build.{over};
ghost use Rattle.matrix.specs.Product.{mat_mul_of};
ghost use Rattle.inversion.specs.Inversion.{invertible, inverse_of};
ghost use Rattle.transfer.specs.Process.{inputs_of, outputs_of, solved_of, solved_numbers, process_of, process_numbers};
ghost use Rattle.transfer.specs.Apply.{applied_of, applied_numbers};
ghost use Rattle.transfer.specs.Vectors.{vetted_of};

use inversion::Singular;
use matrix::by_size;
use refusal::Refusal;
use sizes::square;

// The input vectors and then the output vectors of p probes, and the tolerance of their tests.
#[derive(Clone, Copy)]
struct Probes<'a> {
    vectors: &'a [f64],
    tolerance: f64,
    p: usize,
    ghost some: { 1 ≤ p },
    ghost few: { p ≤ 16 },
    ghost whole: { 2 * (p * p) ≤ length vectors.now },
}

impl<'a> Probes<'a> {
    // Vector by vector; the first refusal is the outcome. p comes again, since `by_size` passes it on as a constant.
    fn vet_each(&self, p: usize) -> Result<(), Refusal>
        requires { p ≡ self.now.p }
        ensures { result ≡ vetted_of self.now.tolerance self.now.vectors.now p }
    {
        for v in self.vectors[..2 * (p * p)].chunks_exact(p) {
            pauli::vet(self.tolerance, v)?;
        }
        Ok(())
    }

    // The same, by size.
    fn vet(&self) -> Result<(), Refusal>
        ensures { result ≡ vetted_of self.now.tolerance self.now.vectors.now self.now.p }
    {
        by_size(self.p, &mut |p| self.vet_each(p))
    }

    // The inverse of the inputs, where there is one.
    fn invert_inputs(&self, inverse: &mut [f64]) -> Result<(), Singular>
        requires { self.now.p * self.now.p ≤ length inverse.old }
        ensures { (is_ok result ≡ invertible self.now.p self.now.tolerance (inputs_of self.now.vectors.now self.now.p)) × (inverse.new ≡ over (inverse_of self.now.p self.now.tolerance (inputs_of self.now.vectors.now self.now.p)) inverse.old) }
    {
        let mut inputs = [0.0; 256];
        matrix::transpose(self.vectors, self.p, &mut inputs);
        inversion::invert(&inputs[..self.p * self.p], self.p, self.tolerance, inverse)
    }

    // The outputs times the inverse.
    fn multiply_outputs(&self, inverse: &[f64], out: &mut [f64])
        requires { (self.now.p * self.now.p ≤ length inverse.now) × (self.now.p * self.now.p ≤ length out.old) }
        ensures { out.new ≡ mat_mul_of self.now.p (outputs_of self.now.vectors.now self.now.p) inverse.now ++ drop (self.now.p * self.now.p) out.old }
    {
        let m = self.p * self.p;
        let mut outputs = [0.0; 256];
        matrix::transpose(&self.vectors[m..], self.p, &mut outputs);
        matrix::mat_mul(&outputs[..m], inverse, self.p, out);
    }

    // The transfer matrix at the front of `out`, once the vectors are good.
    fn solve(&self, out: &mut [f64]) -> Result<(), Refusal>
        requires { self.now.p * self.now.p ≤ length out.old }
        ensures { (result ≡ solved_of self.now.tolerance self.now.vectors.now self.now.p) × (out.new ≡ over (solved_numbers self.now.tolerance self.now.vectors.now self.now.p) out.old) }
    {
        let m = self.p * self.p;
        let mut inverse = [0.0; 256];
        self.invert_inputs(&mut inverse)
            .map_err(|_| Refusal::SingularProcessDesign)?;
        self.multiply_outputs(&inverse[..m], out);
        refusal::finite_or(Refusal::NonFinite, &out[..m])
    }
}

// The Rust's `process_linear_inversion`, on the input vectors and then the output vectors of p = 4^n probes. A good call leaves the transfer matrix at the
// front of `out`, by rows.
pub fn process_linear_inversion(
    vectors: &[f64],
    tolerance: f64,
    p: usize,
    out: &mut [f64],
) -> Result<(), Refusal>
    requires { (1 ≤ p) × (p ≤ 16) × (2 * (p * p) ≤ length vectors.now) × (p * p ≤ length out.old) }
    ensures { (result ≡ process_of tolerance vectors.now p) × (out.new ≡ over (process_numbers tolerance vectors.now p) out.old) }
{
    refusal::check_tolerance(tolerance)?;
    let probes = Probes {
        vectors,
        tolerance,
        p,
    };
    probes.vet()?;
    probes.solve(out)
}

// The Rust's `PauliTransferMatrix::try_new` and `apply_expectations`: the matrix is tested before the expectations. A good call leaves the expectations
// afterwards at the front of `out`; they are not tested.
pub fn apply_expectations(
    values: &[f64],
    input: &[f64],
    p: usize,
    out: &mut [f64],
) -> Result<(), Refusal>
    requires { (p ≤ 16) × (p ≤ length out.old) }
    ensures { (result ≡ applied_of p values.now input.now) × (out.new ≡ over (applied_numbers p values.now input.now) out.old) }
{
    refusal::check_numbers(square(p), values)?;
    refusal::check_numbers(p, input)?;
    matrix::mat_vec(values, input, p, out);
    Ok(())
}
