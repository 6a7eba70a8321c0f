// The values that a fit passes on from step to step. What a fit is stands in specs/Fit.antt, what every sheet of one says in specs/Claim.antt, and that it does in
// proofs/Points.antt: none of it depends on how the fit is computed, which is crate `fit`.
#![tactic(auto)]

ghost use Rattle.std.specs.Prelude.{◌≡◌};
ghost use Rattle.descent.specs.Stop.{stop_number, converged};

// The Rust's `GstOptimizerConfig`.
#[derive(Clone, Copy)]
pub struct GstOptimizerConfig {
    pub max_iterations: u64,
    pub initial_step: f64,
    pub finite_difference_step: f64,
    pub gradient_tolerance: f64,
    pub objective_tolerance: f64,
    pub probability_tolerance: f64,
    pub max_backtracks: u64,
    pub anchor_strength: f64,
}

// The Rust's `GstTermination`.
#[derive(Clone, Copy, Debug, PartialEq, Eq)]
pub enum GstTermination {
    GradientTolerance = 1,
    ObjectiveTolerance = 2,
    MaximumIterations = 3,
    LineSearchStalled = 4,
}

impl GstTermination {
    // R of a sheet, as document 01 numbers it.
    pub fn number(self) -> u64
        ensures { result ≡ stop_number self }
    {
        self as u64
    }

    // V of a sheet: a tolerance stopped the fit, and not a limit or a stalled search.
    pub fn has_converged(self) -> bool
        ensures { result ≡ converged self }
    {
        matches!(
            self,
            GstTermination::GradientTolerance | GstTermination::ObjectiveTolerance
        )
    }
}

// What a search ends at: the number of the accepted trial, and its objective.
#[derive(Clone, Copy)]
pub struct Accepted {
    pub trial: u64,
    pub objective: f64,
}
