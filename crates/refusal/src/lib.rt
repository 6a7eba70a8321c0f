// Refusals, in document 01's sense: the cases of the Rust's `TomographyError`, and those that the card adds. Each has a number N and two values A and B.
// What tests something answers `Result<(), Refusal>`.
#![tactic(auto)]

ghost use Rattle.std.specs.Prelude.{◌≡◌};
ghost use Rattle.refusal.specs.Values.{code_of, reason_number, value_a, value_b};
ghost use Rattle.refusal.specs.Verdicts.{finite_or, checked_numbers, counted_of, tolerance_of};

// Why a fit cannot be run, which the Rust says in words.
#[derive(Clone, Copy, Debug, PartialEq, Eq)]
pub enum Reason {
    Controls,
    NoRecords,
    NoCoordinates,
    RepeatedCoordinate,
    GradientNotFinite,
    Name,
    // A number that none of these has: nothing here gives it, but any can be told.
    Other(u64),
}

impl Reason {
    // A of the refusal.
    pub fn number(self) -> u64
        ensures { result ≡ reason_number self }
    {
        match self {
            Reason::Controls => 1,
            Reason::NoRecords => 2,
            Reason::NoCoordinates => 3,
            Reason::RepeatedCoordinate => 4,
            Reason::GradientNotFinite => 5,
            Reason::Name => 6,
            Reason::Other(number) => number,
        }
    }
}

#[derive(Clone, Copy, Debug, PartialEq)]
pub enum Refusal {
    InvalidQubits,
    // Words or values wanted, and found.
    Shape { expected: u64, actual: u64 },
    NonFinite,
    // The identity expectation.
    InvalidNormalization(f64),
    InvalidTolerance,
    Operator,
    // The gate index.
    UnknownGate(u64),
    InvalidProbabilities,
    CountOverflow,
    SingularGaugeTransform,
    SingularProcessDesign,
    EigensolverDidNotConverge,
    InvalidGstOptimization(Reason),
    // The place among the coordinates.
    InvalidGstParameter(u64),
    // The place of a word of the card.
    InvalidCard(u64),
    // Too short a result or work slice.
    ShortBuffer,
}

impl Refusal {
    // N.
    pub fn code(self) -> u64
        ensures { result ≡ code_of self }
    {
        match self {
            Refusal::InvalidQubits => 1,
            Refusal::Shape { .. } => 2,
            Refusal::NonFinite => 3,
            Refusal::InvalidNormalization(_) => 4,
            Refusal::InvalidTolerance => 5,
            Refusal::Operator => 6,
            Refusal::UnknownGate(_) => 7,
            Refusal::InvalidProbabilities => 8,
            Refusal::CountOverflow => 9,
            Refusal::SingularGaugeTransform => 10,
            Refusal::SingularProcessDesign => 11,
            Refusal::EigensolverDidNotConverge => 12,
            Refusal::InvalidGstOptimization(_) => 13,
            Refusal::InvalidGstParameter(_) => 14,
            Refusal::InvalidCard(_) => 15,
            Refusal::ShortBuffer => 16,
        }
    }

    // A.
    pub fn value_a(self) -> u64
        ensures { result ≡ value_a self }
    {
        match self {
            Refusal::Shape { expected, .. } => expected,
            Refusal::InvalidNormalization(x) => numbers::word_of(x),
            Refusal::UnknownGate(gate) => gate,
            Refusal::InvalidGstOptimization(reason) => reason.number(),
            Refusal::InvalidGstParameter(place) => place,
            Refusal::InvalidCard(place) => place,
            _ => 0,
        }
    }

    // B.
    pub fn value_b(self) -> u64
        ensures { result ≡ value_b self }
    {
        match self {
            Refusal::Shape { actual, .. } => actual,
            _ => 0,
        }
    }
}

// Refuses numbers that are not all finite.
pub fn finite_or(r: Refusal, xs: &[f64]) -> Result<(), Refusal>
    ensures { result ≡ finite_or r xs.now }
{
    if numbers::all_finite(xs) {
        return Ok(());
    }
    Err(r)
}

// Refuses numbers that are not as many as wanted.
#[tactic(auto, unfolding(crate::specs::Verdicts::counted_of))]
pub fn check_count(wanted: usize, xs: &[f64]) -> Result<(), Refusal>
    ensures { result ≡ counted_of wanted xs.now }
{
    let found = xs.len();
    if found == wanted {
        return Ok(());
    }
    Err(Refusal::Shape {
        expected: wanted as u64,
        actual: found as u64,
    })
}

// Refuses numbers that are not as many as wanted, or not all finite.
pub fn check_numbers(wanted: usize, xs: &[f64]) -> Result<(), Refusal>
    ensures { result ≡ checked_numbers wanted xs.now }
{
    check_count(wanted, xs)?;
    finite_or(Refusal::NonFinite, xs)
}

// Refuses a tolerance that is not finite and above zero.
#[tactic(auto, unfolding(crate::specs::Verdicts::tolerance_of))]
pub fn check_tolerance(tolerance: f64) -> Result<(), Refusal>
    ensures { result ≡ tolerance_of tolerance }
{
    if !numbers::is_positive(tolerance) {
        return Err(Refusal::InvalidTolerance);
    }
    Ok(())
}
