// The multinomial log-likelihood and deviance of one record: its probabilities are tested, its counts added up, and a term added for each outcome.
#![tactic(auto)]

ghost use Rattle.std.specs.Prelude.{◌≡◌, ◌≤◌, false, ◌||◌, length};
ghost use Rattle.std.specs.List.{fold};
ghost use Rattle.likelihood.specs.Multinomial as spec;

use logarithm::LnTables;
use refusal::Refusal;

// The Rust's `FitDiagnostics`.
#[derive(Clone, Copy)]
pub struct Diagnostics {
    pub log_likelihood: f64,
    pub deviance: f64,
}

// Why a model has no diagnostics: its probabilities fail, which a fit's trial may; or another refusal.
#[derive(Clone, Copy)]
pub enum Unfit {
    Probabilities,
    Refused(Refusal),
}

impl From<Refusal> for Unfit {
    ghost use Rattle.likelihood.specs.declared.Unfit.TheVariants.{Refused};

    ghost from_gives = { λ r u. u ≡ Refused r };

    fn from(r: Refusal) -> Unfit {
        Unfit::Refused(r)
    }
}

impl From<Unfit> for Refusal {
    ghost use Rattle.likelihood.specs.Multinomial.{refusal_of};

    ghost from_gives = { λ u r. r ≡ refusal_of u };

    fn from(u: Unfit) -> Refusal {
        match u {
            Unfit::Probabilities => Refusal::InvalidProbabilities,
            Unfit::Refused(r) => r,
        }
    }
}

// How records are weighed: by which tables of logarithms, whether the deviance is summed, and how far probabilities may be off.
#[derive(Clone, Copy)]
pub struct Weighing<'a> {
    pub tables: &'a LnTables,
    pub deviance: bool,
    pub tolerance: f64,
}

fn is_bad(tolerance: f64, p: f64) -> bool
    ensures { result ≡ spec.bad_probability tolerance p }
{
    !numbers::is_finite(p) | ((p < -tolerance) | (1.0 + tolerance < p))
}

fn any_bad(tolerance: f64, ps: &[f64]) -> bool
    ensures { result ≡ fold (λ bad p. bad || spec.bad_probability tolerance p) false ps.now }
{
    ps.iter().fold(false, |bad, p| bad | is_bad(tolerance, *p))
}

fn fails(tolerance: f64, ps: &[f64]) -> bool
    ensures { result ≡ spec.failing tolerance ps.now }
{
    any_bad(tolerance, ps) || tolerance < numbers::abs_of(ps.iter().sum::<f64>() - 1.0)
}

fn add_counts(counts: &[u64]) -> Option<u64>
    ensures { result ≡ spec.counted_of (spec.total_of counts.now) }
{
    let mut t = 0u64;
    for c in counts {
        t = t.checked_add(*c)?;
    }
    Some(t)
}

// The term of an outcome seen c times out of t, of probability p.
fn plus_term(w: &Weighing<'_>, t: f64, c: f64, p: f64, d: Diagnostics) -> Diagnostics
    ensures { result ≡ spec.plus_term (spec.log_in w.now.tables.now) w.now.deviance t c p d }
{
    let likely = d.log_likelihood + c * w.tables.ln(p);
    if w.deviance {
        let ratio = w.tables.ln(c / (t * p));
        let term = 2.0 * c * ratio;
        return Diagnostics {
            log_likelihood: likely,
            deviance: d.deviance + term,
        };
    }
    Diagnostics {
        log_likelihood: likely,
        deviance: d.deviance,
    }
}

fn with_term(w: &Weighing<'_>, t: f64, c: f64, p: f64, d: Diagnostics) -> Result<Diagnostics, Unfit>
    ensures { result ≡ spec.with_term (spec.log_in w.now.tables.now) w.now.deviance t c p d }
{
    if 0.0 < c {
        if p == 0.0 {
            return Err(Unfit::Probabilities);
        }
        return Ok(plus_term(w, t, c, p, d));
    }
    Ok(d)
}

// The terms of all outcomes, up to the first that fails.
fn with_terms(
    w: &Weighing<'_>,
    t: f64,
    counts: &[u64],
    ps: &[f64],
    d: Diagnostics,
) -> Result<Diagnostics, Unfit>
    requires { length counts.now ≤ length ps.now }
    ensures { result ≡ spec.with_terms (spec.log_in w.now.tables.now) w.now.deviance t counts.now ps.now d }
{
    let mut sum = d;
    // By an index, as the definition: over a `zip` three of the four answers have to say which pair an item is.
    for (k, c) in counts.iter().enumerate() {
        let seen = std::num::nearest_u64_to_f64(*c);
        sum = with_term(w, t, seen, ps[k].clamp(0.0, 1.0), sum)?;
    }
    Ok(sum)
}

// Adds one record's terms to d.
pub fn with_record(
    w: &Weighing<'_>,
    counts: &[u64],
    ps: &[f64],
    d: Diagnostics,
) -> Result<Diagnostics, Unfit>
    requires { length counts.now ≤ length ps.now }
    ensures { result ≡ spec.with_record (spec.log_in w.now.tables.now) w.now.deviance w.now.tolerance counts.now ps.now d }
{
    if fails(w.tolerance, ps) {
        return Err(Unfit::Probabilities);
    }
    match add_counts(counts) {
        None => Err(Unfit::Refused(Refusal::CountOverflow)),
        Some(0) => Err(Unfit::Probabilities),
        Some(t) => with_terms(w, std::num::nearest_u64_to_f64(t), counts, ps, d),
    }
}
