// What a fit makes of its coordinates: the model that has them, the objective, and the norm of a gradient.
#![tactic(auto)]

ghost use Rattle.std.specs.Prelude.{◌≡◌, ℕ, List, map, length};
ghost use Rattle.std.specs.List.{fold, zip};
ghost use Rattle.numbers.specs.Number.{◌+ᶠ◌, ◌-ᶠ◌, ◌*ᶠ◌};
ghost use Rattle.numbers.specs.Slice.{at};
ghost use Rattle.root.specs.Root.{sqrt};
ghost use Rattle.matrix.specs.Product.{sum_of};
ghost use Rattle.model_words.specs.Words.{model_numbers, numbers_of};
ghost use Rattle.card_layout.specs.declared.Header.{Header};
ghost use Rattle.descent.specs.Fit as spec;
ghost use Rattle.objective.specs.Job.{job_by, Placed};

use card_parts::Card;
use descent::GstOptimizerConfig;

mod task;

pub use task::{Limited, Task};

// The card's model with xs at the places: of two at one place the later wins.
pub fn fill(card: &Card<'_>, places: &[usize], xs: &[f64], model: &mut [f64])
    requires { Placed card.now.header places.now × (length xs.now ≡ length places.now) × (length model.old ≡ model_numbers card.now.header) }
    ensures { model.new ≡ spec.put places.now xs.now (numbers_of card.now.bytes.now card.now.header) }
{
    model_words::load(card, model);
    // By an index: over a `zip` the place's bound is not found, and five goals want an answer where three do.
    for (i, place) in places.iter().enumerate() {
        model[*place] = xs[i];
    }
}

// s and the squared distances from the anchor, added up one after the other.
fn with_distances(s: f64, xs: &[f64], anchor: &[f64]) -> f64
    ensures { result ≡ fold (λ s p. s +ᶠ (p.0 -ᶠ p.1) *ᶠ (p.0 -ᶠ p.1)) s (zip xs.now anchor.now) }
{
    xs.iter()
        .zip(anchor)
        .fold(s, |s, (x, a)| s + (x - a) * (x - a))
}

// The objective of coordinates whose log-likelihood is known: of any card that has the anchor's numbers at as many places.
pub fn objective(config: GstOptimizerConfig, anchor: &[f64], likely: f64, xs: &[f64]) -> f64
    ensures { (s : List ℕ) (h : Header) (places : List ℕ) → anchor.now ≡ map (at (numbers_of s h)) places → length xs.now ≡ length places
        → result ≡ spec.objective_of (job_by s h places config) likely xs.now }
{
    -likely + 0.5 * config.anchor_strength * with_distances(-0.0, xs, anchor)
}

// The Euclidean norm.
pub fn norm(g: &[f64]) -> f64
    ensures { result ≡ sqrt (sum_of (length g.now) (λ i. at g.now i *ᶠ at g.now i)) }
{
    let s = matrix::dot(g, g);
    root::sqrt(s)
}
