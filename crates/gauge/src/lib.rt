// A gauge transform of a model (kind 6): r' = S r, E' = E S^-1, G' = S G S^-1.
#![tactic(auto)]

ghost use Rattle.std.specs.Prelude.{◌≡◌, ◌*◌, ◌≤◌, ◌<◌, length};
ghost use Rattle.lists.specs.Build.{over, joined};
ghost use Rattle.model_words.specs.Words.{model_numbers};
ghost use Rattle.refusal.specs.Verdicts.{finite_or};
ghost use Rattle.refusal.specs.declared.Refusal.TheVariants.{NonFinite};
ghost use Rattle.gauge.specs.Gauge.{threshold_of, inverted_of, inverse_in, new_state, new_effect, new_gate, transformed, gauged_of, gauged_numbers};

use card_parts::Card;
use model_words::{model_numbers, vector_numbers};
use refusal::Refusal;
use sizes::square;

// The Rust's threshold for pivots in `invert_real`.
fn threshold(d: usize) -> f64
    requires { d ≤ 16 }
    ensures { result ≡ threshold_of d }
{
    let scale = d as f64;
    64.0 * 2.220446049250313e-16 * scale
}

// The inverse of a transform, once it is tested.
fn invert_transform(transform: &[f64], d: usize, inverse: &mut [f64]) -> Result<(), Refusal>
    requires { (d ≤ 16) × (length transform.now ≡ d * d) × (d * d ≤ length inverse.old) }
    ensures { (result ≡ inverted_of d transform.now) × (inverse.new ≡ over (inverse_in d transform.now) inverse.old) }
{
    if !numbers::all_finite(transform) {
        return Err(Refusal::NonFinite);
    }
    inversion::invert(transform, d, threshold(d), inverse).map_err(
        |_| Refusal::SingularGaugeTransform,
    )
}

// A transform of a card's model, and its inverse.
#[derive(Clone, Copy)]
struct Gauge<'a> {
    card: Card<'a>,
    matrix: &'a [f64],
    inverse: &'a [f64],
    ghost has_model: { 5 ≤ card.header.kind },
    ghost whole: { card.header.dimension * card.header.dimension ≤ length matrix.now },
    ghost whole_inverse: { card.header.dimension * card.header.dimension ≤ length inverse.now },
}

impl<'a> Gauge<'a> {
    fn state(&self, out: &mut [f64])
        requires { self.now.card.header.dimension ≤ length out.old }
        ensures { out.new ≡ over (new_state self.now.matrix.now self.now.card.bytes.now self.now.card.header) out.old }
    {
        let d = self.card.header.dimension;
        let mut state = [0.0; 16];
        self.card.load_state(&mut state);
        matrix::mat_vec(self.matrix, &state[..d], d, out);
    }

    fn effect(&self, k: usize, out: &mut [f64])
        requires { (k < self.now.card.header.effects) × (self.now.card.header.dimension ≤ length out.old) }
        ensures { out.new ≡ over (new_effect self.now.inverse.now self.now.card.bytes.now self.now.card.header k) out.old }
    {
        let d = self.card.header.dimension;
        let mut effect = [0.0; 16];
        self.card.load_effect(k, &mut effect);
        matrix::row_mat(&effect[..d], self.inverse, d, out);
    }

    fn effects(&self, out: &mut [f64])
        requires { self.now.card.header.effects * self.now.card.header.dimension ≤ length out.old }
        ensures { out.new ≡ over (joined self.now.card.header.effects (new_effect self.now.inverse.now self.now.card.bytes.now self.now.card.header)) out.old }
    {
        // By places: see `matrix::row`.
        for k in 0..self.card.header.effects {
            let start = k * self.card.header.dimension;
            self.effect(k, &mut out[start..]);
        }
    }

    // The gate is loaded where the result goes; `left` is room for the first product.
    fn gate(&self, g: usize, left: &mut [f64], out: &mut [f64])
        requires { (g < self.now.card.header.gates) × (self.now.card.header.dimension * self.now.card.header.dimension ≤ length left.old) × (self.now.card.header.dimension * self.now.card.header.dimension ≤ length out.old) }
        ensures { out.new ≡ over (new_gate self.now.matrix.now self.now.inverse.now self.now.card.bytes.now self.now.card.header g) out.old }
    {
        let d = self.card.header.dimension;
        let m = square(d);
        self.card.load_gate(g, out);
        matrix::mat_mul(self.matrix, &out[..m], d, left);
        matrix::mat_mul(&left[..m], self.inverse, d, out);
    }

    fn gates(&self, out: &mut [f64])
        requires { self.now.card.header.gates * (self.now.card.header.dimension * self.now.card.header.dimension) ≤ length out.old }
        ensures { out.new ≡ over (joined self.now.card.header.gates (new_gate self.now.matrix.now self.now.inverse.now self.now.card.bytes.now self.now.card.header)) out.old }
    {
        let m = square(self.card.header.dimension);
        let mut left = [0.0; 256];
        // By places: see `matrix::row`.
        for g in 0..self.card.header.gates {
            let start = g * m;
            self.gate(g, &mut left, &mut out[start..]);
        }
    }

    // All numbers of the new model, one part after the other.
    fn model(&self, work: &mut [f64])
        requires { model_numbers self.now.card.header ≤ length work.old }
        ensures { work.new ≡ over (transformed self.now.matrix.now self.now.inverse.now self.now.card.bytes.now self.now.card.header) work.old }
    {
        let d = self.card.header.dimension;
        let v = vector_numbers(self.card.header);
        self.state(work);
        self.effects(&mut work[d..]);
        self.gates(&mut work[v..]);
    }

    // The numbers of the new model at the front of the work slice, and whether they are finite.
    fn tested(&self, work: &mut [f64]) -> Result<(), Refusal>
        requires { model_numbers self.now.card.header ≤ length work.old }
        ensures { (result ≡ finite_or NonFinite (transformed self.now.matrix.now self.now.inverse.now self.now.card.bytes.now self.now.card.header)) × (work.new ≡ over (transformed self.now.matrix.now self.now.inverse.now self.now.card.bytes.now self.now.card.header) work.old) }
    {
        let count = model_numbers(self.card.header);
        self.model(work);
        refusal::finite_or(Refusal::NonFinite, &work[..count])
    }
}

// The Rust's `gauge_transform`, on a card whose model is good.
pub fn transform(card: &Card<'_>, work: &mut [f64]) -> Result<(), Refusal>
    requires { (card.now.header.kind ≡ 6) × (model_numbers card.now.header ≤ length work.old) }
    ensures { (result ≡ gauged_of card.now.bytes.now card.now.header) × (work.new ≡ over (gauged_numbers card.now.bytes.now card.now.header) work.old) }
{
    let d = card.header.dimension;
    let m = square(d);
    let mut matrix = [0.0; 256];
    let mut inverse = [0.0; 256];
    card.load_transform(&mut matrix);
    invert_transform(&matrix[..m], d, &mut inverse)?;
    let gauge = Gauge {
        card: *card,
        matrix: &matrix[..m],
        inverse: &inverse[..m],
    };
    gauge.tested(work)
}
