// The model of a card of kinds 5 to 7, tested where it lies.
#![tactic(auto)]

ghost use Rattle.std.specs.Prelude.{◌≡◌, ◌+◌, ◌*◌, ◌≤◌, ◌<◌, length, true, false};
ghost use Rattle.numbers.specs.Slice.{numbers_at, all_finite};
ghost use Rattle.model.specs.Shown.{bits_together};
ghost use Rattle.model.specs.Checked.{Parts, bad_name, bad_effect, bad_gate, any_of, tested_of, on_card};

use card_parts::Card;
use card_places::model_at;
use numbers::{is_finite_word, word_at};
use refusal::{Reason, Refusal};
use sizes::square;

// The bits of n words together. Where they are those of a finite number, each of the words is too.
fn bits_together(card: &[u8], from: usize, n: usize) -> u64
    requires { (from + n) * 8 ≤ length card.now }
    ensures { result ≡ bits_together card.now from n }
{
    (0..n).fold(0, |bits: u64, i| bits | word_at(card, from + i))
}

// Whether the bits of eight words show it, for eight times `count` numbers, as they do where all are below 2.
fn eights_shown(card: &[u8], from: usize, count: usize) -> bool
    requires { (from + count * 8) * 8 ≤ length card.now }
    ensures { result ≡ true → true ≡ all_finite (numbers_at card.now from (count * 8)) }
{
    (0..count).all(|i| is_finite_word(bits_together(card, from + i * 8, 8)))
}

// Whether n numbers are finite, each tested by its word. Without a branch, so that the compiler tests several at once.
fn each_finite(card: &[u8], from: usize, n: usize) -> bool
    requires { (from + n) * 8 ≤ length card.now }
    ensures { result ≡ all_finite (numbers_at card.now from n) }
{
    (0..n).fold(true, |all, i| all & is_finite_word(word_at(card, from + i)))
}

// Whether the n numbers from word `from` on are finite. Nearly always the bits of each eight show it, in two thirds of the time of `each_finite`.
pub fn are_finite(card: &[u8], from: usize, n: usize) -> bool
    requires { (from + n) * 8 ≤ length card.now }
    ensures { result ≡ all_finite (numbers_at card.now from n) }
{
    if n % 8 == 0 && eights_shown(card, from, n / 8) {
        return true;
    }
    each_finite(card, from, n)
}

// A model that can be tested, wherever its parts lie.
pub trait Tested {
    ghost parts: { Self → Parts };

    // The state is where the test looks for it.
    ghost has_state: { Self → Type 0 };

    fn dimension(&self) -> usize
        ensures { result ≡ (parts self.now).dimension };

    fn effects(&self) -> usize
        ensures { result ≡ (parts self.now).effects };

    fn gates(&self) -> usize
        ensures { result ≡ (parts self.now).gates };

    fn is_state_finite(&self) -> bool
        requires { has_state self.now }
        ensures { result ≡ all_finite (parts self.now).state };

    fn is_effect_finite(&self, k: usize) -> bool
        requires { k < (parts self.now).effects }
        ensures { result ≡ all_finite ((parts self.now).effect k) };

    fn is_gate_finite(&self, g: usize) -> bool
        requires { g < (parts self.now).gates }
        ensures { result ≡ all_finite ((parts self.now).gate g) };

    fn name(&self, g: usize) -> u64
        requires { g < (parts self.now).gates }
        ensures { result ≡ (parts self.now).name g };
}

fn bad_effect<M: Tested>(m: &M) -> bool
    ensures { result ≡ bad_effect (M.parts m.now) }
{
    (0..m.effects()).any(|k| !m.is_effect_finite(k))
}

fn bad_gate<M: Tested>(m: &M) -> bool
    ensures { result ≡ bad_gate (M.parts m.now) }
{
    bad_effect(m) | (0..m.gates()).any(|g| !m.is_gate_finite(g))
}

fn bad_name<M: Tested>(m: &M, g: usize) -> bool
    requires { g < (M.parts m.now).gates }
    ensures { result ≡ bad_name (M.parts m.now).name g }
{
    let name = m.name(g);
    (name == 0) | (0..g).any(|j| m.name(j) == name)
}

fn bad_names<M: Tested>(m: &M) -> bool
    ensures { result ≡ any_of false (M.parts m.now).gates (bad_name (M.parts m.now).name) }
{
    (0..m.gates()).any(|g| bad_name(m, g))
}

// The Rust's `GateSetModel::try_new`.
pub fn check<M: Tested>(m: &M) -> Result<(), Refusal>
    requires { M.has_state m.now }
    ensures { result ≡ tested_of (M.parts m.now) }
{
    let d = m.dimension();
    if d == 0 {
        return Err(Refusal::NonFinite);
    }
    if !m.is_state_finite() {
        return Err(Refusal::NonFinite);
    }
    let effects = m.effects();
    if effects == 0 {
        return Err(Refusal::Shape {
            expected: d as u64,
            actual: 0,
        });
    }
    if bad_gate(m) {
        return Err(Refusal::NonFinite);
    }
    if bad_names(m) {
        return Err(Refusal::InvalidGstOptimization(Reason::Name));
    }
    Ok(())
}

impl<'a> Tested for Card<'a> {
    ghost parts = { λ c. on_card c.bytes.now c.header };

    ghost has_state = { λ c. 5 ≤ c.header.kind };

    fn dimension(&self) -> usize {
        self.header.dimension
    }

    fn effects(&self) -> usize {
        self.header.effects
    }

    fn gates(&self) -> usize {
        self.header.gates
    }

    #[tactic(auto, using(card_places::proofs::Within::state_inside), unfolding(card_parts::specs::Model::state_of))]
    fn is_state_finite(&self) -> bool {
        are_finite(self.bytes, model_at(self.header), self.header.dimension)
    }

    #[tactic(auto, using(card_places::proofs::Within::effect_inside), unfolding(card_parts::specs::Model::effect_of))]
    fn is_effect_finite(&self, k: usize) -> bool {
        let from = self.layout().effect_at(k);
        are_finite(self.bytes, from, self.header.dimension)
    }

    #[tactic(auto, using(card_places::proofs::Within::gate_inside), unfolding(card_parts::specs::Model::gate_of))]
    fn is_gate_finite(&self, g: usize) -> bool {
        let from = self.layout().gate_at(g);
        are_finite(self.bytes, from, square(self.header.dimension))
    }

    fn name(&self, g: usize) -> u64 {
        self.name_of(g)
    }
}
