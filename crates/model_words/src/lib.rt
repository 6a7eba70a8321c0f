// A model's numbers, from the card, and its words, as a sheet shows them: the numbers', and between them the gates' names from the card.
#![tactic(auto)]

ghost use Rattle.std.specs.Prelude.{◌≡◌, ◌+◌, ◌*◌, ◌≤◌, ◌<◌, length};
ghost use Rattle.lists.specs.Build.{joined, over};
ghost use Rattle.card_places.specs.Places.{model_words};
ghost use Rattle.card_parts.specs.Model.{gate_of};
ghost use Rattle.model_words.specs.Words.{vector_numbers, model_numbers, numbers_of, gate_words, gates_words, model_words_of};

use card_layout::Header;
use card_parts::Card;
use card_places::model_at;
use sizes::square;

// How many numbers the state and the effects have.
pub fn vector_numbers(h: Header) -> usize
    requires { (h.dimension ≤ 16) × (h.effects ≤ 16) }
    ensures { (result ≡ vector_numbers h) × (result ≤ 272) }
{
    h.dimension + h.effects * h.dimension
}

// How many numbers the model has.
pub fn model_numbers(h: Header) -> usize
    requires { (h.dimension ≤ 16) × (h.effects ≤ 16) × (h.gates ≤ 8) }
    ensures { (result ≡ model_numbers h) × (result ≤ 2320) }
{
    vector_numbers(h) + h.gates * square(h.dimension)
}

// Puts the numbers of the gates at the front of the slice.
fn load_gates(card: &Card<'_>, out: &mut [f64])
    requires { card.now.header.gates * (card.now.header.dimension * card.now.header.dimension) ≤ length out.old }
    ensures { out.new ≡ over (joined card.now.header.gates (gate_of card.now.bytes.now card.now.header)) out.old }
{
    let m = square(card.header.dimension);
    // By places: see `matrix::row`.
    for g in 0..card.header.gates {
        let start = g * m;
        card.load_gate(g, &mut out[start..]);
    }
}

// Puts the numbers of the card's model at the front of the slice.
#[tactic(auto, using(card_places::proofs::Within::model_inside, crate::proofs::Sizes::model_loaded))]
pub fn load(card: &Card<'_>, out: &mut [f64])
    requires { (5 ≤ card.now.header.kind) × (model_numbers card.now.header ≤ length out.old) }
    ensures { out.new ≡ over (numbers_of card.now.bytes.now card.now.header) out.old }
{
    let v = vector_numbers(card.header);
    numbers::load(card.bytes, model_at(card.header), v, out);
    load_gates(card, &mut out[v..]);
}

// The words of one gate: its name, and its numbers' words.
fn put_gate(card: &Card<'_>, g: usize, numbers: &[f64], res: &mut [u64])
    requires { (g < card.now.header.gates) × (card.now.header.dimension * card.now.header.dimension ≤ length numbers.now) × (1 + card.now.header.dimension * card.now.header.dimension ≤ length res.old) }
    ensures { res.new ≡ over (gate_words card.now.bytes.now card.now.header g numbers.now) res.old }
{
    let m = square(card.header.dimension);
    numbers::emit(numbers, m, &mut res[1..]);
    res[0] = card.name_of(g);
}

// The words of all gates, from their numbers.
fn put_gates(card: &Card<'_>, numbers: &[f64], res: &mut [u64])
    requires { (card.now.header.gates * (card.now.header.dimension * card.now.header.dimension) ≤ length numbers.now) × (card.now.header.gates * (1 + card.now.header.dimension * card.now.header.dimension) ≤ length res.old) }
    ensures { res.new ≡ over (gates_words card.now.bytes.now card.now.header numbers.now) res.old }
{
    let m = square(card.header.dimension);
    // By places: see `matrix::row`.
    for g in 0..card.header.gates {
        let from = g * m;
        let to = g * (1 + m);
        put_gate(card, g, &numbers[from..], &mut res[to..]);
    }
}

// The words of a model, from its numbers: the state's, the effects', then the gates'.
#[tactic(auto, using(crate::proofs::Sizes::model_written))]
pub fn put(card: &Card<'_>, numbers: &[f64], res: &mut [u64])
    requires { (model_numbers card.now.header ≤ length numbers.now) × (model_words card.now.header ≤ length res.old) }
    ensures { res.new ≡ over (model_words_of card.now.bytes.now card.now.header numbers.now) res.old }
{
    let v = vector_numbers(card.header);
    numbers::emit(numbers, v, res);
    put_gates(card, &numbers[v..], &mut res[v..]);
}
