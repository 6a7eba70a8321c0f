// The controls and the coordinates of a fit card: read, and tested in the Rust's order.
#![tactic(auto)]

ghost use Rattle.std.specs.Prelude.{◌≡◌, ◌+◌, ◌*◌, ◌^◌, ◌≤◌, ◌<◌, length};
ghost use Rattle.lists.specs.Build.{over};
ghost use Rattle.numbers.specs.Word.{word_at};
ghost use Rattle.card_places.specs.Places.{coordinate_at};
ghost use Rattle.parameters.specs.Parameters.{config_of, good_config, has_entry, place_of, places_of, repeated, parameter_verdict, parameters_verdict, request_verdict};

use card_layout::{Coordinate, CoordinateKind};
use card_parts::Card;
use card_places::Layout;
use descent::GstOptimizerConfig;
use model_words::vector_numbers;
use numbers::{is_finite, is_positive, number_of, word_at};
use refusal::{Reason, Refusal};
use sizes::square;

// Words 1 to 8 of the card.
#[tactic(auto, unfolding(crate::specs::Parameters::config_of))]
pub fn config_of(card: &[u8]) -> GstOptimizerConfig
    requires { 72 ≤ length card.now }
    ensures { result ≡ config_of card.now }
{
    GstOptimizerConfig {
        max_iterations: word_at(card, 1),
        initial_step: number_of(word_at(card, 2)),
        finite_difference_step: number_of(word_at(card, 3)),
        gradient_tolerance: number_of(word_at(card, 4)),
        objective_tolerance: number_of(word_at(card, 5)),
        probability_tolerance: number_of(word_at(card, 6)),
        max_backtracks: word_at(card, 7),
        anchor_strength: number_of(word_at(card, 8)),
    }
}

// The Rust's `validate_optimizer_config`, from its last test to its first: each name stands for that test and those after it.
#[tactic(auto, unfolding(crate::specs::Parameters::good_config))]
fn is_good(c: GstOptimizerConfig) -> bool
    ensures { result ≡ good_config c }
{
    let anchor = is_finite(c.anchor_strength) & !(c.anchor_strength < 0.0);
    let probability = is_positive(c.probability_tolerance) & anchor;
    let objective = is_positive(c.objective_tolerance) & probability;
    let gradient = is_positive(c.gradient_tolerance) & objective;
    let difference = is_positive(c.finite_difference_step) & gradient;
    let step = is_positive(c.initial_step) & difference;
    (0 < c.max_iterations) & ((0 < c.max_backtracks) & step)
}

// The number of a gate's entry, by rows. That row and column are below 2^24, as a word has them, is no field of a `Coordinate`: `coordinate_breaks` takes any.
#[tactic(auto, using(crate::proofs::Fields::row_most))]
fn entry_number(layout: Layout, c: Coordinate) -> usize
    requires { (c.row < 2 ^ 24) × (c.column < 2 ^ 24) }
    ensures { (result ≡ c.row * layout.header.dimension + c.column) × (result < 2 ^ 29) }
{
    let d = layout.header.dimension;
    c.row * d + c.column
}

// Whether the entry that a coordinate names exists.
#[tactic(auto, unfolding(crate::specs::Parameters::has_entry))]
fn has_entry(layout: Layout, c: Coordinate) -> bool
    requires { (c.row < 2 ^ 24) × (c.column < 2 ^ 24) }
    ensures { result ≡ has_entry layout.header c }
{
    let h = layout.header;
    let d = h.dimension;
    match CoordinateKind::try_from(c.kind) {
        Ok(CoordinateKind::State) => c.column < d,
        Ok(CoordinateKind::Effect) => (c.which < h.effects) & (c.column < d),
        // A gate: the reader lets no other kind pass.
        _ => (c.which < h.gates) & (entry_number(layout, c) < square(d)),
    }
}

// The place of that entry among the model's numbers.
#[tactic(auto, using(crate::proofs::Fields::which_most), unfolding(crate::specs::Parameters::place_of))]
fn place_of(layout: Layout, c: Coordinate) -> usize
    requires { (c.which < 2 ^ 12) × (c.row < 2 ^ 24) × (c.column < 2 ^ 24) }
    ensures { result ≡ place_of layout.header c }
{
    let h = layout.header;
    let d = h.dimension;
    match CoordinateKind::try_from(c.kind) {
        Ok(CoordinateKind::State) => c.column,
        Ok(CoordinateKind::Effect) => d + c.which * d + c.column,
        // A gate: the reader lets no other kind pass.
        _ => vector_numbers(h) + c.which * square(d) + entry_number(layout, c),
    }
}

// The word of coordinate i.
#[tactic(auto, using(card_places::proofs::Within::coordinate_inside))]
fn coordinate_word(card: &Card<'_>, i: usize) -> u64
    requires { i < card.now.header.coordinates }
    ensures { result ≡ word_at card.now.bytes.now (coordinate_at card.now.header i) }
{
    word_at(card.bytes, card.layout().coordinate_at(i))
}

// Whether coordinate i is an earlier one again.
fn is_repeated(card: &Card<'_>, i: usize) -> bool
    requires { i < card.now.header.coordinates }
    ensures { result ≡ repeated card.now.bytes.now card.now.header i }
{
    let word = coordinate_word(card, i);
    (0..i).any(|j| coordinate_word(card, j) == word)
}

#[tactic(auto, using(crate::proofs::Fields::fields), unfolding(crate::specs::Parameters::parameter_verdict))]
fn check_parameter(card: &Card<'_>, i: usize) -> Result<(), Refusal>
    requires { i < card.now.header.coordinates }
    ensures { result ≡ parameter_verdict card.now.bytes.now card.now.header i }
{
    if is_repeated(card, i) {
        return Err(Refusal::InvalidGstOptimization(Reason::RepeatedCoordinate));
    }
    if has_entry(card.layout(), card.coordinate_in(i)) {
        return Ok(());
    }
    Err(Refusal::InvalidGstParameter(i as u64))
}

fn check_parameters(card: &Card<'_>) -> Result<(), Refusal>
    ensures { result ≡ parameters_verdict card.now.bytes.now card.now.header }
{
    // By number: a coordinate is tested beside those before it.
    for i in 0..card.header.coordinates {
        check_parameter(card, i)?;
    }
    Ok(())
}

// What the Rust tests of a fit before its first evaluation.
#[tactic(auto, unfolding(crate::specs::Parameters::request_verdict))]
pub fn check_request(card: &Card<'_>) -> Result<(), Refusal>
    requires { 72 ≤ length card.now.bytes.now }
    ensures { result ≡ request_verdict card.now.bytes.now card.now.header }
{
    if !is_good(config_of(card.bytes)) {
        return Err(Refusal::InvalidGstOptimization(Reason::Controls));
    }
    if card.header.records == 0 {
        return Err(Refusal::InvalidGstOptimization(Reason::NoRecords));
    }
    if card.header.coordinates == 0 {
        return Err(Refusal::InvalidGstOptimization(Reason::NoCoordinates));
    }
    check_parameters(card)
}

// The places of the coordinates' entries, at the front of `out`.
pub fn load_places(card: &Card<'_>, out: &mut [usize])
    requires { card.now.header.coordinates ≤ length out.old }
    ensures { out.new ≡ over (places_of card.now.bytes.now card.now.header) out.old }
{
    for (i, place) in out[..card.header.coordinates].iter_mut().enumerate() {
        *place = place_of(card.layout(), card.coordinate_in(i));
    }
}
