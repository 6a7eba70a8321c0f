// The parts of a card, read by their places: a record's sequence and counts, a coordinate, the model's names and numbers, the transform. The card has
// the shape of its header; what follows from that and from the index is not tested again.
#![tactic(auto)]

ghost use Rattle.std.specs.Prelude.{◌≡◌, ◌++◌, ◌*◌, ◌≤◌, ◌<◌, length, get_or, drop};
ghost use Rattle.card_places.specs.Shape.{Shaped};
ghost use Rattle.card_parts.specs.Parts.{sequence_of, Sequence, count_in, coordinate_in};
ghost use Rattle.card_parts.specs.Model.{name_of, state_of, effect_of, gate_of, transform_of};

use card_layout::{Coordinate, Header, index_of, length_of};
use card_places::{Layout, model_at};
use numbers::{load, word_at};
use sizes::square;

mod records;

pub use records::GstRecords;

// A card that the reader accepts: its bytes, the fields of its word 0, and that it has the shape that these say.
#[derive(Clone, Copy)]
pub struct Card<'a> {
    pub bytes: &'a [u8],
    pub header: Header,
    ghost shaped: { Shaped bytes.now header },
}

impl<'a> Card<'a> {
    // The places of its parts.
    pub fn layout(&self) -> Layout
        ensures { result.header ≡ self.now.header }
    {
        Layout {
            header: self.header,
        }
    }

    // How many gates record r's sequence uses.
    #[tactic(auto, using(card_places::proofs::Within::record_inside, crate::proofs::Sequences::length_sequence))]
    pub fn sequence_length(&self, r: usize) -> usize
        requires { r < self.now.header.records }
        ensures { result ≡ length (sequence_of self.now.bytes.now self.now.header r) }
    {
        length_of(word_at(self.bytes, self.layout().record_at(r)))
    }

    // Gate k of record r's sequence.
    #[tactic(auto, using(card_places::proofs::Within::index_inside, crate::proofs::Sequences::gate_sequence))]
    pub fn gate_in(&self, r: usize, k: usize) -> usize
        requires { Sequence self.now.bytes.now self.now.header r × (k < length (sequence_of self.now.bytes.now self.now.header r)) }
        ensures { (result ≡ get_or (sequence_of self.now.bytes.now self.now.header r) k 0) × (result < 16) }
    {
        index_of(word_at(self.bytes, self.layout().index_at(r, k)), k % 16)
    }

    // Record r's count of outcome k.
    #[tactic(auto, using(card_places::proofs::Within::count_inside), unfolding(crate::specs::Parts::count_in))]
    pub fn count_in(&self, r: usize, k: usize) -> u64
        requires { (r < self.now.header.records) × (k < self.now.header.effects) }
        ensures { result ≡ count_in self.now.bytes.now self.now.header r k }
    {
        word_at(self.bytes, self.layout().count_at(r, k))
    }

    // Coordinate c.
    #[tactic(auto, using(card_places::proofs::Within::coordinate_inside), unfolding(crate::specs::Parts::coordinate_in))]
    pub fn coordinate_in(&self, c: usize) -> Coordinate
        requires { c < self.now.header.coordinates }
        ensures { result ≡ coordinate_in self.now.bytes.now self.now.header c }
    {
        Coordinate::from(word_at(self.bytes, self.layout().coordinate_at(c)))
    }

    // The name of gate g.
    #[tactic(auto, using(card_places::proofs::Within::gate_inside), unfolding(crate::specs::Model::name_of))]
    pub fn name_of(&self, g: usize) -> u64
        requires { g < self.now.header.gates }
        ensures { result ≡ name_of self.now.bytes.now self.now.header g }
    {
        word_at(self.bytes, self.layout().gate_name_at(g))
    }

    // Puts the state's numbers at the front of the slice.
    #[tactic(auto, using(card_places::proofs::Within::state_inside), unfolding(crate::specs::Model::state_of))]
    pub fn load_state(&self, out: &mut [f64])
        requires { (5 ≤ self.now.header.kind) × (self.now.header.dimension ≤ length out.old) }
        ensures { out.new ≡ state_of self.now.bytes.now self.now.header ++ drop self.now.header.dimension out.old }
    {
        load(
            self.bytes,
            model_at(self.header),
            self.header.dimension,
            out,
        );
    }

    // The numbers of effect k.
    #[tactic(auto, using(card_places::proofs::Within::effect_inside), unfolding(crate::specs::Model::effect_of))]
    pub fn load_effect(&self, k: usize, out: &mut [f64])
        requires { (k < self.now.header.effects) × (self.now.header.dimension ≤ length out.old) }
        ensures { out.new ≡ effect_of self.now.bytes.now self.now.header k ++ drop self.now.header.dimension out.old }
    {
        load(
            self.bytes,
            self.layout().effect_at(k),
            self.header.dimension,
            out,
        );
    }

    // The numbers of gate g, by rows.
    #[tactic(auto, using(card_places::proofs::Within::gate_inside), unfolding(crate::specs::Model::gate_of))]
    pub fn load_gate(&self, g: usize, out: &mut [f64])
        requires { (g < self.now.header.gates) × (self.now.header.dimension * self.now.header.dimension ≤ length out.old) }
        ensures { out.new ≡ gate_of self.now.bytes.now self.now.header g ++ drop (self.now.header.dimension * self.now.header.dimension) out.old }
    {
        load(
            self.bytes,
            self.layout().gate_at(g),
            square(self.header.dimension),
            out,
        );
    }

    // The transform's numbers, by rows.
    #[tactic(auto, using(card_places::proofs::Within::transform_inside), unfolding(crate::specs::Model::transform_of))]
    pub fn load_transform(&self, out: &mut [f64])
        requires { (self.now.header.kind ≡ 6) × (self.now.header.dimension * self.now.header.dimension ≤ length out.old) }
        ensures { out.new ≡ transform_of self.now.bytes.now self.now.header ++ drop (self.now.header.dimension * self.now.header.dimension) out.old }
    {
        load(
            self.bytes,
            self.layout().after_model(),
            square(self.header.dimension),
            out,
        );
    }
}
