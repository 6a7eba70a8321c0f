// The place of each thing on a card, and how many words the card has.
#![tactic(auto)]

ghost use Rattle.std.specs.Prelude.{◌≡◌, ◌+◌, ◌*◌, ◌^◌, ◌≤◌, ◌<◌};
ghost use Rattle.card_layout.specs.Limits.{Limited};
ghost use Rattle.card_places.specs.Places.{wanted_words, model_at, model_words, effect_at, gate_name_at, gate_at, after_model, record_words, record_at, index_at, count_at, coordinate_at};

use card_layout::{Header, Kind};
use sizes::{four_to, square};

// The model, and its state. It asks nothing of the header, so it is no method of a Layout.
#[tactic(auto, unfolding(crate::specs::Places::model_at, card_layout::specs::Limits::unknown))]
pub fn model_at(h: Header) -> usize
    ensures { (result ≡ model_at h) × (result ≤ 9) }
{
    match Kind::try_from(h.kind) {
        Ok(Kind::Fit) => 9,
        Ok(Kind::Model) => 1,
        _ => 2,
    }
}

// A header within the limits: the places on its card are small numbers.
#[derive(Clone, Copy)]
pub struct Layout {
    pub header: Header,
    ghost limited: { Limited header },
}

impl Layout {
    #[tactic(auto, using(crate::proofs::Sizes::model_most))]
    pub fn model_words(self) -> usize
        ensures { (result ≡ model_words self.header) × (result ≤ 2328) }
    {
        let h = self.header;
        let d = h.dimension;
        d + h.effects * d + h.gates * (1 + square(d))
    }

    pub fn effect_at(self, k: usize) -> usize
        requires { k < 2 ^ 16 }
        ensures { result ≡ effect_at self.header k }
    {
        let d = self.header.dimension;
        model_at(self.header) + d + k * d
    }

    #[tactic(auto, using(crate::proofs::Sizes::product_fits))]
    pub fn gate_name_at(self, g: usize) -> usize
        requires { g < 2 ^ 16 }
        ensures { (result ≡ gate_name_at self.header g) × (result < 2 ^ 34) }
    {
        let d = self.header.dimension;
        model_at(self.header) + d + self.header.effects * d + g * (1 + square(d))
    }

    pub fn gate_at(self, g: usize) -> usize
        requires { g < 2 ^ 16 }
        ensures { result ≡ gate_at self.header g }
    {
        self.gate_name_at(g) + 1
    }

    // What follows the model: the transform, or the records.
    pub fn after_model(self) -> usize
        ensures { (result ≡ after_model self.header) × (result ≤ 2337) }
    {
        model_at(self.header) + self.model_words()
    }

    pub fn record_words(self) -> usize
        ensures { (result ≡ record_words self.header) × (result ≤ 21) }
    {
        5 + self.header.effects
    }

    #[tactic(auto, using(crate::proofs::Sizes::product_fits))]
    pub fn record_at(self, r: usize) -> usize
        requires { r < 2 ^ 16 }
        ensures { (result ≡ record_at self.header r) × (result < 2 ^ 34) }
    {
        self.after_model() + r * self.record_words()
    }

    pub fn index_at(self, r: usize, k: usize) -> usize
        requires { (r < 2 ^ 16) × (k < 2 ^ 16) }
        ensures { result ≡ index_at self.header r k }
    {
        self.record_at(r) + (1 + k / 16)
    }

    pub fn count_at(self, r: usize, k: usize) -> usize
        requires { (r < 2 ^ 16) × (k < 2 ^ 16) }
        ensures { result ≡ count_at self.header r k }
    {
        self.record_at(r) + (5 + k)
    }

    pub fn coordinate_at(self, c: usize) -> usize
        requires { c < 2 ^ 16 }
        ensures { (result ≡ coordinate_at self.header c) × (result < 2 ^ 35) }
    {
        self.record_at(self.header.records) + c
    }

    // How many words the card must have.
    #[tactic(auto, using(crate::proofs::ByKind::words1, crate::proofs::ByKind::words2, crate::proofs::ByKind::words3, crate::proofs::ByKind::words4, crate::proofs::ByKind::words5, crate::proofs::ByKind::words6, crate::proofs::ByKind::words7, card_layout::proofs::EachKind::known))]
    pub fn wanted(self) -> usize
        ensures { result ≡ wanted_words self.header }
    {
        let d = self.header.dimension;
        let n = self.header.qubits;
        match Kind::try_from(self.header.kind) {
            Ok(Kind::Density) => 2 + four_to(n),
            Ok(Kind::Projected) => 3 + 2 * square(d),
            Ok(Kind::Process) => 2 + 2 * square(four_to(n)),
            Ok(Kind::Physical) => 3 + square(four_to(n)),
            Ok(Kind::Fit) => self.coordinate_at(self.header.coordinates),
            Ok(Kind::Model) => self.after_model() + square(d),
            Ok(Kind::Diagnostics) => self.record_at(self.header.records),
            // The limits know no other kind.
            Err(_) => 0,
        }
    }
}
