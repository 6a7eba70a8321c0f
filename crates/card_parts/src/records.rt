// The records of a card.
#![tactic(auto)]

ghost use Rattle.card_parts.specs.Parts.{Sequences};

use crate::Card;

// A card all of whose records are there, each with a sequence within the limit: the Rust's `records: &[GstRecord]`, read where they lie. That its kind is
// one with a model, 5 or above, or one with a transform, 6, stays a clause where it is asked: a likelihood does not ask it, and a type for it would be one more around
// the same card.
#[derive(Clone, Copy)]
pub struct GstRecords<'a> {
    pub card: Card<'a>,
    ghost sequences: { Sequences card.bytes.now card.header },
}
