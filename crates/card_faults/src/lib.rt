// The lowest word at fault in a part of the card. Only words that have a rule are looked at, and of those only the ones that are there.
#![tactic(auto, unfolding(crate::specs::Walk::walk, crate::specs::Walk::earlier, card_layout::specs::Layout::breaks, card_layout::specs::Layout::faulty))]

ghost use Rattle.std.specs.Prelude.{◌≡◌, cond, ltb, [], ◌∷◌, ◌^◌, ◌<◌};
ghost use Rattle.numbers.specs.Word.{word_at, words_in};
ghost use Rattle.card_layout.specs.Layout.{at_most, sequence, indices, coordinate, faulty, times, sequence_roles, record_roles};
ghost use Rattle.card_faults.specs.Walk.{walk, earlier};

use card_layout::{Coordinate, coordinate_breaks, indices_break, length_of, sequence_breaks};
use numbers::word_at;

// The lower of two places.
pub fn earlier(a: Option<usize>, b: Option<usize>) -> Option<usize>
    ensures { result ≡ earlier a b }
{
    match (a, b) {
        (Some(p), Some(q)) => Some(p.min(q)),
        _ => a.or(b),
    }
}

// The word at place p, if the card has one there.
fn word(card: &[u8], p: usize) -> Option<u64>
    ensures { result ≡ cond (ltb p (words_in card.now)) (Some (word_at card.now p)) None }
{
    (p < card.len() / 8).then(|| word_at(card, p))
}

// A word that is a whole number up to a limit.
pub fn limit_fault(card: &[u8], p: usize, limit: u64) -> Option<usize>
    ensures { result ≡ walk card.now p (at_most limit ∷ []) }
{
    word(card, p).is_some_and(|w| limit < w).then_some(p)
}

fn sequence_faulty(card: &[u8], p: usize) -> bool
    ensures { result ≡ faulty card.now p sequence }
{
    word(card, p).is_some_and(|w| sequence_breaks(w))
}

// Index word j of a record, whose first word stands j + 1 words before it.
fn indices_faulty(card: &[u8], p: usize, j: usize) -> bool
    requires { (j < 4) × (j < p) }
    ensures { result ≡ faulty card.now p (indices j) }
{
    word(card, p).is_some_and(|w| indices_break(length_of(word_at(card, p - (j + 1))), j, w))
}

fn coordinate_faulty(card: &[u8], p: usize) -> bool
    ensures { result ≡ faulty card.now p coordinate }
{
    word(card, p).is_some_and(|w| coordinate_breaks(Coordinate::from(w)))
}

fn sequence_fault(card: &[u8], p: usize) -> Option<usize>
    requires { p < 2 ^ 41 }
    ensures { result ≡ walk card.now p sequence_roles }
{
    if sequence_faulty(card, p) {
        return Some(p);
    }
    (p + 1..p + 5).find(|q| indices_faulty(card, *q, *q - (p + 1)))
}

// The n records from place p on, each with e counts.
pub fn records_fault(card: &[u8], p: usize, e: usize, n: usize) -> Option<usize>
    requires { (p < 2 ^ 40) × (e < 2 ^ 8) × (n < 2 ^ 16) }
    ensures { result ≡ walk card.now p (times n (record_roles e)) }
{
    (0..n).find_map(|r| sequence_fault(card, p + r * (5 + e)))
}

// The n coordinates from place p on.
pub fn coordinates_fault(card: &[u8], p: usize, n: usize) -> Option<usize>
    requires { (p < 2 ^ 40) × (n < 2 ^ 16) }
    ensures { result ≡ walk card.now p (times n (coordinate ∷ [])) }
{
    (p..p + n).find(|q| coordinate_faulty(card, *q))
}
