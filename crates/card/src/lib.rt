// Reading a card: 15 at the lowest place at fault, then 1, then 2.
#![tactic(auto)]

ghost use Rattle.std.specs.Prelude.{◌≡◌, false};
ghost use Rattle.card_layout.specs.Rules.{word0_breaks};
ghost use Rattle.card_layout.specs.Layout.{after_word0};
ghost use Rattle.card_faults.specs.Walk.{walk};
ghost use Rattle.card.specs.Reading.{header, examined, length_read, after_fault, read_of};
ghost use Rattle.card.specs.Scan.{size_fault};

use card_faults::{coordinates_fault, earlier, limit_fault, records_fault};
use card_layout::{Header, Kind, qubits_break, word0_breaks};
use card_places::Layout;
use numbers::word_at;
use refusal::Refusal;
use sizes::{four_to, square};

#[tactic(auto, unfolding(crate::specs::Scan::size_fault))]
fn size_fault(card: &[u8]) -> Option<usize>
    ensures { result ≡ size_fault card.now }
{
    let n = card.len();
    if n == 0 {
        return Some(0);
    }
    if 65536 < n {
        return Some(8192);
    }
    if 0 < n % 8 {
        return Some(n / 8);
    }
    None
}

// Kind 5: two controls, the records, the coordinates.
#[tactic(auto, using(crate::proofs::Walks::fault5))]
fn fit_fault(card: &[u8], layout: Layout) -> Option<usize>
    requires { layout.header.kind ≡ 5 }
    ensures { result ≡ walk card.now 1 (after_word0 layout.header) }
{
    let h = layout.header;
    let iterations = limit_fault(card, 1, 65535);
    let backtracks = limit_fault(card, 7, 255);
    let records = records_fault(card, layout.after_model(), h.effects, h.records);
    let coordinates = coordinates_fault(card, layout.coordinate_at(0), h.coordinates);
    iterations.or(backtracks.or(records.or(coordinates)))
}

// The words after word 0.
#[tactic(auto, using(crate::proofs::Walks::fault2, crate::proofs::Walks::fault4, crate::proofs::Walks::fault7, crate::proofs::Walks::faultless, card_layout::proofs::EachKind::known))]
fn kind_fault(card: &[u8], layout: Layout) -> Option<usize>
    ensures { result ≡ walk card.now 1 (after_word0 layout.header) }
{
    let h = layout.header;
    match Kind::try_from(h.kind) {
        Ok(Kind::Projected) => {
            let m = square(h.dimension);
            limit_fault(card, 2, (64 * m) as u64)
        }
        Ok(Kind::Physical) => {
            let m = square(four_to(h.qubits));
            limit_fault(card, 2, (64 * m) as u64)
        }
        Ok(Kind::Fit) => fit_fault(card, layout),
        Ok(Kind::Diagnostics) => records_fault(card, layout.after_model(), h.effects, h.records),
        Ok(Kind::Density) => None,
        Ok(Kind::Process) => None,
        Ok(Kind::Model) => None,
        Err(_) => None,
    }
}

// The words that are looked at, where word 0 keeps its rule.
#[tactic(auto, using(card_layout::proofs::EachKind::limited, crate::proofs::Walks::short, crate::proofs::Walks::long))]
fn words_fault(card: &[u8], h: Header) -> Option<usize>
    requires { (h ≡ header card.now) × (word0_breaks h ≡ false) }
    ensures { result ≡ walk card.now 0 (examined card.now) }
{
    if qubits_break(h) {
        return None;
    }
    let layout = Layout { header: h };
    kind_fault(card, layout)
}

#[tactic(auto, using(card_layout::proofs::EachKind::limited), unfolding(crate::specs::Reading::length_read))]
fn length_read(h: Header, found: usize) -> Result<Header, Refusal>
    requires { word0_breaks h ≡ false }
    ensures { result ≡ length_read h found }
{
    if qubits_break(h) {
        return Err(Refusal::InvalidQubits);
    }
    let layout = Layout { header: h };
    let w = layout.wanted();
    if w == found {
        return Ok(h);
    }
    Err(Refusal::Shape {
        expected: w as u64,
        actual: found as u64,
    })
}

fn after_fault(f: Option<usize>, r: Result<Header, Refusal>) -> Result<Header, Refusal>
    ensures { result ≡ after_fault f r }
{
    match f {
        Some(p) => Err(Refusal::InvalidCard(p as u64)),
        None => r,
    }
}

// What the card is refused for, or its word 0.
#[tactic(auto, using(crate::proofs::Walks::no_word, crate::proofs::Walks::word0_fault, crate::proofs::Lowest::found), unfolding(crate::specs::Reading::read_of, crate::specs::Reading::header))]
pub fn read(card: &[u8]) -> Result<Header, Refusal>
    ensures { result ≡ read_of card.now }
{
    if card.len() < 8 {
        return Err(Refusal::InvalidCard(0));
    }
    let h = Header::from(word_at(card, 0));
    if word0_breaks(h) {
        return Err(Refusal::InvalidCard(0));
    }
    let f = earlier(size_fault(card), words_fault(card, h));
    after_fault(f, length_read(h, card.len() / 8))
}
