// The card's layout: the fields of its words, and the rule of each word that has one.
#![tactic(auto)]

ghost use Rattle.std.specs.Prelude.{◌≡◌, ◌<◌};
ghost use Rattle.card_layout.specs.Fields.{length_of, index_of};
ghost use Rattle.card_layout.specs.Limits.{up_to, limits_of};
ghost use Rattle.card_layout.specs.Rules.{past, word0_breaks, qubits_break, sequence_breaks, used_in, indices_break, coordinate_breaks};

mod kind;

pub use kind::{CoordinateKind, Kind, UnknownKind};

// The fields of word 0, as they stand on the card before any test: a number for the kind, which may be none's. What goes on by kind asks `Kind`.
#[derive(Clone, Copy)]
pub struct Header {
    pub kind: usize,
    pub qubits: usize,
    pub dimension: usize,
    pub effects: usize,
    pub gates: usize,
    pub records: usize,
    pub coordinates: usize,
    pub rest: usize,
}

// The fields of a coordinate, as they stand on the card: `which` is the outcome or the gate, `column` the index or the column.
#[derive(Clone, Copy)]
pub struct Coordinate {
    pub kind: usize,
    pub which: usize,
    pub row: usize,
    pub column: usize,
}

impl From<u64> for Header {
    ghost use Rattle.card_layout.specs.Fields.{header_of};

    ghost from_gives = { λ w h. h ≡ header_of w };

    fn from(w: u64) -> Header {
        Header {
            kind: ((w >> 60) % 16) as usize,
            qubits: ((w >> 56) % 16) as usize,
            dimension: ((w >> 48) % 256) as usize,
            effects: ((w >> 40) % 256) as usize,
            gates: ((w >> 32) % 256) as usize,
            records: ((w >> 16) % 65536) as usize,
            coordinates: ((w >> 8) % 256) as usize,
            rest: (w % 256) as usize,
        }
    }
}

impl From<u64> for Coordinate {
    ghost use Rattle.card_layout.specs.Fields.{coordinate_of};

    ghost from_gives = { λ w c. c ≡ coordinate_of w };

    fn from(w: u64) -> Coordinate {
        Coordinate {
            kind: ((w >> 60) % 16) as usize,
            which: ((w >> 48) % 4096) as usize,
            row: ((w >> 24) % 16777216) as usize,
            column: (w % 16777216) as usize,
        }
    }
}

// The length of a record's sequence, from the record's first word.
pub fn length_of(w: u64) -> usize
    ensures { result ≡ length_of w }
{
    ((w >> 56) % 256) as usize
}

// Gate index i of the 16 of a word.
pub fn index_of(w: u64, i: usize) -> usize
    requires { i < 16 }
    ensures { result ≡ index_of w i }
{
    ((w >> (60 - 4 * i)) % 16) as usize
}

fn up_to(k: usize, n: usize, d: usize, e: usize, g: usize, r: usize, c: usize) -> Header
    ensures { result ≡ up_to k n d e g r c }
{
    Header {
        kind: k,
        qubits: n,
        dimension: d,
        effects: e,
        gates: g,
        records: r,
        coordinates: c,
        rest: 0,
    }
}

// The largest value of each field of word 0, by kind.
#[tactic(auto, using(crate::proofs::EachKind::limits_none))]
fn limits_of(k: usize) -> Header
    ensures { result ≡ limits_of k }
{
    match Kind::try_from(k) {
        Ok(kind) => kind.limits(),
        Err(_) => up_to(0, 0, 0, 0, 0, 0, 0),
    }
}

// Each name stands for the test of its field and those after it.
#[tactic(auto, unfolding(crate::specs::Rules::past))]
fn past(m: Header, h: Header) -> bool
    ensures { result ≡ past m h }
{
    let coordinates = (m.coordinates < h.coordinates) | (m.rest < h.rest);
    let records = (m.records < h.records) | coordinates;
    let gates = (m.gates < h.gates) | records;
    let effects = (m.effects < h.effects) | gates;
    let dimension = (m.dimension < h.dimension) | effects;
    ((m.qubits == 0) & (0 < h.qubits)) | dimension
}

// Whether word 0 is at fault.
#[tactic(auto, using(crate::proofs::EachKind::known_number), unfolding(crate::specs::Rules::word0_breaks, crate::specs::Rules::no_matrix))]
pub fn word0_breaks(h: Header) -> bool
    ensures { result ≡ word0_breaks h }
{
    match Kind::try_from(h.kind) {
        Ok(kind) => {
            let no_matrix = (kind == Kind::Projected) & (h.dimension == 0);
            no_matrix | past(kind.limits(), h)
        }
        Err(UnknownKind(_)) => true,
    }
}

// Whether n, where the kind has it, is 0 or above its limit.
#[tactic(auto, unfolding(crate::specs::Rules::qubits_break))]
pub fn qubits_break(h: Header) -> bool
    ensures { result ≡ qubits_break h }
{
    let n = h.qubits;
    let m = limits_of(h.kind).qubits;
    (0 < m) & ((n == 0) | (m < n))
}

// Whether a record's first word is at fault.
#[tactic(auto, unfolding(crate::specs::Rules::sequence_breaks))]
pub fn sequence_breaks(w: u64) -> bool
    ensures { result ≡ sequence_breaks w }
{
    (64 < length_of(w)) | (w % 0x100_0000_0000_0000 != 0)
}

// How many of the 16 gate indices of a record's index word j its sequence uses.
fn used_in(len: usize, j: usize) -> usize
    requires { j < 4 }
    ensures { result ≡ used_in len j }
{
    len.saturating_sub(16 * j).min(16)
}

// Whether index word j of a record is at fault, the record's sequence being `len` gates long.
pub fn indices_break(len: usize, j: usize, w: u64) -> bool
    requires { j < 4 }
    ensures { result ≡ indices_break len j w }
{
    let used = used_in(len, j);
    if used == 0 {
        return w != 0;
    }
    let unused = 1u64 << (4 * (16 - used));
    w % unused != 0
}

// Whether a coordinate is at fault.
#[tactic(auto, unfolding(crate::specs::Rules::coordinate_breaks))]
pub fn coordinate_breaks(c: Coordinate) -> bool
    ensures { result ≡ coordinate_breaks c }
{
    match CoordinateKind::try_from(c.kind) {
        Ok(CoordinateKind::State) => (c.which != 0) | (c.row != 0),
        Ok(CoordinateKind::Effect) => c.row != 0,
        Ok(CoordinateKind::Gate) => false,
        Err(_) => true,
    }
}
