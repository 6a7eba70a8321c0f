// The kinds of a card, and of a coordinate.
ghost use Rattle.std.specs.Prelude.{◌≡◌};
ghost use Rattle.card_layout.specs.Limits.{limits_of};
ghost use Rattle.card_layout.specs.Kinds.{number_of, Numbers, CoordinateNumbers};

use crate::{Header, up_to};

// In document 01's order and under its numbers.
#[derive(Clone, Copy, PartialEq, Eq)]
pub enum Kind {
    Density = 1,
    Projected = 2,
    Process = 3,
    Physical = 4,
    Fit = 5,
    Model = 6,
    Diagnostics = 7,
}

// A number that no kind has, of a card or of a coordinate.
#[derive(Clone, Copy, PartialEq, Eq)]
pub struct UnknownKind(pub usize);

impl TryFrom<usize> for Kind {
    type Error = UnknownKind;

    ghost try_from_gives = { Numbers };

    #[tactic(auto, using(crate::proofs::EachKind::other_kind))]
    fn try_from(number: usize) -> Result<Kind, UnknownKind> {
        match number {
            1 => Ok(Kind::Density),
            2 => Ok(Kind::Projected),
            3 => Ok(Kind::Process),
            4 => Ok(Kind::Physical),
            5 => Ok(Kind::Fit),
            6 => Ok(Kind::Model),
            7 => Ok(Kind::Diagnostics),
            _ => Err(UnknownKind(number)),
        }
    }
}

impl Kind {
    // The largest value of each field of word 0.
    #[tactic(auto, unfolding(crate::specs::Limits::limits_of))]
    pub(crate) fn limits(self) -> Header
        ensures { result ≡ limits_of (number_of self) }
    {
        match self {
            Kind::Density => up_to(1, 3, 0, 0, 0, 0, 0),
            Kind::Projected => up_to(2, 0, 16, 0, 0, 0, 0),
            Kind::Process => up_to(3, 2, 0, 0, 0, 0, 0),
            Kind::Physical => up_to(4, 2, 0, 0, 0, 0, 0),
            Kind::Fit => up_to(5, 0, 16, 16, 8, 200, 64),
            Kind::Model => up_to(6, 0, 16, 16, 8, 0, 0),
            Kind::Diagnostics => up_to(7, 0, 16, 16, 8, 200, 0),
        }
    }
}

// What a coordinate names an entry of, under document 01's numbers.
#[derive(Clone, Copy, PartialEq, Eq)]
pub enum CoordinateKind {
    State = 1,
    Effect = 2,
    Gate = 3,
}

impl TryFrom<usize> for CoordinateKind {
    type Error = UnknownKind;

    ghost try_from_gives = { CoordinateNumbers };

    fn try_from(number: usize) -> Result<CoordinateKind, UnknownKind> {
        match number {
            1 => Ok(CoordinateKind::State),
            2 => Ok(CoordinateKind::Effect),
            3 => Ok(CoordinateKind::Gate),
            other => Err(UnknownKind(other)),
        }
    }
}
