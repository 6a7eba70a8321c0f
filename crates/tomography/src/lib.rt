// The entry point: the sheet of a card. It asks nothing of its caller, tests the lengths of the slices first, and clears the work slice at every exit.
#![tactic(auto)]

ghost use Rattle.std.specs.Prelude.{◌≡◌, ◌≤◌, length, Ok};
ghost use Rattle.card.specs.Reading.{read_of};
ghost use Rattle.outcome.specs.Outcome.{Gives};
ghost use Rattle.tomography.specs.Sheet.{kind_sheet, sheet_of, Sheet};

use card_layout::Kind;
use card_parts::{Card, GstRecords};
use outcome::Answer;
use refusal::Refusal;

// A card that the reader accepts.
#[tactic(auto, using(crate::proofs::Cards::sequences, crate::proofs::Cards::density_card, crate::proofs::Cards::fit_card, outcome::proofs::Outcomes::same_outcome, card_layout::proofs::EachKind::known), unfolding(crate::specs::Sheet::kind_sheet, crate::specs::Sheet::model_sheet))]
fn run_kind(card: &Card<'_>, res: &mut [u64], work: &mut [f64]) -> Result<Answer, Refusal>
    requires { (read_of card.now.bytes.now ≡ Ok card.now.header) × (4096 ≤ length res.old) × (8192 ≤ length work.old) }
    ensures { Gives (kind_sheet card.now.bytes.now card.now.header) res.old res.new result }
{
    let h = card.header;
    match Kind::try_from(h.kind) {
        Ok(Kind::Density) => sheets::density_sheet(card.bytes, h.qubits, res, work),
        Ok(Kind::Projected) => sheets::projected_sheet(card.bytes, h.dimension, res, work),
        Ok(Kind::Process) => sheets::process_sheet(card.bytes, h.qubits, res, work),
        Ok(Kind::Physical) => sheets::physical_sheet(card.bytes, h.qubits),
        Ok(Kind::Fit) => fit_sheets::fit_sheet(&GstRecords { card: *card }, res),
        Ok(Kind::Model) => sheets::gauge_sheet(card, res, work),
        Ok(Kind::Diagnostics) => gst_sheets::diagnostics_sheet(&GstRecords { card: *card }, res),
        Err(_) => unreachable!(),
    }
}

#[tactic(auto, using(outcome::proofs::Outcomes::stays), unfolding(crate::specs::Sheet::sheet_of))]
fn run(card: &[u8], res: &mut [u64], work: &mut [f64]) -> Result<Answer, Refusal>
    requires { (4096 ≤ length res.old) × (8192 ≤ length work.old) }
    ensures { Gives (sheet_of card.now) res.old res.new result }
{
    let header = card::read(card)?;
    let accepted = Card {
        bytes: card,
        header,
    };
    run_kind(&accepted, res, work)
}

// The sheet of a card: the answer, its words at the front of the result, and the work slice all +0.
pub fn sheet(card: &[u8], res: &mut [u64], work: &mut [f64]) -> Result<Answer, Refusal>
    ensures { Sheet card.now res.old res.new work.old work.new result }
{
    outcome::in_room(res, work, |res, work| run(card, res, work))
}
