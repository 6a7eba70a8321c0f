// The sheets of kinds 1 to 4 and 6, each of a card of its kind. Those of kinds 1 to 4 take bytes and a size: of a card they ask only that its words are there.
#![tactic(auto)]

ghost use Rattle.std.specs.Prelude.{◌≡◌, List, ℕ, ◌+◌, ◌*◌, ◌^◌, ◌≤◌, length};
ghost use Rattle.lists.specs.Build.{over};
ghost use Rattle.numbers.specs.Word.{word_at};
ghost use Rattle.numbers.specs.Slice.{number_at, numbers_at};
ghost use Rattle.pauli.specs.Density.{inverted_of};
ghost use Rattle.density.specs.Projection.{projected_verdict};
ghost use Rattle.transfer.specs.Process.{process_of};
ghost use Rattle.outcome.specs.Outcome.{Gives};
ghost use Rattle.sheets.specs.Sheets.{vectors_of, density_numbers, estimate_of, projection_numbers, transfer_numbers, density_sheet, projected_sheet, process_sheet, physical_of, physical_sheet, gauge_verdict, gauge_numbers, gauge_sheet};

use card_parts::Card;
use outcome::Answer;
use refusal::Refusal;
use sizes::{four_to, square};

// Word 1 of the kinds that have a tolerance there.
fn tolerance_of(card: &[u8]) -> f64
    requires { 16 ≤ length card.now }
    ensures { result ≡ number_at card.now 1 }
{
    numbers::number_of(numbers::word_at(card, 1))
}

// Inverts the expectations; the density matrix goes to the front of the work slice.
fn invert_density(card: &[u8], n: usize, work: &mut [f64]) -> Result<(), Refusal>
    requires { (n ≤ 3) × ((2 + 4 ^ n) * 8 ≤ length card.now) × (8192 ≤ length work.old) }
    ensures { (result ≡ inverted_of n (number_at card.now 1) (numbers_at card.now 2 (4 ^ n))) × (work.new ≡ over (density_numbers card.now n) work.old) }
{
    let count = four_to(n);
    let mut es = [0.0; 64];
    numbers::load(card, 2, count, &mut es);
    pauli::linear_inversion(n, tolerance_of(card), &es[..count], work)
}

// Kind 1.
#[tactic(auto, using(crate::proofs::Shown::density_refused, outcome::proofs::Outcomes::stays))]
pub fn density_sheet(
    card: &[u8],
    n: usize,
    res: &mut [u64],
    work: &mut [f64],
) -> Result<Answer, Refusal>
    requires { (n ≤ 3) × ((2 + 4 ^ n) * 8 ≤ length card.now) × (4096 ≤ length res.old) × (8192 ≤ length work.old) }
    ensures { Gives (density_sheet card.now n) res.old res.new result × (work.new ≡ over (density_numbers card.now n) work.old) }
{
    invert_density(card, n, work)?;
    let d = sizes::two_to(n);
    numbers::emit(work, 2 * (d * d), res);
    Ok(Answer::Density {
        dimension: d as u64,
    })
}

// Projects the estimate, in rooms of ROOM numbers; the density matrix goes to the front of the work
// slice.
fn project_within<const ROOM: usize>(card: &[u8], d: usize, work: &mut [f64]) -> Result<(), Refusal>
    requires { (1 ≤ d) × (d ≤ 16) × ((3 + 2 * (d * d)) * 8 ≤ length card.now) × (8192 ≤ length work.old) × (2 * (d * d) ≤ ROOM) × (ROOM ≤ 512) }
    ensures { (result ≡ projected_verdict d (number_at card.now 1) (word_at card.now 2) (estimate_of card.now d)) × (work.new ≡ over (projection_numbers card.now d) work.old) }
{
    let count = 2 * square(d);
    let mut estimate = [0.0; ROOM];
    numbers::load(card, 3, count, &mut estimate);
    let most = numbers::word_at(card, 2);
    density::project_density::<ROOM>(&estimate[..count], d, tolerance_of(card), most, work)
}

// The same, in as much room as d asks: setting it to zero is no small part of a projection at d 4.
fn project(card: &[u8], d: usize, work: &mut [f64]) -> Result<(), Refusal>
    requires { (1 ≤ d) × (d ≤ 16) × ((3 + 2 * (d * d)) * 8 ≤ length card.now) × (8192 ≤ length work.old) }
    ensures { (result ≡ projected_verdict d (number_at card.now 1) (word_at card.now 2) (estimate_of card.now d)) × (work.new ≡ over (projection_numbers card.now d) work.old) }
{
    if d <= 4 {
        return project_within::<32>(card, d, work);
    }
    project_within::<512>(card, d, work)
}

// Kind 2.
#[tactic(auto, using(crate::proofs::Shown::projected_refused, outcome::proofs::Outcomes::stays))]
pub fn projected_sheet(
    card: &[u8],
    d: usize,
    res: &mut [u64],
    work: &mut [f64],
) -> Result<Answer, Refusal>
    requires { (1 ≤ d) × (d ≤ 16) × ((3 + 2 * (d * d)) * 8 ≤ length card.now) × (4096 ≤ length res.old) × (8192 ≤ length work.old) }
    ensures { Gives (projected_sheet card.now d) res.old res.new result × (work.new ≡ over (projection_numbers card.now d) work.old) }
{
    project(card, d, work)?;
    numbers::emit(work, 2 * square(d), res);
    Ok(Answer::Projected {
        dimension: d as u64,
    })
}

// Inverts the process; the transfer matrix goes to the front of the work slice.
fn invert_process(card: &[u8], p: usize, work: &mut [f64]) -> Result<(), Refusal>
    requires { (1 ≤ p) × (p ≤ 16) × ((2 + 2 * (p * p)) * 8 ≤ length card.now) × (8192 ≤ length work.old) }
    ensures { (result ≡ process_of (number_at card.now 1) (vectors_of card.now p) p) × (work.new ≡ over (transfer_numbers card.now p) work.old) }
{
    let count = 2 * square(p);
    let mut vectors = [0.0; 512];
    numbers::load(card, 2, count, &mut vectors);
    transfer::process_linear_inversion(&vectors[..count], tolerance_of(card), p, work)
}

// Kind 3.
#[tactic(auto, using(crate::proofs::Shown::process_refused, outcome::proofs::Outcomes::stays))]
pub fn process_sheet(
    card: &[u8],
    n: usize,
    res: &mut [u64],
    work: &mut [f64],
) -> Result<Answer, Refusal>
    requires { (n ≤ 2) × ((2 + 2 * (4 ^ n * 4 ^ n)) * 8 ≤ length card.now) × (4096 ≤ length res.old) × (8192 ≤ length work.old) }
    ensures { Gives (process_sheet card.now n) res.old res.new result × (work.new ≡ over (transfer_numbers card.now (4 ^ n)) work.old) }
{
    let p = four_to(n);
    invert_process(card, p, work)?;
    numbers::emit(work, square(p), res);
    Ok(Answer::Process { size: p as u64 })
}

// The three tests of a transfer matrix, of p by p values. They write no number, so that any result stays as it is.
fn test_transfer(
    n: usize,
    p: usize,
    transfer: &[f64],
    tolerance: f64,
    rotations: u64,
) -> Result<Answer, Refusal>
    requires { (1 ≤ n) × (n ≤ 2) × (p ≡ 4 ^ n) × (length transfer.now ≡ p * p) }
    ensures { (l : List ℕ) → Gives (physical_of n tolerance rotations transfer.now) l l result }
{
    let completely_positive = positivity::is_completely_positive(
        n, transfer, tolerance, rotations,
    )?;
    Ok(Answer::Physical {
        trace_preserving: physical::is_trace_preserving(transfer, p, tolerance),
        unital: physical::is_unital(transfer, p, tolerance),
        completely_positive,
    })
}

// Kind 4.
pub fn physical_sheet(card: &[u8], n: usize) -> Result<Answer, Refusal>
    requires { (1 ≤ n) × (n ≤ 2) × ((3 + 4 ^ n * 4 ^ n) * 8 ≤ length card.now) }
    ensures { (l : List ℕ) → Gives (physical_sheet card.now n) l l result }
{
    let p = four_to(n);
    let count = square(p);
    let mut transfer = [0.0; 256];
    numbers::load(card, 3, count, &mut transfer);
    let rotations = numbers::word_at(card, 2);
    test_transfer(n, p, &transfer[..count], tolerance_of(card), rotations)
}

// Checks the model and transforms it; the new model's numbers go to the front of the work slice.
#[tactic(auto, using(crate::proofs::Shown::model_refused, crate::proofs::Shown::model_good), unfolding(model::specs::Checked::checked_of))]
fn transform(card: &Card<'_>, work: &mut [f64]) -> Result<(), Refusal>
    requires { (card.now.header.kind ≡ 6) × (8192 ≤ length work.old) }
    ensures { (result ≡ gauge_verdict card.now.bytes.now card.now.header) × (work.new ≡ over (gauge_numbers card.now.bytes.now card.now.header) work.old) }
{
    model::check(card)?;
    gauge::transform(card, work)
}

// Kind 6.
#[tactic(auto, using(crate::proofs::Shown::gauge_refused, crate::proofs::Shown::computed_model, crate::proofs::Shown::length_new_model, outcome::proofs::Outcomes::stays))]
pub fn gauge_sheet(card: &Card<'_>, res: &mut [u64], work: &mut [f64]) -> Result<Answer, Refusal>
    requires { (card.now.header.kind ≡ 6) × (4096 ≤ length res.old) × (8192 ≤ length work.old) }
    ensures { Gives (gauge_sheet card.now.bytes.now card.now.header) res.old res.new result × (work.new ≡ over (gauge_numbers card.now.bytes.now card.now.header) work.old) }
{
    transform(card, work)?;
    let count = model_words::model_numbers(card.header);
    model_words::put(card, &work[..count], res);
    Ok(Answer::Model {
        words: card.layout().model_words() as u64,
    })
}
