// The likelihood of a card's records under models, in one pass for all of them.
#![tactic(auto)]

ghost use Rattle.std.specs.Prelude.{Err, ◌≡◌, ◌*◌, ◌≤◌, ◌<◌, [], ◌∷◌, length, take, false, true, ◌↔◌, IsTrue, EachIndex};
ghost use Rattle.std.specs.Result.{is_err};
ghost use Rattle.lists.specs.Build.{over};
ghost use Rattle.card_parts.specs.Parts.{sequence_of, Sequence};
ghost use Rattle.likelihood.specs.Multinomial.{log_in, onward, with_record};
ghost use Rattle.likelihood.specs.declared.Unfit.TheVariants.{Refused};
ghost use Rattle.diagnostics.specs.Diagnostics.{counts_of, likelihood_of, columns_of, Columned, Roomy};
ghost use Rattle.gate_set.specs.Models.{row_at};
ghost use Rattle.diagnostics.specs.Lent.{sum_at, EachOnward, AllKept, AllAdded, AllSummed, AllColumned, AllFitted};

use card_parts::{Card, GstRecords};
use gate_set::Model;
use likelihood::{Diagnostics, Unfit, Weighing};
use logarithm::LnTables;
use refusal::Refusal;

mod weighed;

use weighed::WeighedRecords;

// Record r's sequence.
fn load_sequence(card: &Card<'_>, r: usize, out: &mut [usize])
    requires { Sequence card.now.bytes.now card.now.header r × (length out.old ≡ length (sequence_of card.now.bytes.now card.now.header r)) }
    ensures { out.new ≡ sequence_of card.now.bytes.now card.now.header r }
{
    for (k, gate) in out.iter_mut().enumerate() {
        *gate = card.gate_in(r, k);
    }
}

// Record r's counts.
fn load_counts(card: &Card<'_>, r: usize, out: &mut [u64])
    requires { (r < card.now.header.records) × (length out.old ≡ card.now.header.effects) }
    ensures { out.new ≡ counts_of card.now.bytes.now card.now.header r }
{
    for (k, count) in out.iter_mut().enumerate() {
        *count = card.count_in(r, k);
    }
}

// One record more, of these counts and the probabilities at the front of ps, where all before it passed.
fn weigh(w: &Weighing<'_>, counts: &[u64], ps: &[f64; 16], l: &mut Result<Diagnostics, Unfit>)
    requires { length counts.now ≤ 16 }
    ensures { l.new ≡ onward (with_record (log_in w.now.tables.now) w.now.deviance w.now.tolerance counts.now (take (length counts.now) ps.now)) l.old }
{
    if let Ok(d) = *l {
        *l = likelihood::with_record(w, counts, &ps[..counts.len()], d);
    }
}

// The same for each model, by its row of ps.
fn weigh_all<const N: usize>(
    w: &Weighing<'_>,
    counts: &[u64],
    ps: &[[f64; 16]],
    sums: &mut [Result<Diagnostics, Unfit>; N],
)
    requires { (length counts.now ≤ 16) × (length ps.now ≡ N) }
    ensures { EachOnward N (λ k. with_record (log_in w.now.tables.now) w.now.deviance w.now.tolerance counts.now (take (length counts.now) (row_at ps.now k))) sums.old sums.new }
{
    for (k, l) in sums.iter_mut().enumerate() {
        weigh(w, counts, &ps[k], l);
    }
}

// A refusal, where all records before passed.
fn refuse(x: Refusal, l: &mut Result<Diagnostics, Unfit>)
    ensures { l.new ≡ onward (λ _. Err (Refused x)) l.old }
{
    if l.is_ok() {
        *l = Err(Unfit::Refused(x));
    }
}

// The same for each model.
fn refuse_all<const N: usize>(x: Refusal, sums: &mut [Result<Diagnostics, Unfit>; N])
    ensures { EachOnward N (λ k _. Err (Refused x)) sums.old sums.new }
{
    for l in sums.iter_mut() {
        refuse(x, l);
    }
}

// Adds record r's terms under each model, where all records before it passed. `room` has room for a sequence. There are two models at most: an array of rows
// for each has to have a size.
fn add_record<const N: usize>(
    c: &WeighedRecords<'_, '_>,
    models: &[Model<'_>],
    r: usize,
    room: &mut [usize],
    sums: &mut [Result<Diagnostics, Unfit>; N],
)
    requires { (r < c.now.records.now.card.header.records) × (N ≤ 2) × (length models.now ≡ N) × AllKept c.now models.now × (64 ≤ length room.old) }
    ensures { AllAdded c.now models.now r sums.old sums.new }
{
    let card = &c.records.card;
    let h = card.header;
    let n = card.sequence_length(r);
    let sequence = &mut room[..n];
    load_sequence(card, r, sequence);
    if let Err(x) = gate_set::check_sequence(sequence, h.gates) {
        refuse_all(x, sums);
        return;
    }
    let mut counts_room = [0u64; 16];
    let counts = &mut counts_room[..h.effects];
    load_counts(card, r, counts);
    let mut ps = [[0.0; 16]; N];
    gate_set::probabilities_under(models, sequence, h.dimension, h.effects, &mut ps);
    weigh_all(&c.weighing, counts, &ps, sums);
}

// Whether no model goes on.
fn all_ended<const N: usize>(sums: &[Result<Diagnostics, Unfit>; N]) -> bool
    ensures { IsTrue result ↔ EachIndex sums.now (λ k. is_err (sum_at sums.now k) ≡ true) }
{
    sums.iter().all(|l| l.is_err())
}

// All records, until no model goes on.
fn add_records<const N: usize>(
    c: &WeighedRecords<'_, '_>,
    models: &[Model<'_>],
) -> [Result<Diagnostics, Unfit>; N]
    requires { (N ≤ 2) × (length models.now ≡ N) × AllKept c.now models.now }
    ensures { AllSummed c.now models.now result }
{
    let mut room = [0usize; 64];
    let none = Ok(Diagnostics {
        log_likelihood: 0.0,
        deviance: 0.0,
    });
    let mut sums = [none; N];
    // By number: a record is words of the card and no value, and the loop may end before the last.
    for r in 0..c.records.card.header.records {
        if all_ended(&sums) {
            return sums;
        }
        add_record(c, models, r, &mut room, &mut sums);
    }
    sums
}

// The likelihoods under models whose gates stand by columns.
fn likelihoods<const N: usize>(
    records: &GstRecords<'_>,
    models: &[Model<'_>],
    deviance: bool,
    tolerance: f64,
) -> [Result<Diagnostics, Unfit>; N]
    requires { (N ≤ 2) × (length models.now ≡ N) × AllColumned records.now.card.header models.now }
    ensures { AllFitted deviance tolerance records.now.card.bytes.now records.now.card.header models.now result }
{
    let tables = LnTables::new();
    let weighing = Weighing {
        tables: &tables,
        deviance,
        tolerance,
    };
    let weighed = WeighedRecords {
        records: &*records,
        weighing,
    };
    add_records(&weighed, models)
}

// The likelihood of a card's records under the model with these numbers; its gates go by columns to the front of `columns`.
pub fn fit_diagnostics(
    records: &GstRecords<'_>,
    model: &[f64],
    deviance: bool,
    tolerance: f64,
    columns: &mut [f64],
) -> Result<Diagnostics, Unfit>
    requires { Roomy records.now.card.header model.now columns.old }
    ensures { (result ≡ likelihood_of deviance tolerance records.now.card.bytes.now records.now.card.header model.now)
        × (columns.new ≡ over (columns_of records.now.card.header model.now) columns.old) }
{
    let h = records.card.header;
    let size = h.gates * (h.dimension * h.dimension);
    gate_set::gates_by_columns(model, h.dimension, h.effects, h.gates, columns);
    let m = Model {
        numbers: &*model,
        columns: &columns[..size],
    };
    let fits: [_; 1] = likelihoods(records, &[m], deviance, tolerance);
    fits[0]
}

// The same for two, without the deviance. They are put into an array here: beside what their references were lent from that gets no proof.
fn both<'a>(
    records: &GstRecords<'_>,
    first: Model<'a>,
    second: Model<'a>,
    tolerance: f64,
) -> [Result<Diagnostics, Unfit>; 2]
    requires { Columned records.now.card.header first.numbers.now first.columns.now × Columned records.now.card.header second.numbers.now second.columns.now }
    ensures { result ≡ likelihood_of false tolerance records.now.card.bytes.now records.now.card.header first.entry.numbers.now
        ∷ (likelihood_of false tolerance records.now.card.bytes.now records.now.card.header second.entry.numbers.now ∷ []) }
{
    likelihoods(records, &[first, second], false, tolerance)
}

// The likelihoods of a card's records under two models, without the deviance, each as `fit_diagnostics` has it. A record is read once for both.
pub fn fit_diagnostics_both<'a>(
    records: &GstRecords<'_>,
    model: &'a [f64],
    other: &'a [f64],
    tolerance: f64,
    columns: &'a mut [f64],
    others: &'a mut [f64],
) -> [Result<Diagnostics, Unfit>; 2]
    requires { Roomy records.now.card.header model.now columns.old × Roomy records.now.card.header other.now others.old }
    ensures { (result ≡ likelihood_of false tolerance records.now.card.bytes.now records.now.card.header model.now
        ∷ (likelihood_of false tolerance records.now.card.bytes.now records.now.card.header other.now ∷ []))
        × (columns.new ≡ over (columns_of records.now.card.header model.now) columns.old) × (others.new ≡ over (columns_of records.now.card.header other.now) others.old) }
{
    let h = records.card.header;
    let size = h.gates * (h.dimension * h.dimension);
    gate_set::gates_by_columns(model, h.dimension, h.effects, h.gates, columns);
    gate_set::gates_by_columns(other, h.dimension, h.effects, h.gates, others);
    let first = Model {
        numbers: &*model,
        columns: &columns[..size],
    };
    let second = Model {
        numbers: &*other,
        columns: &others[..size],
    };
    both(records, first, second, tolerance)
}
