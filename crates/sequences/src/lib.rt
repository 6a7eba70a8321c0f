// A gate sequence over a model that is given in slices: what is tested first, and its probabilities.
#![tactic(auto)]

ghost use Rattle.std.specs.Prelude.{◌≡◌, ◌++◌, ◌+◌, ◌*◌, ◌≤◌, ◌<◌, length, take, drop};
ghost use Rattle.lists.specs.Part.{part};
ghost use Rattle.numbers.specs.Slice.{all_finite};
ghost use Rattle.refusal.specs.Verdicts.{good};
ghost use Rattle.gate_set.specs.GateSet.{columns_in, present_of, probabilities_of};
ghost use Rattle.sequences.specs.Sequences.{limits_verdict, model_size, given, sequence_verdict, Sized};

use model::Tested;
use refusal::Refusal;

#[tactic(auto, unfolding(crate::specs::Sequences::limits_verdict, card_layout::specs::Limits::limits_of))]
fn check_limits(d: usize, effects: usize, gates: usize, n: usize) -> Result<(), Refusal>
    ensures { result ≡ limits_verdict d effects gates n }
{
    let beyond = (16 < d) | ((16 < effects) | ((8 < gates) | (64 < n)));
    if beyond {
        return Err(Refusal::InvalidCard(0));
    }
    Ok(())
}

// How many numbers a model has.
fn model_size(d: usize, effects: usize, gates: usize) -> usize
    requires { Sized d effects gates }
    ensures { result ≡ model_size d effects gates }
{
    d + effects * d + gates * (d * d)
}

// A model that is given in slices: a gate for each name, and as many numbers as its sizes ask.
#[derive(Clone, Copy)]
struct Given<'a> {
    dimension: usize,
    effects: usize,
    names: &'a [u64],
    numbers: &'a [f64],
    ghost sized: { Sized dimension effects (length names.now) },
    ghost enough: { model_size dimension effects (length names.now) ≤ length numbers.now },
}

impl<'a> Given<'a> {
    // Whether the n numbers from `from` on are finite.
    fn is_part_finite(&self, from: usize, n: usize) -> bool
        requires { from + n ≤ length self.now.numbers.now }
        ensures { result ≡ all_finite (part from n self.now.numbers.now) }
    {
        let end = from + n;
        numbers::all_finite(&self.numbers[from..end])
    }
}

impl<'a> Tested for Given<'a> {
    ghost parts = { λ m. given m.dimension m.effects m.names.now m.numbers.now };

    ghost has_state = { λ _. Unit {0} };

    fn dimension(&self) -> usize {
        self.dimension
    }

    fn effects(&self) -> usize {
        self.effects
    }

    fn gates(&self) -> usize {
        self.names.len()
    }

    fn is_state_finite(&self) -> bool {
        numbers::all_finite(&self.numbers[..self.dimension])
    }

    fn is_effect_finite(&self, k: usize) -> bool {
        let d = self.dimension;
        self.is_part_finite(d + k * d, d)
    }

    fn is_gate_finite(&self, g: usize) -> bool {
        let d = self.dimension;
        self.is_part_finite(d + self.effects * d + g * (d * d), d * d)
    }

    fn name(&self, g: usize) -> u64 {
        self.names[g]
    }
}

// A sequence, at the front of an array.
fn indices(sequence: &[u64]) -> [usize; 64]
    requires { length sequence.now ≤ 64 }
    ensures { (64 ≡ length result) × (take (length sequence.now) result ≡ sequence.now) }
{
    let mut room = [0usize; 64];
    for (k, g) in sequence.iter().enumerate() {
        room[k] = *g as usize;
    }
    room
}

// Whether every gate of the sequence is there, or the first that is not.
fn check_gates(sequence: &[u64], gates: usize) -> Result<(), Refusal>
    requires { length sequence.now ≤ 64 }
    ensures { result ≡ present_of gates sequence.now }
{
    let room = indices(sequence);
    gate_set::check_sequence(&room[..sequence.len()], gates)
}

// All that is tested. The arguments come one by one, as those of the library's entry, which are C's.
pub fn check<'a>(
    d: usize,
    effects: usize,
    names: &'a [u64],
    numbers: &'a [f64],
    sequence: &'a [u64],
) -> Result<(), Refusal>
    ensures { result ≡ sequence_verdict d effects names.now numbers.now sequence.now }
{
    check_limits(d, effects, names.len(), sequence.len())?;
    refusal::check_count(model_size(d, effects, names.len()), numbers)?;
    model::check(&Given {
        dimension: d,
        effects,
        names,
        numbers,
    })?;
    check_gates(sequence, names.len())
}

// The probabilities, at the front of `out`; the gates by columns go to the front of `work`. Not of a `Given`, which holds the gates' names: here only their
// number is known.
pub fn probabilities<'a>(
    d: usize,
    effects: usize,
    gates: usize,
    numbers: &'a [f64],
    sequence: &'a [u64],
    work: &mut [f64],
    out: &mut [f64],
)
    requires { Sized d effects gates × (model_size d effects gates ≤ length numbers.now) × (length sequence.now ≤ 64) × (present_of gates sequence.now ≡ good) × (2048 ≤ length work.old) × (effects ≤ length out.old) }
    ensures { (out.new ≡ probabilities_of d effects numbers.now sequence.now ++ drop effects out.old)
        × (work.new ≡ columns_in d effects gates numbers.now ++ drop (gates * (d * d)) work.old) }
{
    let room = indices(sequence);
    gate_set::gates_by_columns(numbers, d, effects, gates, work);
    gate_set::probabilities(numbers, work, &room[..sequence.len()], d, effects, out);
}
