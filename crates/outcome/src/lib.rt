// What the entry points answer, and the room that they ask for.
#![tactic(auto)]

ghost use Rattle.std.specs.Prelude.{◌≡◌};
ghost use Rattle.outcome.specs.Outcome.{Outcome, roomy, Call, MayRun, Runs};

use refusal::Refusal;

// The header of a sheet, or what an entry of the library tells. There is a case for each that is built. A call answers `Result<Answer, Refusal>`.
#[derive(Clone, Copy)]
pub enum Answer {
    Density {
        dimension: u64,
    },
    Projected {
        dimension: u64,
    },
    Process {
        size: u64,
    },
    Physical {
        trace_preserving: bool,
        unital: bool,
        completely_positive: bool,
    },
    // The sheet's R, S, E and V, and how many words the model has, which the header does not show.
    // Any R with either V can be told.
    Fit {
        stop: u64,
        steps: u64,
        evaluations: u64,
        converged: bool,
        words: u64,
    },
    Model {
        words: u64,
    },
    Diagnostics,
    Probes {
        count: u64,
    },
    Setting {
        qubits: u64,
    },
    Applied {
        size: u64,
    },
    Choi {
        dimension: u64,
    },
    Probabilities {
        count: u64,
    },
}

// Whether the lent slices are long enough.
#[tactic(auto, unfolding(crate::specs::Outcome::roomy))]
fn has_room(res: &[u64], work: &[f64]) -> bool
    ensures { result ≡ roomy res.now work.now }
{
    4096 <= res.len() && 8192 <= work.len()
}

// Runs an entry point where the lent slices are long enough, and clears the work slice at every exit.
// What it runs takes the two slices, and says how long they are: arrays would be exactly so long, and of a struct that lends both each function would have to say that
// it keeps the references.
pub fn in_room<F: FnOnce(&mut [u64], &mut [f64]) -> Result<Answer, Refusal>>(
    res: &mut [u64],
    work: &mut [f64],
    run: F,
) -> Result<Answer, Refusal>
    requires { MayRun F.FnOnce run }
    ensures { (o : Outcome) → Runs F.FnOnce run o → Call o res.old res.new work.old work.new result }
{
    let answer = if has_room(res, work) {
        run(res, work)
    } else {
        Err(Refusal::ShortBuffer)
    };
    numbers::clear(work);
    answer
}
