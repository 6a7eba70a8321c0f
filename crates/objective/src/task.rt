// What a fit works on.
#![tactic(auto)]

ghost use Rattle.std.specs.Prelude.{◌≡◌, ◌≤◌, map};
ghost use Rattle.numbers.specs.Slice.{at};
ghost use Rattle.model_words.specs.Words.{numbers_of};
ghost use Rattle.objective.specs.Job.{Placed};

use card_parts::GstRecords;
use descent::GstOptimizerConfig;

// A fit's records with their card, the places of its coordinates' entries, its controls, and its own numbers at those places. That a slice has as many
// numbers stays a clause: a struct of coordinates would not spare it, since `gradient` and `search` take gradients and trials of as many numbers too.
#[derive(Clone, Copy)]
pub struct Task<'a> {
    pub records: &'a GstRecords<'a>,
    pub places: &'a [usize],
    pub config: GstOptimizerConfig,
    pub anchor: &'a [f64],
    ghost placed: { Placed records.now.card.header places.now },
    ghost anchored: { anchor.now ≡ map (at (numbers_of records.now.card.bytes.now records.now.card.header)) places.now },
}

// A task whose controls are within the card's limits, so that the steps of its fit can be counted.
#[derive(Clone, Copy)]
pub struct Limited<'a> {
    pub task: Task<'a>,
    ghost backtracks: { task.config.max_backtracks ≤ 255 },
    ghost iterations: { task.config.max_iterations ≤ 65535 },
}
