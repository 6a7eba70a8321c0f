// A word as a sheet shows it.
ghost use Rattle.std.specs.Prelude.{Some};
ghost use Rattle.printing.specs.Text.{word_text};

use std::fmt;
use std::fmt::Display;

// 16 digits to the base 16, whatever the word.
#[derive(Drop)]
pub(crate) struct Word(pub(crate) u64);

impl Display for Word {
    ghost output = { λ w. Some (word_text w.0) };

    #[tactic(auto, using(crate::proofs::Writing::zeros_padded))]
    fn fmt<W: fmt::Write>(&self, f: &mut fmt::Formatter<W>) -> fmt::Result {
        write!(f, "{:016x}", self.0)
    }
}
