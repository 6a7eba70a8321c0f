// Writes the sheet of each stored card of the file `cards`, the reading of each card of the file `readings`, and the outcome of each library call of the
// file `calls`. In all three a card or the words of a call stand after a word with their length in bytes. The file `stdout` beside src/ holds the Rust's
// answers.
#![tactic(auto)]

use input::read_full;
use numbers::{number_of, word_at};
use outcome::Answer;
use printing::{Output, print_reading, print_sheet};
use refusal::Refusal;
use std::fs::File;
use std::io;
use std::io::{Read, Write};
use std::rt::Files;

// The library's entries, under the numbers that the stored calls name them by.
#[derive(Clone, Copy)]
enum Entry {
    Probes = 8,
    Setting = 9,
    Apply = 10,
    Choi = 11,
    Probabilities = 12,
}

// A number that no entry has.
#[derive(Clone, Copy)]
struct UnknownEntry(u64);

impl TryFrom<u64> for Entry {
    type Error = UnknownEntry;

    fn try_from(number: u64) -> Result<Entry, UnknownEntry> {
        match number {
            8 => Ok(Entry::Probes),
            9 => Ok(Entry::Setting),
            10 => Ok(Entry::Apply),
            11 => Ok(Entry::Choi),
            12 => Ok(Entry::Probabilities),
            _ => Err(UnknownEntry(number)),
        }
    }
}

// The words of a call that have not been read yet.
#[derive(Drop)]
struct Words<'a> {
    bytes: &'a [u8],
}

impl<'a> Words<'a> {
    // The next word.
    fn next(&mut self) -> Option<u64> {
        let (word, rest) = self.bytes.split_at_checked(8)?;
        self.bytes = rest;
        Some(word_at(word, 0))
    }

    // What the next n words give, at the front of the room, which may be too small for them.
    fn take<'r, T: Copy, F: Fn(u64) -> T>(
        &mut self,
        n: usize,
        room: &'r mut [T],
        f: F,
    ) -> Option<&'r [T]>
        requires { F.IsAlwaysCallable f }
    {
        let front = room.get_mut(..n)?;
        for x in front.iter_mut() {
            *x = f(self.next()?);
        }
        Some(front)
    }

    // The same of all words that are left.
    fn rest<'r, T: Copy, F: Fn(u64) -> T>(&mut self, room: &'r mut [T], f: F) -> Option<&'r [T]>
        requires { F.IsAlwaysCallable f }
    {
        self.take(self.bytes.len() / 8, room, f)
    }
}

// Runs a call in room of its own, and writes the sheet of its answer.
fn answer<W: Write, F: FnOnce(&mut [u64], &mut [f64]) -> Result<Answer, Refusal>>(
    out: &mut Output<W>,
    call: F,
)
    requires { F.IsAlwaysCallable call }
{
    let mut res = [0u64; 4096];
    let mut work = [0.0f64; 8192];
    let answer = call(&mut res, &mut work);
    print_sheet(out, answer, &res);
}

// The index.
fn setting_call<W: Write>(out: &mut Output<W>, n: u64, words: &mut Words<'_>) -> Option<()> {
    let index = words.next()?;
    answer(
        out,
        |res, work| library::local_pauli_setting(n, index, res, work),
    );
    Some(())
}

// The count of values, the values, and the rest is the input.
fn apply_call<W: Write>(out: &mut Output<W>, n: u64, words: &mut Words<'_>) -> Option<()> {
    let mut values = [0.0; 512];
    let mut input = [0.0; 512];
    let count = words.next()? as usize;
    let values = words.take(count, &mut values, |w| number_of(w))?;
    let input = words.rest(&mut input, |w| number_of(w))?;
    answer(
        out,
        |res, work| library::apply_expectations(n, values, input, res, work),
    );
    Some(())
}

// The count of values, and the values, however many there are.
fn choi_call<W: Write>(out: &mut Output<W>, n: u64, words: &mut Words<'_>) -> Option<()> {
    let mut values = [0.0; 512];
    words.next()?;
    let values = words.rest(&mut values, |w| number_of(w))?;
    answer(
        out,
        |res, work| library::normalized_choi(n, values, res, work),
    );
    Some(())
}

// The counts of effects and of names, the names, the count of numbers, the numbers, and the rest is the sequence.
fn probabilities_call<W: Write>(out: &mut Output<W>, d: u64, words: &mut Words<'_>) -> Option<()> {
    let mut names = [0u64; 128];
    let mut values = [0.0; 4096];
    let mut sequence = [0u64; 128];
    let effects = words.next()?;
    let gates = words.next()? as usize;
    let names = words.take(gates, &mut names, |w| w)?;
    let count = words.next()? as usize;
    let values = words.take(count, &mut values, |w| number_of(w))?;
    let sequence = words.rest(&mut sequence, |w| w)?;
    answer(
        out,
        |res, work| library::probabilities(d, effects, names, values, sequence, res, work),
    );
    Some(())
}

// A call is the number of its entry, then n or the dimension, then what the entry asks for. Of one with too few words or too many nothing is written. A number
// that no entry has stands for a transfer matrix applied.
fn answer_call<W: Write>(out: &mut Output<W>, call: &[u8]) -> Option<()> {
    let mut words = Words { bytes: call };
    let entry = Entry::try_from(words.next()?);
    let n = words.next()?;
    match entry {
        Ok(Entry::Probes) => {
            answer(
                out,
                |res, work| library::product_probe_expectations(n, res, work),
            );
            Some(())
        }
        Ok(Entry::Setting) => setting_call(out, n, &mut words),
        Ok(Entry::Choi) => choi_call(out, n, &mut words),
        Ok(Entry::Probabilities) => probabilities_call(out, n, &mut words),
        Ok(Entry::Apply) | Err(_) => apply_call(out, n, &mut words),
    }
}

// The next card of the file, at the front of the room; `None` at the end of the file.
fn next<'c, R: Read>(file: &mut R, room: &'c mut [u8]) -> io::Result<Option<&'c [u8]>> {
    let mut head = [0u8; 8];
    if read_full(file, &mut head)? < 8 {
        return Ok(None);
    }
    let size = word_at(&head, 0) as usize;
    let Some(card) = room.get_mut(..size) else {
        return Ok(None);
    };
    read_full(file, card)?;
    Ok(Some(card))
}

// Answers one card of the file; whether there was one.
fn one<R: Read, W: Write, F: Fn(&mut Output<W>, &[u8])>(
    file: &mut R,
    out: &mut Output<W>,
    answer: F,
) -> io::Result<bool>
    requires { F.IsAlwaysCallable answer }
{
    let mut room = [0u8; 65537];
    let Some(card) = next(file, &mut room)? else {
        return Ok(false);
    };
    answer(out, card);
    Ok(true)
}

fn all<R: Read, W: Write, F: Fn(&mut Output<W>, &[u8])>(
    file: &mut R,
    out: &mut Output<W>,
    answer: F,
) -> io::Result<()>
    requires { F.IsAlwaysCallable answer }
{
    // So many at most, so that the loop ends.
    for _ in 0..100000 {
        if !one(file, out, &answer)? {
            return Ok(());
        }
    }
    Ok(())
}

// Answers all cards of a file. One that cannot be opened is told of, and passed over.
fn replay<R: Files + Eprint, W: Write, F: Fn(&mut Output<W>, &[u8])>(
    rt: &R,
    out: &mut Output<W>,
    path: &str,
    answer: F,
) -> io::Result<()>
    requires { F.IsAlwaysCallable answer }
{
    match File::open(rt, path) {
        Ok(mut file) => all(&mut file, out, answer),
        Err(e) => eprintln!(rt; "{path}: {e}"),
    }
}

fn main(rt: HostRuntime) -> io::Result<()> {
    let mut out = Output::new(rt.stdout());
    replay(
        &rt,
        &mut out,
        "cards",
        |out, card| answer(out, |res, work| tomography::sheet(card, res, work)),
    )?;
    replay(&rt, &mut out, "readings", |out, card| {
        print_reading(out, card::read(card));
    })?;
    replay(&rt, &mut out, "calls", |out, call| {
        answer_call(out, call);
    })?;
    out.finish()
}
