// Sheets, refusals and readings as lines of an output. What is written is stated byte for byte, for each writer whose bytes a contract can name.
#![tactic(auto)]

ghost use Rattle.std.specs.Prelude.{◌≡◌, ◌+◌, ◌*◌, ◌≤◌, ◌<◌, ◌++◌, ◌∷◌, [], length, codes};
ghost use Rattle.std.specs.Fmt.{decimal};
ghost use Rattle.lists.specs.Build.{build};
ghost use Rattle.printing.specs.Outputs.{Writes};
ghost use Rattle.printing.specs.Text.{lines_text, header_line, refusal_line, tests_line, fit_line, word_line, entry_line, words_shown, square_shown, entries_shown, fit_shown, answer_lines, sheet_lines, reading_lines};
ghost use Rattle.printing.specs.Lines.{word_lines, square_lines, entry_lines, fit_lines, answer_line_count, lines_of};

use card_layout::Header;
use outcome::Answer;
use refusal::Refusal;
use std::io::Write;

mod output;
mod word;

pub use output::Output;
use word::Word;

fn print_header<W: Write>(out: &mut Output<W>, name: &str, n: u64)
    ensures { Writes W.contents out.old out.new (header_line name.now n ++ 10 ∷ []) }
{
    writeln!(out, "{name} {n}");
}

// `refused N A B`: one line. Not by a `Display` of its own: no other place writes a refusal.
pub fn print_refusal<W: Write>(out: &mut Output<W>, r: Refusal) -> usize
    ensures lines { result ≡ 1 }
    ensures text { Writes W.contents out.old out.new (refusal_line r ++ 10 ∷ []) }
{
    writeln!(
        out,
        "refused {} {} {}",
        r.code(),
        Word(r.value_a()),
        Word(r.value_b())
    );
    1
}

// The entries of a matrix: the real and the imaginary part of each.
fn print_entries<W: Write>(out: &mut Output<W>, res: &[u64], count: usize)
    requires { 2 * count ≤ length res.now }
    ensures { Writes W.contents out.old out.new (lines_text (build count (entry_line res.now))) }
{
    let (entries, _) = res.as_chunks::<2>();
    for [re, im] in &entries[..count] {
        writeln!(out, "{} {}", Word(*re), Word(*im));
    }
}

// A header, and a matrix of d rows where the result holds it; how many lines that is.
fn print_matrix<W: Write>(out: &mut Output<W>, name: &str, d: u64, res: &[u64]) -> usize
    ensures lines { result ≡ entry_lines d (length res.now) }
    ensures text { Writes W.contents out.old out.new (lines_text (header_line name.now d ∷ entries_shown d res.now)) }
{
    print_header(out, name, d);
    if 64 < d {
        return 1;
    }
    let count = (d * d) as usize;
    if res.len() < 2 * count {
        return 1;
    }
    print_entries(out, res, count);
    1 + count
}

fn print_words<W: Write>(out: &mut Output<W>, res: &[u64], count: usize)
    requires { count ≤ length res.now }
    ensures { Writes W.contents out.old out.new (lines_text (build count (word_line res.now))) }
{
    for w in &res[..count] {
        writeln!(out, "{}", Word(*w));
    }
}

// After a header, so many words, one a line, where the result holds them; how many lines there are then.
fn print_body<W: Write>(out: &mut Output<W>, count: u64, res: &[u64]) -> usize
    ensures lines { result ≡ word_lines count (length res.now) }
    ensures text { Writes W.contents out.old out.new (lines_text (words_shown count res.now)) }
{
    let n = count as usize;
    if res.len() < n {
        return 1;
    }
    print_words(out, res, n);
    1 + n
}

// A header, and as many words as it says.
fn print_list<W: Write>(out: &mut Output<W>, name: &str, count: u64, res: &[u64]) -> usize
    ensures lines { result ≡ word_lines count (length res.now) }
    ensures text { Writes W.contents out.old out.new (lines_text (header_line name.now count ∷ words_shown count res.now)) }
{
    print_header(out, name, count);
    print_body(out, count, res)
}

// A header, and a matrix of p rows, one word a line.
fn print_square<W: Write>(out: &mut Output<W>, name: &str, p: u64, res: &[u64]) -> usize
    ensures lines { result ≡ square_lines p (length res.now) }
    ensures text { Writes W.contents out.old out.new (lines_text (header_line name.now p ∷ square_shown p res.now)) }
{
    print_header(out, name, p);
    if 64 < p {
        return 1;
    }
    print_body(out, p * p, res)
}

// `diagnostics`, and two words.
fn print_diagnostics<W: Write>(out: &mut Output<W>, res: &[u64]) -> usize
    ensures lines { result ≡ word_lines 2 (length res.now) }
    ensures text { Writes W.contents out.old out.new (lines_text (codes "diagnostics" ∷ words_shown 2 res.now)) }
{
    writeln!(out, "diagnostics");
    print_body(out, 2, res)
}

// `physical T U C`: one line.
fn print_tests<W: Write>(out: &mut Output<W>, t: bool, u: bool, c: bool) -> usize
    ensures lines { result ≡ 1 }
    ensures text { Writes W.contents out.old out.new (tests_line t u c ++ 10 ∷ []) }
{
    let (t, u, c) = (u64::from(t), u64::from(u), u64::from(c));
    writeln!(out, "physical {t} {u} {c}");
    1
}

// `fit R S E V`, six numbers and the words of the model.
fn print_fit<W: Write>(
    out: &mut Output<W>,
    stop: u64,
    steps: u64,
    evaluations: u64,
    converged: bool,
    words: u64,
    res: &[u64],
) -> usize
    ensures lines { result ≡ fit_lines words (length res.now) }
    ensures text { Writes W.contents out.old out.new
        (lines_text (fit_line stop steps evaluations converged ∷ fit_shown words res.now)) }
{
    let converged = u64::from(converged);
    writeln!(out, "fit {stop} {steps} {evaluations} {converged}");
    if 4096 < words {
        return 1;
    }
    print_body(out, 6 + words, res)
}

// The sheet of an answer whose numbers stand in the result; how many lines that is.
fn print_answer<W: Write>(out: &mut Output<W>, answer: Answer, res: &[u64]) -> usize
    ensures lines { result ≡ answer_line_count answer (length res.now) }
    ensures text { Writes W.contents out.old out.new (lines_text (answer_lines answer res.now)) }
{
    match answer {
        Answer::Density { dimension } => print_matrix(out, "density", dimension, res),
        Answer::Projected { dimension } => print_matrix(out, "projected", dimension, res),
        Answer::Process { size } => print_square(out, "process", size, res),
        Answer::Physical {
            trace_preserving,
            unital,
            completely_positive,
        } => print_tests(out, trace_preserving, unital, completely_positive),
        Answer::Fit {
            stop,
            steps,
            evaluations,
            converged,
            words,
        } => print_fit(out, stop, steps, evaluations, converged, words, res),
        Answer::Model { words } => print_list(out, "model", words, res),
        Answer::Diagnostics => print_diagnostics(out, res),
        Answer::Probes { count } => print_square(out, "probes", count, res),
        Answer::Setting { qubits } => print_list(out, "setting", qubits, res),
        Answer::Applied { size } => print_list(out, "applied", size, res),
        Answer::Choi { dimension } => print_matrix(out, "choi", dimension, res),
        Answer::Probabilities { count } => print_list(out, "probabilities", count, res),
    }
}

// The sheet of an answer, or its refusal; how many lines that is.
pub fn print_sheet<W: Write>(
    out: &mut Output<W>,
    answer: Result<Answer, Refusal>,
    res: &[u64],
) -> usize
    ensures lines { result ≡ lines_of answer (length res.now) }
    ensures count { result ≡ length (sheet_lines answer res.now) }
    ensures text { Writes W.contents out.old out.new (lines_text (sheet_lines answer res.now)) }
{
    match answer {
        Ok(told) => print_answer(out, told, res),
        Err(r) => print_refusal(out, r),
    }
}

// `read K` of a card of kind K that the reader accepts, or its refusal: one line.
pub fn print_reading<W: Write>(out: &mut Output<W>, reading: Result<Header, Refusal>) -> usize
    ensures lines { result ≡ 1 }
    ensures text { Writes W.contents out.old out.new (lines_text (reading_lines reading)) }
{
    match reading {
        Ok(h) => {
            print_header(out, "read", h.kind as u64);
            1
        }
        Err(r) => print_refusal(out, r),
    }
}
