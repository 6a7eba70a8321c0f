// Reads a card from standard input, and writes its sheet or its refusal. One byte more than a card may have is read, so that a longer card is seen.
#![tactic(auto)]

use input::read_full;
use printing::{Output, print_sheet};
use std::io;

fn main(rt: HostRuntime) -> io::Result<()> {
    let mut card = [0u8; 65537];
    let mut res = [0u64; 4096];
    let mut work = [0.0f64; 8192];
    let n = read_full(&mut rt.stdin(), &mut card)?;
    let answer = tomography::sheet(&card[..n], &mut res, &mut work);
    let mut out = Output::new(rt.stdout());
    print_sheet(&mut out, answer, &res);
    out.finish()
}
