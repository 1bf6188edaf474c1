// Runs complete on the cases of standard input: the papers' theories, the worked instances, the edges, every end by each cause, every refusal.
// `stored_cases` says what a case is, and what is asked says which buffer is lent; rust/src/bin/complete_cases.rs writes them, and the independent
// engine writes the output that is due.
#![tactic(auto)]

use std::io;
use std::io::Write;
use stored_cases::Asked;

mod print;

// The lines of a case.
fn answer<W: Write>(out: &mut W, case: Asked) -> io::Result<()> {
    stored_cases::print(out, case.name)?;
    let given = case.problem;
    match case.asked {
        0 => print::completed(out, given),
        _ => print::short_buffer(out, given),
    }
}

// The most bytes of cases.
const TEXT: usize = 65536;

fn main(rt: HostRuntime) -> io::Result<()> {
    let mut text = [0u8; TEXT];
    let n = stored_cases::read_full(&mut rt.stdin(), &mut text)?;
    let mut out = rt.stdout();
    for case in stored_cases::cases_in(&text[..n]) {
        answer(&mut out, case)?;
    }
    Ok(())
}
