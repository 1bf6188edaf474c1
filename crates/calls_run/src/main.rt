// Runs the public calls on the cases of standard input, document 01's worked instances and edges, and prints a line for each. `stored_cases` says what
// a case is; rust/src/bin/call_cases.rs writes them.
#![tactic(auto)]

use std::io;
use std::io::Write;
use stored_cases::Asked;

mod print;

// The line of a case.
fn line<W: Write>(out: &mut W, case: Asked) -> io::Result<()> {
    stored_cases::print(out, case.name)?;
    let given = case.problem;
    match case.asked {
        0 => print::calls_on(out, given)?,
        1 => print::later_parts(out, given)?,
        _ => print::short_buffer(out, given)?,
    }
    stored_cases::print(out, b"\n")
}

// The most bytes of cases.
const TEXT: usize = 32768;

fn main(rt: HostRuntime) -> io::Result<()> {
    let mut text = [0u8; TEXT];
    let n = stored_cases::read_full(&mut rt.stdin(), &mut text)?;
    let mut out = rt.stdout();
    for case in stored_cases::cases_in(&text[..n]) {
        line(&mut out, case)?;
    }
    Ok(())
}
