// The program settle: reads a problem from standard input and prints its result, a line a field, or the refusal. All that it prints is
// `settle_text::text`, which is proved; a problem over 8,192 bytes is refused by its first 8,193.
#![tactic(auto)]

use std::io;

fn main(rt: HostRuntime) -> io::Result<()> {
    let mut problem = [0u8; limits::PROBLEM + 1];
    let n = stored_cases::read_full(&mut rt.stdin(), &mut problem)?;
    let mut out = [0u8; limits::LENGTHS];
    let r = settle_text::text(&problem[..n], &mut out);
    stored_cases::print(&mut rt.stdout(), &out[0..r])
}
