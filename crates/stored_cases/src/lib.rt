// What the programs share: where a stored case stands, reading and printing. A case is a byte that says what is asked, the length of its
// name in a byte, the length of its problem in two, the name and the problem; the Rust programs of rust/src/bin write them.
#![tactic(auto)]

ghost use Rattle.std.specs.Prelude.{◌≡◌, ◌-◌, ◌<◌, ◌≤◌, ◌++◌, length, take, drop, codes, decimal, IfOk, OnOk, OnErr};
ghost use Rattle.std.specs.Iterator.{at_most};
ghost use Rattle.std.specs.Io.KnownBytes.{Appends, Consumes, IsAtEnd, WriteAppends};
ghost use Rattle.stored_cases.specs.Cases.{case_at, Gives};
ghost use Rattle.stored_cases.specs.Partly.{AppendsStart, ConsumesStart};

use std::fmt::{InlineText, Write as _};
use std::io;
use std::io::{ErrorKind, Read, Write};

// Bytes before the name.
pub const HEAD: usize = 4;

// What is asked; where name and problem begin, and where the case ends.
#[derive(Clone, Copy, Debug, PartialEq, Eq)]
pub struct Case {
    pub asked: u8,
    pub name: usize,
    pub problem: usize,
    pub end: usize,
}

// The case at this place, if a whole one is there.
pub fn case_at(text: &[u8], at: usize) -> Option<Case>
    ensures { result ≡ case_at text.now at }
{
    if text.len() < HEAD || text.len() - HEAD < at {
        return None;
    }
    let name = at + HEAD;
    let problem = name + reading::number(text, at + 1, 1);
    let end = problem + reading::number(text, at + 2, 2);
    if text.len() < end {
        return None;
    }
    Some(Case {
        asked: text[at],
        name,
        problem,
        end,
    })
}

// A case, read: what is asked, its name and its problem.
#[derive(Clone, Copy)]
pub struct Asked<'a> {
    pub asked: u8,
    pub name: &'a [u8],
    pub problem: &'a [u8],
}

// The parts of a case that stands in a text.
fn parts(text: &[u8], case: Case) -> Asked<'_>
    requires { (case.name ≤ case.problem) × (case.problem ≤ case.end) × (case.end ≤ length text.now) }
    ensures asked { result.asked ≡ case.asked }
    ensures name { result.name.now ≡ drop case.name (take case.problem text.now) }
    ensures problem { result.problem.now ≡ drop case.problem (take case.end text.now) }
{
    let Case {
        asked,
        name,
        problem,
        end,
    } = case;
    Asked {
        asked,
        name: &text[name..problem],
        problem: &text[problem..end],
    }
}

// The cases of a text, one behind the other, up to one that is cut.
#[derive(Drop)]
pub struct Cases<'a> {
    text: &'a [u8],
    at: usize,
}

pub fn cases_in(text: &[u8]) -> Cases<'_>
    ensures { (result.text.now ≡ text.now) × (result.at ≡ 0) }
{
    Cases { text, at: 0 }
}

impl<'a> Iterator for Cases<'a> {
    type Item = Asked<'a>;

    ghost next_gives = { Gives };

    ghost remaining = { λ s. at_most (length s.text.now - s.at) };

    fn next(&mut self) -> Option<Asked<'a>> {
        let text = self.text;
        let case = case_at(text, self.at)?;
        self.at = case.end;
        Some(parts(text, case))
    }
}

// Kept: a reader's `read_exact` says nothing of an end of the input, or of what an error loses.
// Reads until the buffer is full or the input ends: how many bytes stand at its start. Where the input's bytes are known, these are the next of them.
// After an error some start of the buffer is what the input has lost.
pub fn read_full<R: Read>(input: &mut R, buffer: &mut [u8]) -> io::Result<usize>
    ensures bound { IfOk result (λ n. n ≤ length buffer.new) }
    ensures bytes { IfOk result (λ n. Consumes (R.remaining input.old) (R.remaining input.new) (take n buffer.new)) }
    ensures end { IfOk result (λ n. n < length buffer.new → IsAtEnd (R.remaining input.new)) }
    ensures len { length buffer.new ≡ length buffer.old }
    ensures err { OnErr result (ConsumesStart (R.remaining input.old) (R.remaining input.new) buffer.new) }
{
    let mut filled = 0;
    for _ in 0..buffer.len() {
        if filled == buffer.len() {
            break;
        }
        let n = input.read(&mut buffer[filled..])?;
        if n == 0 {
            break;
        }
        filled += n;
    }
    Ok(filled)
}

// One write, of which an interruption is no error: how many bytes are gone.
fn write_once<W: Write>(out: &mut W, rest: &[u8]) -> io::Result<usize>
    ensures bound { IfOk result (λ n. n ≤ length rest.now) }
    ensures bytes { WriteAppends (W.contents out.old) (W.contents out.new) result rest.now }
{
    match out.write(rest) {
        Ok(0) => Err(io::Error::new(ErrorKind::WriteZero, "failed to write whole buffer")),
        Err(e) if e.kind() == ErrorKind::Interrupted => Ok(0),
        taken => taken,
    }
}

// Kept: a writer's `write_all` says nothing of what an error leaves.
// To a writer, as the two below. Where the bytes that it holds are known, they grow by the text, and after an error by some start of it.
pub fn print<W: Write>(out: &mut W, text: &[u8]) -> io::Result<()>
    ensures ok { OnOk result (Appends (W.contents out.old) (W.contents out.new) text.now) }
    ensures err { OnErr result (AppendsStart (W.contents out.old) (W.contents out.new) text.now) }
{
    let mut done = 0;
    for _ in 0..u64::MAX {
        if done == text.len() {
            return Ok(());
        }
        done += write_once(out, &text[done..])?;
    }
    Err(io::Error::from(ErrorKind::TimedOut))
}

// The most digits of a number.
const DIGITS: usize = 20;

// The most bytes that tell a refusal.
const REFUSED: usize = 64;

pub fn print_number<W: Write>(out: &mut W, n: usize) -> io::Result<()>
    ensures ok { OnOk result (Appends (W.contents out.old) (W.contents out.new) (decimal n)) }
    ensures err { OnErr result (AppendsStart (W.contents out.old) (W.contents out.new) (decimal n)) }
{
    let mut text = InlineText::<DIGITS>::new();
    write!(text, "{n}")?;
    print(out, text.as_str().as_bytes())
}

pub fn print_refused<W: Write>(out: &mut W, n: u8, place: usize) -> io::Result<()>
    ensures ok { OnOk result (Appends (W.contents out.old) (W.contents out.new) (codes "refused " ++ decimal n ++ codes " at " ++ decimal place)) }
    ensures err { OnErr result (AppendsStart (W.contents out.old) (W.contents out.new) (codes "refused " ++ decimal n ++ codes " at " ++ decimal place)) }
{
    let mut text = InlineText::<REFUSED>::new();
    write!(text, "refused {n} at {place}")?;
    print(out, text.as_str().as_bytes())
}
