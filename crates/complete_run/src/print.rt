// What complete answers and leaves in the buffer, as text: the refusal or the count, settle's line a field, and whether a byte behind was changed.
use problem::Refusal;
use std::io;
use std::io::Write;
use stored_cases::{print, print_number, print_refused};

// What the buffer holds before the call.
const BEFORE: u8 = 0xa5;

// Says so if a byte is not what it was before the call.
fn behind<W: Write>(out: &mut W, rest: &[u8]) -> io::Result<()> {
    if rest.iter().any(|b| *b != BEFORE) {
        return print(out, b"changed behind\n");
    }
    Ok(())
}

fn refused<W: Write>(out: &mut W, refusal: Refusal, res: &[u8]) -> io::Result<()> {
    print(out, b": ")?;
    print_refused(out, u8::from(refusal.reason), refusal.place)?;
    print(out, b"\n")?;
    behind(out, res)
}

fn lines<W: Write>(out: &mut W, fields: &[u8]) -> io::Result<()> {
    if fields.len() <= limits::BUFFER {
        let mut text = [0u8; limits::LENGTHS];
        let n = settle_text::put_lines(&mut text, fields);
        print(out, &text[..n])?;
    }
    Ok(())
}

fn written<W: Write>(out: &mut W, count: usize, res: &[u8]) -> io::Result<()> {
    print(out, b": ")?;
    print_number(out, count)?;
    print(out, b" bytes\n")?;
    if count <= res.len() {
        lines(out, &res[..count])?;
        behind(out, &res[count..])?;
    }
    Ok(())
}

// What complete answers over a buffer, and leaves in it.
fn answered<W: Write>(out: &mut W, problem: &[u8], res: &mut [u8]) -> io::Result<()> {
    match complete::complete(problem, res) {
        Ok(count) => written(out, count, res),
        Err(refusal) => refused(out, refusal, res),
    }
}

pub fn completed<W: Write>(out: &mut W, problem: &[u8]) -> io::Result<()> {
    answered(out, problem, &mut [BEFORE; limits::BUFFER])
}

pub fn short_buffer<W: Write>(out: &mut W, problem: &[u8]) -> io::Result<()> {
    answered(out, problem, &mut [BEFORE; limits::BUFFER - 1])
}
