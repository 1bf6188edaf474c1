// What the calls answer, as text.
use instances::Found;
use order::Compared;
use problem::Refusal;
use std::io;
use std::io::Write;
use stored_cases::{print, print_number, print_refused};

fn bytes<W: Write>(out: &mut W, s: &[u8]) -> io::Result<()> {
    for b in s {
        write!(out, "{b:02x}")?;
    }
    Ok(())
}

fn refused<W: Write>(out: &mut W, refusal: Refusal) -> io::Result<()> {
    print_refused(out, u8::from(refusal.reason), refusal.place)
}

fn compared<W: Write>(out: &mut W, problem: &[u8]) -> io::Result<()> {
    print(out, b": compare ")?;
    match calls::compare(problem) {
        Ok(Compared::LeftAbove) => print(out, b"1"),
        Ok(Compared::RightAbove) => print(out, b"2"),
        Ok(Compared::Identical) => print(out, b"3"),
        Ok(Compared::Neither) => print(out, b"4"),
        Err(refusal) => refused(out, refusal),
    }
}

fn unified<W: Write>(out: &mut W, problem: &[u8]) -> io::Result<()> {
    let mut result = [0u8; limits::BUFFER];
    print(out, b", unify ")?;
    match calls::unify(problem, &mut result) {
        Ok(Found::Instance(n)) => {
            if n <= limits::BUFFER {
                bytes(out, &result[..n])?;
            }
            Ok(())
        }
        Ok(Found::Nothing) => print(out, b"none"),
        Ok(Found::TooLarge) => print(out, b"refused 22"),
        Err(refusal) => refused(out, refusal),
    }
}

pub fn short_buffer<W: Write>(out: &mut W, problem: &[u8]) -> io::Result<()> {
    let mut result = [0u8; limits::BUFFER - 1];
    print(out, b": unify ")?;
    match calls::unify(problem, &mut result) {
        Ok(_) => Ok(()),
        Err(refusal) => refused(out, refusal),
    }
}

fn part<W: Write>(out: &mut W, problem: &[u8], position: usize) -> io::Result<()> {
    print(out, b", subterm ")?;
    print_number(out, position)?;
    print(out, b" ")?;
    bytes(out, calls::subterm(problem, position))
}

// The lower of the two sides; where the problem is refused, of it and itself over itself, which is refused too.
fn lower_side<W: Write>(out: &mut W, problem: &[u8]) -> io::Result<()> {
    print(out, b", lower ")?;
    let Ok(sides) = only_equation::sides(problem) else {
        return bytes(out, lower::lower(problem, problem, problem));
    };
    let left = &problem[sides.left..sides.right];
    let right = &problem[sides.right..sides.end];
    bytes(out, lower::lower(&problem[..sides.table_end], left, right))
}

// The answers of compare, unify, subterm at the first two positions, and lower.
pub fn calls_on<W: Write>(out: &mut W, problem: &[u8]) -> io::Result<()> {
    compared(out, problem)?;
    unified(out, problem)?;
    part(out, problem, 0)?;
    part(out, problem, 1)?;
    lower_side(out, problem)
}

// The answers of subterm at four more positions.
pub fn later_parts<W: Write>(out: &mut W, problem: &[u8]) -> io::Result<()> {
    part(out, problem, 2)?;
    part(out, problem, 3)?;
    part(out, problem, 4)?;
    part(out, problem, 5)
}
