// Bytes read at a place: a number, a field, a field whose tag is due, symbols, a term, a side, a pair, and whether a
// pair is renamed. No answer has a refusal's number: each caller gives its own.
#![tactic(auto)]

ghost use Rattle.std.specs.Prelude.{◌≡◌, ◌+◌, ◌^◌, ◌<◌, ◌≤◌, ◌*◌, length, take, drop};
ghost use Rattle.limits.specs.Limits.{most_symbols, byte_values, two_byte_values};
ghost use Rattle.terms.specs.Base.{number_from};
ghost use Rattle.reading.specs.Answers.{IsField, IsDue, IsRanked, IsSymbols, Table, IsTerm, IsSide, IsPair, of_pair, next_after, IsRenamed};
ghost use Rattle.reading.specs.declared.SideError.TheVariants.{Wrong};

use limits::FIELD_HEAD;
use terms::BadTerm;

// The number of so many bytes, high byte first, at a place.
pub fn number(t: &[u8], at: usize, width: usize) -> usize
    requires { (at + width ≤ length t.now) × (width ≤ 4) }
    ensures value { result ≡ number_from 0 (take width (drop at t.now)) }
    ensures fits { result < 256 ^ width }
{
    let mut n: usize = 0;
    for b in &t[at..at + width] {
        n = n * 256 + usize::from(*b);
    }
    n
}

// A field: its tag, and where its contents begin and end.
#[derive(Clone, Copy, Debug, PartialEq, Eq)]
pub struct Field {
    pub tag: u8,
    pub start: usize,
    pub end: usize,
}

// The field at a place, or nothing where its header or its contents pass the end.
pub fn field_at(t: &[u8], at: usize) -> Option<Field>
    requires { at ≤ length t.now }
    ensures { IsField t.now at result }
{
    let left = t.len() - at;
    if left < FIELD_HEAD {
        return None;
    }
    let n = number(t, at + 1, 2);
    if left - FIELD_HEAD < n {
        return None;
    }
    let start = at + FIELD_HEAD;
    Some(Field {
        tag: t[at],
        start,
        end: start + n,
    })
}

#[derive(Clone, Copy, Debug, PartialEq, Eq)]
pub enum DueError {
    // Its header or its contents pass the end.
    Cut,
    // It has another tag, or no byte is left.
    Other,
}

// The field at a place, whose tag is to be `tag`: the place behind it.
pub fn due(t: &[u8], at: usize, tag: u8) -> Result<usize, DueError>
    ensures { IsDue tag t.now at result }
{
    if at >= t.len() {
        return Err(DueError::Other);
    }
    let Some(field) = field_at(t, at) else {
        return Err(DueError::Cut);
    };
    if field.tag != tag {
        return Err(DueError::Other);
    }
    Ok(field.end)
}

#[derive(Clone, Copy, Debug, PartialEq, Eq)]
pub enum SymbolsError {
    // No byte, an odd number of bytes, or over 32.
    WrongLength,
    // The place of the first wrong byte: an arity above 4 or a rank above 15.
    WrongByte(usize),
}

// The symbols of a table of the right length, one behind the other.
fn ranked(table: &[u8]) -> Result<(), SymbolsError>
    requires { length table.now ≤ 2 * most_symbols }
    ensures { IsRanked table.now result }
{
    for k in 0..table.len() / 2 {
        if table[k + k] > limits::ARITY {
            return Err(SymbolsError::WrongByte(k + k));
        }
        if table[k + k + 1] > limits::RANK {
            return Err(SymbolsError::WrongByte(k + k + 1));
        }
    }
    Ok(())
}

// The contents of a symbol field: two bytes a symbol, 1 to 16 symbols, arities 0 to 4, ranks 0 to 15.
pub fn check_symbols(table: &[u8]) -> Result<(), SymbolsError>
    ensures { IsSymbols table.now result }
{
    let n = table.len();
    if n == 0 || n % 2 == 1 || n > limits::TABLE {
        return Err(SymbolsError::WrongLength);
    }
    ranked(table)
}

// The term at a place, in the bytes up to an end: the place behind it, or of the byte that is wrong.
// Kept: the three functions on terms take the same four values with the same demands; a struct of them would be made anew at each call.
pub fn term_at(t: &[u8], table: &[u8], at: usize, end: usize) -> Result<usize, BadTerm>
    requires table { Table table.now }
    requires at_le_end { (at ≤ end) × (end ≤ length t.now) × (length t.now ≤ two_byte_values) }
    ensures { IsTerm table.now t.now at end result }
{
    terms::checked_end(&t[..end], table, at)
}

#[derive(Clone, Copy, Debug, PartialEq, Eq)]
pub enum SideError {
    // The place of the byte that is wrong, or the end of bytes that end inside the term.
    Wrong(usize),
    // Over 120 nodes.
    Large,
}

impl From<BadTerm> for SideError {
    ghost from_gives = { λ b e. e ≡ Wrong b.place };

    fn from(bad: BadTerm) -> SideError {
        SideError::Wrong(bad.place)
    }
}

// The same with a side's limit.
pub fn side_at(t: &[u8], table: &[u8], at: usize, end: usize) -> Result<usize, SideError>
    requires table { Table table.now }
    requires at_le_end { (at ≤ end) × (end ≤ length t.now) × (length t.now ≤ two_byte_values) }
    ensures { IsSide table.now t.now at end result }
{
    let e = term_at(t, table, at, end)?;
    if e - at > limits::NODES {
        return Err(SideError::Large);
    }
    Ok(e)
}

#[derive(Clone, Copy, Debug, PartialEq, Eq)]
pub enum PairError {
    // The place of the byte that is wrong, one behind the right side too, or the end of bytes that end inside a side.
    Wrong(usize),
    // The first byte of a side over 120 nodes.
    Large(usize),
}

impl SideError {
    // The same of a pair, whose side begins at `first`.
    fn of_pair(self, first: usize) -> PairError
        ensures { result ≡ of_pair self first }
    {
        match self {
            SideError::Wrong(place) => PairError::Wrong(place),
            SideError::Large => PairError::Large(first),
        }
    }
}

// Two sides, which fill the bytes from a place to an end: the place where the right one begins.
pub fn pair_at(t: &[u8], table: &[u8], at: usize, end: usize) -> Result<usize, PairError>
    requires table { Table table.now }
    requires at_le_end { (at ≤ end) × (end ≤ length t.now) × (length t.now ≤ two_byte_values) }
    ensures { IsPair table.now t.now at end result }
{
    // Kept: `match`, since behind `map_err` the closure's answer is not known by name, and the proof did not close.
    let middle = match side_at(t, table, at, end) {
        Ok(middle) => middle,
        Err(e) => return Err(e.of_pair(at)),
    };
    let last = match side_at(t, table, middle, end) {
        Ok(last) => last,
        Err(e) => return Err(e.of_pair(middle)),
    };
    if last < end {
        return Err(PairError::Wrong(last));
    }
    Ok(middle)
}

// The byte of the next variable, behind this one.
fn next_after(next: usize, b: usize) -> usize
    requires { next ≤ byte_values }
    ensures { result ≡ next_after next b }
{
    if b == next { next + 1 } else { next }
}

// Whether the pair that fills the bytes from a place to an end is renamed: its variables are 0, 1, 2 .. in order of first occurrence.
pub fn is_renamed(t: &[u8], at: usize, end: usize) -> bool
    requires { (at ≤ end) × (end ≤ length t.now) × (length t.now ≤ two_byte_values) }
    ensures { IsRenamed t.now at end result }
{
    let mut next: usize = limits::FIRST_VARIABLE;
    for byte in &t[at..end] {
        let b = usize::from(*byte);
        if b > next {
            return false;
        }
        next = next_after(next, b);
    }
    true
}
