// The lower of two lent terms.
#![tactic(auto)]

ghost use Rattle.std.specs.Prelude.{◌≡◌, eqb, length};
ghost use Rattle.terms.specs.Base.{is_some};
ghost use Rattle.reading.specs.Answers.{Table, symbols_of};
ghost use Rattle.lower.specs.Lower.{whole_term, lower_over, which, lower_call, place_of, lower_refused};

// Which of the two terms is the lower one.
#[derive(Clone, Copy, Debug, PartialEq, Eq)]
pub enum Which {
    First,
    Second,
}

// Whether the bytes are a term over the table of at most 120 nodes, with nothing behind it. A term has a byte a node.
fn is_term(t: &[u8], table: &[u8]) -> bool
    requires { Table table.now }
    ensures { result ≡ is_some (whole_term (symbols_of table.now) t.now) }
{
    if t.len() > limits::NODES {
        return false;
    }
    match reading::side_at(t, table, 0, t.len()) {
        Ok(end) => end == t.len(),
        Err(_) => false,
    }
}

// Which of two terms is the lower one, over a table; none, where a term is refused.
fn lower_over(table: &[u8], first: &[u8], second: &[u8]) -> Option<Which>
    requires { Table table.now }
    ensures { result ≡ lower_over (symbols_of table.now) first.now second.now }
{
    if !is_term(first, table) || !is_term(second, table) {
        return None;
    }
    let above = order::above(first, second, table);
    Some(if above { Which::Second } else { Which::First })
}

// The same over the symbols of a field of tag 01, with nothing behind it.
pub fn choose(symbols: &[u8], first: &[u8], second: &[u8]) -> Option<Which>
    ensures { result ≡ which symbols.now first.now second.now }
{
    let Ok(end) = problem::symbols(symbols) else {
        return None;
    };
    if end < symbols.len() {
        return None;
    }
    lower_over(&symbols[limits::FIELD_HEAD..end], first, second)
}

// The lower of two lent terms: that slice itself, whole; an empty part where they are refused.
pub fn lower<'a>(symbols: &[u8], first: &'a [u8], second: &'a [u8]) -> &'a [u8]
    ensures bytes { result.now ≡ lower_call symbols.now first.now second.now }
    ensures slice { result.ref_ptr ≡ place_of (which symbols.now first.now second.now) first.entry second.entry }
    ensures refused { eqb (length result.now) 0 ≡ lower_refused symbols.now first.now second.now }
{
    match choose(symbols, first, second) {
        Some(Which::First) => first,
        Some(Which::Second) => second,
        None => &first[..0],
    }
}
