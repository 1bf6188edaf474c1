// What the program settle prints, from the result's bytes or a refusal.
#![tactic(auto)]

ghost use Rattle.std.specs.Prelude.{◌≡◌, ◌+◌, ◌*◌, ◌<◌, ◌≤◌, length};
ghost use mathlib.Core.List.{[], ◌∷◌, flat_map};
ghost use Rattle.limits.specs.Limits.{two_byte_values};
ghost use Rattle.completion.specs.Settle.{hex_digit, hex_byte, decimal, line, settle};
ghost use Rattle.completion.specs.Calls.{Writes};
ghost use Rattle.fields.specs.Puts.{Puts, PutsSome, tagged};
ghost use Rattle.settle_text.specs.Text.{Lines, Refusal};

// One hexadecimal digit.
fn digit(n: u8) -> u8
    requires { n < 16 }
    ensures { result ≡ hex_digit n }
{
    if n < 10 {
        return b'0' + n;
    }
    b'a' - 10 + n
}

fn put_byte(out: &mut [u8], at: usize, b: u8) -> usize
    requires { at < length out.old }
    ensures { Puts out.old at 1 (b ∷ []) out.new result }
{
    out[at] = b;
    at + 1
}

// A byte in two hexadecimal digits.
fn put_hex(out: &mut [u8], at: usize, b: u8) -> usize
    requires { at + 2 ≤ length out.old }
    ensures { Puts out.old at 2 (hex_byte b) out.new result }
{
    let a = put_byte(out, at, digit(b / 16));
    put_byte(out, a, digit(b % 16))
}

fn put_hexes(out: &mut [u8], at: usize, from: &[u8]) -> usize
    requires { at + 2 * length from.now ≤ length out.old }
    ensures { Puts out.old at (2 * length from.now) (flat_map hex_byte from.now) out.new result }
{
    let mut a = at;
    for b in from {
        a = put_hex(out, a, *b);
    }
    a
}

// How many digits a number has in decimal.
fn digits(n: usize) -> usize
    ensures { result ≡ length (decimal n) }
{
    n.max(1).ilog10() as usize + 1
}

// A number in decimal, from its last digit to its first.
// Kept: digit by digit, since `write!` to a text of fixed room may fail by its contract, and this function may not.
fn put_decimal(out: &mut [u8], at: usize, n: usize) -> usize
    requires { at + length (decimal n) ≤ length out.old }
    ensures { Puts out.old at (length (decimal n)) (decimal n) out.new result }
{
    let w = digits(n);
    let mut m = n;
    for left in (0..w).rev() {
        out[at + left] = b'0' + (m % 10) as u8;
        m /= 10;
    }
    at + w
}

// A field's line: tag, length, contents.
fn put_line(out: &mut [u8], at: usize, tag: u8, contents: &[u8]) -> usize
    requires { (at + (10 + 2 * length contents.now) ≤ length out.old) × (length contents.now < two_byte_values) }
    ensures { PutsSome (10 + 2 * length contents.now) out.old at 1 (line (tagged tag contents.now))
        out.new result }
{
    let a = put_hex(out, at, tag);
    let b = put_byte(out, a, b' ');
    let c = put_decimal(out, b, contents.len());
    let d = put_byte(out, c, b' ');
    let e = put_hexes(out, d, contents);
    put_byte(out, e, b'\n')
}

// The text of a result: a line a field.
pub fn put_lines(out: &mut [u8], res: &[u8]) -> usize
    requires { 4 * length res.now ≤ length out.old }
    ensures { (result ≤ length out.old) × Lines res.now out.old out.new result }
{
    let mut i = 0;
    let mut a = 0;
    while let Some(field) = reading::field_at(res, i) {
        a = put_line(out, a, field.tag, &res[field.start..field.end]);
        i = field.end;
    }
    a
}

// The text of a refusal.
pub fn put_refused(out: &mut [u8], number: usize, place: usize) -> usize
    requires { 64 ≤ length out.old }
    ensures { (result ≤ 64) × Refusal number place out.old out.new result }
{
    fields::paste(out, 0, b"refused ");
    let a = put_decimal(out, 8, number);
    fields::paste(out, a, b" at ");
    let b = put_decimal(out, a + 4, place);
    put_byte(out, b, b'\n')
}

// What settle prints for a problem's bytes, at the front of the lent bytes: how many they are.
pub fn text(problem: &[u8], out: &mut [u8]) -> usize
    requires { two_byte_values ≤ length out.old }
    ensures writes { Writes out.old (settle problem.now) out.new result }
    ensures upper_bound { result ≤ length out.old }
{
    let mut result = [0u8; limits::BUFFER];
    match complete::complete(problem, &mut result) {
        Ok(n) => put_lines(out, &result[0..n]),
        Err(refusal) => {
            let number = usize::from(u8::from(refusal.reason));
            put_refused(out, number, refusal.place)
        }
    }
}
