// Numbers the variables in the bytes of terms 0, 1, 2 .. in order of first occurrence.
#![tactic(auto)]

ghost use Rattle.std.specs.Prelude.{position, ◌==◌, ◌≡◌, map, [], ◌++◌, ◌+◌, ◌<◌, ◌≤◌, length, take, drop};
ghost use Rattle.limits.specs.Limits.{most_pair};
ghost use Rattle.naming.specs.Names.{most_names, added, collect, named, renamed_bytes};

use limits::{FIRST_VARIABLE, VARIABLE};

// The place of b among the names, if it is there.
fn place_of(names: &[u8], b: u8) -> Option<usize>
    ensures { result ≡ position (λ name. b == name) names.now }
{
    names.iter().position(|name| b == *name)
}

// Kept: a lent buffer with a count beside it, as memory is fixed. What only reads the names takes them as a slice.
// Adds b to the first n names, if it is a variable that is not there, and answers how many there are.
fn add_name(names: &mut [u8], n: usize, b: u8) -> usize
    requires { n < length names.old }
    ensures { (length names.new ≡ length names.old)
        × (take result names.new ≡ added b (take n names.old)) × (result ≤ n + 1) }
{
    if b < VARIABLE || place_of(&names[..n], b).is_some() {
        return n;
    }
    names[n] = b;
    n + 1
}

// The variables in order of first occurrence.
fn names_of(bytes: &[u8], names: &mut [u8]) -> usize
    requires { length bytes.now ≤ length names.old }
    ensures { (length names.new ≡ length names.old)
        × (take result names.new ≡ collect [] bytes.now) × (result ≤ length names.new) }
{
    let mut n = 0;
    for b in bytes {
        n = add_name(names, n, *b);
    }
    n
}

fn number_byte(names: &[u8], b: u8) -> u8
    requires { length names.now ≤ most_names }
    ensures { result ≡ named names.now b }
{
    if b < VARIABLE {
        return b;
    }
    let k = place_of(names, b).unwrap_or(names.len());
    (FIRST_VARIABLE + k) as u8
}

fn renumber(bytes: &mut [u8], names: &[u8])
    requires { length names.now ≤ most_names }
    ensures { bytes.new ≡ map (named names.now) bytes.old }
{
    for b in bytes.iter_mut() {
        *b = number_byte(names, *b);
    }
}

// Numbers the variables 0, 1, 2 .. in order of first occurrence.
pub fn rename(bytes: &mut [u8], names: &mut [u8])
    requires { (length bytes.old ≤ length names.old) × (length (collect [] bytes.old) ≤ most_names) }
    ensures { bytes.new ≡ renamed_bytes bytes.old }
{
    let n = names_of(bytes, names);
    renumber(bytes, &names[..n]);
}

// The same for the first e bytes.
pub fn rename_front(out: &mut [u8], e: usize)
    requires { (e ≤ length out.old) × (e ≤ most_pair) × (length (collect [] (take e out.old)) ≤ most_names) }
    ensures { out.new ≡ renamed_bytes (take e out.old) ++ drop e out.old }
{
    let mut names = [0u8; limits::PAIR];
    rename(&mut out[0..e], &mut names);
}
