// Steps 4 and 5 of a turn: the taken pair's variables are counted, and its upper side becomes the left side of a new rule; with neither side above
// the pair is renamed as it is, to wait again.
#![tactic(auto)]

ghost use Rattle.std.specs.Prelude.{◌≡◌, [], ◌∷◌, ◌++◌, ◌≤◌, length};
ghost use Rattle.limits.specs.Limits.{most_nodes, origin_width};
ghost use Rattle.slots.specs.Slots.{Layout};
ghost use Rattle.orient.specs.Orients.{LowBytes, LowPair, IsUpper, Placed, RuleOf, Renames};
ghost use Rattle.orient.specs.Seen.{Seen, Counted};

use slots::{SLOT, origins};

// "The taken pair has at most 16 different variables."
const MOST_VARIABLES: u32 = limits::VARIABLES as u32;

// A variable is a bit of the set; a byte above all variables fills it.
fn with_byte(seen: u32, b: u8) -> u32
    ensures { Seen (b ∷ []) seen result }
{
    if b < limits::VARIABLE {
        return seen;
    }
    if b >= limits::VARIABLES_END {
        return u32::MAX;
    }
    seen | (1u32 << (b - limits::VARIABLE))
}

// The set with the variables of t.
fn with_bytes(mut seen: u32, t: &[u8]) -> u32
    ensures { Seen t.now seen result }
{
    for &b in t {
        seen = with_byte(seen, b);
    }
    seen
}

// How many different variables the two sides have.
pub fn variable_count(left: &[u8], right: &[u8]) -> u32
    ensures { Counted left.now right.now result }
{
    with_bytes(with_bytes(0, left), right).count_ones()
}

// Which side of a taken pair is above.
#[derive(Clone, Copy, Debug, PartialEq, Eq)]
pub enum Above {
    Left,
    Right,
}

// Why no rule is made of a taken pair.
#[derive(Clone, Copy, Debug, PartialEq, Eq)]
pub enum Unoriented {
    // Neither side is above the other.
    Neither,
    // Over 16 variables.
    TooLarge,
}

fn upper(left: &[u8], right: &[u8], table: &[u8]) -> Result<Above, Unoriented>
    requires { (length left.now ≤ most_nodes) × (length right.now ≤ most_nodes) }
    ensures { IsUpper table.now left.now right.now result }
{
    if variable_count(left, right) > MOST_VARIABLES {
        return Err(Unoriented::TooLarge);
    }
    if order::above(left, right, table) {
        return Ok(Above::Left);
    }
    if order::above(right, left, table) {
        return Ok(Above::Right);
    }
    Err(Unoriented::Neither)
}

// The pair of one term and another, renamed, with its mark, in a slot.
fn placed(left: &[u8], right: &[u8], mark: &[u8]) -> [u8; SLOT]
    requires left_len_bound { (length left.now ≤ most_nodes) × (length right.now ≤ most_nodes) × LowBytes (left.now ++ right.now) }
    requires mark_len { length mark.now ≡ origin_width }
    ensures { Placed left.now right.now mark.now result }
{
    let n = left.len();
    let e = n + right.len();
    let mut out = [0u8; limits::PAIR];
    fields::paste(&mut out, 0, left);
    fields::paste(&mut out, n, right);
    naming::rename_front(&mut out, e);
    let mut one = [0u8; SLOT];
    let both = &out[..];
    slots::put_sides(&mut one, 0, &both[0..n], &both[n..e]);
    slots::put_mark(&mut one, 0, mark);
    one
}

// The rule that the pair in a slot becomes, with its number, in a slot.
pub fn rule_of(pair: &[u8], table: &[u8], number: u16) -> Result<[u8; SLOT], Unoriented>
    requires { Layout pair.now 1 }
    ensures { RuleOf table.now pair.now number result }
{
    let left = slots::left(pair, 0);
    let right = slots::right(pair, 0);
    let mark = origins::numbered(origins::REMOVED_RULE, number);
    Ok(match upper(left, right, table)? {
        Above::Left => placed(left, right, &mark),
        Above::Right => placed(right, left, &mark),
    })
}

// The pair in a slot, renamed as it stands, with its mark.
pub fn renamed(pair: &[u8]) -> [u8; SLOT]
    requires { Layout pair.now 1 × LowPair pair.now }
    ensures { Renames pair.now result }
{
    let mark = slots::mark(pair, 0);
    placed(slots::left(pair, 0), slots::right(pair, 0), &mark)
}
