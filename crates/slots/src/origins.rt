// Where a pair came from, in six bytes, as an entry of the log has it: the mark of its slot.
ghost use Rattle.std.specs.Prelude.{◌≡◌, ◌+◌, ◌*◌, ◌<◌, ◌≤◌, length};
ghost use Rattle.limits.specs.Limits.{byte_values};
ghost use Rattle.slots.specs.Slots.{slot_width, numbered_bytes, overlapping_bytes};

// The kinds: "1 waiting input, 2 waiting from a removed rule, 3 input at the scan, 4 overlap".
pub const WAITING_INPUT: u8 = 1;

// A live rule is marked as it will be once it is removed.
pub const REMOVED_RULE: u8 = 2;

pub const SCANNED_INPUT: u8 = 3;

pub const OVERLAPPING: u8 = 4;

// The first number of a mark stands behind its kind.
pub const FIRST: usize = 1;

// An origin with one number: the kind in one byte, the number in two, and zeros.
pub fn numbered(kind: u8, n: u16) -> [u8; limits::ORIGIN]
    ensures { result ≡ numbered_bytes kind n }
{
    let [high, low] = n.to_be_bytes();
    [kind, high, low, 0, 0, 0]
}

// The overlap of the rules in two slots at a position: the numbers are those of the rules' marks.
pub fn overlapping(
    rules: &[u8],
    inner: usize,
    outer: usize,
    position: usize,
) -> [u8; limits::ORIGIN]
    requires { (slot_width * (inner + 1) ≤ length rules.now) × (slot_width * (outer + 1) ≤ length rules.now) × (position < byte_values) }
    ensures { result ≡ overlapping_bytes rules.now inner outer position }
{
    let [a, b] = super::number(rules, inner);
    let [c, d] = super::number(rules, outer);
    [OVERLAPPING, a, b, c, d, position as u8]
}
