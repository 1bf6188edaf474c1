// A list of pairs of terms is one array and a count. A slot has the pair's mark, the lengths of its sides in one byte each, and the bytes of
// the sides, each with room for the largest term. This crate alone computes places.
#![tactic(auto)]

pub mod origins;
pub mod system;

ghost use Rattle.std.specs.Prelude.{◌≡◌, ◌+◌, ◌*◌, ◌<◌, ◌≤◌, length, get_or, take, drop};
ghost use Rattle.limits.specs.Limits.{most_nodes, origin_width};
ghost use Rattle.slots.specs.Slots.{left_at, slot_width, slot, mark_of, number_of, left_length, left_of, right_of, Layout, PutSides, PutMark};
ghost use Rattle.slots.specs.Slots.{PutRight, Removed, Inserted, MovedLast};

use limits::NODES;
pub use system::System;

const LEFT_LENGTH: usize = limits::ORIGIN;

const RIGHT_LENGTH: usize = LEFT_LENGTH + 1;

const LEFT: usize = RIGHT_LENGTH + 1;

const RIGHT: usize = LEFT + NODES;

// Bytes of a slot: 248.
pub const SLOT: usize = RIGHT + NODES;

// Bytes of a list: 8,184.
pub const ROOM: usize = limits::PAIRS * SLOT;

// The pairs in the first `count` slots.
// Kept: the bytes with a count beside them, since memory is fixed and there is no heap.
#[derive(Clone, Copy)]
pub struct Pairs {
    pub bytes: [u8; ROOM],
    pub count: usize,
}

// The length of the left side of pair k.
pub fn left_size(slots: &[u8], k: usize) -> usize
    requires { slot_width * (k + 1) ≤ length slots.now }
    ensures { result ≡ left_length (slot slots.now k) }
{
    usize::from(slots[SLOT * k + LEFT_LENGTH])
}

// The left side of pair k.
pub fn left(slots: &[u8], k: usize) -> &[u8]
    requires { Layout slots.now (k + 1) }
    ensures result_value { result.now ≡ left_of (slot slots.now k) }
    ensures result_len_bound { length result.now ≤ most_nodes }
{
    let a = SLOT * k + LEFT;
    let n = usize::from(slots[SLOT * k + LEFT_LENGTH]);
    &slots[a..a + n]
}

// The first byte of the left side of pair k.
pub fn left_root(slots: &[u8], k: usize) -> u8
    requires { slot_width * (k + 1) ≤ length slots.now }
    ensures { result ≡ get_or (slot slots.now k) left_at 0 }
{
    slots[SLOT * k + LEFT]
}

// The right side of pair k.
// Kept: beside `left`, since a function over the places of both would have a contract longer than their bodies.
pub fn right(slots: &[u8], k: usize) -> &[u8]
    requires { Layout slots.now (k + 1) }
    ensures result_value { result.now ≡ right_of (slot slots.now k) }
    ensures result_len_bound { length result.now ≤ most_nodes }
{
    let a = SLOT * k + RIGHT;
    let n = usize::from(slots[SLOT * k + RIGHT_LENGTH]);
    &slots[a..a + n]
}

// The N bytes from a place on, by value.
fn bytes_at<const N: usize>(slots: &[u8], a: usize) -> [u8; N]
    requires { a + N ≤ length slots.now }
    ensures { result ≡ take N (drop a slots.now) }
{
    let mut bytes = [0u8; N];
    bytes.copy_from_slice(&slots[a..a + N]);
    bytes
}

// The mark of pair k.
pub fn mark(slots: &[u8], k: usize) -> [u8; limits::ORIGIN]
    requires { slot_width * (k + 1) ≤ length slots.now }
    ensures { result ≡ mark_of (slot slots.now k) }
{
    bytes_at(slots, SLOT * k)
}

// The two bytes of the first number of pair k's mark: of a rule, its number.
pub fn number(slots: &[u8], k: usize) -> [u8; 2]
    requires { slot_width * (k + 1) ≤ length slots.now }
    ensures { result ≡ number_of (slot slots.now k) }
{
    bytes_at(slots, SLOT * k + origins::FIRST)
}

// A pair's sides into slot k.
pub fn put_sides(slots: &mut [u8], k: usize, left: &[u8], right: &[u8])
    requires k_in_bounds { slot_width * (k + 1) ≤ length slots.old }
    requires left_len_bound { (length left.now ≤ most_nodes) × (length right.now ≤ most_nodes) }
    ensures { PutSides slots.old k left.now right.now slots.new }
{
    fields::paste(slots, SLOT * k + LEFT, left);
    slots[SLOT * k + LEFT_LENGTH] = left.len() as u8;
    fields::paste(slots, SLOT * k + RIGHT, right);
    slots[SLOT * k + RIGHT_LENGTH] = right.len() as u8;
}

// The mark of slot k.
pub fn put_mark(slots: &mut [u8], k: usize, mark: &[u8])
    requires k_in_bounds { slot_width * (k + 1) ≤ length slots.old }
    requires mark_len { length mark.now ≡ origin_width }
    ensures { PutMark slots.old k mark.now slots.new }
{
    fields::paste(slots, SLOT * k, mark);
}

// Another right side into slot k.
pub fn put_right(slots: &mut [u8], k: usize, right: &[u8])
    requires layout { Layout slots.old (k + 1) }
    requires right_len_bound { length right.now ≤ most_nodes }
    ensures { PutRight slots.old k right.now slots.new }
{
    fields::paste(slots, SLOT * k + RIGHT, right);
    slots[SLOT * k + RIGHT_LENGTH] = right.len() as u8;
}

// Slot k, by value.
pub fn copy(slots: &[u8], k: usize) -> [u8; SLOT]
    requires { slot_width * (k + 1) ≤ length slots.now }
    ensures { slot result 0 ≡ slot slots.now k }
{
    bytes_at::<SLOT>(slots, SLOT * k)
}

// Of `count` pairs, those behind k take the places before them.
pub fn remove(slots: &mut [u8], k: usize, count: usize)
    requires { (k < count) × (slot_width * count ≤ length slots.old) }
    ensures { Removed slots.old k count slots.new }
{
    slots.copy_within(SLOT * (k + 1)..SLOT * count, SLOT * k);
}

// One more pair, the one of a slot, stands at k.
pub fn insert(slots: &mut [u8], k: usize, count: usize, one: &[u8])
    requires { (k ≤ count) × (slot_width * (count + 1) ≤ length slots.old) × (length one.now ≡ slot_width) }
    ensures { Inserted slots.old k count one.now slots.new }
{
    slots.copy_within(SLOT * k..SLOT * count, SLOT * (k + 1));
    fields::paste(slots, SLOT * k, one);
}

// Of `count` pairs the one at k goes behind all others.
pub fn move_last(slots: &mut [u8], k: usize, count: usize)
    requires { (k < count) × (slot_width * count ≤ length slots.old) }
    ensures { MovedLast slots.old k count slots.new }
{
    let one = copy(slots, k);
    remove(slots, k, count);
    fields::paste(slots, SLOT * (count - 1), &one);
}
