// The places where overlaps are looked for, in document 01's order.
ghost use Rattle.std.specs.Prelude.{◌≡◌, ◌+◌, ◌<◌};
ghost use Rattle.limits.specs.Limits.{most_pairs, byte_values};
ghost use Rattle.slots.specs.Slots.{Layout};
ghost use Rattle.scanning.specs.Order.{Follows};

// Rule `inner` in rule `outer` at a position of its left side, or behind its end, where there is no overlap.
#[derive(Clone, Copy)]
pub struct Spot {
    pub inner: usize,
    pub outer: usize,
    pub position: usize,
}

// The first position of a rule in itself: the root is left out.
pub const BELOW_ROOT: usize = 1;

pub fn spot_at(inner: usize, outer: usize, position: usize) -> Spot
    ensures { result ≡ record { inner = inner; outer = outer; position = position } }
{
    Spot {
        inner,
        outer,
        position,
    }
}

// The positions of the outer rule; an earlier rule in a later one, then the later one in it; then the next earlier rule; then the later rule in
// itself, but not at the root; then the next later rule.
pub fn next(rules: &[u8], at: Spot) -> Spot
    requires { (at.inner < most_pairs) × (at.outer < most_pairs) × (at.position < byte_values) × Layout rules.now (at.outer + 1) }
    ensures { Follows rules.now at result }
{
    let Spot {
        inner,
        outer,
        position,
    } = at;
    let p = position + 1;
    if p < slots::left_size(rules, outer) {
        return spot_at(inner, outer, p);
    }
    if inner < outer {
        return spot_at(outer, inner, 0);
    }
    if outer + 1 < inner {
        return spot_at(outer + 1, inner, 0);
    }
    if outer < inner {
        return spot_at(inner, inner, BELOW_ROOT);
    }
    spot_at(0, outer + 1, 0)
}
