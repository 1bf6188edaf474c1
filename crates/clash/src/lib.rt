// A test before unification: whether two terms have different symbols at one place.
#![tactic(auto)]

ghost use Rattle.std.specs.Prelude.{◌<◌, ◌≤◌, length};
ghost use Rattle.limits.specs.Limits.{most_nodes};
ghost use Rattle.clash.specs.Clashing.{Differ, Past, Clashing};

use limits::VARIABLE;

// Whether two bytes are different symbols.
fn differ(a: u8, b: u8) -> bool
    ensures { Differ a b result }
{
    a < VARIABLE && b < VARIABLE && a != b
}

// The byte after i where b is the byte at i, else after the subterm at i.
fn past(t: &[u8], table: &[u8], i: usize, b: u8) -> usize
    requires { (i < length t.now) × (length t.now ≤ most_nodes) }
    ensures { Past table.now t.now i b result }
{
    if t[i] == b {
        i + 1
    } else {
        terms::term_end(t, table, i)
    }
}

// Whether the term s and the subterm of t at a position have different symbols at one place: a walk over both that skips what faces a variable.
pub fn clash(s: &[u8], t: &[u8], table: &[u8], position: usize) -> bool
    requires { (length s.now ≤ most_nodes) × (length t.now ≤ most_nodes) }
    ensures { Clashing table.now s.now t.now position result }
{
    let mut i = 0;
    let mut j = position;
    // Kept: both places move by the lengths of subterms.
    while i < s.len() && j < t.len() {
        let a = s[i];
        let b = t[j];
        if differ(a, b) {
            return true;
        }
        i = past(s, table, i, b);
        j = past(t, table, j, a);
    }
    false
}
