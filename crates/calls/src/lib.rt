// The public calls: compare, unify and subterm.
#![tactic(auto)]

ghost use Rattle.std.specs.Prelude.{◌≡◌, eqb, length};
ghost use Rattle.completion.specs.Calls.{compare_call, subterm_part, subterm_call, unify_call};
ghost use Rattle.calls.specs.Answers.{compared_told, Unifies, IsBounds, IsPart, subterm_refused};

use instances::Found;
use limits::FIELD_HEAD;
use order::Compared;
use problem::{Reason, Refusal};

// Which side of the problem's one equation is above the other.
pub fn compare(problem: &[u8]) -> Result<Compared, Refusal>
    ensures { compared_told result ≡ compare_call problem.now }
{
    let sides = only_equation::sides(problem)?;
    let table = &problem[FIELD_HEAD..sides.table_end];
    Ok(order::comparison(&problem[sides.left..], &problem[sides.right..], table))
}

// The most general common instance of the two sides of the problem's one equation, as a field of the result.
pub fn unify(problem: &[u8], res: &mut [u8]) -> Result<Found, Refusal>
    ensures { Unifies (unify_call problem.now (length res.old)) result res.old res.new }
{
    if res.len() < limits::BUFFER {
        return Err(Refusal {
            reason: Reason::ShortBuffer,
            place: 0,
        });
    }
    let sides = only_equation::sides(problem)?;
    let table = &problem[FIELD_HEAD..sides.table_end];
    let both = &problem[sides.left..sides.end];
    Ok(instances::common_instance(both, table, sides.right - sides.left, res))
}

// Where a part of a problem's bytes begins and ends.
#[derive(Clone, Copy, Debug, PartialEq, Eq)]
pub struct Bounds {
    pub start: usize,
    pub end: usize,
}

// The bounds of the subterm at a position of the left side; none where it is refused.
pub fn subterm_bounds(problem: &[u8], position: usize) -> Option<Bounds>
    ensures { IsBounds problem.now position result }
{
    let Ok(sides) = only_equation::sides(problem) else {
        return None;
    };
    if position >= sides.right - sides.left {
        return None;
    }
    let table = &problem[FIELD_HEAD..sides.table_end];
    let start = sides.left + position;
    let end = terms::term_end(problem, table, start);
    Some(Bounds { start, end })
}

// The subterm at a position of the left side, as a part of the lent bytes; empty where it is refused.
pub fn subterm<'a>(problem: &'a [u8], position: usize) -> &'a [u8]
    ensures result_value { result.now ≡ subterm_call problem.now position }
    ensures part { IsPart problem.entry result (subterm_part problem.now position) }
    ensures result_value_2 { eqb (length result.now) 0 ≡ subterm_refused problem.now position }
{
    match subterm_bounds(problem, position) {
        Some(b) => &problem[b.start..b.end],
        None => &problem[..0],
    }
}
