// Whether two terms are the same by the rules of a kept result: by normalising from the inside out, or from the outside in.
#![tactic(auto)]

ghost use Rattle.std.specs.Prelude.{◌≡◌, ◌≤◌, length};
ghost use Rattle.limits.specs.Limits.{most_nodes, most_rules, most_budget};
ghost use Rattle.reading.specs.Answers.{Table};
ghost use Rattle.joining.specs.Joins.{step_by};
ghost use Rattle.decide.specs.Decide.{question_call, decide_call, outermost_call};
ghost use Rattle.decide.specs.Answers.{decided_told, without_units, AboutRules, AboutEquations, NotRefused, Agrees};
ghost use Rattle.decide.specs.Asking.{FirstNotAbove, stopped_by, FormsCompared, Asks};

use joining::{Joined, Strategy};
use problem::{Reason, Refusal};
use rewriting::End;
use slots::System;

// What is answered, with the units paid.
#[derive(Clone, Copy, Debug, PartialEq, Eq)]
pub enum Decided {
    // Both sides have the same last term.
    Same(u32),
    // They have two different ones.
    Different(u32),
    // A step is due, and the budget is spent.
    Spent(u32),
    // A step's term is over 120 nodes.
    TooLarge(u32),
}

// Of the rules, whose fields begin at `record::RULES_AT`, one behind the other: the first byte of the field of the first one whose left side is not
// above its right side.
fn not_above(system: System) -> Option<usize>
    requires table { Table system.table.now }
    requires count_le_most_rules { system.count ≤ most_rules }
    ensures { FirstNotAbove system.entry.table.now system.entry.rules.now system.entry.count result }
{
    let mut place = record::RULES_AT;
    for k in 0..system.count {
        let left = slots::left(system.rules, k);
        let right = slots::right(system.rules, k);
        if !order::above(left, right, system.table) {
            return Some(place);
        }
        place += items::RULE_HEAD + left.len() + right.len();
    }
    None
}

// No last term: normalising ended before.
fn stopped(end: End, paid: u32) -> Decided
    ensures { result ≡ stopped_by end paid }
{
    match end {
        End::Spent => Decided::Spent(paid),
        _ => Decided::TooLarge(paid),
    }
}

// The two terms normalised by the rules, left then right, within the budget, and their last terms compared.
fn compare_forms(
    strategy: Strategy,
    left: &[u8],
    right: &[u8],
    system: System,
    budget: u32,
) -> Decided
    requires left_len_bound { (length left.now ≤ most_nodes) × (length right.now ≤ most_nodes) }
    ensures { FormsCompared strategy system.entry.table.now system.entry.rules.now system.entry.count left.now right.now budget result }
{
    let mut pair = [0u8; slots::SLOT];
    let w = joining::join(strategy, left, right, system, budget, &mut pair);
    let paid = budget - w.units;
    match w.found {
        // Kept: a match in a match, since the proof with the nested patterns did not close.
        Ok(joined) => match joined {
            Joined::Equal => Decided::Same(paid),
            Joined::Different => Decided::Different(paid),
        },
        Err(end) => stopped(end, paid),
    }
}

// Two terms over a table, asked of a kept result.
fn ask(
    strategy: Strategy,
    table: &[u8],
    left: &[u8],
    right: &[u8],
    budget: u32,
    kept: &[u8],
) -> Result<Decided, Refusal>
    requires table { Table table.now }
    requires left_len_bound { (length left.now ≤ most_nodes) × (length right.now ≤ most_nodes) }
    ensures { Asks strategy table.now left.now right.now budget kept.now result }
{
    let mut rules = [0u8; slots::ROOM];
    let record = match record::read(kept, table, &mut rules) {
        Ok(record) => record,
        Err(bad) => {
            return Err(Refusal {
                reason: Reason::WrongRecord,
                place: bad.place,
            });
        }
    };
    let system = System {
        table,
        rules: &rules,
        count: record.count,
    };
    if record.end != 0 {
        return Err(Refusal {
            reason: Reason::NotComplete,
            place: 0,
        });
    }
    if let Some(place) = not_above(system) {
        return Err(Refusal {
            reason: Reason::NotAbove,
            place,
        });
    }
    Ok(compare_forms(strategy, left, right, system, budget))
}

// The two sides of the problem's one equation, asked of a kept result.
fn ask_problem(strategy: Strategy, problem: &[u8], kept: &[u8]) -> Result<Decided, Refusal>
    ensures { decided_told result ≡ question_call (step_by strategy) problem.now kept.now }
{
    let sides = only_equation::sides(problem)?;
    ask(
        strategy,
        &problem[limits::FIELD_HEAD..sides.table_end],
        &problem[sides.left..sides.right],
        &problem[sides.right..sides.end],
        sides.budget as u32,
        kept,
    )
}

// Whether the two sides of the problem's one equation are the same by the rules of a kept result, by normalising from the inside out. For every input
// the answer and the units are the definition's. Of every record that passes, 'same' says that both sides have one last term by its rules, and
// 'different' that they have two. Of a record that the engine wrote with end 0 for a problem with the same symbol field, 'same' says that its equations
// lead from one side to the other, and 'different' that they do not; and `outermost` never contradicts the answer. No record that the engine wrote for
// the same symbol field is refused with 13 or 15.
pub fn decide(problem: &[u8], kept: &[u8]) -> Result<Decided, Refusal>
    ensures answer { decided_told result ≡ decide_call problem.now kept.now }
    ensures rules { AboutRules problem.now kept.now (without_units (decided_told result)) }
    ensures equations { AboutEquations problem.now kept.now (without_units (decided_told result)) }
    ensures accepted { NotRefused problem.now kept.now (without_units (decided_told result)) }
    ensures agrees { Agrees problem.now kept.now }
{
    ask_problem(Strategy::Innermost, problem, kept)
}

// The same question, answered by normalising from the outside in: the earliest matched node in preorder, and the lowest rule there. It refuses as
// `decide` does, and its answers are right about what decide's are.
pub fn outermost(problem: &[u8], kept: &[u8]) -> Result<Decided, Refusal>
    ensures answer { decided_told result ≡ outermost_call problem.now kept.now }
    ensures rules { AboutRules problem.now kept.now (without_units (decided_told result)) }
    ensures equations { AboutEquations problem.now kept.now (without_units (decided_told result)) }
    ensures accepted { NotRefused problem.now kept.now (without_units (decided_told result)) }
    ensures agrees { Agrees problem.now kept.now }
{
    ask_problem(Strategy::Outermost, problem, kept)
}
