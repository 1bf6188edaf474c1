// The problem's bytes, read front to back.
#![tactic(auto)]

ghost use Rattle.std.specs.Prelude.{◌≡◌, ◌+◌, ◌<◌, ◌≤◌, length};
ghost use Rattle.limits.specs.Limits.{field_head, most_problem, most_equations};
ghost use Rattle.reading.specs.Answers.{Table};
ghost use Rattle.problem.specs.Reasons.{number_of_reason, refusal_of_pair};
ghost use Rattle.problem.specs.Parser.{IsDue, IsSymbols, IsBudget, IsEquation, IsEquations, IsRest, IsParsed, told, parsed_of};
ghost use Rattle.problem.specs.Problem.{parse};

use limits::FIELD_HEAD;
use reading::{DueError, PairError, SymbolsError};

// The tags of a problem's fields.

// The symbols: an arity and a rank each.
pub const SYMBOLS_TAG: u8 = 0x01;

// The budget.
pub const BUDGET_TAG: u8 = 0x02;

// An equation: its left side, then its right side.
pub const EQUATION_TAG: u8 = 0x03;

// Why a call refuses its input, with the numbers of document 01's refusals, as specs/Stops names them.
#[derive(Clone, Copy, Debug, PartialEq, Eq)]
pub enum Reason {
    // Result buffer under 16,384 bytes (complete, unify).
    ShortBuffer = 1,
    // Problem over 8,192 bytes.
    LongProblem = 2,
    // Field's header or contents pass the end.
    CutField = 3,
    // Tag not the one due, or the problem ends where tag 01 or 02 is due.
    WrongTag = 4,
    // Symbol field's length 0, odd or over 32.
    WrongSymbolField = 5,
    // Arity above 4 or rank above 15.
    WrongArityOrRank = 6,
    // Budget field not 4 bytes, or above 1,000,000.
    WrongBudget = 8,
    // Seventeenth equation field.
    ManyEquations = 9,
    // Byte that is no symbol and no variable; field ends inside a term; byte after the right term.
    WrongTerm = 10,
    // Side over 120 nodes.
    LargeSide = 11,
    // Compare, unify, subterm: equation fields are not exactly one.
    NotOneEquation = 12,
    // Record over 16,384 bytes, cut, out of order or against its layout, renaming and limits.
    WrongRecord = 13,
    // Record's end is not 0.
    NotComplete = 14,
    // A rule's left side is not above its right side.
    NotAbove = 15,
    // Saved record against its form and limits.
    WrongSaved = 16,
    // New budget above 1,000,000.
    LargeBudget = 17,
}

impl From<Reason> for u8 {
    ghost from_gives = { λ r n. n ≡ number_of_reason r };

    fn from(reason: Reason) -> u8 {
        reason as u8
    }
}

// A refusal: why, and at which place of the input.
#[derive(Clone, Copy, Debug, PartialEq, Eq)]
pub struct Refusal {
    pub reason: Reason,
    pub place: usize,
}

impl From<PairError> for Refusal {
    ghost from_gives = { λ e r. r ≡ refusal_of_pair e };

    fn from(e: PairError) -> Refusal {
        match e {
            PairError::Wrong(place) => Refusal {
                reason: Reason::WrongTerm,
                place,
            },
            PairError::Large(place) => Refusal {
                reason: Reason::LargeSide,
                place,
            },
        }
    }
}

// The field at `at`, whose tag is to be `tag`: the place behind it.
pub fn due(problem: &[u8], at: usize, tag: u8) -> Result<usize, Refusal>
    ensures { IsDue tag problem.now at result }
{
    match reading::due(problem, at, tag) {
        Ok(end) => Ok(end),
        Err(DueError::Cut) => Err(Refusal {
            reason: Reason::CutField,
            place: at,
        }),
        Err(DueError::Other) => Err(Refusal {
            reason: Reason::WrongTag,
            place: at,
        }),
    }
}

// The symbol field: the place behind it. The table is the bytes from the field's head to there.
pub fn symbols(problem: &[u8]) -> Result<usize, Refusal>
    ensures { IsSymbols problem.now result }
{
    let end = due(problem, 0, SYMBOLS_TAG)?;
    match reading::check_symbols(&problem[FIELD_HEAD..end]) {
        Ok(()) => Ok(end),
        Err(SymbolsError::WrongLength) => Err(Refusal {
            reason: Reason::WrongSymbolField,
            place: 0,
        }),
        Err(SymbolsError::WrongByte(k)) => Err(Refusal {
            reason: Reason::WrongArityOrRank,
            place: FIELD_HEAD + k,
        }),
    }
}

// The budget field from `at` to `end`: the budget.
fn budget(problem: &[u8], at: usize, end: usize) -> Result<usize, Refusal>
    requires { (at + field_head ≤ end) × (end ≤ length problem.now) }
    ensures { IsBudget problem.now at end result }
{
    let start = at + FIELD_HEAD;
    if end - start != 4 {
        return Err(Refusal {
            reason: Reason::WrongBudget,
            place: at,
        });
    }
    let n = reading::number(problem, start, 4);
    if n > limits::BUDGET {
        return Err(Refusal {
            reason: Reason::WrongBudget,
            place: at,
        });
    }
    Ok(n)
}

// The equation field at `at`, behind `count` others: the place behind it.
fn equation(problem: &[u8], table: &[u8], at: usize, count: usize) -> Result<usize, Refusal>
    requires table { Table table.now }
    requires at_in_bounds { (at < length problem.now) × (length problem.now ≤ most_problem) × (count ≤ most_equations) }
    ensures { IsEquation table.now problem.now at count result }
{
    let end = due(problem, at, EQUATION_TAG)?;
    if count == limits::EQUATIONS {
        return Err(Refusal {
            reason: Reason::ManyEquations,
            place: at,
        });
    }
    reading::pair_at(problem, table, at + FIELD_HEAD, end)?;
    Ok(end)
}

// All the equation fields from `at` on: how many there are.
fn equations(problem: &[u8], table: &[u8], at: usize) -> Result<usize, Refusal>
    requires table { Table table.now }
    requires at_in_bounds { (at ≤ length problem.now) × (length problem.now ≤ most_problem) }
    ensures { IsEquations table.now problem.now at result }
{
    let mut count: usize = 0;
    let mut i = at;
    // Kept: a step of this loop is as long as a field, so no iterator of the library is plainer.
    while i < problem.len() {
        i = equation(problem, table, i, count)?;
        count += 1;
    }
    Ok(count)
}

// What follows the symbol field: `count` equation fields, the first at `equations`.
#[derive(Clone, Copy, Debug, PartialEq, Eq)]
pub struct Rest {
    pub budget: usize,
    pub equations: usize,
    pub count: usize,
}

// What follows the symbol field, over a given table and from a given place: the budget field, then the equation fields.
pub fn parse_rest(problem: &[u8], table: &[u8], at: usize) -> Result<Rest, Refusal>
    requires table { Table table.now }
    requires problem_len_bound { length problem.now ≤ most_problem }
    ensures { IsRest table.now problem.now at result }
{
    let end = due(problem, at, BUDGET_TAG)?;
    let budget = budget(problem, at, end)?;
    let count = equations(problem, table, end)?;
    Ok(Rest {
        budget,
        equations: end,
        count,
    })
}

// A problem: its table is the bytes from the symbol field's head to `table_end`; `count` equation fields start at `equations`.
#[derive(Clone, Copy, Debug, PartialEq, Eq)]
pub struct Input {
    pub table_end: usize,
    pub budget: usize,
    pub equations: usize,
    pub count: usize,
}

// The symbol field, the budget field, then the equation fields.
pub fn parse(problem: &[u8]) -> Result<Input, Refusal>
    ensures { (told result ≡ parsed_of (length problem.now) (parse problem.now)) × IsParsed problem.now result }
{
    if problem.len() > limits::PROBLEM {
        return Err(Refusal {
            reason: Reason::LongProblem,
            place: limits::PROBLEM,
        });
    }
    let table_end = symbols(problem)?;
    let table = &problem[FIELD_HEAD..table_end];
    let rest = parse_rest(problem, table, table_end)?;
    Ok(Input {
        table_end,
        budget: rest.budget,
        equations: rest.equations,
        count: rest.count,
    })
}
