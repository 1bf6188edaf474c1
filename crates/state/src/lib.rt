// The run's state by value, and the steps of a turn: each takes the state and hands back the next.
#![tactic(auto)]

ghost use Rattle.std.specs.Prelude.{◌≡◌, ◌-◌, ◌<◌, ◌≤◌};
ghost use Rattle.limits.specs.Limits.{most_equations, most_rules, most_entries};
ghost use Rattle.orient.specs.Orients.{LowPair};
ghost use Rattle.slots.specs.Slots.{slot, mark_of, Layout};
ghost use Rattle.state.specs.Run.{with_units, ended_as, goes_on_as, Fine, FineBut};
ghost use Rattle.state.specs.Steps.{Initial, Takes, Orients, PutsBack, Collapses, Enters, Logs};

use orient::Unoriented;
use rewriting::End;
use slots::Pairs;

// Bytes of the log: 4,096.
pub const LOG: usize = limits::ENTRIES * items::LOGGED;

// An entry's rule made: "0 if settled"; of what was put back "ffff (hexadecimal)".
const SETTLED: u16 = 0;

const PUT_BACK: u16 = 0xffff;

// The entries, oldest first. Kept: bytes with the count of the entries in them, since memory is fixed.
#[derive(Clone, Copy)]
pub struct Log {
    pub bytes: [u8; LOG],
    pub count: usize,
}

impl Log {
    // One entry more: the origin of the pair in a slot, and the number of the rule made.
    fn push(&mut self, made: u16, pair: &[u8])
        requires { (self.old.count < most_entries) × Layout pair.now 1 }
        ensures { Enters made pair.now self.old self.new }
    {
        let a = items::LOGGED * self.count;
        fields::paste(&mut self.bytes, a, &slots::mark(pair, 0));
        fields::put_number(&mut self.bytes, a + limits::ORIGIN, 2, u32::from(made));
        self.count += 1;
    }
}

// The first `live` pairs are the live rules, of which `made` were made so far; the pairs behind them wait. Both stand oldest first. Of those that
// wait the last `back` were put back since a rule was last made or an equation settled.
// Kept: `Fine` is a clause and no ghost field, since between two methods of a turn a state is not fine: one rule over the limit, one entry behind.
#[derive(Clone, Copy)]
pub struct State {
    pub pairs: Pairs,
    pub live: usize,
    pub made: usize,
    pub log: Log,
    pub back: usize,
    pub units: u32,
}

// What a turn hands back: the state, and how the run ends, unless it goes on.
#[derive(Drop)]
pub struct Turned {
    pub state: State,
    pub end: Option<End>,
}

impl State {
    // The first state of a run: the input equations wait, in their order.
    pub fn initial(inputs: Pairs, budget: u32) -> State
        requires { Layout inputs.bytes inputs.count × (inputs.count ≤ most_equations) }
        ensures { Initial inputs budget result }
    {
        State {
            pairs: inputs,
            live: 0,
            made: 0,
            log: Log {
                bytes: [0u8; LOG],
                count: 0,
            },
            back: 0,
            units: budget,
        }
    }

    // A turn begins: its unit is paid.
    pub fn begin(mut self) -> State
        requires { 0 < self.units }
        ensures { result ≡ with_units self (self.units - 1) }
    {
        self.units -= 1;
        self
    }

    // The waiting list without its oldest equation, if one waits.
    pub fn take(mut self) -> State
        requires { Fine self }
        ensures { Takes self result }
    {
        let k = self.live;
        let n = self.pairs.count;
        if k < n {
            slots::remove(&mut self.pairs.bytes, k, n);
            self.pairs.count -= 1;
        }
        self
    }

    // Steps 4 and 5: the upper side of the pair becomes the left side of a new rule, behind the older ones.
    pub fn orient(mut self, pair: &[u8], table: &[u8]) -> Result<State, Unoriented>
        requires { Fine self × (self.pairs.count ≤ most_rules) × Layout pair.now 1 }
        ensures { Orients table.now pair.now self result }
    {
        let made = self.made + 1;
        let new = orient::rule_of(pair, table, made as u16)?;
        let k = self.live;
        let n = self.pairs.count;
        slots::insert(&mut self.pairs.bytes, k, n, &new);
        self.pairs.count += 1;
        self.live += 1;
        self.made = made;
        Ok(self)
    }

    // Step 4 of a pair with neither side above: it waits again, renamed, behind all others; an entry says so, and it is counted.
    pub fn put_back(mut self, pair: &[u8]) -> State
        requires fine { Fine self × (self.pairs.count ≤ most_rules) × (self.log.count < most_entries) }
        requires layout { Layout pair.now 1 × LowPair pair.now }
        ensures { PutsBack pair.now self result }
    {
        let one = orient::renamed(pair);
        let n = self.pairs.count;
        slots::insert(&mut self.pairs.bytes, n, n, &one);
        self.pairs.count += 1;
        self.log.push(PUT_BACK, pair);
        self.back += 1;
        self
    }

    // Step 6: the older rules that the newest one rewrites go to the waiting list.
    pub fn collapse(mut self, table: &[u8]) -> State
        requires { FineBut 1 1 self × (0 < self.live) }
        ensures { Collapses table.now self result }
    {
        let k = self.live;
        let n = self.pairs.count;
        let new = slots::copy(&self.pairs.bytes, k - 1);
        self.live = collapse::sift(&mut self.pairs.bytes, &new, k, n, table);
        self
    }

    // Step 3 of a pair with equal forms: an entry says so, and none was put back since.
    pub fn settle(mut self, pair: &[u8]) -> State
        requires { (self.log.count < most_entries) × Layout pair.now 1 }
        ensures { Logs self (mark_of (slot pair.now 0)) 0 result }
    {
        self.log.push(SETTLED, pair);
        self.back = 0;
        self
    }

    // The pair became the newest rule: an entry has its number, and none was put back since.
    // Kept: beside `settle`, since one function for both copies the state once more.
    pub fn enter_rule(mut self, pair: &[u8]) -> State
        requires { FineBut 1 1 self × (self.log.count < most_entries) × Layout pair.now 1 }
        ensures { Logs self (mark_of (slot pair.now 0)) self.made result }
    {
        self.log.push(self.made as u16, pair);
        self.back = 0;
        self
    }

    // The run goes on from here, with so many units left.
    pub fn goes_on(mut self, units: u32) -> Turned
        ensures { result ≡ goes_on_as self units }
    {
        self.units = units;
        Turned {
            state: self,
            end: None,
        }
    }

    // The run ends in this turn, with so many units left.
    pub fn ended(mut self, end: End, units: u32) -> Turned
        ensures { result ≡ ended_as self end units }
    {
        self.units = units;
        Turned {
            state: self,
            end: Some(end),
        }
    }
}
