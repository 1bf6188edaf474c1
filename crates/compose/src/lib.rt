// Step 7 of a turn: the older rules' right sides, ascending, each normalised by all live rules as they then read.
#![tactic(auto)]

ghost use Rattle.std.specs.Prelude.{◌+◌, ◌<◌};
ghost use Rattle.slots.specs.Slots.{Layout};
ghost use Rattle.compose.specs.Rights.{One, All, ComposesFew};

use limits::NODES;
use rewriting::End;
use slots::System;

// The end of the run, if it does not go on, and the units left.
#[derive(Drop)]
pub struct Composed {
    pub end: Option<End>,
    pub units: u32,
}

// The right side of rule k, normalised by all.
fn compose_one(rules: &mut [u8], k: usize, count: usize, table: &[u8], units: u32) -> Composed
    requires { Layout rules.old count × (k < count) }
    ensures { One table.now rules.old rules.new k count units result }
{
    let mut t = [0u8; NODES];
    let system = System {
        table,
        rules,
        count,
    };
    let r = normaliser::normalise(slots::right(rules, k), system, units, &mut t);
    let left = units - r.paid;
    match r.form {
        Ok(len) => {
            slots::put_right(rules, k, &t[0..len]);
            Composed {
                end: None,
                units: left,
            }
        }
        Err(stop) => Composed {
            end: Some(End::from(stop)),
            units: left,
        },
    }
}

// The first `count` pairs are the rules; the newest stands last.
fn compose(rules: &mut [u8; slots::ROOM], count: usize, table: &[u8], units: u32) -> Composed
    requires { Layout rules.old count }
    ensures { All table.now rules.old rules.new count units result }
{
    let mut left = units;
    for k in 0..count.saturating_sub(1) {
        let r = compose_one(rules, k, count, table, left);
        let None = r.end else {
            return r;
        };
        left = r.units;
    }
    Composed {
        end: None,
        units: left,
    }
}

// "Over 32 live: 23." Else step 7, on the first `live` pairs.
pub fn compose_few(live: usize, pairs: &mut [u8; slots::ROOM], table: &[u8], units: u32) -> Composed
    requires { Layout pairs.old live }
    ensures { ComposesFew table.now live pairs.old pairs.new units result }
{
    if live > limits::RULES {
        return Composed {
            end: Some(End::RulesFull),
            units,
        };
    }
    compose(pairs, live, table, units)
}
