// The tags of a saved record's own fields; its other fields are a problem's and a result's. The definitions and their theory stand in specs/ and proofs/.
#![tactic(auto)]

// The next rule number.
pub const NEXT: u8 = 0x20;

// A waiting equation, with its origin.
pub const WAITING: u8 = 0x21;

// How many equations were put back since a rule was made or an equation settled.
pub const BACK: u8 = 0x22;
