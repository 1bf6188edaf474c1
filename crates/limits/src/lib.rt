// Document 01's limits, each once, and the sizes that follow from them. specs/Limits has the same numbers for contracts and definitions.
#![tactic(auto)]

// "Symbol n (0 to 15) is byte n."
pub const SYMBOLS: usize = 16;

// The bytes of so many symbols, an arity and a rank each: 32.
pub const TABLE: usize = 2 * SYMBOLS;

// The byte behind those of the symbols: 16.
pub const SYMBOLS_END: u8 = SYMBOLS as u8;

// "arity 0 to 4"
pub const ARITY: u8 = 4;

// "rank 0 to 15"
pub const RANK: u8 = 15;

// "Variable n (0 to 15) is byte 80 + n." "The taken pair has at most 16 different variables."
pub const VARIABLES: usize = 16;

// The byte of variable 0: 80, 128.
pub const VARIABLE: u8 = 0x80;

// The same number as an index.
pub const FIRST_VARIABLE: usize = VARIABLE as usize;

// The byte of variable 15: 8f, 143.
pub const LAST_VARIABLE: u8 = VARIABLE + (VARIABLES as u8 - 1);

// The byte behind those of the variables of two rules that are set apart: a0, 160.
pub const VARIABLES_END: u8 = VARIABLE + 2 * (VARIABLES as u8);

// "side over 120 nodes", "Every term on the way is held to 120 nodes."
pub const NODES: usize = 120;

// The nodes of a pair's two sides: 240.
pub const PAIR: usize = 2 * NODES;

// The nodes of an overlap's terms: two left sides, the left side with a right side in it, and a right side. 600
pub const ARENA: usize = 5 * NODES;

// The values of a byte.
pub const BYTES: usize = 256;

// The values of a field's length, two bytes: 65,536.
pub const LENGTHS: usize = BYTES * BYTES;

// A cell is a node's byte, and so many times the size of its subterm: a byte's values.
pub const CELL: u16 = BYTES as u16;

// "tag 03, 0 to 16 times"
pub const EQUATIONS: usize = 16;

// "Over 32 live: 23."
pub const RULES: usize = 32;

// Live rules and waiting equations together: the newest rule joins before the older ones are counted. 33
pub const PAIRS: usize = RULES + 1;

// "24 when a 513th log entry is due"
pub const ENTRIES: usize = 512;

// "rule numbers 1 to 512": a rule is made with an entry.
pub const NUMBERS: usize = ENTRIES;

// "the budget, four bytes, high byte first, 0 to 1,000,000"
pub const BUDGET: usize = 1_000_000;

// "problem over 8,192 bytes"
pub const PROBLEM: usize = 8192;

// "result buffer under 16,384 bytes"
pub const BUFFER: usize = 16384;

// "the record is over 16,384 bytes"
pub const RECORD: usize = BUFFER;

// "a second lent buffer of at least 49,152 bytes"; "1 and 2 read 49,152 bytes for saved records"
pub const SAVED: usize = 49152;

// The next rule number at most: 513.
pub const NEXT: usize = NUMBERS + 1;

// A field's tag in one byte and the length of its contents in two.
pub const FIELD_HEAD: usize = 3;

// An origin: its kind in one byte, two numbers in two bytes each, a position in one. 6
pub const ORIGIN: usize = 6;

// The field of a log entry: an origin, and the number of the rule made in two bytes. 11
pub const ENTRY: usize = FIELD_HEAD + ORIGIN + 2;
