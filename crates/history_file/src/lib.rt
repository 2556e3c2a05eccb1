// The history file: its definitions, the statements on it, and what its calls answer. No code.
#![tactic(auto)]

use timestamp::Timestamp;

// The mark at the start of the trailer: 53 45 41 54.
pub const MARK: [u8; 4] = *b"SEAT";

// The size of the trailer.
pub const TRAILER: usize = 16;

// What an export answers: its number and the file's length, which is 0 where it is refused.
#[derive(Clone, Copy)]
pub struct Exported {
    pub number: u32,
    pub length: usize,
}

// What a file holds: the number for which it is refused, or 0; how many records, sites and items, how many bytes its records take, the
// places of its sites, with the numbers behind them, whether a collect has removed a record since set-up, and the base values of its items,
// with 0 behind them. Where it is refused, all but the number is 0.
#[derive(Clone, Copy)]
pub struct Checked {
    pub number: u32,
    pub records: u32,
    pub sites: u32,
    pub items: u32,
    pub length: usize,
    pub places: [u8; 8],
    pub folded: bool,
    pub base: [i32; 64],
}

// A record that was read: the number for which it was refused, or 0; its site, its timestamp, and its operations, which are the first
// `count` of eight places. What is not there is 0, and where it is refused all is. `next` is where the next record starts.
#[derive(Clone, Copy)]
pub struct Found {
    pub number: u32,
    pub next: usize,
    pub site: u32,
    pub stamp: Timestamp,
    pub count: usize,
    pub kinds: [u8; 8],
    pub items: [u32; 8],
    pub values: [i32; 8],
}
