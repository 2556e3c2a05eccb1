// The layout of a state in words, and what the calls answer where they are not refused. No code.
#![tactic(auto)]

use limits::{ITEMS_WIDE, OPERATIONS_WIDE, RECORDS_WIDE, SITES_WIDE};
use timestamp::Timestamp;

// An operation of a commit: 0 a read or 1 a write, the item, and the value that is written.
#[derive(Clone, Copy)]
pub struct Operation {
    pub kind: u8,
    pub item: u32,
    pub value: i32,
}

// What a commit answers: the timestamp, and the first `count` values, those read in order.
#[derive(Clone, Copy)]
pub struct Committed {
    pub stamp: Timestamp,
    pub count: usize,
    pub values: [i32; OPERATIONS_WIDE],
}

// What a schedule answers: the parent, and the message's timestamp.
#[derive(Clone, Copy)]
pub struct Scheduled {
    pub parent: u32,
    pub stamp: Timestamp,
}

// What a waiting report answers: the first `count` items, those that are waiting.
#[derive(Clone, Copy)]
pub struct Report {
    pub count: usize,
    pub items: [u32; ITEMS_WIDE],
}

// What a site's table answers: a value for each of `count` items, and 0 behind them.
#[derive(Clone, Copy)]
pub struct Tabled {
    pub count: usize,
    pub values: [i32; ITEMS_WIDE],
}

// What a line answers: how many messages it holds, and how many of them have arrived.
#[derive(Clone, Copy)]
pub struct Lined {
    pub held: usize,
    pub arrived: usize,
}

// Where the value of a read came from: the start value, or a base value where commits have been removed and the writer may be among them; or the write of a commit, named by its record number.
#[derive(Clone, Copy, PartialEq, Eq)]
pub enum Origin {
    Start,
    Folded,
    Commit(u32),
}

// What the base answers: whether a collect has removed a record since set-up, and a value for each of `count` items.
#[derive(Clone, Copy)]
pub struct Based {
    pub folded: bool,
    pub count: usize,
    pub values: [i32; ITEMS_WIDE],
}

// How many sites, items and records a state holds.
#[derive(Clone, Copy)]
pub struct Totals {
    pub sites: u32,
    pub items: u32,
    pub records: u32,
}

// A record of the history: its site, its timestamp, and the first `count` of eight operations, three words each.
#[derive(Clone, Copy)]
pub struct Entry {
    pub site: u32,
    pub stamp: Timestamp,
    pub count: usize,
    pub ops: [u32; site_operations::OPERATIONS],
}

// Where the head has how many sites, items and records there are.
pub const SITE_COUNT: usize = 0;

pub const ITEM_COUNT: usize = SITE_COUNT + 1;

pub const RECORD_COUNT: usize = ITEM_COUNT + 1;

// How many lines there are, one for each two sites.
pub const LINES_MOST: usize = SITES_WIDE * SITES_WIDE;

// Where the parts of a state start, and its size.
pub const ITEMS: usize = RECORD_COUNT + 1;

pub const SITES: usize = ITEMS + ITEMS_WIDE * placement::ITEM;

pub const SITE: usize = site::WORDS;

pub const LINES: usize = SITES + SITES_WIDE * SITE;

pub const LINE: usize = lines::WORDS;

pub const HISTORY: usize = LINES + LINES_MOST * LINE;

pub const RECORD: usize = records::WORDS;

// Where the base has whether a collect has removed a record since set-up, and the value of each item.
pub const FOLDED: usize = HISTORY + RECORDS_WIDE * RECORD;

pub const BASE: usize = FOLDED + 1;

// The words of a state.
pub const WORDS: usize = BASE + ITEMS_WIDE;
