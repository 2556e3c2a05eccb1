// A message and its words: its name, and the timestamp of a dummy. Definitions and laws, the struct and the places; no code.
#![tactic(auto)]

use timestamp::Timestamp;

// A message: the number of the record that it names, or 256 and more for a dummy, which has its own timestamp.
#[derive(Clone, Copy)]
pub struct Message {
    pub name: u32,
    pub stamp: Timestamp,
}

// Where a message has its name and its timestamp, and its size.
pub const NAME: usize = 0;

pub const STAMP: usize = NAME + 1;

pub const MESSAGE: usize = STAMP + timestamp_words::WORDS;
