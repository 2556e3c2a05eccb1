// The script's notation: lines, calls and answers as text. Definitions and laws, no functions.
#![tactic(auto)]

// The bytes of a buffer that every answer fits in.
pub const ANSWER: usize = 512;

// Where a line's answer ends in its buffer, and whether the state's words are then those of a network.
#[derive(Clone, Copy)]
pub struct Reply {
    pub end: usize,
    pub formed: bool,
}
