// A script as bytes in blocks: cut into lines, and what the lines lead to. Definitions and laws, and the structs that carry a line from block to block; no code.
#![tactic(auto)]

// How many bytes of a line are held: one more than a line has, so that a line that is too long is told by them.
pub const HELD: usize = 513;

// The first bytes of a line that has not ended, `count` of them: all where `count` is more. No `Vec`: the project has no heap.
#[derive(Clone, Copy)]
pub struct Held {
    pub bytes: [u8; HELD],
    pub count: usize,
}

// How far a block has come: how many of its bytes are used, what is held of the line that has not ended, and where the answers end.
#[derive(Clone, Copy)]
pub struct Progress {
    pub used: usize,
    pub held: Held,
    pub filled: usize,
}
