// A script's bytes, block by block: the lines that end are answered, and what is left of a block is held for the next one.
#![tactic(auto)]

ghost use Rattle.std.specs.Prelude.{◌≡◌, [], ◌∷◌};
ghost use Rattle.network_layout.specs.InWords.{shaped, meaning};
ghost use Rattle.console_notation.specs.Lines.{newline, ending, told};
ghost use Rattle.console_lines.specs.Promises.{Collected};
ghost use Rattle.console_blocks.specs.Asked.{HeldWithRoom};
ghost use Rattle.console_held.specs.Held.{held_of};
ghost use Rattle.console_blocks.specs.Promises.{Fed, Begun, Advanced};

use console_notation::{Held, Progress};
use network_layout::WORDS;
use script_notation::Reply;

// How far a block has come, and whether the words are then those of a network.
#[derive(Clone, Copy)]
pub struct Advance {
    pub used: usize,
    pub held: Held,
    pub filled: usize,
    pub formed: bool,
}

// The bytes of a block behind what is held: the lines that end are answered, from place `at` of the buffer on. It stops before a newline where fewer than
// 294 bytes are left for the answer, so at the first one where the buffer is too small or the place is behind its end. The state is tested once.
pub fn feed(
    block: &[u8],
    held: Held,
    state: &mut [u32; WORDS],
    out: &mut [u8],
    at: usize,
) -> Progress
    ensures { Fed block.now (held_of held) state.old state.new out.old out.new at result }
{
    let formed = network_state::well_shaped(state);
    let to = feed_on(block, held, state, formed, out, at);
    let line = to.held;
    Progress {
        used: to.used,
        held: line,
        filled: to.filled,
    }
}

// The end of a script: what it adds is fed, so that the last line is answered where it lacks its newline.
pub fn finish(held: Held, state: &mut [u32; WORDS], out: &mut [u8], at: usize) -> Progress
    ensures { Fed (ending (held_of held)) (held_of held) state.old state.new out.old out.new at result }
{
    feed(console_held::ending(held), held, state, out, at)
}

// What `feed` does, where it is known whether the words are those of a network: nothing is tested.
pub fn feed_on(
    block: &[u8],
    held: Held,
    state: &mut [u32; WORDS],
    formed: bool,
    out: &mut [u8],
    at: usize,
) -> Advance
    requires { formed ≡ shaped state.old }
    ensures { Advanced block.now (held_of held) state.old state.new out.old out.new at result }
{
    let first = begin(block, held, state, formed, out, at);
    let line = first.held;
    if 0 < line.count {
        return first;
    }
    let used = first.used;
    let rest = console_lines::lines(&block[used..], state, first.formed, out, first.filled);
    let from = used + rest.from;
    let end = used + rest.end;
    Advance {
        used: end,
        held: console_held::hold_part(block, from, end),
        filled: rest.filled,
        formed: rest.formed,
    }
}

// Up to the first newline, and past it where there is room for an answer. The line is taken out of what is held.
fn begin(
    block: &[u8],
    held: Held,
    state: &mut [u32; WORDS],
    formed: bool,
    out: &mut [u8],
    at: usize,
) -> Advance
    requires { formed ≡ shaped state.old }
    ensures { Begun block.now (held_of held) state.old state.new out.old out.new at result }
{
    let end = console_cut::line_end(block, 0);
    let line = console_held::hold(held, &block[..end]);
    if !console_cut::goes_on(end, block.len(), at, out.len()) {
        return Advance {
            used: end,
            held: line,
            filled: at,
            formed,
        };
    }
    let reply = answer(line, state, formed, out, at);
    Advance {
        used: end + 1,
        held: console_held::nothing(),
        filled: reply.end,
        formed: reply.formed,
    }
}

// The line that is held is answered.
fn answer(held: Held, state: &mut [u32; WORDS], formed: bool, out: &mut [u8], at: usize) -> Reply
    requires { HeldWithRoom held state.old formed out.old at }
    ensures { Collected (told (meaning state.old) (held_of held) (newline ∷ [])) state.new out.old out.new at result }
{
    let bytes = held.bytes;
    let count = held.count;
    console_lines::collect(&bytes[..count], state, formed, out, at)
}
