// Scripts from a reader, their answers to a writer: a block is read, its lines are answered, and the answers are written before the next is read. They are
// not flushed: a writer that holds bytes back is its caller's to flush.
#![tactic(auto)]

ghost use Rattle.std.specs.Prelude.{◌≡◌, ◌≤◌, false, length};
ghost use Rattle.console_notation.specs.Lines.{line_most};
ghost use Rattle.console_held.specs.Held.{held_of};
ghost use Rattle.console.specs.Runs.{Ran, Began, Went, Passed, Closed, Replying};

pub use console_blocks::{feed, finish};
pub use console_held::nothing;
pub use console_notation::{Held, Progress};
use network_layout::WORDS;
use std::io::{Read, Write};

// What is held of a line where the run goes on, whether the words are then those of a network, whether it goes on, and whether everything was read and
// written so far.
#[derive(Clone, Copy)]
pub struct Run {
    pub held: Held,
    pub formed: bool,
    pub more: bool,
    pub well: bool,
}

// A script is read from a reader and answered on a lent state, and its answers are written to a writer. It answers whether all was read and written; what
// failed is told to another writer, and ends the run.
pub fn run_on<R: Read, W: Write, E: Write>(
    state: &mut [u32; WORDS],
    from: &mut R,
    out: &mut W,
    told: &mut E,
) -> bool
    ensures { Ran state.old state.new }
{
    let mut block = [0u8; 57344];
    let mut answers = [0u8; 65536];
    let mut at = begun(state);
    // Nothing says that an input ends, so the turns are counted, to a number that no run uses up.
    for _ in 0..u64::MAX {
        if !at.more {
            return at.well;
        }
        let held = at.held;
        at = turn(
            held,
            at.formed,
            state,
            &mut block,
            &mut answers,
            from,
            out,
            told,
        );
    }
    false
}

// The state is tested here, and nowhere else in a run but at its end.
fn begun(state: &[u32; WORDS]) -> Run
    ensures { Began state.now result }
{
    Run {
        held: nothing(),
        formed: network_state::well_shaped(state),
        more: true,
        well: true,
    }
}

// A block is read and answered; where the input ends, the line that is held. A line that is cut off by a failure is not answered: its first bytes may
// stand for another call.
fn turn<R: Read, W: Write, E: Write>(
    held: Held,
    formed: bool,
    state: &mut [u32; WORDS],
    block: &mut [u8],
    answers: &mut [u8],
    from: &mut R,
    out: &mut W,
    told: &mut E,
) -> Run
    requires { Replying state.old formed answers.old }
    ensures { Went (held_of held) state.old state.new result }
{
    match from.read(block) {
        Ok(0) => last(held, state, answers, out, told),
        Ok(n) => reply(&block[..n], held, formed, state, answers, out, told),
        Err(error) => {
            let _ = writeln!(told, "script not read: {error}");
            broken_off(held, formed)
        }
    }
}

// Where reading or writing failed, the run ends.
fn broken_off(held: Held, formed: bool) -> Run
    ensures more { result.more ≡ false }
    ensures well { result.well ≡ false }
    ensures held { result.held ≡ held }
{
    Run {
        held,
        formed,
        more: false,
        well: false,
    }
}

// The lines of a block; where the answers fill their buffer, they are written and it goes on.
fn reply<W: Write, E: Write>(
    block: &[u8],
    held: Held,
    formed: bool,
    state: &mut [u32; WORDS],
    answers: &mut [u8],
    out: &mut W,
    told: &mut E,
) -> Run
    requires { Replying state.old formed answers.old }
    ensures { Passed block.now (held_of held) state.old state.new result }
{
    let mut line = held;
    let mut known = formed;
    let mut used = 0;
    while console_cut::left(used, block) {
        let r = console_blocks::feed_on(&block[used..], line, state, known, answers, 0);
        line = r.held;
        known = r.formed;
        used += r.used;
        if !written(&answers[..r.filled], out, told) {
            return broken_off(line, known);
        }
    }
    Run {
        held: line,
        formed: known,
        more: true,
        well: true,
    }
}

// The last line, where it lacks its newline.
fn last<W: Write, E: Write>(
    held: Held,
    state: &mut [u32; WORDS],
    answers: &mut [u8],
    out: &mut W,
    told: &mut E,
) -> Run
    requires { line_most ≤ length answers.old }
    ensures { Closed (held_of held) state.old state.new result }
{
    let r = finish(held, state, answers, 0);
    Run {
        held: r.held,
        formed: false,
        more: false,
        well: written(&answers[..r.filled], out, told),
    }
}

fn written<W: Write, E: Write>(answers: &[u8], out: &mut W, told: &mut E) -> bool {
    match out.write_all(answers) {
        Ok(()) => true,
        Err(error) => {
            let _ = writeln!(told, "answers not written: {error}");
            false
        }
    }
}
