// Commits whose operations come as a lent list of records, run: reads and writes, what is refused, and the lengths
// that matter. The answers are worked out by hand from the scope.
#![tactic(auto)]

ghost use Rattle.std.specs.Prelude.{◌≤◌, take};
ghost use Rattle.network_layout.specs.Promises.{CommitAnswered};
ghost use Rattle.network_operations.specs.Gathered.{operations_call};

use causes::Refusal;
use network_layout::{Committed, Operation, WORDS};
use script_notation::ANSWER;
use std::io;

// On a state that was never set up, then on two sites: of the items 0 to 2 site 0 is the primary of the first two,
// and site 1 has a copy of item 0.
fn main(rt: HostRuntime) -> io::Result<()> {
    let mut state = [0u32; WORDS];
    tried(&rt, &mut state, 0, all(write(0, 5)), 1)?;
    let _ = network_set_up::set_up(&mut state, 2, 3, &[0, 0, 1], &[2, 0, 0]);
    accepted(&rt, &mut state)?;
    refused(&rt, &mut state)?;
    afterwards(&rt, &mut state)
}

// A write; reads, whose values are ignored; two writes of one item, with reads before, between and behind them; eight
// operations.
fn accepted(rt: &impl Print, state: &mut [u32; WORDS]) -> io::Result<()> {
    tried(rt, state, 0, all(write(0, 5)), 1)?;
    tried(
        rt,
        state,
        0,
        five(read(0), read(1), read(0), read(0), read(0)),
        2,
    )?;
    tried(
        rt,
        state,
        0,
        five(read(0), write(0, 7), read(0), write(0, -9), read(0)),
        5,
    )?;
    tried(
        rt,
        state,
        0,
        five(read(0), write(1, 6), read(1), write(0, 4), read(0)),
        8,
    )
}

// No such site; no operation, and nine; an unknown kind.
fn refused(rt: &impl Print, state: &mut [u32; WORDS]) -> io::Result<()> {
    tried(rt, state, 2, all(write(0, 1)), 1)?;
    tried(rt, state, 0, all(write(0, 1)), 0)?;
    tried(rt, state, 0, all(write(0, 1)), 9)?;
    tried(
        rt,
        state,
        0,
        five(write(0, 1), kind_2(), read(2), read(2), read(2)),
        5,
    )?;
    faulty_items(rt, state)
}

// An unknown item, a read without a copy and a write without the primary, each the first that is faulty.
fn faulty_items(rt: &impl Print, state: &mut [u32; WORDS]) -> io::Result<()> {
    tried(
        rt,
        state,
        0,
        five(write(0, 1), read(3), read(2), read(2), read(2)),
        5,
    )?;
    tried(
        rt,
        state,
        0,
        five(write(0, 1), read(2), read(3), kind_2(), read(2)),
        5,
    )?;
    tried(
        rt,
        state,
        0,
        five(read(0), write(2, 1), read(2), kind_2(), read(2)),
        5,
    )
}

// The values are those of the last commit that was not refused; at site 1, to which no message has come yet, a read
// of what its own commit wrote, and one of a copy.
fn afterwards(rt: &impl Print, state: &mut [u32; WORDS]) -> io::Result<()> {
    tried(
        rt,
        state,
        0,
        five(read(0), read(1), read(0), read(0), read(0)),
        2,
    )?;
    tried(
        rt,
        state,
        1,
        five(write(2, 8), read(2), read(0), read(0), read(0)),
        3,
    )
}

// A commit of the first n records, its answer printed as a script prints it.
fn tried(
    rt: &impl Print,
    state: &mut [u32; WORDS],
    site: u32,
    records: [Operation; 9],
    n: usize,
) -> io::Result<()>
    requires { n ≤ 9 }
{
    show(rt, commit_first(state, site, records, n))
}

// The first n records lent as a slice.
fn commit_first(
    state: &mut [u32; WORDS],
    site: u32,
    records: [Operation; 9],
    n: usize,
) -> Result<Committed, Refusal>
    requires { n ≤ 9 }
    ensures { CommitAnswered (operations_call site (take n records)) state.old state.new result }
{
    network_operations::commit_operations(state, site, &records[..n])
}

fn show(rt: &impl Print, answer: Result<Committed, Refusal>) -> io::Result<()> {
    let mut out = [0u8; ANSWER];
    let n = script_printing::committed(&mut out, 0, answer);
    rt.write_all(&out[..n])?;
    println!(rt)
}

// ---- records
fn read(item: u32) -> Operation {
    Operation {
        kind: 0,
        item,
        value: 99,
    }
}

fn write(item: u32, value: i32) -> Operation {
    Operation {
        kind: 1,
        item,
        value,
    }
}

fn kind_2() -> Operation {
    Operation {
        kind: 2,
        item: 0,
        value: 1,
    }
}

// Nine of one.
fn all(o: Operation) -> [Operation; 9] {
    [o, o, o, o, o, o, o, o, o]
}

// Five, and the last four times more.
fn five(a: Operation, b: Operation, c: Operation, d: Operation, e: Operation) -> [Operation; 9] {
    [a, b, c, d, e, e, e, e, e]
}
