// An answer's bytes, printed one behind another into a buffer, and a record of the history as a line.
#![tactic(auto)]

ghost use Rattle.std.specs.Prelude.{◌≡◌, ◌∷◌, [], ◌+◌, ◌≤◌, min, length, take, cond, eqb};
ghost use Rattle.causes.specs.Refusals.{number_of};
ghost use Rattle.timestamp.specs.Value.{stamp_of, pair_of};
ghost use Rattle.network_layout.specs.Promises.{answered_stamp, scheduled_parent, scheduled_stamp, committed_stamp, committed_values};
ghost use Rattle.script_notation.specs.Fields.{space};
ghost use Rattle.script_notation.specs.Parse.{first_operations};
ghost use Rattle.script_notation.specs.Print.{letter as letterOf, op_text, ops_text, record_text, record_most, Put, tuple_text, tuples_text, stamp_text, values_text, print, fields_of, answer_most};
ghost use Rattle.protocol.specs.Calls.{commit as commitCall, dummy as dummyCall, schedule as scheduleCall};
ghost use Rattle.script_printing.specs.Asked.{RoomForOperations, RoomForValues};

use causes::Refusal;
use network_layout::{Committed, Scheduled};
use script_notation::ANSWER;
use timestamp::{Timestamp, Tuple};

// The site, the timestamp and the first `count` operations, or all eight, at the front of the buffer. It answers the length.
pub fn entry(
    site: u32,
    t: Timestamp,
    count: usize,
    kinds: &[u8; 8],
    items: &[u32; 8],
    values: &[i32; 8],
    out: &mut [u8; ANSWER],
) -> usize
    ensures { Put record_most out.old out.new 0 result (record_text (record { site = site; stamp = stamp_of t; ops = first_operations count kinds.now items.now values.now })) }
{
    let end = script_numbers::number(out, 0, site);
    let behind = stamp(out, end, t);
    operations(out, behind, count, kinds, items, values)
}

fn operations(
    out: &mut [u8],
    at: usize,
    count: usize,
    kinds: &[u8],
    items: &[u32],
    values: &[i32],
) -> usize
    requires { RoomForOperations out.old at kinds.now items.now values.now }
    ensures { Put 192 out.old out.new at result (ops_text (first_operations count kinds.now items.now values.now)) }
{
    let n = shorter(count);
    let mut end = at;
    let mut i = 0usize;
    while i < n {
        let v = values[i];
        end = operation(out, end, kinds[i], items[i], v);
        i += 1;
    }
    end
}

// An operation behind a space.
fn operation(out: &mut [u8], at: usize, kind: u8, item: u32, v: i32) -> usize
    requires { at + 24 ≤ length out.old }
    ensures { Put 24 out.old out.new at result (space ∷ op_text (record { kind = kind; item = item; value = v })) }
{
    out[at] = 32;
    let end = script_numbers::behind_byte(out, at + 1, letter(kind), item);
    script_numbers::value(out, end, 61, v)
}

fn letter(kind: u8) -> u8
    ensures { result ≡ letterOf kind }
{
    if kind == 0 {
        return 114;
    }
    119
}

// A dummy's number and, of one that is accepted, its timestamp.
pub fn dummied(out: &mut [u8], at: usize, answer: Result<Timestamp, Refusal>) -> usize
    requires { at + answer_most ≤ length out.old }
    ensures { Put answer_most out.old out.new at result (print (dummyCall 0) (fields_of (number_of answer) 0 (answered_stamp answer) [])) }
{
    let end = script_numbers::number(out, at, causes::number_of(answer));
    let Ok(t) = answer else { return end };
    stamp(out, end, t)
}

// A schedule's number and, of one that is accepted, the parent and the timestamp.
pub fn scheduled(out: &mut [u8], at: usize, answer: Result<Scheduled, Refusal>) -> usize
    requires { at + answer_most ≤ length out.old }
    ensures { Put answer_most out.old out.new at result (print (scheduleCall 0) (fields_of (number_of answer) (scheduled_parent answer) (scheduled_stamp answer) [])) }
{
    let Ok(done) = answer else {
        return script_numbers::number(out, at, causes::number_of(answer));
    };
    let end = script_numbers::with_parent(out, at, 0, done.parent);
    stamp(out, end, done.stamp)
}

// A commit's number and, of one that is accepted, the timestamp and the values read.
pub fn committed(out: &mut [u8], at: usize, answer: Result<Committed, Refusal>) -> usize
    requires { at + answer_most ≤ length out.old }
    ensures { Put answer_most out.old out.new at result (print (commitCall 0 [] [] []) (fields_of (number_of answer) 0 (committed_stamp answer) (committed_values answer))) }
{
    let end = script_numbers::number(out, at, causes::number_of(answer));
    let Ok(done) = answer else { return end };
    let behind = stamp(out, end, done.stamp);
    values(out, behind, done.count, &done.values)
}

// A timestamp: a space, the epoch, a space and the tuples.
pub fn stamp(out: &mut [u8], at: usize, t: Timestamp) -> usize
    requires { at + 187 ≤ length out.old }
    ensures { Put 187 out.old out.new at result (stamp_text (stamp_of t)) }
{
    let e = t.epoch;
    let end = script_numbers::behind_byte(out, at, 32, e.0);
    tuples(out, end, t)
}

// Tuples, the first behind a space and each other behind a comma.
fn tuples(out: &mut [u8], at: usize, t: Timestamp) -> usize
    requires { at + 176 ≤ length out.old }
    ensures { Put 176 out.old out.new at result (tuples_text 32 (stamp_of t).tuples) }
{
    let n = t.size();
    let mut end = at;
    let mut i = 0usize;
    while i < n {
        let x = t.tuple(i);
        end = tuple(out, end, separator(i), x);
        i += 1;
    }
    end
}

// A byte and a tuple as site.count.
fn tuple(out: &mut [u8], at: usize, byte: u8, t: Tuple) -> usize
    requires { at + 22 ≤ length out.old }
    ensures { Put 22 out.old out.new at result (byte ∷ tuple_text (pair_of t)) }
{
    let count = t.count;
    let end = script_numbers::behind_byte(out, at, byte, t.site);
    script_numbers::behind_byte(out, end, 46, count.0)
}

fn separator(i: usize) -> u8
    ensures { result ≡ cond (eqb i 0) 32 44 }
{
    if i == 0 {
        return 32;
    }
    44
}

// The first `count` values, or all eight, each behind a space.
fn values(out: &mut [u8], at: usize, count: usize, list: &[i32]) -> usize
    requires { RoomForValues out.old at list.now }
    ensures { Put 96 out.old out.new at result (values_text (take count list.now)) }
{
    let n = shorter(count);
    let mut end = at;
    let mut i = 0usize;
    while i < n {
        let v = list[i];
        end = script_numbers::value(out, end, 32, v);
        i += 1;
    }
    end
}

// Eight at most.
pub fn shorter(count: usize) -> usize
    ensures { result ≡ min count 8 }
{
    if count < 8 {
        return count;
    }
    8
}
