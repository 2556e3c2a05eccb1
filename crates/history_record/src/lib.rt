// A record as a value, from its bytes.
#![tactic(auto)]

ghost use Rattle.std.specs.Prelude.{◌≡◌, map, ◌+◌, ◌*◌, ◌≤◌, length, get_or};
ghost use Rattle.words.specs.Words.{part, chunks};
ghost use Rattle.timestamp.specs.Value.{pair_of, PlainValue};
ghost use Rattle.timestamp_order.specs.Order.{rank};
ghost use Rattle.timestamp_order.specs.Timestamp.{no_pair, room};
ghost use Rattle.limits.specs.Limits.{ops_most};
ghost use Rattle.history_file.specs.Bytes.{unit_size};
ghost use Rattle.history_file.specs.Reading.{pair_read, op_read, record_read};
ghost use Rattle.history_file.specs.Promises.{no_step, step_of, Gives};
ghost use Rattle.history_record.specs.Asked.{Units, AtTuple, Whole};
ghost use Rattle.history_record.specs.Placed.{Operated, Placed};

use history_file::Found;
use limits::SITES_WIDE;
use timestamp::{Count, Epoch, Timestamp, Tuple};

// One operation.
#[derive(Clone, Copy)]
struct Operation {
    kind: u8,
    item: u32,
    value: i32,
}

// The fields of operations at eight places each, 0 past the last.
#[derive(Clone, Copy)]
struct Places {
    kinds: [u8; 8],
    items: [u32; 8],
    values: [i32; 8],
}

// Tuple i of n, and zeros past the last.
fn tuple_at(b: &[u8], n: usize, i: usize) -> Tuple
    requires { AtTuple b.now n i }
    ensures { pair_of result ≡ get_or (map pair_read (chunks unit_size n b.now)) i no_pair }
{
    if i < n {
        let a = i * 8;
        return Tuple {
            site: history_numbers::wide(b[a]),
            count: Count(history_numbers::number(b, a + 4)),
        };
    }
    Tuple {
        site: 0,
        count: Count(0),
    }
}

// The timestamp of n tuples.
fn stamp(b: &[u8], n: usize, epoch: u32) -> Timestamp
    requires { Units b.now n room }
    ensures { PlainValue (record { epoch = epoch; tuples = map pair_read (chunks unit_size n b.now) }) result }
{
    Timestamp {
        epoch: Epoch(epoch),
        len: n,
        tuples: [
            tuple_at(b, n, 0),
            tuple_at(b, n, 1),
            tuple_at(b, n, 2),
            tuple_at(b, n, 3),
            tuple_at(b, n, 4),
            tuple_at(b, n, 5),
            tuple_at(b, n, 6),
            tuple_at(b, n, 7),
        ],
    }
}

// Operation i.
fn operation_at(b: &[u8], i: usize) -> Operation
    requires { i * unit_size + unit_size ≤ length b.now }
    ensures { Operated (op_read (part b.now (i * unit_size) unit_size)) result.kind result.item result.value }
{
    let a = i * 8;
    Operation {
        kind: b[a],
        item: history_numbers::wide(b[a + 1]),
        value: words::value(history_numbers::number(b, a + 4)),
    }
}

// The fields of n operations.
fn operations(b: &[u8], n: usize) -> Places
    requires { Units b.now n ops_most }
    ensures { Placed (map op_read (chunks unit_size n b.now)) result.kinds result.items result.values }
{
    let mut kinds = [0u8; 8];
    let mut items = [0u32; 8];
    let mut values = [0i32; 8];
    let mut i = 0;
    while i < n {
        let o = operation_at(b, i);
        let value = o.value;
        kinds[i] = o.kind;
        items[i] = o.item;
        values[i] = value;
        i += 1;
    }
    Places {
        kinds,
        items,
        values,
    }
}

// The record that the bytes start with.
fn found(b: &[u8], next: usize) -> Found
    requires { Whole b.now }
    ensures { Gives (record { number = 0; next = next; found = record_read b.now }) result }
{
    let t = history_validity::count(b, 1);
    let o = history_validity::count(b, 2);
    let a = 8 + 8 * t;
    let ops = operations(&b[a..], o);
    let kinds = ops.kinds;
    let items = ops.items;
    let values = ops.values;
    Found {
        number: 0,
        next,
        site: history_numbers::field(b, 0),
        stamp: stamp(&b[8..], t, history_numbers::number(b, 4)),
        count: o,
        kinds,
        items,
        values,
    }
}

// Nothing but the number for which it is refused.
pub fn refused(number: u32) -> Found
    ensures { Gives (no_step number) result }
{
    Found {
        number,
        next: 0,
        site: 0,
        stamp: timestamp::zero(),
        count: 0,
        kinds: [0; 8],
        items: [0; 8],
        values: [0; 8],
    }
}

// The record that starts at a place of a part, and where the next starts. The part is that of a group of that many sites and items,
// its sites at these places. 24 where the part ends at that place or before, 23 where no valid record starts there.
pub fn record_from(
    part: &[u8],
    at: usize,
    sites: u32,
    items: u32,
    places: [u8; SITES_WIDE],
) -> Found
    ensures { Gives (step_of part.now at (rank places) sites items) result }
{
    if part.len() <= at {
        return refused(24);
    }
    let size = history_validity::step(part, at, sites, items, places);
    if size == 0 {
        return refused(23);
    }
    found(&part[at..], at + size)
}
