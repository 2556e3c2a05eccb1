// The records of a state by their numbers.
#![tactic(auto)]

ghost use Rattle.std.specs.Prelude.{◌≡◌, min, ◌≤◌, length, take};
ghost use Rattle.timestamp.specs.Value.{stamp_of, PlainValue};
ghost use Rattle.timestamp_order.specs.Order.{rank};
ghost use Rattle.timestamp_order.specs.Parting.{Compares};
ghost use Rattle.timestamp_words.specs.InWords.{stamp_in, stamp_size};
ghost use Rattle.site_operations.specs.Operations.{touches};
ghost use Rattle.site_operations.specs.InWords.{ops_in, OpsLaid};
ghost use Rattle.limits.specs.Limits.{ops_most};
ghost use Rattle.records.specs.InWords.{record_in, record_size};
ghost use Rattle.network_layout.specs.Layout.{state_size, record_count};
ghost use Rattle.protocol.specs.Network.{nth_record};
ghost use Rattle.network_layout.specs.InWords.{network_in, RecordStep};
ghost use Rattle.network_layout.specs.At.{AtRoom, HasRecord};
ghost use Rattle.network_layout.specs.Lent.{Lent};
ghost use Rattle.network_records.specs.Asked.{HasRecords};

use limits::SITES_WIDE;
use network_layout::{FOLDED, HISTORY, RECORD, RECORD_COUNT};
use record_codes::{CODES, STAMP};
use site_operations::OPERATIONS;
use timestamp::Timestamp;
use timestamp_order::Compared;

// How many there are.
pub fn record_count(state: &[u32]) -> u32
    requires { length state.now ≡ state_size }
    ensures { result ≡ record_count state.now }
{
    state[RECORD_COUNT]
}

// Whether some have been removed since set-up.
pub fn is_folded(state: &[u32]) -> bool
    requires { length state.now ≡ state_size }
    ensures { result ≡ (network_in state.now).base.folded }
{
    state[FOLDED] != 0
}

// The words of record k.
pub fn record_at(state: &[u32], k: usize) -> &[u32]
    requires { HasRecord state.now k }
    ensures { Lent record_size record_in (nth_record (network_in state.now) k) result.now }
{
    let a = HISTORY + k * RECORD;
    &state[a..a + RECORD]
}

pub fn record_site(state: &[u32], k: usize) -> u32
    requires { HasRecord state.now k }
    ensures { result ≡ (nth_record (network_in state.now) k).site }
{
    records::site(record_at(state, k))
}

// The words of its timestamp.
pub fn stamp_at(state: &[u32], k: usize) -> &[u32]
    requires { HasRecord state.now k }
    ensures { Lent stamp_size stamp_in (nth_record (network_in state.now) k).stamp result.now }
{
    let w = record_at(state, k);
    &w[STAMP..CODES]
}

// The timestamps of two records, compared where they lie, by the places of the sites.
pub fn compare_records(state: &[u32], j: usize, k: usize, places: [u8; SITES_WIDE]) -> Compared
    requires { HasRecords state.now j k }
    ensures { Compares (rank places) (nth_record (network_in state.now) j).stamp (nth_record (network_in state.now) k).stamp result }
{
    timestamp_comparison::compare_words(stamp_at(state, j), stamp_at(state, k), places)
}

pub fn record_stamp(state: &[u32], k: usize) -> Timestamp
    requires { HasRecord state.now k }
    ensures { PlainValue (nth_record (network_in state.now) k).stamp result }
{
    records::stamp(record_at(state, k))
}

// A record more: its words behind the others, and the number of records one higher.
pub fn add_record(state: &mut [u32], site: u32, n: u32, t: Timestamp, ops: &[u32; OPERATIONS])
    requires { AtRoom state.old n (ops_in (min n ops_most) ops.now) }
    ensures { RecordStep state.old state.new (record { site = site; stamp = stamp_of t; ops = ops_in (min n ops_most) ops.now }) }
{
    let made = record_count(state);
    let a = HISTORY + made as usize * RECORD;
    records::write(&mut state[a..a + RECORD], site, n, t, ops);
    words::store(state, RECORD_COUNT, made + 1);
}

pub fn operation_count(state: &[u32], k: usize) -> usize
    requires { HasRecord state.now k }
    ensures { (result ≡ length (nth_record (network_in state.now) k).ops) × (result ≤ ops_most) }
{
    records::count(record_at(state, k))
}

// A record's operations, three words each, 0 past the last.
pub fn record_ops(state: &[u32], k: usize) -> [u32; OPERATIONS]
    requires { HasRecord state.now k }
    ensures { OpsLaid (length (nth_record (network_in state.now) k).ops) (nth_record (network_in state.now) k).ops result }
{
    records::operations(record_at(state, k))
}

// Whether an operation of a record writes the item.
pub fn record_touches(state: &[u32], k: usize, item: u32) -> bool
    requires { HasRecord state.now k }
    ensures { result ≡ touches item (nth_record (network_in state.now) k).ops }
{
    records::writes(record_at(state, k), item)
}

// Whether one before operation `a` does.
pub fn record_touches_before(state: &[u32], k: usize, item: u32, a: usize) -> bool
    requires { HasRecord state.now k }
    ensures { result ≡ touches item (take a (nth_record (network_in state.now) k).ops) }
{
    records::writes_before(record_at(state, k), item, a)
}
