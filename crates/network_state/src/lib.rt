// What others read of a state: whether it is well shaped, how much it holds, and a record of its history.
#![tactic(auto)]

ghost use Rattle.std.specs.Prelude.{◌≡◌, length};
ghost use Rattle.network_layout.specs.Layout.{state_size};
ghost use Rattle.protocol.specs.Network.{no_record, nth_record};
ghost use Rattle.network_layout.specs.InWords.{network_in, shaped as shapedWords};
ghost use Rattle.network_layout.specs.At.{HasRecord};
ghost use Rattle.network_layout.specs.Reading.{Entered};

use limits::RECORDS_WIDE;
use network_layout::{Entry, Totals, WORDS};
use site_operations::OPERATIONS;

// Whether a state's words are those of a network.
pub fn well_shaped(state: &[u32; WORDS]) -> bool
    ensures { result ≡ shapedWords state.now }
{
    network_shape::shaped(state)
}

// How many sites, items and records a state says it has.
pub fn holdings(state: &[u32; WORDS]) -> Totals
    ensures { (result.sites ≡ length (network_in state.now).sites) × (result.items ≡ length (network_in state.now).items) × (result.records ≡ length (network_in state.now).history) }
{
    Totals {
        sites: network_placement::site_count(state),
        items: network_placement::item_count(state),
        records: network_records::record_count(state),
    }
}

// The record of a number, its operations' words 0 past the last; all zero where there is none.
pub fn record(state: &[u32; WORDS], k: usize) -> Entry
    ensures { Entered (nth_record (network_in state.now) k) result }
{
    if network_records::record_count(state) as usize <= k {
        return no_entry();
    }
    if RECORDS_WIDE <= k {
        return no_entry();
    }
    entry_in(state, k)
}

fn entry_in(state: &[u32], k: usize) -> Entry
    requires { HasRecord state.now k }
    ensures { Entered (nth_record (network_in state.now) k) result }
{
    Entry {
        site: network_records::record_site(state, k),
        stamp: network_records::record_stamp(state, k),
        count: network_records::operation_count(state, k),
        ops: network_records::record_ops(state, k),
    }
}

fn no_entry() -> Entry
    ensures { Entered no_record result }
{
    Entry {
        site: 0,
        stamp: timestamp::zero(),
        count: 0,
        ops: [0u32; OPERATIONS],
    }
}
