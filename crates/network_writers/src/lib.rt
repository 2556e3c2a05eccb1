// A read found in the history; whether its own commit writes the item before it; and the last commit before its own that does.
#![tactic(auto)]

ghost use Rattle.std.specs.Prelude.{◌≡◌, ◌+◌, length};
ghost use Rattle.site_operations.specs.Operations.{touches};
ghost use Rattle.origins.specs.Origin.{ops_before};
ghost use Rattle.network_layout.specs.InWords.{network_in};
ghost use Rattle.network_layout.specs.At.{AtNetwork, HasRecord};
ghost use Rattle.network_writers.specs.Writers.{sought, OnRecord, comes_before, later_of, LastSoFar, is_writer, Ordering, Choosing, LookingAt};

use causes::Refusal;
use limits::{RECORDS_WIDE, SITES_WIDE};
use site_operations::READ;

// The item of an operation of a record that is a read; refused where there is no such operation, or where it is no read.
pub fn find_read(state: &[u32], k: u32, a: u32) -> Result<u32, Refusal>
    requires { AtNetwork state.now }
    ensures { result ≡ sought (network_in state.now) k a }
{
    if network_records::record_count(state) <= k {
        return Err(Refusal::NoSuchRead);
    }
    find_operation(state, k as usize, a as usize)
}

fn find_operation(state: &[u32], k: usize, a: usize) -> Result<u32, Refusal>
    requires { HasRecord state.now k }
    ensures { result ≡ sought (network_in state.now) k a }
{
    if network_records::operation_count(state, k) <= a {
        return Err(Refusal::NoSuchRead);
    }
    let ops = network_records::record_ops(state, k);
    if site_operations::kind(&ops, a) != READ {
        return Err(Refusal::NoSuchRead);
    }
    Ok(site_operations::item(&ops, a))
}

// Whether an operation of record k before operation `a` writes the item.
pub fn own_write(state: &[u32], k: u32, item: u32, a: u32) -> bool
    requires { OnRecord state.now k }
    ensures { result ≡ touches item (ops_before (network_in state.now) k a) }
{
    network_records::record_touches_before(state, words::wide(k), item, words::wide(a))
}

// The last commit before record k that writes the item; RECORDS where there is none.
pub fn last_writer(state: &[u32], k: u32, item: u32) -> u32
    requires { OnRecord state.now k }
    ensures { LastSoFar (network_in state.now) (is_writer (network_in state.now) k item) (length (network_in state.now).history) result }
{
    let made = words::wide(network_records::record_count(state));
    let reader = words::wide(k);
    let places = network_placement::places(state);
    let mut best = RECORDS_WIDE;
    let mut j = 0;
    while j < made {
        best = later_writer(state, reader, item, j, best, places);
        j += 1;
    }
    best as u32
}

// Record j, where it writes the item before the reader and comes after the best so far; else that one.
fn later_writer(
    state: &[u32],
    reader: usize,
    item: u32,
    j: usize,
    best: usize,
    places: [u8; SITES_WIDE],
) -> usize
    requires { LookingAt state.now reader item j best places }
    ensures { LastSoFar (network_in state.now) (is_writer (network_in state.now) reader item) (j + 1) result }
{
    if !network_records::record_touches(state, j, item) {
        return best;
    }
    if !precedes(state, j, reader, places) {
        return best;
    }
    later_of(state, best, j, places)
}

// The last in turn of the best so far and record j; that record where there is no best yet.
fn later_of(state: &[u32], best: usize, j: usize, places: [u8; SITES_WIDE]) -> usize
    requires { Choosing state.now best j places }
    ensures { result ≡ later_of (network_in state.now) best j }
{
    if RECORDS_WIDE <= best {
        return j;
    }
    if precedes(state, best, j, places) {
        return j;
    }
    best
}

// Whether the first of two records comes before the second: by timestamp, equal ones in the order made.
fn precedes(state: &[u32], first: usize, second: usize, places: [u8; SITES_WIDE]) -> bool
    requires { Ordering state.now first second places }
    ensures { result ≡ comes_before (network_in state.now) first second }
{
    let found = network_records::compare_records(state, first, second, places);
    if first < second {
        return found.not_later();
    }
    found.is_earlier()
}
