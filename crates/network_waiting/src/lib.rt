// Waiting report: the items that messages on the lines into a site write and that it has a copy of, the one with the earliest write first.
#![tactic(auto)]

ghost use Rattle.std.specs.Prelude.{◌≡◌, ◌-◌, ◌<◌, length};
ghost use Rattle.lists.specs.Sorting.{place_in};
ghost use Rattle.protocol.specs.Waiting.{is_waiting};
ghost use Rattle.network_layout.specs.InWords.{network_in};
ghost use Rattle.network_layout.specs.At.{AtSite};
ghost use Rattle.network_waiting.specs.Report.{Reported};
ghost use Rattle.network_waiting.specs.Places.{earliest_of, earliest_before, BothWritten, Placing, Narrowing, Narrowed, Asking, Putting, PutIn, AllPut};

use causes::Refusal;
use limits::{ITEMS_WIDE, SITES_WIDE};
use network_layout::{Report, WORDS};

// The waiting report of a site: the items, by the timestamp of the earliest waiting write, then by number.
pub fn waiting(state: &[u32; WORDS], site: u32) -> Result<Report, Refusal>
    ensures { Reported site state.now result }
{
    network_shape::site_number(state, site)?;
    Ok(report(state, site))
}

// The items from the last down, so that of those with one timestamp each comes before the ones above it. The places of the sites, by which timestamps
// are compared, are worked out once.
fn report(state: &[u32], site: u32) -> Report
    requires { AtSite state.now site }
    ensures { AllPut (network_in state.now) site result }
{
    let places = network_placement::places(state);
    let writers = network_earliest_writes::earliest_writes(state, site, places);
    let mut items = [0u32; ITEMS_WIDE];
    let mut count = 0usize;
    let mut k = network_placement::item_count(state);
    while 0 < k {
        k -= 1;
        count = put_item(&mut items, count, &writers, state, site, k, places);
    }
    Report { count, items }
}

// Item k put among the `count` items above it, where it is waiting; answers how many there are then.
fn put_item(
    items: &mut [u32],
    count: usize,
    writers: &[u32],
    state: &[u32],
    site: u32,
    k: u32,
    places: [u8; SITES_WIDE],
) -> usize
    requires { Putting items.old state.now writers.now places count site k }
    ensures { PutIn state.now writers.now site k count result items.old items.new }
{
    if !is_waiting(writers, state, site, k) {
        return count;
    }
    let at = place_in(&items[0..count], writers, state, k, places);
    let end = count + 1;
    word_insertion::insert(&mut items[0..end], at, k);
    end
}

// Whether a message on a line into the site writes the item, and the site has a copy of it.
fn is_waiting(writers: &[u32], state: &[u32], site: u32, item: u32) -> bool
    requires { Asking state.now writers.now site item }
    ensures { result ≡ is_waiting (network_in state.now) site item }
{
    if network_records::record_count(state) <= writers[words::wide(item)] {
        return false;
    }
    network_placement::is_copied(state, item, site)
}

// Places in a list, of which one is sought.
#[derive(Clone, Copy)]
struct Range {
    low: usize,
    high: usize,
}

// The place of item k among items that are in order: before the first that it is not behind.
fn place_in(
    items: &[u32],
    writers: &[u32],
    state: &[u32],
    k: u32,
    places: [u8; SITES_WIDE],
) -> usize
    requires { Placing items.now state.now writers.now places k }
    ensures { result ≡ place_in (earliest_before state.now writers.now) k items.now }
{
    let mut range = Range {
        low: 0,
        high: items.len(),
    };
    while range.low < range.high {
        range = narrow(items, writers, state, k, range, places);
    }
    range.low
}

// The half of the range that has the place sought.
fn narrow(
    items: &[u32],
    writers: &[u32],
    state: &[u32],
    k: u32,
    range: Range,
    places: [u8; SITES_WIDE],
) -> Range
    requires { Narrowing items.now state.now writers.now places k range.low range.high }
    ensures { Narrowed items.now state.now writers.now k (range.high - range.low) result.low result.high }
{
    let low = range.low;
    let high = range.high;
    let middle = low + (high - low) / 2;
    if earliest_before(writers, state, k, items[middle], places) {
        return Range { low, high: middle };
    }
    let behind = middle + 1;
    Range { low: behind, high }
}

// Whether the earliest write of item j is not later than that of item k.
fn earliest_before(writers: &[u32], state: &[u32], j: u32, k: u32, places: [u8; SITES_WIDE]) -> bool
    requires { BothWritten state.now writers.now places j k }
    ensures { result ≡ earliest_before state.now writers.now j k }
{
    let first = record_of(writers, j);
    let second = record_of(writers, k);
    network_records::compare_records(state, first, second, places).not_later()
}

// The record with an item's earliest write.
fn record_of(writers: &[u32], item: u32) -> usize
    requires { item < length writers.now }
    ensures { result ≡ earliest_of writers.now item }
{
    words::wide(writers[words::wide(item)])
}
