// The point up to which a collect removes records, and the table of what becomes of each.
#![tactic(auto)]

ghost use Rattle.std.specs.Prelude.{◌≡◌, ◌+◌, length};
ghost use Rattle.timestamp_order.specs.Order.{rank};
ghost use Rattle.timestamp_order.specs.Parting.{Compares};
ghost use Rattle.protocol.specs.Network.{site_at};
ghost use Rattle.protocol.specs.Collect.{is_past};
ghost use Rattle.network_layout.specs.InWords.{network_in};
ghost use Rattle.record_names.specs.Names.{Names};
ghost use Rattle.network_point.specs.Point.{Asked, AtSites, AtPoint, EarliestSoFar, IsPoint, LookingAt, Naming, NamedNext};

use limits::{RECORDS, RECORDS_WIDE, SITES_WIDE};
use network_layout::SITE_COUNT;
use timestamp_order::Compared;

// Of each record its number among those that stay; RECORDS of one that goes, since it is not later than the earliest site.
pub fn names(state: &[u32], places: [u8; SITES_WIDE]) -> [u32; RECORDS_WIDE]
    requires { Asked state.now places }
    ensures { Names (is_past (network_in state.now)) (length (network_in state.now).history) result }
{
    let made = network_records::record_count(state) as usize;
    let point = earliest(state, places);
    let mut names = [0u32; RECORDS_WIDE];
    let mut kept = 0;
    for k in 0..made {
        let goes = is_past(state, k, point, places);
        kept = name(&mut names, k, kept, goes);
    }
    names
}

// Record k with the next number, where it stays. It answers how many stay with it.
fn name(names: &mut [u32; RECORDS_WIDE], k: usize, kept: u32, goes: bool) -> u32
    requires { Naming k kept }
    ensures { NamedNext names.old k kept goes names.new result }
{
    if goes {
        names[k] = RECORDS;
        return kept;
    }
    names[k] = kept;
    kept + 1
}

// Whether record k is not later than a site.
fn is_past(state: &[u32], k: usize, site: usize, places: [u8; SITES_WIDE]) -> bool
    requires { AtPoint state.now k site places }
    ensures { result ≡ is_past (network_in state.now) k }
{
    let found = timestamp_comparison::compare_words(
        network_records::stamp_at(state, k),
        network_sites::site_at(state, site),
        places,
    );
    found.not_later()
}

// The site with the earliest timestamp, the first of equal ones.
fn earliest(state: &[u32], places: [u8; SITES_WIDE]) -> usize
    requires { Asked state.now places }
    ensures { IsPoint state.now result }
{
    let sites = state[SITE_COUNT] as usize;
    let mut best = 0;
    for i in 1..sites {
        best = earlier_of(state, i, best, places);
    }
    best
}

// Site i, where it is earlier than the best so far; else that one.
fn earlier_of(state: &[u32], i: usize, best: usize, places: [u8; SITES_WIDE]) -> usize
    requires { LookingAt state.now i best places }
    ensures { EarliestSoFar (network_in state.now) (i + 1) result }
{
    let found = compare_sites(state, i, best, places);
    if found.is_earlier() {
        return i;
    }
    best
}

// The timestamps of two sites, compared where they lie.
fn compare_sites(state: &[u32], i: usize, j: usize, places: [u8; SITES_WIDE]) -> Compared
    requires { AtSites state.now i j }
    ensures { Compares (rank places) (site_at (network_in state.now) i).stamp (site_at (network_in state.now) j).stamp result }
{
    timestamp_comparison::compare_words(
        network_sites::site_at(state, i),
        network_sites::site_at(state, j),
        places,
    )
}
