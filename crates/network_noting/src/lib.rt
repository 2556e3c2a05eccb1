// A record noted for each item that it writes, in a table with a record's number for each item: of the two the earlier stays, or the later.
#![tactic(auto)]

ghost use Rattle.std.specs.Prelude.{◌≡◌};
ghost use Rattle.protocol.specs.Network.{nth_record};
ghost use Rattle.network_layout.specs.InWords.{network_in};
ghost use Rattle.network_noting.specs.Noting.{note_item, note_ops, IsMet, Noting, Meeting, Writing};

use limits::SITES_WIDE;

// The earlier of two records stays, of equal ones the one noted first.
pub const EARLIEST: bool = false;
// The later of two stays, of equal ones the one noted last.
pub const LATEST: bool = true;

// The last comparison of a record: with which one, and whether it replaces that one. Writes of one commit mostly meet those of one other.
#[derive(Clone, Copy)]
struct Met {
    other: u32,
    replaces: bool,
}

// Record r noted for each item that it writes. `latest`: whether the later of two stays; `places`: those of the sites, which the caller works out once.
pub fn note_record(table: &mut [u32], state: &[u32], r: u32, latest: bool, places: [u8; SITES_WIDE])
    requires { Noting state.now places r }
    ensures { table.new ≡ note_ops latest (network_in state.now) r table.old (nth_record (network_in state.now) r).ops }
{
    let w = network_records::record_at(state, r as usize);
    let n = records::count(w);
    let mut met = Met {
        other: r,
        replaces: latest, // itself
    };
    for a in 0..n {
        met = note_write(
            table,
            state,
            r,
            record_packing::written_item(w, a),
            latest,
            met,
            places,
        );
    }
}

// Record r noted for an item, where it replaces the record noted or none is; past the last item nothing.
fn note_write(
    table: &mut [u32],
    state: &[u32],
    r: u32,
    item: u32,
    latest: bool,
    met: Met,
    places: [u8; SITES_WIDE],
) -> Met
    requires { Writing state.now places r latest met.other met.replaces }
    ensures { (table.new ≡ note_item latest (network_in state.now) r table.old item) × IsMet state.now r latest result.other result.replaces }
{
    let x = item as usize;
    if table.len() <= x {
        return met;
    }
    let noted = table[x];
    if network_records::record_count(state) <= noted {
        table[x] = r;
        return met;
    }
    let next = meet(state, r, noted, latest, met, places);
    if next.replaces {
        table[x] = r;
    }
    next
}

// Record r compared with the one noted, unless that was its last comparison.
fn meet(state: &[u32], r: u32, noted: u32, latest: bool, met: Met, places: [u8; SITES_WIDE]) -> Met
    requires { Meeting state.now places r noted latest met.other met.replaces }
    ensures { (result.other ≡ noted) × IsMet state.now r latest result.other result.replaces }
{
    if met.other == noted {
        return met;
    }
    let found = network_records::compare_records(state, r as usize, noted as usize, places);
    Met {
        other: noted,
        replaces: found.is_earlier() != latest,
    }
}
