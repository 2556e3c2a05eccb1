// Of each item the last in turn of the records that go and write it, found by one walk over the records.
#![tactic(auto)]

ghost use Rattle.std.specs.Prelude.{◌+◌, length};
ghost use Rattle.network_layout.specs.InWords.{network_in};
ghost use Rattle.network_last_writes.specs.LastWrites.{LastWrites, Folding, NotingNext};

use limits::{ITEMS_WIDE, RECORDS, RECORDS_WIDE, SITES_WIDE};
use network_noting::LATEST;

// Of each item the number of that record; RECORDS where there is none. `names`: the new number of each record, or that it goes; `places`: those of the sites.
pub fn last_writes(
    state: &[u32],
    names: &[u32; RECORDS_WIDE],
    places: [u8; SITES_WIDE],
) -> [u32; ITEMS_WIDE]
    requires { Folding state.now names.now places }
    ensures { LastWrites (network_in state.now) (length (network_in state.now).history) result }
{
    let made = network_records::record_count(state) as usize;
    let mut table = [RECORDS; ITEMS_WIDE];
    for j in 0..made {
        note_next(&mut table, state, names, j, places);
    }
    table
}

// Record j noted, where it goes.
fn note_next(
    table: &mut [u32; ITEMS_WIDE],
    state: &[u32],
    names: &[u32; RECORDS_WIDE],
    j: usize,
    places: [u8; SITES_WIDE],
)
    requires { NotingNext state.now names.now table.old j places }
    ensures { LastWrites (network_in state.now) (j + 1) table.new }
{
    if record_names::stays(names, j) {
        return;
    }
    network_noting::note_record(table, state, j as u32, LATEST, places);
}
