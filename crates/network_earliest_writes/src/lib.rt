// The earliest write of each item on the lines into a site, found by one walk over their messages.
#![tactic(auto)]

ghost use Rattle.std.specs.Prelude.{◌≡◌, get_or};
ghost use Rattle.messages.specs.Messages.{commit};
ghost use Rattle.network_layout.specs.InWords.{network_in};
ghost use Rattle.network_earliest_writes.specs.Noted.{note_message, note_messages, messages_on, earliest_writers, Finding, Walking};

use limits::{ITEMS_WIDE, RECORDS, SITES, SITES_WIDE};
use network_noting::EARLIEST;

// Of each item the record with its earliest write on the lines into a site, arrived or not; where none writes it, a number that no record has.
// `places`: those of the sites, which the caller works out once.
pub fn earliest_writes(state: &[u32], site: u32, places: [u8; SITES_WIDE]) -> [u32; ITEMS_WIDE]
    requires { Finding state.now places site }
    ensures { result ≡ earliest_writers (network_in state.now) site }
{
    let mut writers = [RECORDS; ITEMS_WIDE];
    for p in 0..SITES {
        note_line(
            &mut writers,
            state,
            network_lines::line_number(p, site),
            places,
        );
    }
    writers
}

// The messages on line k noted.
fn note_line(writers: &mut [u32], state: &[u32], k: usize, places: [u8; SITES_WIDE])
    requires { Walking state.now places k }
    ensures { writers.new ≡ note_messages (network_in state.now) writers.old (messages_on state.now k) }
{
    let n = network_lines::line_held(state, k);
    for i in 0..n {
        note_message(writers, state, k, i, places);
    }
}

// Message i of line k noted: a dummy names no record, and writes nothing.
fn note_message(writers: &mut [u32], state: &[u32], k: usize, i: usize, places: [u8; SITES_WIDE])
    requires { Walking state.now places k }
    ensures { writers.new ≡ note_message (network_in state.now) writers.old (get_or (messages_on state.now k) i (commit 0)) }
{
    let name = lines::name(network_lines::line_at(state, k), i);
    if name < network_records::record_count(state) {
        network_noting::note_record(writers, state, name, EARLIEST, places);
    }
}
