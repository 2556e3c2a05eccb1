// Which message a schedule takes: of the parents' oldest messages the earliest.
#![tactic(auto)]

ghost use Rattle.std.specs.Prelude.{◌≡◌, ◌+◌};
ghost use Rattle.timestamp_words.specs.InWords.{stamp_in};
ghost use Rattle.limits.specs.Limits.{sites_most};
ghost use Rattle.protocol.specs.Steps.{head_stamp};
ghost use Rattle.network_layout.specs.InWords.{network_in};
ghost use Rattle.network_choice.specs.Choice.{Best, Leading, Choosing, ChoosingFrom, Comparing};

use limits::SITES_WIDE;
use timestamp::Timestamp;

// A parent and the timestamp of its oldest message.
#[derive(Clone, Copy)]
pub struct Head {
    pub parent: u32,
    pub stamp: Timestamp,
}

// The parent with the earliest message, at a site whose schedule is not refused; of the timestamps compared its own alone is loaded.
pub fn chosen(state: &[u32], j: u32) -> Head
    requires { Choosing state.now j }
    ensures { Best (network_in state.now) j sites_most result.parent result.stamp }
{
    let mask = network_placement::parents(state, j);
    let places = network_placement::places(state);
    let mut best = limits::SITES;
    for p in 0..limits::SITES {
        best = better(state, mask, p, j, best, places);
    }
    Head {
        parent: best,
        stamp: timestamp_words::from_words(head_words(state, best, j)),
    }
}

// The best of the parents below p, unless p is a parent and its message is earlier.
fn better(state: &[u32], mask: u32, p: u32, j: u32, best: u32, places: [u8; SITES_WIDE]) -> u32
    requires { Comparing state.now mask p j best places }
    ensures { Leading (network_in state.now) j (p + 1) result }
{
    if !placement::bit(mask, p) {
        return best;
    }
    if limits::SITES <= best {
        return p;
    }
    let first = head_words(state, p, j);
    let second = head_words(state, best, j);
    if timestamp_comparison::compare_words(first, second, places).is_earlier() {
        return p;
    }
    best
}

// The words of the timestamp of the oldest message from a parent: in the record that it names, or its own.
fn head_words(state: &[u32], p: u32, j: u32) -> &[u32]
    requires { ChoosingFrom state.now p j }
    ensures { stamp_in result.now ≡ head_stamp (network_in state.now) p j }
{
    let k = network_lines::line_number(p, j);
    let name = network_lines::line_first_name(state, k);
    if name < limits::RECORDS {
        return network_records::stamp_at(state, name as usize);
    }
    network_lines::line_first_stamp(state, k)
}
