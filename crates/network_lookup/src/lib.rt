// What a reader answers where nothing refuses it: the table of a site and the two counts of a line, by number; and values in words.
#![tactic(auto)]

ghost use Rattle.std.specs.Prelude.{◌≡◌, pos, take};
ghost use Rattle.lists.specs.Lists.{padded};
ghost use Rattle.limits.specs.Limits.{items_most};
ghost use Rattle.site_operations.specs.InWords.{table_in};
ghost use Rattle.network_layout.specs.InWords.{network_in};
ghost use Rattle.network_layout.specs.At.{AtSite, HasLine};
ghost use Rattle.network_lookup.specs.Lookup.{table_of, TableAt, LineAt, Values};

use limits::ITEMS_WIDE;
use network_layout::{Lined, Tabled};

// Where a site's words have its table.
const TABLE: usize = timestamp_words::WORDS;

// The values of the items at site i.
pub fn table_at(state: &[u32], i: usize) -> Tabled
    requires { AtSite state.now i }
    ensures { TableAt (table_of i (network_in state.now)) result }
{
    let count = network_placement::item_count(state) as usize;
    let w = network_sites::site_at(state, i);
    Tabled {
        count,
        values: values(&w[TABLE..], count),
    }
}

// The values of the first n words; the places past them are 0.
pub fn values(w: &[u32], n: usize) -> [i32; ITEMS_WIDE]
    requires { Values w.now n }
    ensures { result ≡ padded items_most (pos 0) (take n (table_in w.now)) }
{
    let mut out = [0i32; ITEMS_WIDE];
    let mut i = 0;
    while i < n {
        out[i] = words::value(words::word(w, i));
        i += 1;
    }
    out
}

// Line k.
pub fn line_at(state: &[u32], k: usize) -> Lined
    requires { HasLine state.now k }
    ensures { LineAt (network_in state.now) k result }
{
    Lined {
        held: network_lines::line_held(state, k),
        arrived: network_lines::line_arrived(state, k),
    }
}
