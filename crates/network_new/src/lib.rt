// The words of a new network: its counts, its placement, its sites at their start, its lines empty and no base value but 0. What else means nothing stays as it was.
#![tactic(auto)]

ghost use Rattle.std.specs.Prelude.{◌+◌};
ghost use Rattle.placement.specs.InWords.{items_in};
ghost use Rattle.network_layout.specs.Layout.{sites_size};
ghost use Rattle.network_new_lines.specs.Cleared.{Replaced};
ghost use Rattle.network_new.specs.New.{Begun, Started, LayingOut, Starting, StartingAt, StartingNext};

use limits::SITES_WIDE;
use network_layout::{
    FOLDED, ITEM_COUNT, ITEMS, LINES, RECORD_COUNT, SITE, SITE_COUNT, SITES, WORDS,
};

// How many words the sites take.
const SITES_WORDS: usize = SITES_WIDE * SITE;

// How many words the base takes.
const BASE_WORDS: usize = WORDS - FOLDED;

// The words of a new network of these sites and items.
pub fn lay_out(state: &mut [u32], sites: u32, items: u32, placed: &[u32])
    requires { LayingOut state.old placed.now sites items }
    ensures { Begun state.new sites (items_in items placed.now) }
{
    state[SITE_COUNT] = sites;
    state[ITEM_COUNT] = items;
    state[RECORD_COUNT] = 0;
    words::lay(state, ITEMS, placed);
    start_at(state, SITES, sites);
    network_new_lines::clear_at(state, LINES);
    let zeros = [0u32; BASE_WORDS];
    words::lay(state, FOLDED, &zeros);
}

// ---- the sites
// The first n of those whose words start at a place, at their start.
fn start_at(state: &mut [u32], at: usize, n: u32)
    requires { StartingAt state.old at n }
    ensures { Replaced at sites_size (λ w. Started w n) state.old state.new }
{
    start_sites(&mut state[at..at + SITES_WORDS], n);
}

// The first n sites at their start.
fn start_sites(w: &mut [u32], n: u32)
    requires { Starting w.old n }
    ensures { Started w.new n }
{
    for i in 0..n {
        start_one(w, i);
    }
}

// Site i after the i before it.
fn start_one(w: &mut [u32], i: u32)
    requires { StartingNext w.old i }
    ensures { Started w.new (i + 1) }
{
    let mut words = [0u32; SITE];
    words[1] = 1;
    words[2] = i;
    words::lay(w, i as usize * SITE, &words);
}
