// Whether a state's words are those of a network. It looks only at what is held, and passes over empty lines at once.
#![tactic(auto)]

ghost use Rattle.std.specs.Prelude.{◌≡◌, ◌+◌, ◌≤◌, length};
ghost use Rattle.words.specs.Words.{part, chunks};
ghost use Rattle.lists.specs.Lists.{every, every_from};
ghost use Rattle.lists.specs.Numbers.{number_if};
ghost use Rattle.causes.specs.Refusals.{number_of};
ghost use Rattle.limits.specs.Limits.{sites_most, records_most};
ghost use Rattle.timestamp_order.specs.Order.{rank};
ghost use Rattle.timestamp_words.specs.InWords.{stamp_shaped};
ghost use Rattle.site.specs.InWords.{site_size};
ghost use Rattle.lines.specs.InWords.{line_size};
ghost use Rattle.records.specs.InWords.{record_size};
ghost use Rattle.protocol.specs.Network.{lines_most};
ghost use Rattle.protocol.specs.Steps.{no_such_site};
ghost use Rattle.network_layout.specs.Layout.{state_size};
ghost use Rattle.network_layout.specs.InWords.{shaped as shapedWords, number_in};
ghost use Rattle.network_line_shape.specs.LineTests.{history_in, Places};
ghost use Rattle.network_shape.specs.Tested.{record_test, is_zero_word, group_shaped, sites_shaped, history_shaped, lines_shaped, base_shaped, ranked_shaped, Counted, Ranked, LinesAsked, LinesTested, idle, Skipped};

use causes::Refusal;
use limits::{RECORDS_WIDE, SITES_WIDE};
use network_layout::{
    BASE, FOLDED, HISTORY, ITEM_COUNT, LINE, LINES, LINES_MOST, RECORD, RECORD_COUNT, SITE,
    SITE_COUNT, SITES,
};
use network_line_shape::{chunk, line_shaped};

// How many words the lines and the history take.
const LINES_WORDS: usize = LINES_MOST * LINE;

const HISTORY_WORDS: usize = RECORDS_WIDE * RECORD;

// Refused where the words are not those of a network, or where it has no such site.
pub fn site_number(state: &[u32], site: u32) -> Result<(), Refusal>
    requires { length state.now ≡ state_size }
    ensures { number_of result ≡ number_in state.now (λ n. number_if (no_such_site n site) 7) }
{
    if !shaped(state) {
        return Err(Refusal::NoState);
    }
    if network_placement::is_site(state, site) {
        return Ok(());
    }
    Err(Refusal::NoSuchSite)
}

// The counts and the items first; then what the lines, and the places of the sites that these give, are asked for.
pub fn shaped(state: &[u32]) -> bool
    requires { length state.now ≡ state_size }
    ensures { result ≡ shapedWords state.now }
{
    if !group_fits(state) {
        return false;
    }
    let items = words::wide(state[ITEM_COUNT]);
    let given = placement_lines::lines(network_placement::placed(state), items);
    let places = placement_order::by_lines(given);
    if placement_order::is_cyclic(places) {
        return false;
    }
    ranked_fits(state, given, places)
}

// Whether the sites, the history, the lines and the base fit, by the bits of all lines and the places of the sites.
fn ranked_fits(state: &[u32], given: u64, places: [u8; SITES_WIDE]) -> bool
    requires { Ranked state.now given places }
    ensures { result ≡ ranked_shaped (rank places) state.now }
{
    if !sites_fit(state, places) {
        return false;
    }
    if !history_fits(state, places) {
        return false;
    }
    if !lines_fit(state, given, places) {
        return false;
    }
    base_fits(state)
}

// ---- the counts and the placement
fn group_fits(state: &[u32]) -> bool
    requires { length state.now ≡ state_size }
    ensures { result ≡ group_shaped state.now }
{
    let sites = state[SITE_COUNT];
    let items = state[ITEM_COUNT];
    if !network_counts::counts_fit(sites, items, state[RECORD_COUNT]) {
        return false;
    }
    placement::number(sites, network_placement::placed(state), items as usize).is_ok()
}

// ---- the sites
fn sites_fit(state: &[u32], places: [u8; SITES_WIDE]) -> bool
    requires { Counted state.now }
    ensures { result ≡ sites_shaped (rank places) state.now }
{
    sites_shaped(&state[SITES..LINES], state[SITE_COUNT], places)
}

// Whether each of the first n sites has a timestamp of its own.
fn sites_shaped(w: &[u32], n: u32, places: [u8; SITES_WIDE]) -> bool
    requires { Places w.now site_size sites_most n }
    ensures { result ≡ every_from (stamp_shaped (rank places)) 0 (chunks site_size n w.now) }
{
    let mut i = 0;
    while i < n {
        if !timestamp_words::made_by(chunk(w, words::wide(i), SITE), i, places) {
            return false;
        }
        i += 1;
    }
    true
}

// ---- the history
fn history_fits(state: &[u32], places: [u8; SITES_WIDE]) -> bool
    requires { Counted state.now }
    ensures { result ≡ history_shaped (rank places) state.now }
{
    let made = words::wide(state[RECORD_COUNT]);
    records_shaped(
        words_at(state, HISTORY, HISTORY_WORDS),
        made,
        state[SITE_COUNT],
        state[ITEM_COUNT],
        places,
    )
}

// Whether each of the records made is one of a group of that many sites and items.
fn records_shaped(w: &[u32], made: usize, sites: u32, items: u32, places: [u8; SITES_WIDE]) -> bool
    requires { Places w.now record_size records_most made }
    ensures { result ≡ every (record_test (rank places) sites items) (chunks record_size made w.now) }
{
    let mut k = 0;
    while k < made {
        if !records::shaped(chunk(w, k, RECORD), sites, items, places) {
            return false;
        }
        k += 1;
    }
    true
}

// ---- the lines
fn lines_fit(state: &[u32], given: u64, places: [u8; SITES_WIDE]) -> bool
    requires { Ranked state.now given places }
    ensures { result ≡ lines_shaped state.now }
{
    lines_shaped(
        words_at(state, LINES, LINES_WORDS),
        given,
        places,
        words_at(state, HISTORY, HISTORY_WORDS),
        state[RECORD_COUNT],
    )
}

// Whether each line fits the placement and the history.
fn lines_shaped(w: &[u32], given: u64, places: [u8; SITES_WIDE], kept: &[u32], made: u32) -> bool
    requires { LinesAsked w.now kept.now made }
    ensures { LinesTested given places (history_in kept.now made) w.now result }
{
    let mut k = next_used(w, 0);
    while k < LINES_MOST {
        if !line_shaped(chunk(w, k, LINE), k, given, places, kept, made) {
            return false;
        }
        k = next_used(w, k + 1);
    }
    true
}

// The first line from number k on that is not idle; 64 where there is none.
fn next_used(w: &[u32], k: usize) -> usize
    requires { Places w.now line_size lines_most k }
    ensures { Skipped w.now k result }
{
    let mut i = k;
    while i < LINES_MOST {
        if !is_idle(chunk(w, i, LINE)) {
            return i;
        }
        i += 1;
    }
    i
}

// Whether a line holds nothing, and says that nothing has arrived.
fn is_idle(l: &[u32]) -> bool
    ensures { result ≡ idle l.now }
{
    if lines::is_empty(l) {
        return lines::arrived(l) == 0;
    }
    false
}

// ---- the base
// Whether commits have been removed, or else every base value is 0.
fn base_fits(state: &[u32]) -> bool
    requires { Counted state.now }
    ensures { result ≡ base_shaped state.now }
{
    if words::word(state, FOLDED) != 0 {
        return true;
    }
    all_zero(words_at(state, BASE, words::wide(state[ITEM_COUNT])))
}

// Whether every word is 0.
fn all_zero(w: &[u32]) -> bool
    ensures { result ≡ every is_zero_word w.now }
{
    let mut i = 0;
    while i < w.len() {
        if w[i] != 0 {
            return false;
        }
        i += 1;
    }
    true
}

// ---- a part of the state
// So many words from a place on, by numbers that the function is not told: bounds that are written out cost a proof the more, the larger they are.
fn words_at(state: &[u32], at: usize, n: usize) -> &[u32]
    requires { at + n ≤ length state.now }
    ensures { result.now ≡ part state.now at n }
{
    let e = at + n;
    &state[at..e]
}
