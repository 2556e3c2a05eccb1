// A timestamp in words of a lent slice: its epoch, how many tuples it has, and eight places of site and count.
#![tactic(auto)]

ghost use Rattle.std.specs.Prelude.{◌≡◌, map, ◌<◌, ◌≤◌, length, take};
ghost use Rattle.words.specs.Words.{overlaid};
ghost use Rattle.timestamp.specs.Value.{stamp_of, pair_of, PlainValue};
ghost use Rattle.timestamp_order.specs.Timestamp.{room};
ghost use Rattle.timestamp_order.specs.Order.{rank};
ghost use Rattle.timestamp_order.specs.Made.{rising as risingOf};
ghost use Rattle.timestamp_words.specs.InWords.{stamp_shaped, stamp_in, stamp_words, pair_at, pairs_at, tuple_in, pairs_start, pair_place};

use limits::SITES_WIDE;
use timestamp::{Count, Epoch, Timestamp, Tuple};

// Where the words have the epoch, the number of tuples and the tuples, of two words each; and their size.
const EPOCH: usize = 0;

const COUNT: usize = EPOCH + 1;

const TUPLES: usize = COUNT + 1;

const TUPLE: usize = 2;

pub const WORDS: usize = TUPLES + SITES_WIDE * TUPLE;

// The timestamp that words stand for, plain. Words past the end count as 0, and more than eight tuples as eight.
pub fn from_words(w: &[u32]) -> Timestamp
    ensures { PlainValue (stamp_in w.now) result }
{
    let t = Timestamp {
        epoch: epoch_in(w),
        len: words::word(w, COUNT) as usize,
        tuples: tuples_in(w),
    };
    t.plain()
}

// The epoch of a timestamp's words.
pub fn epoch_in(w: &[u32]) -> Epoch
    ensures { result.0 ≡ (stamp_in w.now).epoch }
{
    Epoch(words::word(w, EPOCH))
}

// How many tuples they have: eight at most.
pub fn size_in(w: &[u32]) -> usize
    ensures { (result ≡ length (stamp_in w.now).tuples) × (result ≤ room) }
{
    (words::word(w, COUNT) as usize).min(SITES_WIDE)
}

// What their place i has, whether a tuple of theirs or not; site 0 and count 0 past the eighth.
pub fn tuple_in(w: &[u32], i: usize) -> Tuple
    ensures { pair_of result ≡ tuple_in w.now i }
{
    if SITES_WIDE <= i {
        return Tuple::default();
    }
    Tuple {
        site: site_in(w, i),
        count: Count(words::word(w, TUPLES + i * TUPLE + 1)),
    }
}

// Whether the words are those of a timestamp that the site made: the places of the sites rise, and the last site is its own.
pub fn made_by(w: &[u32], site: u32, places: [u8; SITES_WIDE]) -> bool
    ensures { result ≡ stamp_shaped (rank places) site w.now }
{
    let n = words::word(w, COUNT) as usize;
    if n == 0 || SITES_WIDE < n {
        return false;
    }
    rising(w, n, places) && site_in(w, n - 1) == site
}

// Whether the places of the first n tuples' sites rise.
fn rising(w: &[u32], n: usize, places: [u8; SITES_WIDE]) -> bool
    requires { n ≤ room }
    ensures { result ≡ risingOf (rank places) (take n (pairs_at w.now pairs_start room)) }
{
    let mut last = place_in(w, 0, places);
    for i in 1..n {
        let next = place_in(w, i, places);
        if next <= last {
            return false;
        }
        last = next;
    }
    true
}

// The place of the site of tuple i.
fn place_in(w: &[u32], i: usize, places: [u8; SITES_WIDE]) -> u32
    requires { i < room }
    ensures { result ≡ rank places (pair_at w.now (pair_place i)).site }
{
    place_table::place(places, site_in(w, i))
}

// The words of a timestamp; the places past its last tuple are 0. Not by `from_fn`: word by word it takes five times as long (docs/LOOK-BACK.md).
pub fn to_words(t: Timestamp) -> [u32; WORDS]
    ensures { (result ≡ stamp_words (stamp_of t)) × (length (stamp_of t).tuples ≤ room) }
{
    let a = t.tuple(0);
    let b = t.tuple(1);
    let c = t.tuple(2);
    let d = t.tuple(3);
    let e = t.tuple(4);
    let f = t.tuple(5);
    let g = t.tuple(6);
    let h = t.tuple(7);
    [
        t.epoch.0,
        t.size() as u32,
        a.site,
        a.count.0,
        b.site,
        b.count.0,
        c.site,
        c.count.0,
        d.site,
        d.count.0,
        e.site,
        e.count.0,
        f.site,
        f.count.0,
        g.site,
        g.count.0,
        h.site,
        h.count.0,
    ]
}

// The words of a timestamp over the front of a slice, as far as it reaches.
pub fn write_to(t: Timestamp, w: &mut [u32])
    ensures { (w.new ≡ overlaid w.old (stamp_words (stamp_of t))) × (length (stamp_of t).tuples ≤ room) }
{
    let a = to_words(t);
    words::copy(w, &a);
}

// The eight places of a timestamp's words.
fn tuples_in(w: &[u32]) -> [Tuple; SITES_WIDE]
    ensures { map pair_of result ≡ pairs_at w.now pairs_start room }
{
    std::array::from_fn(|i| tuple_in(w, i))
}

// The site of tuple i.
fn site_in(w: &[u32], i: usize) -> u32
    requires { i < room }
    ensures { result ≡ (pair_at w.now (pair_place i)).site }
{
    words::word(w, TUPLES + i * TUPLE)
}
