// A record of the history in words of a lent slice: written, read, and tested for shape.
#![tactic(auto)]

ghost use Rattle.std.specs.Prelude.{◌≡◌, ◌&&◌, ◌≤◌, length, take, eqb};
ghost use Rattle.timestamp.specs.Value.{stamp_of, PlainValue};
ghost use Rattle.timestamp_order.specs.Order.{rank};
ghost use Rattle.site_operations.specs.Operations.{touches};
ghost use Rattle.site_operations.specs.InWords.{OpsLaid};
ghost use Rattle.limits.specs.Limits.{ops_most};
ghost use Rattle.records.specs.Records.{record_fits};
ghost use Rattle.records.specs.InWords.{record_in, record_range, record_size, Written};

use limits::{OPERATIONS_WIDE, SITES_WIDE};
use record_codes::{CODES, STAMP, VALUES};
use timestamp::Timestamp;

// Where a record has its site and the number of its operations; and its size.
const SITE: usize = 0;

const COUNT: usize = SITE + 1;

pub const WORDS: usize = VALUES + OPERATIONS_WIDE;

// A record written: its site, its operations, as many as `n` says, and its timestamp.
pub fn write(w: &mut [u32], site: u32, n: u32, t: Timestamp, ops: &[u32])
    ensures { Written w.old w.new site n (stamp_of t) ops.now }
{
    if w.len() != WORDS || ops.len() != site_operations::OPERATIONS {
        return;
    }
    w[SITE] = site;
    w[COUNT] = n;
    timestamp_words::write_to(t, &mut w[STAMP..CODES]);
    record_packing::pack(&mut w[CODES..WORDS], ops);
}

// The site of a record.
#[tactic(auto, unfolding(crate::specs::InWords::record_in))]
pub fn site(w: &[u32]) -> u32
    ensures { result ≡ (record_in w.now).site }
{
    words::word(w, SITE)
}

// The timestamp of a record; of a slice of another size, what its words from the third on say.
pub fn stamp(w: &[u32]) -> Timestamp
    ensures { PlainValue (record_in w.now).stamp result }
{
    if w.len() < STAMP {
        return timestamp_words::from_words(&[0u32]);
    }
    timestamp_words::from_words(&w[STAMP..])
}

// How many operations a record has: eight at most.
#[tactic(auto, using(crate::proofs::Laws::count_law))]
pub fn count(w: &[u32]) -> usize
    ensures { (result ≡ length (record_in w.now).ops) × (result ≤ ops_most) }
{
    (words::word(w, COUNT) as usize).min(OPERATIONS_WIDE)
}

// The operations of a record, three words each, 0 past the last.
pub fn operations(w: &[u32]) -> [u32; site_operations::OPERATIONS]
    ensures { OpsLaid (length (record_in w.now).ops) (record_in w.now).ops result }
{
    let mut out = [0u32; site_operations::OPERATIONS];
    for i in 0..count(w) {
        record_packing::unpack(&mut out, w, i);
    }
    out
}

// Whether an operation of a record writes the item.
pub fn writes(w: &[u32], item: u32) -> bool
    ensures { result ≡ touches item (record_in w.now).ops }
{
    writes_before(w, item, OPERATIONS_WIDE)
}

// Whether one before operation `a` does.
pub fn writes_before(w: &[u32], item: u32, a: usize) -> bool
    ensures { result ≡ touches item (take a (record_in w.now).ops) }
{
    (0..count_before(w, a)).any(|i| record_packing::is_write_of(w, i, item))
}

// How many operations a record has before operation `a`.
fn count_before(w: &[u32], a: usize) -> usize
    ensures { (result ≡ length (take a (record_in w.now).ops)) × (result ≤ ops_most) }
{
    count(w).min(a)
}

// Whether the words are those of a record of a group of that many sites and items, the sites at these places.
pub fn shaped(w: &[u32], sites: u32, items: u32, places: [u8; SITES_WIDE]) -> bool
    ensures { result ≡ (eqb (length w.now) record_size && (record_range w.now && record_fits (rank places) sites items (record_in w.now))) }
{
    let site = words::word(w, SITE);
    let n = words::word(w, COUNT);
    if w.len() != WORDS || n == 0 || limits::OPERATIONS < n || sites <= site {
        return false;
    }
    timestamp_words::made_by(&w[STAMP..CODES], site, places)
        && record_fit::fit(w, n as usize, items)
}
