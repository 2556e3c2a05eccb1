// Whether bytes start with a record: its size, its counts, its fields.
#![tactic(auto)]

ghost use Rattle.std.specs.Prelude.{◌≡◌, cond, ◌≤◌, length, get_or, drop};
ghost use Rattle.timestamp_order.specs.Order.{rank};
ghost use Rattle.history_file.specs.Reading.{size_read, record_valid, counts_fit};
ghost use Rattle.history_validity.specs.Asked.{Whole};
ghost use Rattle.history_validity.specs.Fits.{fields_fit};

use limits::SITES_WIDE;

// A count in one byte.
pub fn count(b: &[u8], i: usize) -> usize
    ensures { (result ≡ get_or b.now i 0) × (result ≤ 255) }
{
    wide(history_numbers::byte_at(b, i))
}

fn wide(x: u8) -> usize
    ensures { (result ≡ x) × (result ≤ 255) }
{
    x as usize
}

// How many bytes the record at the front says it has.
pub fn size(b: &[u8]) -> usize
    ensures { (result ≡ size_read b.now) × (result ≤ 4088) }
{
    8 + 8 * count(b, 1) + 8 * count(b, 2)
}

// 1 to 8 tuples and 1 to 8 operations.
fn counts_fit(tuples: usize, ops: usize) -> bool
    ensures { result ≡ counts_fit tuples ops }
{
    if tuples < 1 {
        return false;
    }
    if 8 < tuples {
        return false;
    }
    if ops < 1 {
        return false;
    }
    ops <= 8
}

// Whether every field of a record of t tuples and o operations is in range, and every 00 byte 0.
fn fields_fit(
    b: &[u8],
    t: usize,
    o: usize,
    sites: u32,
    items: u32,
    places: [u8; SITES_WIDE],
) -> bool
    requires { Whole b.now t o }
    ensures { result ≡ fields_fit (rank places) sites items b.now }
{
    let a = 8 + 8 * t;
    let site = history_numbers::wide(b[0]);
    if b[3] != 0 {
        return false;
    }
    if sites <= site {
        return false;
    }
    if !history_tuple_validity::tuples_fit(&b[8..], t, site, places) {
        return false;
    }
    history_operation_validity::operations_fit(&b[a..], o, items)
}

// Whether the bytes start with a whole record of a group of that many sites and items, its sites at these places.
pub fn valid(b: &[u8], sites: u32, items: u32, places: [u8; SITES_WIDE]) -> bool
    ensures { result ≡ record_valid (rank places) sites items b.now }
{
    if b.len() < 8 {
        return false;
    }
    let t = wide(b[1]);
    let o = wide(b[2]);
    if b.len() < 8 + 8 * t + 8 * o {
        return false;
    }
    if !counts_fit(t, o) {
        return false;
    }
    fields_fit(b, t, o, sites, items, places)
}

// The size of the record that starts at a place, and 0 where there is none.
pub fn step(b: &[u8], at: usize, sites: u32, items: u32, places: [u8; SITES_WIDE]) -> usize
    requires { at ≤ length b.now }
    ensures { result ≡ cond (record_valid (rank places) sites items (drop at b.now)) (size_read (drop at b.now)) 0 }
{
    if valid(&b[at..], sites, items, places) {
        return size(&b[at..]);
    }
    0
}
