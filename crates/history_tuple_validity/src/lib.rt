// Whether bytes are those of the tuples of a timestamp that a site made.
#![tactic(auto)]

ghost use Rattle.std.specs.Prelude.{◌≡◌, map, ◌*◌, ◌≤◌, length, get_or};
ghost use Rattle.words.specs.Words.{chunks};
ghost use Rattle.lists.specs.Lists.{every};
ghost use Rattle.timestamp_order.specs.Order.{rank};
ghost use Rattle.timestamp_order.specs.Made.{rising as risingOf, made_by};
ghost use Rattle.history_file.specs.Bytes.{unit_size, padded as paddedOf};
ghost use Rattle.history_file.specs.Reading.{pair_read};
ghost use Rattle.history_tuple_validity.specs.Asked.{Padding};
ghost use Rattle.history_tuple_validity.specs.Fits.{tuples_fit};

use limits::SITES_WIDE;

// Whether of each of n eights of bytes those from number `from` up to the fourth are 0.
fn padded(b: &[u8], n: usize, from: usize) -> bool
    requires { Padding b.now n from }
    ensures { result ≡ every (paddedOf from) (chunks unit_size n b.now) }
{
    let mut i = 0usize;
    while i < n {
        let a = i * 8 + from;
        let e = i * 8 + 4;
        if !history_numbers::zeros(&b[a..e]) {
            return false;
        }
        i += 1;
    }
    true
}

// The place of the site at a byte, which past the end is site 0.
fn place_at(b: &[u8], at: usize, places: [u8; SITES_WIDE]) -> u32
    ensures { result ≡ rank places (get_or b.now at 0) }
{
    place_table::place(places, history_numbers::field(b, at))
}

// Whether the places of n tuples' sites rise.
fn rising(b: &[u8], n: usize, places: [u8; SITES_WIDE]) -> bool
    requires { n * unit_size ≤ length b.now }
    ensures { result ≡ risingOf (rank places) (map pair_read (chunks unit_size n b.now)) }
{
    let mut last = place_at(b, 0, places);
    let mut i = 1usize;
    while i < n {
        let next = place_at(b, i * 8, places);
        if next <= last {
            return false;
        }
        last = next;
        i += 1;
    }
    true
}

// Whether the site made a timestamp of these n tuples: the places of the sites rise, and the last site is its own.
fn made_by(b: &[u8], n: usize, site: u32, places: [u8; SITES_WIDE]) -> bool
    requires { n * unit_size ≤ length b.now }
    ensures { result ≡ made_by (rank places) site (record { epoch = 0; tuples = map pair_read (chunks unit_size n b.now) }) }
{
    if n == 0 {
        return false;
    }
    if !rising(b, n, places) {
        return false;
    }
    history_numbers::wide(b[n * 8 - 8]) == site
}

// Whether n tuples are those of a timestamp that the site made, their 00 bytes 0.
pub fn tuples_fit(b: &[u8], n: usize, site: u32, places: [u8; SITES_WIDE]) -> bool
    requires { n * unit_size ≤ length b.now }
    ensures { result ≡ tuples_fit (rank places) site n b.now }
{
    if !padded(b, n, 1) {
        return false;
    }
    made_by(b, n, site, places)
}
