// The places of the sites in the order that a placement in words of a lent slice gives, and whether its lines form a cycle.
#![tactic(auto)]

ghost use Rattle.std.specs.Prelude.{◌≡◌, min, ◌≤◌, ◌<◌, eqb};
ghost use Rattle.std.specs.List.{find, range_with_len};
ghost use Rattle.causes.specs.Refusals.{number_of};
ghost use Rattle.limits.specs.Limits.{sites_most, items_most};
ghost use Rattle.lists.specs.Lists.{any};
ghost use Rattle.placement.specs.Masks.{Names};
ghost use Rattle.placement.specs.InWords.{items_in};
ghost use Rattle.placement.specs.Places.{places_of, placement_number};
ghost use Rattle.placement_order.specs.Tables.{places_by, is_reached, Without, is_free, filled};

use causes::{Refusal, refuse_if};
use limits::SITES_WIDE;
use placement::bit;
use placement_lines::lines;

// The place of a site that is not placed.
const NONE: u8 = 8;

// The bits of the lines from a site to itself or to one of a lower number.
const DOWN: u64 = 0xFF7F3F1F0F070301;

// The place of each site; 8 for one that cannot be placed. More than 64 items count as 64.
#[tactic(auto, using(crate::proofs::Lines::places_ordered))]
pub fn places(w: &[u32], items: usize) -> [u8; SITES_WIDE]
    ensures { result ≡ places_of (items_in (min items items_most) w.now) }
{
    by_lines(lines(w, items))
}

// The same by the bits of all lines, of whatever items. Where every line goes to a higher number the places are the numbers, and nothing is worked out.
#[tactic(auto, using(crate::proofs::Upward::numbers_by))]
pub fn by_lines(given: u64) -> [u8; SITES_WIDE]
    ensures { result ≡ places_by given }
{
    if given & DOWN == 0 {
        return place_table::numbers();
    }
    ordered(given)
}

// Whether set-up refuses a placement, and for what: the first faulty item, then that the lines form a cycle.
pub fn number(sites: u32, w: &[u32], items: usize) -> Result<(), Refusal>
    ensures { number_of result ≡ placement_number sites (items_in (min items items_most) w.now) }
{
    placement::number(sites, w, items)?;
    refuse_if(is_cyclic(places(w, items)), Refusal::Cycle)
}

// Whether some site cannot be placed: then the lines form a cycle.
pub fn is_cyclic(places: [u8; SITES_WIDE]) -> bool
    ensures { result ≡ any (λ q. eqb q sites_most) places }
{
    places.contains(&NONE)
}

// The places in the order that lines give: again and again the lowest-numbered site whose parents are all placed gets the next. Once no line of those that are left goes down, these go by their numbers.
fn ordered(lines: u64) -> [u8; SITES_WIDE]
    ensures { result ≡ places_by lines }
{
    let mut table = [NONE; SITES_WIDE];
    let mut left = lines;
    for count in 0..NONE {
        if left & DOWN == 0 {
            return by_number(table, count);
        }
        let Some(c) = next(table, reached(left)) else {
            return table;
        };
        table[c] = count;
        left = without(left, c);
    }
    table
}

// The table where the sites that are not placed get the next places by their numbers.
fn by_number(given: [u8; SITES_WIDE], from: u8) -> [u8; SITES_WIDE]
    requires { from ≤ sites_most }
    ensures { result ≡ filled from given }
{
    let mut table = given;
    let mut count = from;
    for k in 0..SITES_WIDE {
        if table[k] == NONE {
            table[k] = count;
            count += 1;
        }
    }
    table
}

// The lowest-numbered site that is not placed and that the mask of those that wait does not name.
fn next(table: [u8; SITES_WIDE], waiting: u32) -> Option<usize>
    ensures { result ≡ find (is_free table waiting) (range_with_len 0 sites_most) }
{
    (0..SITES_WIDE).find(|c| table[*c] == NONE && !bit(waiting, *c as u32))
}

// The mask of the sites that some line goes to: the rows of all lines, one upon another.
#[tactic(auto, using(crate::proofs::Tables::rows_upon))]
fn reached(lines: u64) -> u32
    ensures { Names sites_most result (is_reached lines) }
{
    let four = lines | (lines >> 32);
    let two = four | (four >> 16);
    let one = two | (two >> 8);
    (one % 256) as u32
}

// The lines but those from site c.
#[tactic(auto, using(crate::proofs::Tables::row_dropped))]
fn without(lines: u64, c: usize) -> u64
    requires { c < sites_most }
    ensures { Without lines c result }
{
    lines ^ (lines & (255u64 << (8 * c)))
}
