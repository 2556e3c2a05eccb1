// Whether records fill a part of a file.
#![tactic(auto)]

ghost use Rattle.std.specs.Prelude.{◌≡◌};
ghost use Rattle.timestamp_order.specs.Order.{rank};
ghost use Rattle.history_file.specs.Reading.{records_fill};

use limits::SITES_WIDE;

// Whether n records fill the bytes, those of a group of that many sites and items, its sites at these places.
pub fn records_fill(b: &[u8], n: u32, sites: u32, items: u32, places: [u8; SITES_WIDE]) -> bool
    ensures { result ≡ records_fill (rank places) sites items n b.now }
{
    let mut at = 0usize;
    let mut i = 0u32;
    while i < n {
        let more = history_validity::step(b, at, sites, items, places);
        if more == 0 {
            return false;
        }
        at += more;
        i += 1;
    }
    at == b.len()
}
