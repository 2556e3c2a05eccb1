// Whether a state's counts are in range.
#![tactic(auto)]

ghost use Rattle.std.specs.Prelude.{◌≡◌};
ghost use Rattle.network_counts.specs.Counts.{counts_fit};

use limits::{ITEMS, RECORDS, SITES};

// 1 to 8 sites, 1 to 64 items, at most 256 records.
pub fn counts_fit(sites: u32, items: u32, made: u32) -> bool
    ensures { result ≡ counts_fit sites items made }
{
    (1..=SITES).contains(&sites) && (1..=ITEMS).contains(&items) && made <= RECORDS
}
