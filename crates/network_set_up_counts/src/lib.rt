// Whether a set-up's counts are refused.
#![tactic(auto)]

ghost use Rattle.std.specs.Prelude.{◌≡◌};
ghost use Rattle.causes.specs.Refusals.{number_of};
ghost use Rattle.lists.specs.Numbers.{outside as outsideOf};
ghost use Rattle.protocol.specs.Steps.{wrong_items};
ghost use Rattle.network_set_up_counts.specs.Counts.{counts_number};

use causes::{Refusal, refuse_if};

// Whether the counts are refused, and for what: the sites', then the items'.
pub fn counts_number(sites: u32, items: u32, primaries: usize, masks: usize) -> Result<(), Refusal>
    ensures { number_of result ≡ counts_number sites items primaries masks }
{
    refuse_if(outside(1, limits::SITES, sites), Refusal::WrongSites)?;
    refuse_if(items_wrong(items, primaries, masks), Refusal::WrongItems)
}

fn outside(low: u32, high: u32, k: u32) -> bool
    ensures { result ≡ outsideOf low high k }
{
    k < low || high < k
}

// Whether the number of items is out of bounds or not that of the primaries, or of the masks.
fn items_wrong(items: u32, primaries: usize, masks: usize) -> bool
    ensures { result ≡ wrong_items items primaries masks }
{
    if outside(1, limits::ITEMS, items) {
        return true;
    }
    let n = items as usize;
    primaries != n || masks != n
}
