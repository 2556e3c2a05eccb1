// Set-up: a new network, where no cause refuses it.
#![tactic(auto)]

ghost use Rattle.std.specs.Prelude.{◌≡◌, [], ◌∷◌, ◌++◌, ◌+◌, ◌<◌, length};
ghost use Rattle.causes.specs.Refusals.{number_of};
ghost use Rattle.limits.specs.Limits.{items_most};
ghost use Rattle.placement.specs.InWords.{items_in};
ghost use Rattle.protocol.specs.Network.{no_stamp};
ghost use Rattle.protocol.specs.Steps.{items_of};
ghost use Rattle.protocol.specs.Calls.{set_up as setUpCall};
ghost use Rattle.network_layout.specs.Layout.{state_size};
ghost use Rattle.network_layout.specs.Promises.{Performed};
ghost use Rattle.network_set_up.specs.SetUp.{Paired};

use causes::Refusal;
use network_layout::WORDS;

// Set-up: a new network, whatever the state was before.
pub fn set_up(
    state: &mut [u32; WORDS],
    sites: u32,
    items: u32,
    primaries: &[u32],
    masks: &[u8],
) -> Result<(), Refusal>
    ensures { Performed (setUpCall sites items primaries.now masks.now) state.old state.new (number_of result) 0 no_stamp [] }
{
    set_up_in(state, sites, items, primaries, masks)
}

// It tests the causes in the order of their numbers: the sites, the lists, then item by item, then the lines for a cycle.
fn set_up_in(
    state: &mut [u32],
    sites: u32,
    items: u32,
    primaries: &[u32],
    masks: &[u8],
) -> Result<(), Refusal>
    requires { length state.old ≡ state_size }
    ensures { Performed (setUpCall sites items primaries.now masks.now) state.old state.new (number_of result) 0 no_stamp [] }
{
    network_set_up_counts::counts_number(sites, items, primaries.len(), masks.len())?;
    let placed = item_words(primaries, masks);
    placement_order::number(sites, &placed, primaries.len())?;
    network_new::lay_out(state, sites, items, &placed);
    Ok(())
}

// ---- the items
// Their words, two each.
fn item_words(primaries: &[u32], masks: &[u8]) -> [u32; 128]
    requires { Paired primaries.now masks.now }
    ensures { items_in (length primaries.now) result ≡ items_of primaries.now masks.now }
{
    let mut out = [0u32; 128];
    let mut k = 0;
    while k < primaries.len() {
        item_one(&mut out, k, primaries[k], wide8(masks[k]));
        k += 1;
    }
    out
}

// Item k after the k before it.
fn item_one(out: &mut [u32; 128], k: usize, primary: u32, mask: u32)
    requires { k < items_most }
    ensures { items_in (k + 1) out.new ≡ items_in k out.old ++ (record { primary = primary; mask = mask } ∷ []) }
{
    words::lay(out, 2 * k, &[primary, mask]);
}

// A mask as a word.
fn wide8(x: u8) -> u32
    ensures { result ≡ x }
{
    x as u32
}
