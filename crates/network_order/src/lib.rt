// The order of a network's sites. It only looks.
#![tactic(auto)]

ghost use Rattle.std.specs.Prelude.{◌≡◌, length};
ghost use Rattle.network_layout.specs.Layout.{state_size};
ghost use Rattle.network_order.specs.Order.{PlacesRead};

use causes::Refusal;
use limits::SITES_WIDE;
use network_layout::WORDS;

// The place of each site, by which timestamps are compared; of a number that is no site that number.
pub fn places(state: &[u32; WORDS]) -> Result<[u8; SITES_WIDE], Refusal>
    ensures { PlacesRead state.now result }
{
    places_in(state)
}

fn places_in(state: &[u32]) -> Result<[u8; SITES_WIDE], Refusal>
    requires { length state.now ≡ state_size }
    ensures { PlacesRead state.now result }
{
    if !network_shape::shaped(state) {
        return Err(Refusal::NoState);
    }
    Ok(network_placement::places(state))
}
