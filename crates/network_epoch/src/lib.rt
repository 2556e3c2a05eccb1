// Epoch: a site without parents sets the epoch of its timestamp.
#![tactic(auto)]

ghost use Rattle.std.specs.Prelude.{◌≡◌, [], length};
ghost use Rattle.causes.specs.Refusals.{number_of};
ghost use Rattle.network_layout.specs.Layout.{state_size};
ghost use Rattle.protocol.specs.Network.{no_stamp};
ghost use Rattle.protocol.specs.Steps.{epoch_number};
ghost use Rattle.protocol.specs.Calls.{epoch as epochCall};
ghost use Rattle.network_layout.specs.InWords.{network_in};
ghost use Rattle.network_layout.specs.At.{AtNetwork};
ghost use Rattle.network_layout.specs.Promises.{Performed};

use causes::Refusal;
use network_layout::WORDS;

// A new epoch at a site.
pub fn epoch(state: &mut [u32; WORDS], site: u32, to: u32) -> Result<(), Refusal>
    ensures { Performed (epochCall site to) state.old state.new (number_of result) 0 no_stamp [] }
{
    epoch_in(state, site, to)
}

fn epoch_in(state: &mut [u32], site: u32, to: u32) -> Result<(), Refusal>
    requires { length state.old ≡ state_size }
    ensures { Performed (epochCall site to) state.old state.new (number_of result) 0 no_stamp [] }
{
    if !network_shape::shaped(state) {
        return Err(Refusal::NoState);
    }
    epoch_on(state, site, to)
}

// The same on the words of a network.
pub fn epoch_on(state: &mut [u32], site: u32, to: u32) -> Result<(), Refusal>
    requires { AtNetwork state.old }
    ensures { Performed (epochCall site to) state.old state.new (number_of result) 0 no_stamp [] }
{
    epoch_number(state, site, to)?;
    network_sites::site_epoch(state, words::wide(site), to);
    Ok(())
}

// The first cause that refuses the step.
fn epoch_number(state: &[u32], site: u32, to: u32) -> Result<(), Refusal>
    requires { AtNetwork state.now }
    ensures { number_of result ≡ epoch_number (network_in state.now) site to }
{
    if !network_placement::is_site(state, site) {
        return Err(Refusal::NoSuchSite);
    }
    if network_placement::has_parents(state, site) {
        return Err(Refusal::HasParents);
    }
    let t = network_sites::site_stamp(state, words::wide(site));
    let present = t.epoch;
    if to <= present.0 {
        return Err(Refusal::EpochNotAbove);
    }
    Ok(())
}
