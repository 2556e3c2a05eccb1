// Deliver: the oldest message on the way becomes arrived.
#![tactic(auto)]

ghost use Rattle.std.specs.Prelude.{◌≡◌, [], length, leb};
ghost use Rattle.causes.specs.Refusals.{number_of};
ghost use Rattle.network_layout.specs.Layout.{state_size};
ghost use Rattle.protocol.specs.Network.{no_stamp, line_at};
ghost use Rattle.protocol.specs.Steps.{deliver_number};
ghost use Rattle.protocol.specs.Calls.{deliver as deliverCall};
ghost use Rattle.network_layout.specs.InWords.{network_in};
ghost use Rattle.network_layout.specs.At.{AtNetwork, AtPair};
ghost use Rattle.network_layout.specs.Promises.{Performed};

use causes::Refusal;
use network_layout::WORDS;

// Deliver from a parent to a child.
pub fn deliver(state: &mut [u32; WORDS], parent: u32, child: u32) -> Result<(), Refusal>
    ensures { Performed (deliverCall parent child) state.old state.new (number_of result) 0 no_stamp [] }
{
    deliver_in(state, parent, child)
}

fn deliver_in(state: &mut [u32], parent: u32, child: u32) -> Result<(), Refusal>
    requires { length state.old ≡ state_size }
    ensures { Performed (deliverCall parent child) state.old state.new (number_of result) 0 no_stamp [] }
{
    if !network_shape::shaped(state) {
        return Err(Refusal::NoState);
    }
    deliver_on(state, parent, child)
}

// The same on the words of a network.
pub fn deliver_on(state: &mut [u32], parent: u32, child: u32) -> Result<(), Refusal>
    requires { AtNetwork state.old }
    ensures { Performed (deliverCall parent child) state.old state.new (number_of result) 0 no_stamp [] }
{
    deliver_number(state, parent, child)?;
    network_lines::line_deliver(state, network_lines::line_number(parent, child));
    Ok(())
}

// The first cause that refuses the step.
fn deliver_number(state: &[u32], parent: u32, child: u32) -> Result<(), Refusal>
    requires { AtNetwork state.now }
    ensures { number_of result ≡ deliver_number (network_in state.now) parent child }
{
    if !network_placement::is_site(state, parent) {
        return Err(Refusal::NoSuchSite);
    }
    if !network_placement::is_site(state, child) {
        return Err(Refusal::NoSuchSite);
    }
    if !network_placement::is_line(state, parent, child) {
        return Err(Refusal::NoSuchLine);
    }
    if none_on_way(state, parent, child) {
        return Err(Refusal::NothingOnTheWay);
    }
    Ok(())
}

// Whether all that the line holds has arrived.
fn none_on_way(state: &[u32], parent: u32, child: u32) -> bool
    requires { AtPair state.now parent child }
    ensures { result ≡ leb (length (line_at (network_in state.now) parent child).messages) (line_at (network_in state.now) parent child).arrived }
{
    let k = network_lines::line_number(parent, child);
    network_lines::line_held(state, k) <= network_lines::line_arrived(state, k)
}
