// Readers of a state: a site's table and timestamp, and a line. They only look.
#![tactic(auto)]

ghost use Rattle.std.specs.Prelude.{◌≡◌, length};
ghost use Rattle.causes.specs.Refusals.{number_of};
ghost use Rattle.protocol.specs.Questions.{asked_line};
ghost use Rattle.network_layout.specs.Layout.{state_size};
ghost use Rattle.network_layout.specs.InWords.{network_in};
ghost use Rattle.network_layout.specs.At.{AtNetwork};
ghost use Rattle.network_readers.specs.Readers.{TableRead, StampRead, LineRead};

use causes::Refusal;
use network_layout::{Lined, Tabled, WORDS};
use timestamp::Timestamp;

// The table of a site: a value for each item.
pub fn table(state: &[u32; WORDS], site: u32) -> Result<Tabled, Refusal>
    ensures { TableRead site state.now result }
{
    network_shape::site_number(state, site)?;
    Ok(network_lookup::table_at(state, site as usize))
}

// The timestamp of a site.
pub fn stamp(state: &[u32; WORDS], site: u32) -> Result<Timestamp, Refusal>
    ensures { StampRead site state.now result }
{
    network_shape::site_number(state, site)?;
    Ok(network_sites::site_stamp(state, site as usize))
}

// The line from a parent to a child: how many messages it holds, and how many have arrived.
pub fn line(state: &[u32; WORDS], parent: u32, child: u32) -> Result<Lined, Refusal>
    ensures { LineRead parent child state.now result }
{
    line_in(state, parent, child)
}

fn line_in(state: &[u32], parent: u32, child: u32) -> Result<Lined, Refusal>
    requires { length state.now ≡ state_size }
    ensures { LineRead parent child state.now result }
{
    if !network_shape::shaped(state) {
        return Err(Refusal::NoState);
    }
    line_number(state, parent, child)?;
    Ok(network_lookup::line_at(state, network_lines::line_number(parent, child)))
}

// The first cause that refuses it on the words of a network.
fn line_number(state: &[u32], parent: u32, child: u32) -> Result<(), Refusal>
    requires { AtNetwork state.now }
    ensures { number_of result ≡ asked_line (network_in state.now) parent child }
{
    if !network_placement::is_site(state, parent) {
        return Err(Refusal::NoSuchSite);
    }
    if !network_placement::is_site(state, child) {
        return Err(Refusal::NoSuchSite);
    }
    if !network_placement::is_line(state, parent, child) {
        return Err(Refusal::NoSuchLine);
    }
    Ok(())
}
