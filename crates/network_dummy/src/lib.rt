// Dummy: a commit without operations, sent to every child.
#![tactic(auto)]

ghost use Rattle.std.specs.Prelude.{◌≡◌, length};
ghost use Rattle.causes.specs.Refusals.{number_of};
ghost use Rattle.network_layout.specs.Layout.{state_size};
ghost use Rattle.protocol.specs.Steps.{dummy_number};
ghost use Rattle.network_layout.specs.InWords.{network_in};
ghost use Rattle.network_layout.specs.At.{AtNetwork, AtSite};
ghost use Rattle.network_dummy.specs.Done.{DummyReady, Raised, DummyDone};
ghost use Rattle.network_layout.specs.Promises.{DummyAnswered};

use causes::Refusal;
use messages::Message;
use network_layout::WORDS;
use timestamp::Timestamp;

// A dummy at a site. It answers the timestamp.
pub fn dummy(state: &mut [u32; WORDS], site: u32) -> Result<Timestamp, Refusal>
    ensures { DummyAnswered site state.old state.new result }
{
    dummy_in(state, site)
}

fn dummy_in(state: &mut [u32], site: u32) -> Result<Timestamp, Refusal>
    requires { length state.old ≡ state_size }
    ensures { DummyAnswered site state.old state.new result }
{
    if !network_shape::shaped(state) {
        return Err(Refusal::NoState);
    }
    dummy_on(state, site)
}

// The same on the words of a network.
pub fn dummy_on(state: &mut [u32], site: u32) -> Result<Timestamp, Refusal>
    requires { AtNetwork state.old }
    ensures { DummyAnswered site state.old state.new result }
{
    dummy_number(state, site)?;
    Ok(dummy_done(state, site))
}

// The first cause that refuses the step.
fn dummy_number(state: &[u32], site: u32) -> Result<(), Refusal>
    requires { AtNetwork state.now }
    ensures { number_of result ≡ dummy_number (network_in state.now) site }
{
    if !network_placement::is_site(state, site) {
        return Err(Refusal::NoSuchSite);
    }
    let mask = network_placement::children(state, site);
    if network_sending::some_line_full(state, site, mask) {
        return Err(Refusal::LineFull);
    }
    if network_sites::count_at_most(state, words::wide(site)) {
        return Err(Refusal::CountFull);
    }
    Ok(())
}

// A dummy that no cause refuses: the site's count, then the messages. It answers the timestamp.
fn dummy_done(state: &mut [u32], site: u32) -> Timestamp
    requires { DummyReady state.old site }
    ensures { DummyDone state.old state.new site result }
{
    let mask = network_placement::children(state, site);
    let t = raise(state, site);
    let m = Message {
        name: limits::RECORDS,
        stamp: t,
    };
    network_sending::send_all(state, site, mask, m);
    t
}

// The site's own count one higher; its timestamp then.
fn raise(state: &mut [u32], site: u32) -> Timestamp
    requires { AtSite state.old site }
    ensures { Raised state.old state.new site result }
{
    let i = words::wide(site);
    network_sites::site_dummy(state, i);
    network_sites::site_stamp(state, i)
}
