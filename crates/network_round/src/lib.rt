// Round: an epoch above all others to every site without parents, then in the order of places what each site does.
#![tactic(auto)]

ghost use Rattle.std.specs.Prelude.{◌≡◌, length, eqb};
ghost use Rattle.limits.specs.Limits.{sites_most};
ghost use Rattle.timestamp_order.specs.Order.{rank};
ghost use Rattle.placement.specs.Places.{first_from};
ghost use Rattle.protocol.specs.Round.{raise_calls, hear_calls};
ghost use Rattle.network_layout.specs.Layout.{state_size};
ghost use Rattle.network_layout.specs.InWords.{network_in};
ghost use Rattle.network_layout.specs.At.{AtNetwork};
ghost use Rattle.network_hearing.specs.Walked.{Walking, Walked};
ghost use Rattle.network_round.specs.Round.{RoundAnswered, RoundReady, RoundDone, HearingAll};

use causes::Refusal;
use limits::{SITES, SITES_WIDE};
use network_layout::WORDS;

// A round. It answers the new epoch.
pub fn round(state: &mut [u32; WORDS]) -> Result<u32, Refusal>
    ensures { RoundAnswered state.old state.new result }
{
    round_in(state)
}

fn round_in(state: &mut [u32]) -> Result<u32, Refusal>
    requires { length state.old ≡ state_size }
    ensures { RoundAnswered state.old state.new result }
{
    if !network_shape::shaped(state) {
        return Err(Refusal::NoState);
    }
    round_on(state)
}

// The same on the words of a network: nothing is changed before it is sure that none of its steps is refused.
fn round_on(state: &mut [u32]) -> Result<u32, Refusal>
    requires { AtNetwork state.old }
    ensures { RoundAnswered state.old state.new result }
{
    network_round_causes::round_number(state)?;
    Ok(round_done(state))
}

// A round that no cause refuses. It answers the new epoch.
fn round_done(state: &mut [u32]) -> u32
    requires { RoundReady state.old }
    ensures { RoundDone state.old state.new result }
{
    let to = network_round_causes::greatest_epoch(state) + 1;
    raise_all(state, to);
    let places = network_placement::places(state);
    hear_all(state, places);
    to
}

// The epoch at every site without parents; at any other the step is refused.
fn raise_all(state: &mut [u32], to: u32)
    requires { Walking state.old (raise_calls to (network_in state.old)) }
    ensures { Walked state.old state.new (raise_calls to (network_in state.old)) }
{
    let sites = network_placement::site_count(state);
    let mut i = 0;
    while i < sites {
        let _ = network_epoch::epoch_on(state, i, to);
        i += 1;
    }
}

// What each site does, in the order of their places.
fn hear_all(state: &mut [u32], places: [u8; SITES_WIDE])
    requires { HearingAll state.old places }
    ensures { Walked state.old state.new (hear_calls (network_in state.old)) }
{
    let sites = network_placement::site_count(state);
    let mut k = 0;
    while k < sites {
        network_hearing::hear(state, site_at(places, k));
        k += 1;
    }
}

// The site that has a place; 8 where none has it.
#[tactic(auto, using(crate::proofs::First::first_or))]
fn site_at(places: [u8; SITES_WIDE], place: u32) -> u32
    ensures { result ≡ first_from (λ i. eqb (rank places i) place) 0 sites_most }
{
    (0..SITES)
        .find(|site| place_table::place(places, *site) == place)
        .unwrap_or(SITES)
}
