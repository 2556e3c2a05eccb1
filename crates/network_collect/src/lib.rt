// Collect: the commits that are not later than any site are folded into the base values, and their records removed.
#![tactic(auto)]

ghost use Rattle.std.specs.Prelude.{◌≡◌, length};
ghost use Rattle.network_layout.specs.Layout.{state_size};
ghost use Rattle.network_layout.specs.At.{AtNetwork};
ghost use Rattle.network_collect.specs.Collect.{CollectAnswered, Collecting, CollectStep};

use causes::Refusal;
use limits::{RECORDS_WIDE, SITES_WIDE};
use network_layout::WORDS;

// A collect. It answers how many records it removed.
pub fn collect(state: &mut [u32; WORDS]) -> Result<u32, Refusal>
    ensures { CollectAnswered state.old state.new result }
{
    collect_in(state)
}

fn collect_in(state: &mut [u32]) -> Result<u32, Refusal>
    requires { length state.old ≡ state_size }
    ensures { CollectAnswered state.old state.new result }
{
    if !network_shape::shaped(state) {
        return Err(Refusal::NoState);
    }
    collect_on(state)
}

// The same on the words of a network: nothing is changed before it is sure that no message names a record that goes.
fn collect_on(state: &mut [u32]) -> Result<u32, Refusal>
    requires { AtNetwork state.old }
    ensures { CollectAnswered state.old state.new result }
{
    let places = network_placement::places(state);
    let names = network_point::names(state, places);
    if network_renaming::some_gone(state, &names) {
        return Err(Refusal::NoState);
    }
    Ok(fold_away(state, &names, places))
}

// The records that go folded first, while all still stand where they are named. It answers how many they are.
fn fold_away(state: &mut [u32], names: &[u32; RECORDS_WIDE], places: [u8; SITES_WIDE]) -> u32
    requires { Collecting state.old names.now places }
    ensures { CollectStep state.old state.new result }
{
    network_fold::fold(state, names, places);
    network_renaming::rename(state, names);
    network_removal::remove(state, names)
}
