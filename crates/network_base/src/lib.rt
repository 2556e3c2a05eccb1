// What collected commits left of a network. It only looks.
#![tactic(auto)]

ghost use Rattle.std.specs.Prelude.{◌≡◌, length, Ok};
ghost use Rattle.network_layout.specs.Layout.{state_size};
ghost use Rattle.network_layout.specs.At.{AtNetwork};
ghost use Rattle.network_base.specs.Base.{BaseAnswered};

use causes::Refusal;
use network_layout::{BASE, Based, FOLDED, WORDS};

// The base: whether commits have been removed since set-up, and a value for each item.
pub fn base(state: &[u32; WORDS]) -> Result<Based, Refusal>
    ensures { BaseAnswered state.now result }
{
    base_in(state)
}

fn base_in(state: &[u32]) -> Result<Based, Refusal>
    requires { length state.now ≡ state_size }
    ensures { BaseAnswered state.now result }
{
    if !network_shape::shaped(state) {
        return Err(Refusal::NoState);
    }
    Ok(base_on(state))
}

// The same on the words of a network.
fn base_on(state: &[u32]) -> Based
    requires { AtNetwork state.now }
    ensures { BaseAnswered state.now (Ok result) }
{
    let count = network_placement::item_count(state) as usize;
    Based {
        folded: words::word(state, FOLDED) != 0,
        count,
        values: network_lookup::values(&state[BASE..], count),
    }
}
