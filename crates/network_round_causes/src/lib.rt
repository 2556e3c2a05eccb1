// What a round is refused for: a line that has no room, a site whose own count is the largest, or an epoch that is.
#![tactic(auto)]

ghost use Rattle.std.specs.Prelude.{◌≡◌, max, length, get_or, leb};
ghost use Rattle.causes.specs.Refusals.{number_of};
ghost use Rattle.limits.specs.Limits.{held_most};
ghost use Rattle.lists.specs.Lists.{any, some_below};
ghost use Rattle.lines.specs.Lines.{Line, no_line};
ghost use Rattle.protocol.specs.Network.{site_at, site_stamps};
ghost use Rattle.protocol.specs.Steps.{count_at_most};
ghost use Rattle.protocol.specs.Round.{greatest_epoch, round_number};
ghost use Rattle.network_layout.specs.InWords.{network_in};
ghost use Rattle.network_layout.specs.At.{AtNetwork, AtSite, HasLine};

use causes::Refusal;
use network_layout::LINES_MOST;
use timestamp::GREATEST;

// The first cause that refuses the round.
pub fn round_number(state: &[u32]) -> Result<(), Refusal>
    requires { AtNetwork state.now }
    ensures { number_of result ≡ round_number (network_in state.now) }
{
    if some_line_full(state) {
        return Err(Refusal::LineFull);
    }
    if some_count_at_most(state) {
        return Err(Refusal::CountFull);
    }
    if GREATEST <= greatest_epoch(state) {
        return Err(Refusal::EpochNotAbove);
    }
    Ok(())
}

// Whether some line has no room.
fn some_line_full(state: &[u32]) -> bool
    requires { AtNetwork state.now }
    ensures { result ≡ any (λ (l : Line). leb held_most (length l.messages)) (network_in state.now).lines }
{
    let mut k = 0;
    while k < LINES_MOST {
        if is_full(state, k) {
            return true;
        }
        k += 1;
    }
    false
}

fn is_full(state: &[u32], k: usize) -> bool
    requires { HasLine state.now k }
    ensures { result ≡ leb held_most (length (get_or (network_in state.now).lines k no_line).messages) }
{
    limits::MESSAGES_WIDE <= network_lines::line_held(state, k)
}

// Whether the own count of some site is the largest.
fn some_count_at_most(state: &[u32]) -> bool
    requires { AtNetwork state.now }
    ensures { result ≡ some_below (count_at_most (network_in state.now)) (length (network_in state.now).sites) }
{
    let sites = words::wide(network_placement::site_count(state));
    let mut i = 0;
    while i < sites {
        if network_sites::count_at_most(state, i) {
            return true;
        }
        i += 1;
    }
    false
}

// The greatest epoch at any site.
pub fn greatest_epoch(state: &[u32]) -> u32
    requires { AtNetwork state.now }
    ensures { result ≡ greatest_epoch (site_stamps (network_in state.now)) }
{
    let sites = words::wide(network_placement::site_count(state));
    let mut most = 0;
    let mut i = 0;
    while i < sites {
        most = greater(most, epoch_at(state, i));
        i += 1;
    }
    most
}

fn epoch_at(state: &[u32], i: usize) -> u32
    requires { AtSite state.now i }
    ensures { result ≡ (site_at (network_in state.now) i).stamp.epoch }
{
    let t = network_sites::site_stamp(state, i);
    let epoch = t.epoch;
    epoch.0
}

// The greater of two numbers.
fn greater(a: u32, b: u32) -> u32
    ensures { result ≡ max a b }
{
    if a < b {
        return b;
    }
    a
}
