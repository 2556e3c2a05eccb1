// What a schedule is refused for: no such site, no parents, or a parent from which nothing has arrived.
#![tactic(auto)]

ghost use Rattle.std.specs.Prelude.{◌≡◌};
ghost use Rattle.limits.specs.Limits.{sites_most};
ghost use Rattle.causes.specs.Refusals.{number_of};
ghost use Rattle.lists.specs.Lists.{some_below};
ghost use Rattle.protocol.specs.Steps.{schedule_number, lacks_arrived};
ghost use Rattle.network_layout.specs.InWords.{network_in};
ghost use Rattle.network_layout.specs.At.{AtNetwork};
ghost use Rattle.network_schedule_causes.specs.Parents.{AtChild, AtParent};

use causes::Refusal;

// The first cause that refuses the step.
pub fn schedule_number(state: &[u32], j: u32) -> Result<(), Refusal>
    requires { AtNetwork state.now }
    ensures { number_of result ≡ schedule_number (network_in state.now) j }
{
    if !network_placement::is_site(state, j) {
        return Err(Refusal::NoSuchSite);
    }
    if !network_placement::has_parents(state, j) {
        return Err(Refusal::NoParents);
    }
    if lacks_arrived(state, j) {
        return Err(Refusal::ParentSilent);
    }
    Ok(())
}

// Whether the line from some parent has no message that has arrived.
fn lacks_arrived(state: &[u32], j: u32) -> bool
    requires { AtChild state.now j }
    ensures { result ≡ some_below (lacks_arrived (network_in state.now) j) sites_most }
{
    let mask = network_placement::parents(state, j);
    let mut p = 0;
    while p < limits::SITES {
        if lacks_from(state, mask, p, j) {
            return true;
        }
        p += 1;
    }
    false
}

// Whether p is one of the parents, whose mask is given, and its line has no message that has arrived.
fn lacks_from(state: &[u32], mask: u32, p: u32, j: u32) -> bool
    requires { AtParent state.now mask p j }
    ensures { result ≡ lacks_arrived (network_in state.now) j p }
{
    if !placement::bit(mask, p) {
        return false;
    }
    network_lines::line_arrived(state, network_lines::line_number(p, j)) == 0
}
