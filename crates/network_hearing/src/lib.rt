// What one site does in a round: its lines delivered, schedules until one is refused, and a dummy. Each is the step itself.
#![tactic(auto)]

ghost use Rattle.std.specs.Prelude.{◌≡◌, length};
ghost use Rattle.protocol.specs.Waiting.{into};
ghost use Rattle.protocol.specs.Round.{line_calls, deliver_calls, schedule_all, site_calls};
ghost use Rattle.network_layout.specs.InWords.{network_in};
ghost use Rattle.network_hearing.specs.Walked.{Walked, Hearing, Delivering, Scheduling, ScheduledOnce, AtInto};

// All that site j does.
pub fn hear(state: &mut [u32], j: u32)
    requires { Hearing state.old j (site_calls (network_in state.old) j) }
    ensures { Walked state.old state.new (site_calls (network_in state.old) j) }
{
    deliver_all(state, j);
    schedule_all(state, j);
    let _ = network_dummy::dummy_on(state, j);
}

// ---- delivering
// All lines into site j.
fn deliver_all(state: &mut [u32], j: u32)
    requires { Hearing state.old j (deliver_calls (network_in state.old) j) }
    ensures { Walked state.old state.new (deliver_calls (network_in state.old) j) }
{
    let mut p = 0;
    while p < limits::SITES {
        deliver_line(state, p, j);
        p += 1;
    }
}

// All that is on the way from site p. Where there is no line nothing is held.
fn deliver_line(state: &mut [u32], p: u32, j: u32)
    requires { Delivering state.old p j }
    ensures { Walked state.old state.new (line_calls j (network_in state.old) p) }
{
    let k = network_lines::line_number(p, j);
    let mut left = network_lines::line_held(state, k) - network_lines::line_arrived(state, k);
    while 0 < left {
        let _ = network_deliver::deliver_on(state, p, j);
        left -= 1;
    }
}

// ---- scheduling
// Until it is refused.
fn schedule_all(state: &mut [u32], j: u32)
    requires { Hearing state.old j (schedule_all (network_in state.old) j) }
    ensures { Walked state.old state.new (schedule_all (network_in state.old) j) }
{
    let mut left = held_into(state, j);
    while 0 < left {
        left = schedule_once(state, j, left);
    }
}

// Of at most so many schedules one. It answers how many are left: none where it is refused.
fn schedule_once(state: &mut [u32], j: u32, most: usize) -> usize
    requires { Scheduling state.old most j }
    ensures { ScheduledOnce state.old state.new most result j }
{
    if network_schedule::schedule_on(state, j).is_err() {
        return 0;
    }
    most - 1
}

// How many messages the lines into site j hold.
fn held_into(state: &[u32], j: u32) -> usize
    requires { AtInto state.now j }
    ensures { result ≡ length (into (network_in state.now) j) }
{
    let mut held = 0;
    let mut from = 0;
    while from < limits::SITES {
        held += network_lines::line_held(state, network_lines::line_number(from, j));
        from += 1;
    }
    held
}
