// The records of a state that a table of names says go, removed: the others moved together, counted, and the flag set.
#![tactic(auto)]

ghost use Rattle.network_layout.specs.At.{AtState};
ghost use Rattle.network_removal.specs.Removed.{FlagStep, RemovalStep};

use limits::RECORDS_WIDE;
use network_layout::{FOLDED, HISTORY, RECORD_COUNT};

// It answers how many it removed.
pub fn remove(state: &mut [u32], names: &[u32; RECORDS_WIDE]) -> u32
    requires { AtState state.old }
    ensures { RemovalStep names.now state.old state.new result }
{
    let made = network_records::record_count(state);
    let kept = record_removal::remove(&mut state[HISTORY..FOLDED], made as usize, names);
    words::store(state, RECORD_COUNT, kept);
    fold_flag(state, kept < made);
    made - kept
}

// The flag, set where some go; where none does it stays as it is.
fn fold_flag(state: &mut [u32], some: bool)
    requires { AtState state.old }
    ensures { FlagStep state.old state.new some }
{
    if some {
        words::store(state, FOLDED, 1);
    }
}
