// Records removed from the words of a history: those that stay are moved to its front, in their order.
#![tactic(auto)]

ghost use Rattle.std.specs.Prelude.{◌≡◌};
ghost use Rattle.record_removal.specs.Removal.{Bank, Removal, AtRecord, Kept, moved};

use limits::RECORDS_WIDE;
use records::WORDS;

// Of the records made those that stay. It answers how many they are.
pub fn remove(history: &mut [u32], made: usize, names: &[u32; RECORDS_WIDE]) -> u32
    requires { Bank history.old made }
    ensures { Removal names.now made history.old history.new result }
{
    let mut kept = 0;
    for k in 0..made {
        kept = keep(history, k, kept, names);
    }
    kept as u32
}

// Record k, behind the `before` that stay of those before it, where it stays. It answers how many stay with it.
#[tactic(auto, using(crate::proofs::RemovalLaws::gone, crate::proofs::RemovalLaws::kept))]
fn keep(history: &mut [u32], k: usize, before: usize, names: &[u32; RECORDS_WIDE]) -> usize
    requires { AtRecord history.old k before }
    ensures { Kept names.now k before history.old history.new result }
{
    if !record_names::stays(names, k) {
        return before;
    }
    move_record(history, k, before);
    before + 1
}

// The words of record k over those of record j.
#[tactic(auto, using(crate::proofs::RemovalLaws::moved_by))]
fn move_record(history: &mut [u32], k: usize, j: usize)
    requires { AtRecord history.old k j }
    ensures { history.new ≡ moved k j history.old }
{
    let from = k * WORDS;
    history.copy_within(from..from + WORDS, j * WORDS);
}
