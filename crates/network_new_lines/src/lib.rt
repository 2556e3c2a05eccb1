// The words of a new network's lines: every line empty.
#![tactic(auto)]

ghost use Rattle.std.specs.Prelude.{◌+◌, ◌≤◌, ◌≡◌, length};
ghost use Rattle.protocol.specs.Network.{lines_most};
ghost use Rattle.network_layout.specs.Layout.{lines_size};
ghost use Rattle.network_new_lines.specs.Cleared.{Cleared, ClearingNext, Replaced};

use network_layout::{LINE, LINES_MOST};

// How many words the lines take.
const LINES_WORDS: usize = LINES_MOST * LINE;

// Every line of those whose words start at a place. The place is not written out here: bounds that are cost a proof the more, the larger they are.
pub fn clear_at(state: &mut [u32], at: usize)
    requires { at + lines_size ≤ length state.old }
    ensures { Replaced at lines_size (λ w. Cleared w lines_most) state.old state.new }
{
    clear_lines(&mut state[at..at + LINES_WORDS]);
}

// Every line empty.
fn clear_lines(w: &mut [u32])
    requires { length w.old ≡ lines_size }
    ensures { Cleared w.new lines_most }
{
    for k in 0..LINES_MOST {
        clear_one(w, k);
    }
}

// Line k after the k before it: it holds no message, and none has arrived.
fn clear_one(w: &mut [u32], k: usize)
    requires { ClearingNext w.old k }
    ensures { Cleared w.new (k + 1) }
{
    let a = k * LINE;
    w[a..a + 2].fill(0);
}
