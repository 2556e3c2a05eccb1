// The lines of a state by their numbers.
#![tactic(auto)]

ghost use Rattle.std.specs.Prelude.{◌≡◌, ◌+◌, ◌*◌, ◌<◌, ◌≤◌, length, get_or};
ghost use Rattle.limits.specs.Limits.{held_most};
ghost use Rattle.lines.specs.Lines.{no_line, sent_or_same, delivered_or_same, taken_or_same};
ghost use Rattle.timestamp_words.specs.InWords.{stamp_in};
ghost use Rattle.messages.specs.Messages.{name_of, own_stamp};
ghost use Rattle.lines.specs.InWords.{line_in, line_size};
ghost use Rattle.messages.specs.InWords.{message_of};
ghost use Rattle.protocol.specs.Network.{line_number, lines_most};
ghost use Rattle.network_layout.specs.Layout.{lines_at};
ghost use Rattle.network_layout.specs.InWords.{network_in, LineStep};
ghost use Rattle.network_layout.specs.At.{AtLine, HasLine};
ghost use Rattle.network_layout.specs.Lent.{Lent};
ghost use Rattle.network_lines.specs.First.{first_on, HasDummy};

use limits::SITES_WIDE;
use messages::Message;
use network_layout::{LINE, LINES};
use std::ops::Range;

// Where a line's words have the timestamp of its oldest message, and where that ends.
const FIRST_STAMP: usize = lines::BOXES + messages::STAMP;

const FIRST_END: usize = lines::BOXES + messages::MESSAGE;

// The number of the line from site p to site c.
pub fn line_number(p: u32, c: u32) -> usize
    ensures { result ≡ line_number p c }
{
    p as usize * SITES_WIDE + c as usize
}

// Where the words of line k are.
fn words_of(k: usize) -> Range<usize>
    requires { k < lines_most }
    ensures { result ≡ record { start = lines_at + k * line_size; end = lines_at + k * line_size + line_size } }
{
    let a = LINES + k * LINE;
    a..a + LINE
}

// The words of line k. It is seen here that they are `LINE`, as in `network_sites`.
pub fn line_at(state: &[u32], k: usize) -> &[u32]
    requires { HasLine state.now k }
    ensures { Lent line_size line_in (get_or (network_in state.now).lines k no_line) result.now }
{
    let a = words_of(k).start;
    &state[a..a + LINE]
}

pub fn line_held(state: &[u32], k: usize) -> usize
    requires { HasLine state.now k }
    ensures { (result ≡ length (get_or (network_in state.now).lines k no_line).messages) × (result ≤ held_most) }
{
    lines::held(line_at(state, k))
}

pub fn line_arrived(state: &[u32], k: usize) -> usize
    requires { HasLine state.now k }
    ensures { result ≡ (get_or (network_in state.now).lines k no_line).arrived }
{
    lines::arrived(line_at(state, k))
}

// The name of the oldest message: 256 where it is a dummy, 0 where there is none.
pub fn line_first_name(state: &[u32], k: usize) -> u32
    requires { HasLine state.now k }
    ensures { result ≡ name_of (first_on (network_in state.now) k) }
{
    lines::name(line_at(state, k), 0)
}

// The words of the timestamp of an oldest message that is a dummy.
pub fn line_first_stamp(state: &[u32], k: usize) -> &[u32]
    requires { HasDummy state.now k }
    ensures { stamp_in result.now ≡ own_stamp (first_on (network_in state.now) k) }
{
    let w = line_at(state, k);
    &w[FIRST_STAMP..FIRST_END]
}

pub fn line_send(state: &mut [u32], k: usize, m: Message)
    requires { AtLine state.old k }
    ensures { LineStep state.old state.new k (sent_or_same (message_of m)) }
{
    line_sending::send(&mut state[words_of(k)], m);
}

pub fn line_deliver(state: &mut [u32], k: usize)
    requires { AtLine state.old k }
    ensures { LineStep state.old state.new k delivered_or_same }
{
    line_receiving::deliver(&mut state[words_of(k)]);
}

pub fn line_take(state: &mut [u32], k: usize)
    requires { AtLine state.old k }
    ensures { LineStep state.old state.new k taken_or_same }
{
    line_receiving::take(&mut state[words_of(k)]);
}
