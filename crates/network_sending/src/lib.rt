// A message from a site to those of the others that a mask names.
#![tactic(auto)]

ghost use Rattle.std.specs.Prelude.{◌≡◌, true, false, ◌&&◌, cond, ◌<◌, length, leb};
ghost use Rattle.placement.specs.Masks.{bit};
ghost use Rattle.limits.specs.Limits.{sites_most, held_most};
ghost use Rattle.lines.specs.Lines.{sent_or_same};
ghost use Rattle.messages.specs.InWords.{message_of};
ghost use Rattle.protocol.specs.Network.{with_line, line_at, line_number};
ghost use Rattle.protocol.specs.Steps.{some_line_full};
ghost use Rattle.network_layout.specs.InWords.{network_in, in_range, SentStep};
ghost use Rattle.network_layout.specs.At.{AtPair};
ghost use Rattle.network_sending.specs.Sending.{Sender, Sends};

use messages::Message;

// Whether a line from site i to a site that the mask names holds 16.
pub fn some_line_full(state: &[u32], i: u32, mask: u32) -> bool
    requires { Sender state.now i }
    ensures { result ≡ some_line_full (network_in state.now) i (bit mask) }
{
    for c in 0..limits::SITES {
        if line_full(state, i, mask, c) {
            return true;
        }
    }
    false
}

// The message to each site that the mask names, one after another.
pub fn send_all(state: &mut [u32], i: u32, mask: u32, m: Message)
    requires { Sends state.old i mask }
    ensures { SentStep state.old state.new (bit mask) i (message_of m) sites_most }
{
    for c in 0..limits::SITES {
        send_one(state, i, mask, c, m);
    }
}

// Whether the mask names site c and the line to it holds 16.
fn line_full(state: &[u32], i: u32, mask: u32, c: u32) -> bool
    requires { AtPair state.now i c }
    ensures { result ≡ (bit mask c && leb held_most (length (line_at (network_in state.now) i c).messages)) }
{
    placement::bit(mask, c)
        && limits::MESSAGES_WIDE
            <= network_lines::line_held(state, network_lines::line_number(i, c))
}

// The message to site c, where the mask names it.
fn send_one(state: &mut [u32], i: u32, mask: u32, c: u32, m: Message)
    requires { AtPair state.old i c }
    ensures state_after { network_in state.new ≡ cond (bit mask c) (with_line (network_in state.old) (line_number i c) (sent_or_same (message_of m) (line_at (network_in state.old) i c))) (network_in state.old) }
    ensures state_after_2 { in_range state.new ≡ true }
{
    if placement::bit(mask, c) {
        network_lines::line_send(state, network_lines::line_number(i, c), m);
    }
}
