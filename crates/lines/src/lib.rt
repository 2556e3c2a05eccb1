// A line of messages in words of a lent slice: how many it holds, how many have arrived, and the name of one of them.
#![tactic(auto)]

ghost use Rattle.std.specs.Prelude.{◌≡◌, min, ◌≤◌, length, get_or, eqb};
ghost use Rattle.limits.specs.Limits.{held_most};
ghost use Rattle.messages.specs.Messages.{commit, name_of};
ghost use Rattle.lines.specs.InWords.{line_in, line_counted};

use limits::{MESSAGES, MESSAGES_WIDE};
use messages::MESSAGE;

// Where a line has how many messages it holds, how many have arrived, and its messages; and its size.
pub const HELD: usize = 0;

pub const ARRIVED: usize = HELD + 1;

pub const BOXES: usize = ARRIVED + 1;

pub const WORDS: usize = BOXES + MESSAGES_WIDE * MESSAGE;

// How many messages the line holds: 16 at most.
#[tactic(auto, using(crate::proofs::Boxes::messages_length))]
pub fn held(l: &[u32]) -> usize
    ensures { (result ≡ length (line_in l.now).messages) × (result ≤ held_most) }
{
    held_word(l) as usize
}

// Whether the line holds nothing: of most lines that is all that is asked.
#[tactic(auto, using(crate::proofs::Boxes::held_none))]
pub fn is_empty(l: &[u32]) -> bool
    ensures { result ≡ eqb (length (line_in l.now).messages) 0 }
{
    words::word(l, HELD) == 0
}

// How many messages have arrived.
#[tactic(auto, unfolding(crate::specs::InWords::line_in))]
pub fn arrived(l: &[u32]) -> usize
    ensures { result ≡ (line_in l.now).arrived }
{
    words::word(l, ARRIVED) as usize
}

// Whether the line says at most 16 messages, and no more of them arrived.
#[tactic(auto, unfolding(crate::specs::InWords::line_counted))]
pub fn counted(l: &[u32]) -> bool
    ensures { result ≡ line_counted l.now }
{
    let said = words::word(l, HELD);
    said <= MESSAGES && words::word(l, ARRIVED) <= said
}

// The name of message i: 256 where it is a dummy, 0 where there is none.
#[tactic(auto, using(crate::proofs::Boxes::name_none, crate::proofs::Boxes::name_some))]
pub fn name(l: &[u32], i: usize) -> u32
    ensures { result ≡ name_of (get_or (line_in l.now).messages i (commit 0)) }
{
    if i < held(l) {
        message_words::clipped(words::word(l, BOXES + i * MESSAGE))
    } else {
        0
    }
}

// How many messages the line holds, as a word.
pub fn held_word(l: &[u32]) -> u32
    ensures { result ≡ min (get_or l.now 0 0) held_most }
{
    words::word(l, HELD).min(MESSAGES)
}
