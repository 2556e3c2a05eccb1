// A message laid over words of a lent slice, and what a name in words stands for.
#![tactic(auto)]

ghost use Rattle.std.specs.Prelude.{◌≡◌, true, min};
ghost use Rattle.limits.specs.Limits.{records_most};
ghost use Rattle.messages.specs.InWords.{message_in, message_range, message_of};
ghost use Rattle.message_words.specs.Asked.{MessageWords};

use limits::RECORDS;
use messages::{MESSAGE, Message, NAME, STAMP};

// A message laid over the words of another.
pub fn put_message(w: &mut [u32], m: Message)
    requires { MessageWords w.old }
    ensures { (message_in w.new ≡ message_of m) × (message_range w.new ≡ true) }
{
    w[NAME] = m.name;
    timestamp_words::write_to(m.stamp, &mut w[STAMP..MESSAGE]);
}

// A name: 256 of every dummy.
pub fn clipped(name: u32) -> u32
    ensures { result ≡ min name records_most }
{
    name.min(RECORDS)
}
