// A message sent at the end of a line, in words of a lent slice.
#![tactic(auto)]

ghost use Rattle.words.specs.Words.{Stepped};
ghost use Rattle.messages.specs.InWords.{message_of};
ghost use Rattle.lines.specs.Lines.{sent_or_same};
ghost use Rattle.lines.specs.InWords.{line_in, line_range, line_size};

use limits::MESSAGES;
use lines::{BOXES, HELD, WORDS};
use messages::{MESSAGE, Message};

// A message sent, where the line holds less than 16.
pub fn send(l: &mut [u32], m: Message)
    ensures { Stepped line_size line_in line_range (sent_or_same (message_of m)) l.old l.new }
{
    if l.len() != WORDS {
        return;
    }
    let n = lines::held_word(l);
    if MESSAGES <= n {
        return;
    }
    let a = BOXES + n as usize * MESSAGE;
    message_words::put_message(&mut l[a..a + MESSAGE], m);
    words::store(l, HELD, n + 1);
}
