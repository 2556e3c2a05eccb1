// Messages of a line that arrive in order and are taken off at its front, in words of a lent slice.
#![tactic(auto)]

ghost use Rattle.words.specs.Words.{Stepped};
ghost use Rattle.lines.specs.Lines.{delivered_or_same, taken_or_same};
ghost use Rattle.lines.specs.InWords.{line_in, line_range, line_size};

use lines::{ARRIVED, BOXES, HELD, WORDS};
use messages::MESSAGE;

// The oldest message on the way arrives, where there is one.
pub fn deliver(l: &mut [u32])
    ensures { Stepped line_size line_in line_range delivered_or_same l.old l.new }
{
    let n = words::word(l, ARRIVED);
    if l.len() != WORDS {
        return;
    }
    if n < lines::held_word(l) {
        words::store(l, ARRIVED, n + 1);
    }
}

// The oldest message taken off, where there is one.
pub fn take(l: &mut [u32])
    ensures { Stepped line_size line_in line_range taken_or_same l.old l.new }
{
    if l.len() != WORDS {
        return;
    }
    let n = lines::held_word(l);
    if n == 0 {
        return;
    }
    words::store(l, HELD, n - 1);
    words::store(l, ARRIVED, words::word(l, ARRIVED).saturating_sub(1));
    words::shift(&mut l[BOXES..WORDS], MESSAGE);
}
