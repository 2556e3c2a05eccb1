// What is held of a line that has not ended: its first bytes, more behind them, and what the end of a script adds.
#![tactic(auto)]

ghost use Rattle.std.specs.Prelude.{◌≡◌, [], ◌++◌, ◌-◌, take, drop};
ghost use Rattle.console_notation.specs.Lines.{clipped, ending as endingOf};
ghost use Rattle.console_held.specs.Held.{held_of, Holding, Within};

use console_notation::{HELD, Held};

// Nothing is held before the first block.
pub fn nothing() -> Held
    ensures { Holding [] result }
{
    Held {
        bytes: [0; HELD],
        count: 0,
    }
}

// Bytes behind those that are held, as many as are still held.
pub fn hold(held: Held, from: &[u8]) -> Held
    ensures { Holding (clipped (held_of held ++ from.now)) result }
{
    let at = held.count.min(HELD);
    let n = from.len().min(HELD - at);
    let end = at + n;
    let mut bytes = held.bytes;
    bytes[at..end].copy_from_slice(&from[..n]);
    Held { bytes, count: end }
}

// The bytes of a block from one place to another, where nothing is held before them.
pub fn hold_part(block: &[u8], from: usize, end: usize) -> Held
    requires { Within block.now from end }
    ensures { Holding (clipped (take (end - from) (drop from block.now))) result }
{
    hold(nothing(), &block[from..end])
}

// What the end of a script adds to a line that is held: the newline that it lacks.
pub fn ending(held: Held) -> &'static [u8]
    ensures { result.now ≡ endingOf (held_of held) }
{
    if held.count == 0 {
        return b"";
    }
    b"\n"
}
