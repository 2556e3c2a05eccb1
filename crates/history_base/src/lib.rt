// The base values that lead a history file, read.
#![tactic(auto)]

ghost use Rattle.std.specs.Prelude.{◌≡◌, map, ◌+◌, ◌*◌, ◌/◌, ◌≤◌, length};
ghost use Rattle.limits.specs.Limits.{items_most};
ghost use Rattle.words.specs.Words.{part, chunks};
ghost use Rattle.history_file.specs.Bytes.{value_size, value_read};
ghost use Rattle.history_file.specs.Promises.{sixty_four};

use limits::ITEMS_WIDE;

// The values at 64 places: as many as the bytes hold, and 0 behind them.
pub fn values(b: &[u8]) -> [i32; ITEMS_WIDE]
    requires { length b.now ≤ items_most * value_size }
    ensures { result ≡ sixty_four (map value_read (chunks value_size (length b.now / value_size) b.now)) }
{
    let n = b.len() / 4;
    let mut found = [0i32; ITEMS_WIDE];
    let mut x = 0usize;
    while x < n {
        found[x] = value_at(b, x);
        x += 1;
    }
    found
}

// Value x.
fn value_at(b: &[u8], x: usize) -> i32
    requires { x * value_size + value_size ≤ length b.now }
    ensures { result ≡ value_read (part b.now (x * value_size) value_size) }
{
    words::value(history_numbers::number(b, x * 4))
}
