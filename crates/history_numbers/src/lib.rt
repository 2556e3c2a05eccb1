// Numbers in bytes, little-endian, read.
#![tactic(auto)]

ghost use Rattle.std.specs.Prelude.{◌≡◌, ◌+◌, ◌*◌, ◌≤◌, length, get_or};
ghost use Rattle.history_file.specs.Bytes.{number_at, all_zero as zerosOf};

// A byte as a number.
pub fn wide(x: u8) -> u32
    ensures { result ≡ x }
{
    x as u32
}

// The byte at a place, and 0 past the end.
pub fn byte_at(b: &[u8], i: usize) -> u8
    ensures { result ≡ get_or b.now i 0 }
{
    if i < b.len() {
        return b[i];
    }
    0
}

// The same as a number.
pub fn field(b: &[u8], i: usize) -> u32
    ensures { result ≡ get_or b.now i 0 }
{
    wide(byte_at(b, i))
}

// The number in the four bytes from a place on.
pub fn number(b: &[u8], at: usize) -> u32
    requires { at + 4 ≤ length b.now }
    ensures { result ≡ number_at b.now at }
{
    let p = b[at];
    let q = b[at + 1];
    let r = b[at + 2];
    let s = b[at + 3];
    joined(p, q, r, s)
}

fn joined(p: u8, q: u8, r: u8, s: u8) -> u32
    ensures { result ≡ p + 256 * (q + 256 * (r + 256 * s)) }
{
    wide(p) + 256 * (wide(q) + 256 * (wide(r) + 256 * wide(s)))
}

// Whether every byte is 0.
pub fn zeros(b: &[u8]) -> bool
    ensures { result ≡ zerosOf b.now }
{
    let mut i = 0usize;
    while i < b.len() {
        if b[i] != 0 {
            return false;
        }
        i += 1;
    }
    true
}
