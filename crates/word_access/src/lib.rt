// One word of a lent slice, read or stored; and one word everywhere.
#![tactic(auto)]

ghost use Rattle.std.specs.Prelude.{◌≡◌, get_or, set, length, replicate};

// A word as an index.
pub fn wide(x: u32) -> usize
    ensures { result ≡ x }
{
    x as usize
}

// The word at a place, and 0 past the end.
pub fn word(w: &[u32], i: usize) -> u32
    ensures { result ≡ get_or w.now i 0 }
{
    w.get(i).copied().unwrap_or(0)
}

// One word at a place; past the end nothing.
pub fn store(w: &mut [u32], i: usize, v: u32)
    ensures { w.new ≡ set w.old i v }
{
    if i < w.len() {
        w[i] = v;
    }
}

// One word everywhere.
pub fn fill(w: &mut [u32], v: u32)
    ensures { w.new ≡ replicate (length w.old) v }
{
    w.fill(v);
}
