// Words of 32 bits in lent slices: one read, many copied or moved, and a signed value kept as a word.
#![tactic(auto)]

ghost use Rattle.std.specs.Prelude.{◌≡◌};
ghost use Rattle.words.specs.Words.{overlaid, laid, shifted};

pub use signed_words::{bits, value};
pub use word_access::{fill, store, wide, word};

// The words of one slice over the front of another, as far as both reach.
pub fn copy(w: &mut [u32], from: &[u32])
    ensures { w.new ≡ overlaid w.old from.now }
{
    let n = w.len().min(from.len());
    w[..n].copy_from_slice(&from[..n]);
}

// The words of a slice at a place of another, where they fit; elsewhere nothing.
pub fn lay(w: &mut [u32], at: usize, from: &[u32])
    ensures { w.new ≡ laid w.old at from.now }
{
    if at <= w.len() && from.len() <= w.len() - at {
        w[at..at + from.len()].copy_from_slice(from);
    }
}

// Every word k places further to the front; the last k stay, and where there are fewer than k, all do.
pub fn shift(w: &mut [u32], k: usize)
    ensures { w.new ≡ shifted w.old k }
{
    if k <= w.len() {
        w.copy_within(k.., 0);
    }
}
