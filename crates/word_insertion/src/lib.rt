// A word put between the words of a lent slice.
#![tactic(auto)]

ghost use Rattle.std.specs.Prelude.{◌≡◌};
ghost use Rattle.word_insertion.specs.Inserted.{inserted};

// A word put in at a place, those from there on one place further; the last falls out. Past the end nothing changes.
pub fn insert(w: &mut [u32], at: usize, v: u32)
    ensures { w.new ≡ inserted w.old at v }
{
    let n = w.len();
    if at < n {
        w.copy_within(at..n - 1, at + 1);
        w[at] = v;
    }
}
