// The tuples of a timestamp in words, written as bytes.
#![tactic(auto)]

ghost use Rattle.std.specs.Prelude.{◌≡◌};
ghost use Rattle.timestamp_words.specs.InWords.{stamp_in};
ghost use Rattle.history_file.specs.Bytes.{joined};
ghost use Rattle.history_file.specs.File.{pair_bytes};
ghost use Rattle.history_tuple_bytes.specs.Asked.{ForTuples};

// Its n tuples, eight bytes each.
pub fn put_tuples(b: &mut [u8], w: &[u32], n: usize)
    requires { ForTuples b.old w.now n }
    ensures { b.new ≡ joined pair_bytes (stamp_in w.now).tuples }
{
    let mut i = 0usize;
    while i < n {
        let a = i * 8;
        let e = a + 8;
        let p = 2 + i * 2;
        history_units::put_unit(&mut b[a..e], w[p], 0, 0, w[p + 1]);
        i += 1;
    }
}
