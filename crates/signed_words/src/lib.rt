// A signed value kept as a word of 32 bits.
#![tactic(auto)]

ghost use Rattle.std.specs.Prelude.{◌≡◌};
ghost use Rattle.std.proofs.Common.{to_z, of_z};
ghost use Rattle.std.specs.Int.{w32};

// The word of a signed value, in two's complement.
pub fn bits(v: i32) -> u32
    ensures { result ≡ of_z w32 v }
{
    v.cast_unsigned()
}

// The signed value of a word.
pub fn value(w: u32) -> i32
    ensures { result ≡ to_z w32 w }
{
    w.cast_signed()
}
