// Masks of sites, tested and built by shifts: bit k, of weight 2 to the power k, names site k.
ghost use Rattle.std.specs.Prelude.{◌≡◌, ◌/◌, ◌%◌, ◌^◌};
ghost use Rattle.placement.specs.Masks.{bit as bit_of};

// Whether the mask names site k.
pub fn bit(mask: u32, k: u32) -> bool
    ensures { result ≡ bit_of mask k }
{
    above(mask, k) % 2 == 1
}

// The bits of weight 2 to the power k and more, as a number of that weight.
#[tactic(auto, using(crate::proofs::Shifts::none_above))]
pub fn above(mask: u32, k: u32) -> u32
    ensures { result ≡ mask / 2 ^ k }
{
    mask.checked_shr(k).unwrap_or(0)
}

// The bits of less weight than 2 to the power k.
#[tactic(auto, using(crate::proofs::Shifts::all_below, crate::proofs::Shifts::one_bit))]
pub fn below(mask: u32, k: u32) -> u32
    ensures { result ≡ mask % 2 ^ k }
{
    1u32.checked_shl(k).map_or(mask, |weight| mask % weight)
}
