// What one item of a placement gives: its lines, and the children or parents of a site.
#![tactic(auto)]

ghost use Rattle.std.specs.Prelude.{◌≡◌, ◌*◌, ◌/◌, ◌%◌, eqb};
ghost use Rattle.placement.specs.Masks.{Names};
ghost use Rattle.placement.specs.Placement.{gives_line};
ghost use Rattle.placement.specs.InWords.{item_at};
ghost use Rattle.limits.specs.Limits.{sites_most};

use limits::SITES;
use placement::{below, bit, mask, primary};

// Whether item k has its primary at site p and a copy at site c.
pub fn joins(w: &[u32], k: usize, p: u32, c: u32) -> bool
    ensures { result ≡ gives_line p c (item_at w.now k) }
{
    primary(w, k) == p && bit(mask(w, k), c)
}

// The lines that an item gives: from its primary to the sites of its copies.
pub fn lines_by(primary: u32, mask: u32) -> u64
    ensures { Names (sites_most * sites_most) result (λ k. gives_line (k / sites_most) (k % sites_most) (record { primary = primary; mask = mask })) }
{
    if primary < SITES {
        return u64::from(below(mask, SITES)) << (SITES * primary);
    }
    0
}

// The children that item k gives site p: the sites of its copies, where p is its primary.
pub fn children_by(w: &[u32], k: usize, p: u32) -> u32
    ensures { Names sites_most result (λ c. gives_line p c (item_at w.now k)) }
{
    if primary(w, k) == p {
        return mask(w, k);
    }
    0
}

// The parents that item k gives site c: its primary, where c has a copy.
pub fn parents_by(w: &[u32], k: usize, c: u32) -> u32
    ensures { Names sites_most result (λ p. gives_line p c (item_at w.now k)) }
{
    if bit(mask(w, k), c) {
        return one(primary(w, k));
    }
    0
}

// The mask that of the sites that there can be names site k alone.
#[tactic(auto, using(placement::proofs::Shifts::one_bit, crate::proofs::Bits::bit_none, crate::proofs::Bits::bit_one))]
fn one(k: u32) -> u32
    ensures { Names sites_most result (λ j. eqb k j) }
{
    1u32.checked_shl(k).unwrap_or(0)
}
