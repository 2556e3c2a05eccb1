// What a placement in words of a lent slice gives: the lines, and who is child or parent of whom. One walk of the items each.
#![tactic(auto)]

ghost use Rattle.std.specs.Prelude.{◌≡◌, min};
ghost use Rattle.placement.specs.Masks.{mask_of};
ghost use Rattle.placement.specs.Placement.{is_line, LineBits, has_parents};
ghost use Rattle.placement.specs.InWords.{items_in};
ghost use Rattle.limits.specs.Limits.{items_most, sites_most};

use limits::{ITEMS_WIDE, SITES};
use placement::{below, bit, mask, primary};
use placement_item::{children_by, joins, lines_by, parents_by};

// Whether the placement gives a line from site p to site c.
pub fn is_line(w: &[u32], items: usize, p: u32, c: u32) -> bool
    ensures { result ≡ is_line (items_in (min items items_most) w.now) p c }
{
    (0..items.min(ITEMS_WIDE)).any(|k| joins(w, k, p, c))
}

// The lines that the placement gives, in one walk: bit 8 p + c, of weight 2 to that power, is that of the line from site p to site c.
pub fn lines(w: &[u32], items: usize) -> u64
    ensures { LineBits (items_in (min items items_most) w.now) result }
{
    let mut m = 0;
    for k in 0..items.min(ITEMS_WIDE) {
        m |= lines_by(primary(w, k), mask(w, k));
    }
    m
}

// Whether site c has a parent.
pub fn has_parents(w: &[u32], items: usize, c: u32) -> bool
    ensures { result ≡ has_parents (items_in (min items items_most) w.now) c }
{
    (0..items.min(ITEMS_WIDE)).any(|k| bit(mask(w, k), c))
}

// The mask of the children of site p.
pub fn children(w: &[u32], items: usize, p: u32) -> u32
    ensures { result ≡ mask_of (is_line (items_in (min items items_most) w.now) p) sites_most }
{
    let mut m = 0;
    for k in 0..items.min(ITEMS_WIDE) {
        m |= children_by(w, k, p);
    }
    below(m, SITES)
}

// The mask of the parents of site c.
pub fn parents(w: &[u32], items: usize, c: u32) -> u32
    ensures { result ≡ mask_of (λ p. is_line (items_in (min items items_most) w.now) p c) sites_most }
{
    let mut m = 0;
    for k in 0..items.min(ITEMS_WIDE) {
        m |= parents_by(w, k, c);
    }
    below(m, SITES)
}
