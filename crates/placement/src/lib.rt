// Placement in words of a lent slice: its items, and what set-up refuses of them.
#![tactic(auto)]

mod masks; // masks.rt: masks of sites, tested and built by shifts

ghost use Rattle.std.specs.Prelude.{◌≡◌, min, ◌<◌, get_or};
ghost use Rattle.causes.specs.Refusals.{number_of};
ghost use Rattle.placement.specs.Placement.{item_number, items_number};
ghost use Rattle.placement.specs.InWords.{item_size, item_words, item_at, items_in};
ghost use Rattle.limits.specs.Limits.{items_most};

use causes::{Refusal, refuse_if};
use limits::ITEMS_WIDE;
pub use masks::{below, bit};

// Where an item has its primary and its mask, and its size.
const PRIMARY: usize = 0;

const MASK: usize = PRIMARY + 1;

pub const ITEM: usize = MASK + 1;

// Whether set-up refuses an item, and the first of them for what. More than 64 items count as 64.
pub fn number(sites: u32, w: &[u32], items: usize) -> Result<(), Refusal>
    ensures { number_of result ≡ items_number sites (items_in (min items items_most) w.now) }
{
    for k in 0..items.min(ITEMS_WIDE) {
        item_number(sites, primary(w, k), mask(w, k))?;
    }
    Ok(())
}

// Whether set-up refuses an item, and for what.
#[tactic(auto, unfolding(crate::specs::Placement::item_number))]
fn item_number(sites: u32, primary: u32, mask: u32) -> Result<(), Refusal>
    ensures { number_of result ≡ item_number sites (record { primary = primary; mask = mask }) }
{
    refuse_if(sites <= primary, Refusal::NoSuchPrimary)?;
    refuse_if(
        masks::above(mask, sites) != 0 || bit(mask, primary),
        Refusal::WrongMask,
    )
}

// The primary site of item k.
pub fn primary(w: &[u32], k: usize) -> u32
    ensures { result ≡ (item_at w.now k).primary }
{
    field(w, k, PRIMARY)
}

// The copy mask of item k.
pub fn mask(w: &[u32], k: usize) -> u32
    ensures { result ≡ (item_at w.now k).mask }
{
    field(w, k, MASK)
}

// Word j of item k; 0 past the end.
fn field(w: &[u32], k: usize, j: usize) -> u32
    requires { j < item_size }
    ensures { result ≡ get_or (item_words w.now k) j 0 }
{
    if k < w.len() {
        return words::word(w, k * ITEM + j);
    }
    0
}
