// What a state's placement says: how many sites and items there are, who owns and copies what, and who sends to whom.
#![tactic(auto)]

ghost use Rattle.std.specs.Prelude.{◌≡◌, not, length, get_or};
ghost use Rattle.limits.specs.Limits.{sites_most};
ghost use Rattle.words.specs.Words.{part};
ghost use Rattle.placement.specs.Masks.{mask_of, Names};
ghost use Rattle.placement.specs.Placement.{no_item, is_line, has_parents, owns, copies};
ghost use Rattle.placement.specs.Places.{places_of};
ghost use Rattle.site_operations.specs.InWords.{op_at, ops_in};
ghost use Rattle.protocol.specs.Steps.{no_such_site, wanted_at, due as dueOf};
ghost use Rattle.network_layout.specs.Layout.{state_size, site_count, item_count, items_at, items_size};
ghost use Rattle.network_layout.specs.InWords.{network_in};
ghost use Rattle.network_layout.specs.At.{AtState, HasItem};

use network_layout::{ITEM_COUNT, ITEMS, SITE_COUNT, SITES};

// ---- how many there are
pub fn site_count(state: &[u32]) -> u32
    requires { length state.now ≡ state_size }
    ensures { result ≡ site_count state.now }
{
    state[SITE_COUNT]
}

pub fn item_count(state: &[u32]) -> u32
    requires { length state.now ≡ state_size }
    ensures { result ≡ item_count state.now }
{
    state[ITEM_COUNT]
}

// Whether there is a site of that number.
#[tactic(auto, using(network_layout::proofs::Performs::site_there))]
pub fn is_site(state: &[u32], i: u32) -> bool
    requires { length state.now ≡ state_size }
    ensures { result ≡ not (no_such_site (network_in state.now) i) }
{
    i < state[SITE_COUNT]
}

// ---- the items
// Their words, two for each.
pub fn placed(state: &[u32]) -> &[u32]
    requires { length state.now ≡ state_size }
    ensures { result.now ≡ part state.now items_at items_size }
{
    &state[ITEMS..SITES]
}

#[tactic(auto, using(crate::proofs::PlacementLaws::items_lent))]
pub fn is_line(state: &[u32], p: u32, c: u32) -> bool
    requires { AtState state.now }
    ensures { result ≡ is_line (network_in state.now).items p c }
{
    placement_lines::is_line(placed(state), item_count(state) as usize, p, c)
}

#[tactic(auto, using(crate::proofs::PlacementLaws::items_lent))]
pub fn has_parents(state: &[u32], c: u32) -> bool
    requires { AtState state.now }
    ensures { result ≡ has_parents (network_in state.now).items c }
{
    placement_lines::has_parents(placed(state), item_count(state) as usize, c)
}

#[tactic(auto, using(crate::proofs::PlacementLaws::items_lent))]
pub fn children(state: &[u32], p: u32) -> u32
    requires { AtState state.now }
    ensures { result ≡ mask_of (is_line (network_in state.now).items p) sites_most }
{
    placement_lines::children(placed(state), item_count(state) as usize, p)
}

pub fn parents(state: &[u32], c: u32) -> u32
    requires { AtState state.now }
    ensures { result ≡ mask_of (λ p. is_line (network_in state.now).items p c) sites_most }
{
    placement_lines::parents(placed(state), item_count(state) as usize, c)
}

// The place of each site in the order that the items give.
#[tactic(auto, using(crate::proofs::PlacementLaws::items_lent))]
pub fn places(state: &[u32]) -> [u8; limits::SITES_WIDE]
    requires { AtState state.now }
    ensures { result ≡ places_of (network_in state.now).items }
{
    placement_order::places(placed(state), item_count(state) as usize)
}

// Whether an item has its primary at site i.
#[tactic(auto, using(crate::proofs::PlacementLaws::item_lent))]
pub fn is_owned(state: &[u32], item: u32, i: u32) -> bool
    requires { HasItem state.now item }
    ensures { result ≡ owns (network_in state.now).items i item }
{
    placement::primary(placed(state), item as usize) == i
}

// The copy mask of an item; one that is not there has no copies.
#[tactic(auto, using(network_layout::proofs::Performs::item_none))]
pub fn copy_mask(state: &[u32], item: u32) -> u32
    requires { length state.now ≡ state_size }
    ensures { result ≡ (get_or (network_in state.now).items item no_item).mask }
{
    if item_count(state) <= item {
        return 0;
    }
    placement::mask(placed(state), item as usize)
}

// Whether an item has a copy at site i.
pub fn is_copied(state: &[u32], item: u32, i: u32) -> bool
    requires { length state.now ≡ state_size }
    ensures { result ≡ copies (network_in state.now).items i item }
{
    placement::bit(copy_mask(state, item), i)
}

// Whether operation i writes an item that has a copy at site j.
#[tactic(auto, using(crate::proofs::PlacementLaws::other_kind, crate::proofs::PlacementLaws::write_kind))]
pub fn is_wanted(state: &[u32], ops: &[u32], i: usize, j: u32) -> bool
    requires { length state.now ≡ state_size }
    ensures { result ≡ wanted_at (network_in state.now).items j (op_at ops.now i) }
{
    site_operations::kind(ops, i) == site_operations::WRITE
        && is_copied(state, site_operations::item(ops, i), j)
}

// The mask of the sites that have a copy of an item that one of the n operations writes.
pub fn due_mask(state: &[u32], ops: &[u32], n: usize) -> u32
    requires { length state.now ≡ state_size }
    ensures { result ≡ mask_of (dueOf (network_in state.now).items (ops_in n ops.now)) sites_most }
{
    let mut m = 0;
    for k in 0..n {
        m |= due_by(state, ops, k);
    }
    placement::below(m, limits::SITES)
}

// The sites that operation k makes due: those of the copies of the item that it writes.
#[tactic(auto, using(placement_item::proofs::Bits::bit_none, crate::proofs::PlacementLaws::other_kind, crate::proofs::PlacementLaws::write_kind))]
fn due_by(state: &[u32], ops: &[u32], k: usize) -> u32
    requires { length state.now ≡ state_size }
    ensures { Names sites_most result (λ c. wanted_at (network_in state.now).items c (op_at ops.now k)) }
{
    if site_operations::kind(ops, k) != site_operations::WRITE {
        return 0;
    }
    copy_mask(state, site_operations::item(ops, k))
}
