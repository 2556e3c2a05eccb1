// Whether the codes of a record's operations are known kinds of the items, tested all at once.
#![tactic(auto)]

ghost use Rattle.std.specs.Prelude.{◌≡◌, ◌&&◌, ◌*◌, ◌-◌, take, ltb};
ghost use Rattle.lists.specs.Lists.{every};
ghost use Rattle.record_codes.specs.Codes.{codes_in, codes_most, SomeOps};

use limits::ITEMS_WIDE;
use record_codes::codes;

// Eight bytes that are 1, their bits but the top one, and their top bits.
const ONES: usize = 0x0101010101010101;

const LOWS: usize = 0x7f7f7f7f7f7f7f7f;

const TOPS: usize = 0x8080808080808080;

// Whether the codes of the first n operations are known kinds of the items: each byte is below 128, and stays so where as much is added to all
// as twice the items are below it.
pub fn fit(w: &[u32], n: usize, items: u32) -> bool
    requires { SomeOps n }
    ensures { result ≡ (every (λ c. ltb c codes_most) (take n (codes_in w.now)) && every (λ c. ltb c (2 * items)) (take n (codes_in w.now))) }
{
    let x = codes(w);
    let tops = TOPS >> (64 - 8 * n);
    x & tops == 0 && ((x & LOWS) + spare(items) * ONES) & tops == 0
}

// How many codes below 128 are of no item.
fn spare(items: u32) -> usize
    ensures { result ≡ codes_most - 2 * items }
{
    2 * ITEMS_WIDE.saturating_sub(items as usize)
}
