// The operations of a record, packed: of each its code and the word of its value; and read from them one by one.
#![tactic(auto)]

ghost use Rattle.std.specs.Prelude.{◌≡◌, ◌+◌, ◌*◌, get_or};
ghost use Rattle.site_operations.specs.Operations.{writes_item, written_item, no_op};
ghost use Rattle.site_operations.specs.InWords.{op_at, Put};
ghost use Rattle.record_codes.specs.Codes.{code_of, places_in, AtPlace, PackedWords, Packed};

use limits::{ITEMS, OPERATIONS_WIDE};
use record_codes::{CODE_WORDS, VALUES, code, code_of};
use site_operations::WRITE;

// How many codes a word holds.
const FOUR: usize = 4;

// The operations, three words each, packed.
pub fn pack(w: &mut [u32], ops: &[u32])
    requires { PackedWords w.old }
    ensures { Packed ops.now w.new }
{
    for i in 0..OPERATIONS_WIDE {
        w[CODE_WORDS + i] = site_operations::value(ops, i);
    }
    w[0] = four(ops, 0);
    w[1] = four(ops, FOUR);
}

// The codes of four operations from operation i on.
fn four(ops: &[u32], i: usize) -> u32
    requires { AtPlace i }
    ensures { result ≡ code_of (op_at ops.now i) + 256 * (code_of (op_at ops.now (i + 1)) + 256 * (code_of (op_at ops.now (i + 2)) + 256 * code_of (op_at ops.now (i + 3)))) }
{
    code_of(ops, i)
        + 256 * (code_of(ops, i + 1) + 256 * (code_of(ops, i + 2) + 256 * code_of(ops, i + 3)))
}

// Operation i, laid after the i before it.
#[tactic(auto, using(crate::proofs::Laws::place_at_lem))]
pub fn unpack(out: &mut [u32; site_operations::OPERATIONS], w: &[u32], i: usize)
    requires { AtPlace i }
    ensures { Put out.old out.new i (get_or (places_in w.now) i no_op) }
{
    let c = code(w, i);
    site_operations::put(out, i, c % 2, c / 2, words::word(w, VALUES + i));
}

// The item that operation i writes; ITEMS where it writes none, since the clauses of its callers take no item for a number that none has.
#[tactic(auto, using(crate::proofs::Laws::place_at_lem))]
pub fn written_item(w: &[u32], i: usize) -> u32
    requires { AtPlace i }
    ensures { result ≡ written_item (get_or (places_in w.now) i no_op) }
{
    let c = code(w, i);
    if c % 2 == WRITE { c / 2 } else { ITEMS }
}

// Whether operation i writes the item.
#[tactic(auto, using(crate::proofs::Laws::place_at_lem))]
pub fn is_write_of(w: &[u32], i: usize, item: u32) -> bool
    requires { AtPlace i }
    ensures { result ≡ writes_item item (get_or (places_in w.now) i no_op) }
{
    let c = code(w, i);
    c % 2 == WRITE && c / 2 == item
}
