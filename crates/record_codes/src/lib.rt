// The codes of a record's operations: of each twice its item and its kind, as a byte of two words.
#![tactic(auto)]

ghost use Rattle.std.specs.Prelude.{◌≡◌, ◌<◌, get_or};
ghost use Rattle.site_operations.specs.InWords.{op_at};
ghost use Rattle.record_codes.specs.Codes.{code_of, code_number, codes_in, codes_most, AtPlace};

use limits::ITEMS;

// Where a record has its timestamp, and the codes and values of its operations.
pub const STAMP: usize = 2;

pub const CODES: usize = STAMP + timestamp_words::WORDS;

pub const VALUES: usize = CODES + CODE_WORDS;

// The words of codes.
pub const CODE_WORDS: usize = 2;

// What the second word of codes counts.
const HIGHER: usize = 4294967296;

// The code of operation i of operations in words.
pub fn code_of(ops: &[u32], i: usize) -> u32
    ensures { (result ≡ code_of (op_at ops.now i)) × (result < codes_most) }
{
    let item = site_operations::item(ops, i);
    let kind = site_operations::kind(ops, i);
    2 * (item % ITEMS) + kind % 2
}

// The code of operation i of a record.
#[tactic(auto, using(lanes::proofs::Laws::byte_at))]
pub fn code(w: &[u32], i: usize) -> u32
    requires { AtPlace i }
    ensures { result ≡ get_or (codes_in w.now) i 0 }
{
    ((codes(w) >> (8 * i)) % 256) as u32
}

// The two words of codes as one number.
pub fn codes(w: &[u32]) -> usize
    ensures { result ≡ code_number w.now }
{
    words::word(w, CODES) as usize + words::word(w, CODES + 1) as usize * HIGHER
}
