// Operations in words, three each: kind, item, value.
#![tactic(auto)]

ghost use Rattle.std.specs.Prelude.{◌≡◌, ◌<◌, get_or};
ghost use Rattle.std.proofs.Common.{to_z};
ghost use Rattle.std.specs.Int.{w32};
ghost use Rattle.site_operations.specs.InWords.{op_words, op_at, op_of, op_size, Put};

use limits::OPERATIONS_WIDE;

// The kinds.
pub const READ: u32 = 0;

pub const WRITE: u32 = 1;

// Where an operation has its kind, its item and its value; its size, and that of the most operations.
const KIND: usize = 0;

const ITEM: usize = KIND + 1;

const VALUE: usize = ITEM + 1;

pub const OPERATION: usize = VALUE + 1;

pub const OPERATIONS: usize = OPERATIONS_WIDE * OPERATION;

// The kind of operation i, its item, and the word of its value; 0 past the end.
pub fn kind(ops: &[u32], i: usize) -> u32
    ensures { result ≡ (op_at ops.now i).kind }
{
    field(ops, i, KIND)
}

pub fn item(ops: &[u32], i: usize) -> u32
    ensures { result ≡ (op_at ops.now i).item }
{
    field(ops, i, ITEM)
}

pub fn value(ops: &[u32], i: usize) -> u32
    ensures { to_z w32 result ≡ (op_at ops.now i).value }
{
    field(ops, i, VALUE)
}

// Operation i, laid after the i before it; past the last place nothing.
pub fn put(out: &mut [u32; OPERATIONS], i: usize, kind: u32, item: u32, value: u32)
    ensures { Put out.old out.new i (op_of kind item value) }
{
    if i < OPERATIONS_WIDE {
        words::lay(out, OPERATION * i, &[kind, item, value]);
    }
}

// Word j of operation i.
fn field(ops: &[u32], i: usize, j: usize) -> u32
    requires { j < op_size }
    ensures { result ≡ get_or (op_words ops.now i) j 0 }
{
    if i < ops.len() {
        return words::word(ops, i * OPERATION + j);
    }
    0
}
