// One operation and a table: the value that the history keeps of it, and its write.
#![tactic(auto)]

ghost use Rattle.std.specs.Prelude.{◌≡◌};
ghost use Rattle.std.proofs.Common.{to_z};
ghost use Rattle.std.specs.Int.{w32};
ghost use Rattle.site_operations.specs.Operations.{written, recorded};
ghost use Rattle.site_operations.specs.InWords.{op_at, table_in};

use site_operations::{READ, WRITE, item, kind, value};

// The word of the value that the history keeps of operation i: of a read that of the table.
#[tactic(auto, using(site_operations::proofs::Laws::kept_read, site_operations::proofs::Laws::kept_other))]
pub fn kept_value(table: &[u32], ops: &[u32], i: usize) -> u32
    ensures { to_z w32 result ≡ (recorded (table_in table.now) (op_at ops.now i)).value }
{
    if kind(ops, i) == READ {
        return words::word(table, item(ops, i) as usize);
    }
    value(ops, i)
}

// Operation i, done to the table.
#[tactic(auto, using(site_operations::proofs::Laws::write_none))]
pub fn write_one(table: &mut [u32], ops: &[u32], i: usize)
    ensures { table_in table.new ≡ written (table_in table.old) (op_at ops.now i) }
{
    if kind(ops, i) == WRITE {
        words::store(table, item(ops, i) as usize, value(ops, i));
    }
}
