// The operations of a commit on a table, one after another: what they read from it, and what they write to it.
#![tactic(auto)]

ghost use Rattle.std.specs.Prelude.{◌≡◌, min, ◌<◌};
ghost use Rattle.site_operations.specs.Operations.{recorded, written, worked};
ghost use Rattle.site_operations.specs.InWords.{op_at, ops_in, table_in, Put};
ghost use Rattle.limits.specs.Limits.{ops_most};
ghost use Rattle.table_work.specs.Work.{TableWorked};

use limits::OPERATIONS_WIDE;
use site_operations::{OPERATIONS, item, kind, put};
use table_access::{kept_value, write_one};

// The operations done to the table in their order. It answers them as the history keeps them, each read with the value that the table has at that operation; 0 past the last.
pub fn work(table: &mut [u32], ops: &[u32], n: usize) -> [u32; OPERATIONS]
    ensures { TableWorked table.old table.new (min n ops_most) (ops_in (min n ops_most) ops.now) result }
{
    let mut out = [0u32; OPERATIONS];
    for i in 0..n.min(OPERATIONS_WIDE) {
        work_one(&mut out, table, ops, i);
    }
    out
}

// The writes among the operations, done to the table in their order.
pub fn write(table: &mut [u32], ops: &[u32], n: usize)
    ensures { table_in table.new ≡ (worked (table_in table.old) (ops_in (min n ops_most) ops.now)).table }
{
    for i in 0..n.min(OPERATIONS_WIDE) {
        write_one(table, ops, i);
    }
}

// Operation i laid as the history keeps it, after the i before it; then done to the table.
fn work_one(out: &mut [u32; OPERATIONS], table: &mut [u32], ops: &[u32], i: usize)
    requires { i < ops_most }
    ensures { Put out.old out.new i (recorded (table_in table.old) (op_at ops.now i)) × (table_in table.new ≡ written (table_in table.old) (op_at ops.now i)) }
{
    record_one(out, table, ops, i);
    write_one(table, ops, i);
}

// Operation i, as the history keeps it, after the i before it.
#[tactic(auto, using(site_operations::proofs::Laws::kept_op, site_operations::proofs::Laws::put_as))]
fn record_one(out: &mut [u32; OPERATIONS], table: &[u32], ops: &[u32], i: usize)
    requires { i < ops_most }
    ensures { Put out.old out.new i (recorded (table_in table.now) (op_at ops.now i)) }
{
    put(
        out,
        i,
        kind(ops, i),
        item(ops, i),
        kept_value(table, ops, i),
    );
}
