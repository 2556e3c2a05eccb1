// A commit's operations: from the lent lists of their fields to words, and the values that its reads gave.
ghost use Rattle.std.specs.Prelude.{◌≡◌, [], ◌∷◌, ◌++◌, ◌+◌, ◌≤◌, pos, length, take, drop, get_or};
ghost use Rattle.lists.specs.Lists.{Filled};
ghost use Rattle.site_operations.specs.Operations.{values_read};
ghost use Rattle.site_operations.specs.InWords.{op_at, ops_in};
ghost use Rattle.limits.specs.Limits.{ops_most};
ghost use Rattle.protocol.specs.Steps.{ops_of};
ghost use Rattle.protocol.specs.Allowed.{ListsAllowed};
ghost use Rattle.network_commit.specs.Done.{InLists, Reading};

// The values that reads gave: the first `count` of eight places, in order; the rest are 0.
#[derive(Clone, Copy)]
pub struct Given {
    pub count: usize,
    pub values: [i32; limits::OPERATIONS_WIDE],
}

// The words of the operations, three each: kind, item, value.
pub fn op_words(kinds: &[u8], items: &[u32], values: &[i32]) -> [u32; site_operations::OPERATIONS]
    requires { ListsAllowed (length kinds.now) (length items.now) (length values.now) }
    ensures { ops_in (length kinds.now) result ≡ ops_of kinds.now items.now values.now }
{
    let mut out = [0u32; site_operations::OPERATIONS];
    let n = kinds.len();
    let mut i = 0;
    while i < n {
        op_word(&mut out, kinds, items, values, i);
        i += 1;
    }
    out
}

// The values of the reads among the first n operations, in order.
pub fn values_read(ops: &[u32], n: usize) -> Given
    requires { n ≤ ops_most }
    ensures values_value { take result.count result.values ≡ values_read (ops_in n ops.now) }
    ensures filled { Filled (pos 0) ops_most result.count result.values }
{
    let mut values = [0i32; limits::OPERATIONS_WIDE];
    let mut count = 0;
    let mut i = 0;
    while i < n {
        count = value_read(&mut values, count, ops, i);
        i += 1;
    }
    Given { count, values }
}

// Operation i, from the lists of the fields, after the i before it.
fn op_word(
    out: &mut [u32; site_operations::OPERATIONS],
    kinds: &[u8],
    items: &[u32],
    values: &[i32],
    i: usize,
)
    requires { InLists i (length kinds.now) (length items.now) (length values.now) }
    ensures { ops_in (i + 1) out.new ≡ ops_in i out.old ++ ops_of (get_or kinds.now i 0 ∷ []) (get_or items.now i 0 ∷ []) (get_or values.now i (pos 0) ∷ []) }
{
    let kind = wide8(kinds[i]);
    let item = items[i];
    let v = values[i];
    site_operations::put(out, i, kind, item, words::bits(v));
}

// The value of operation i, where it is a read, after the `count` values before it; answers how many there are then.
fn value_read(values: &mut [i32], count: usize, ops: &[u32], i: usize) -> usize
    requires { Reading count i (length values.old) }
    ensures { (result ≤ i + 1) × (take result values.new ≡ take count values.old ++ values_read (op_at ops.now i ∷ [])) × (count ≤ result) × (drop result values.new ≡ drop result values.old) }
{
    if site_operations::kind(ops, i) != site_operations::READ {
        return count;
    }
    values[count] = words::value(site_operations::value(ops, i));
    count + 1
}

// A kind as a word.
fn wide8(x: u8) -> u32
    ensures { result ≡ x }
{
    x as u32
}
