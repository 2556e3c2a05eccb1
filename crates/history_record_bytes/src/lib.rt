// The records of a state written as bytes, and how many they take.
#![tactic(auto)]

ghost use Rattle.std.specs.Prelude.{◌≡◌, ◌≤◌, length};
ghost use Rattle.timestamp_order.specs.Timestamp.{room};
ghost use Rattle.site_operations.specs.InWords.{ops_in};
ghost use Rattle.network_layout.specs.At.{HasRecord};
ghost use Rattle.network_layout.specs.InWords.{network_in};
ghost use Rattle.history_file.specs.Bytes.{joined};
ghost use Rattle.history_file.specs.File.{op_bytes, record_bytes};
ghost use Rattle.history_record_bytes.specs.Asked.{front_bytes, ForOps, ForFront, ForOpsOf, ForRecord, Counted, ForRecords};
ghost use Rattle.protocol.specs.Network.{nth_record};

// The first n operations of the words, eight bytes each.
fn put_operations(b: &mut [u8], ops: &[u32], n: usize)
    requires { ForOps b.old ops.now n }
    ensures { b.new ≡ joined op_bytes (ops_in n ops.now) }
{
    let mut i = 0usize;
    while i < n {
        let a = i * 8;
        let e = a + 8;
        let p = 3 * i;
        history_units::put_unit(&mut b[a..e], ops[p], ops[p + 1], 0, ops[p + 2]);
        i += 1;
    }
}

// How many tuples the timestamp of record k has.
fn tuples(state: &[u32], k: usize) -> usize
    requires { HasRecord state.now k }
    ensures { (result ≡ length (nth_record (network_in state.now) k).stamp.tuples) × (result ≤ room) }
{
    timestamp_words::size_in(network_records::stamp_at(state, k))
}

// How many bytes it takes.
fn size(state: &[u32], k: usize) -> usize
    requires { HasRecord state.now k }
    ensures { (result ≡ length (record_bytes (nth_record (network_in state.now) k))) × (result ≤ 136) }
{
    8 + 8 * tuples(state, k) + 8 * network_records::operation_count(state, k)
}

// Its head and its n tuples; it has `count` operations.
fn put_front(b: &mut [u8], state: &[u32], k: usize, n: usize, count: usize)
    requires { ForFront b.old state.now k n count }
    ensures { b.new ≡ front_bytes (nth_record (network_in state.now) k) }
{
    let w = network_records::stamp_at(state, k);
    let site = network_records::record_site(state, k);
    let a = 8 + 8 * n;
    history_units::put_unit(
        &mut b[0..8],
        site,
        history_units::short(n),
        history_units::short(count),
        w[0],
    );
    history_tuple_bytes::put_tuples(&mut b[8..a], w, n);
}

// Its n operations.
fn put_operations_of(b: &mut [u8], state: &[u32], k: usize, n: usize)
    requires { ForOpsOf b.old state.now k n }
    ensures { b.new ≡ joined op_bytes (nth_record (network_in state.now) k).ops }
{
    let ops = network_records::record_ops(state, k);
    put_operations(b, &ops, n);
}

// A record over exactly its bytes.
fn put_record(b: &mut [u8], state: &[u32], k: usize)
    requires { ForRecord b.old state.now k }
    ensures { b.new ≡ record_bytes (nth_record (network_in state.now) k) }
{
    let n = tuples(state, k);
    let count = network_records::operation_count(state, k);
    let a = 8 + 8 * n;
    let e = a + 8 * count;
    put_front(&mut b[0..a], state, k, n, count);
    put_operations_of(&mut b[a..e], state, k, count);
}

// How many bytes the n records of a state take.
pub fn body_size(state: &[u32], n: usize) -> usize
    requires { Counted state.now n }
    ensures { (result ≡ length (joined record_bytes (network_in state.now).history)) × (result ≤ 34816) }
{
    let mut sum = 0usize;
    let mut i = 0usize;
    while i < n {
        sum += size(state, i);
        i += 1;
    }
    sum
}

// The n records of a state over exactly their bytes.
pub fn put_records(b: &mut [u8], state: &[u32], n: usize)
    requires { ForRecords b.old state.now n }
    ensures { b.new ≡ joined record_bytes (network_in state.now).history }
{
    let mut at = 0usize;
    let mut i = 0usize;
    while i < n {
        let e = at + size(state, i);
        put_record(&mut b[at..e], state, i);
        at = e;
        i += 1;
    }
}
