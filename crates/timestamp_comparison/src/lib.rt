// Timestamps compared: epochs first, then the first tuples that differ, the site of the higher place earlier; and where the two part.
#![tactic(auto)]

ghost use Rattle.std.specs.Prelude.{◌≡◌};
ghost use Rattle.timestamp.specs.Value.{stamp_of};
ghost use Rattle.timestamp_order.specs.Order.{number_order, pair_order, rank};
ghost use Rattle.timestamp_order.specs.Parting.{same_pair, Compares};
ghost use Rattle.timestamp_words.specs.InWords.{stamp_in, tuple_in};

use limits::SITES_WIDE;
use timestamp::{Epoch, Timestamp};
use timestamp_order::{Compared, Order, Parting};
pub use tuple_comparison::{compare_counts, compare_tuples};
use tuple_comparison::{number_order, same_tuple};

// Two values, by their words.
pub fn compare(a: Timestamp, b: Timestamp, places: [u8; SITES_WIDE]) -> Compared
    ensures { Compares (rank places) (stamp_of a) (stamp_of b) result }
{
    let first = timestamp_words::to_words(a);
    let second = timestamp_words::to_words(b);
    compare_words(&first, &second, places)
}

// Two timestamps where their words lie. The lower epoch is earlier. Words past the end count as 0, and more than eight tuples as eight.
pub fn compare_words(a: &[u32], b: &[u32], places: [u8; SITES_WIDE]) -> Compared
    ensures { Compares (rank places) (stamp_in a.now) (stamp_in b.now) result }
{
    let e = timestamp_words::epoch_in(a);
    let f = timestamp_words::epoch_in(b);
    if e != f {
        return Compared {
            order: compare_epochs(e, f),
            parting: Parting::Epochs,
        };
    }
    compare_lists(a, b, places)
}

// With equal epochs the shared tuples are counted, and what stands behind them decides.
fn compare_lists(a: &[u32], b: &[u32], places: [u8; SITES_WIDE]) -> Compared
    requires { (stamp_in a.now).epoch ≡ (stamp_in b.now).epoch }
    ensures { Compares (rank places) (stamp_in a.now) (stamp_in b.now) result }
{
    let n = timestamp_words::size_in(a);
    let m = timestamp_words::size_in(b);
    for i in 0..n {
        if m <= i {
            return Compared {
                order: Order::Later, // b is a proper prefix of a
                parting: Parting::After(i),
            };
        }
        if !same_at(a, b, i) {
            return Compared {
                order: order_at(a, b, i, places),
                parting: Parting::After(i), // where they differ
            };
        }
    }
    if n < m {
        return Compared {
            order: Order::Earlier, // a is a proper prefix of b
            parting: Parting::After(n),
        };
    }
    Compared {
        order: Order::Equal,
        parting: Parting::After(n),
    }
}

// Whether two timestamps have the same tuple at place i.
fn same_at(a: &[u32], b: &[u32], i: usize) -> bool
    ensures { result ≡ same_pair (tuple_in a.now i) (tuple_in b.now i) }
{
    same_tuple(
        timestamp_words::tuple_in(a, i),
        timestamp_words::tuple_in(b, i),
    )
}

// The order of their tuples there.
fn order_at(a: &[u32], b: &[u32], i: usize, places: [u8; SITES_WIDE]) -> Order
    ensures { result ≡ pair_order (rank places) (tuple_in a.now i) (tuple_in b.now i) }
{
    compare_tuples(
        timestamp_words::tuple_in(a, i),
        timestamp_words::tuple_in(b, i),
        places,
    )
}

// The lower epoch is earlier.
pub fn compare_epochs(a: Epoch, b: Epoch) -> Order
    ensures { result ≡ number_order a.0 b.0 }
{
    number_order(a.0, b.0)
}
