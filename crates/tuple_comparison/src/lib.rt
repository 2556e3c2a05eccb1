// Tuples compared, the site of the higher place earlier; whether two are the same; and what every comparison is made of.
#![tactic(auto)]

ghost use Rattle.std.specs.Prelude.{◌≡◌};
ghost use Rattle.timestamp.specs.Value.{pair_of};
ghost use Rattle.timestamp_order.specs.Order.{then_by, number_order, place_order, pair_order, rank};
ghost use Rattle.timestamp_order.specs.Parting.{same_pair};

use limits::SITES_WIDE;
use std::cmp::Ordering;
use timestamp::{Count, Tuple};
use timestamp_order::Order;

// The site of the higher place is earlier; for the same site the lower count.
#[tactic(auto, unfolding(timestamp_order::specs::Order::pair_order))]
pub fn compare_tuples(a: Tuple, b: Tuple, places: [u8; SITES_WIDE]) -> Order
    ensures { result ≡ pair_order (rank places) (pair_of a) (pair_of b) }
{
    let by_site = compare_sites(a.site, b.site, places);
    let by_count = compare_counts(a.count, b.count);
    then_by(by_site, by_count)
}

// The higher place is earlier; of two sites at one place the higher number.
#[tactic(auto, unfolding(timestamp_order::specs::Order::place_order))]
fn compare_sites(i: u32, j: u32, places: [u8; SITES_WIDE]) -> Order
    ensures { result ≡ place_order (rank places) i j }
{
    let first = place_table::place(places, i);
    let second = place_table::place(places, j);
    let by_place = number_order(second, first);
    let by_number = number_order(j, i);
    then_by(by_place, by_number)
}

// Whether two tuples are the same: site and count.
pub fn same_tuple(a: Tuple, b: Tuple) -> bool
    ensures { result ≡ same_pair (pair_of a) (pair_of b) }
{
    a == b
}

// The lower count is earlier.
pub fn compare_counts(a: Count, b: Count) -> Order
    ensures { result ≡ number_order a.0 b.0 }
{
    number_order(a.0, b.0)
}

// The first comparison decides; where it finds no difference, the second.
fn then_by(first: Order, second: Order) -> Order
    ensures { result ≡ then_by first second }
{
    match first {
        Order::Equal => second,
        Order::Earlier | Order::Later => first,
    }
}

// The lower number is earlier.
#[tactic(auto, unfolding(timestamp_order::specs::Order::number_order))]
pub fn number_order(m: u32, n: u32) -> Order
    ensures { result ≡ number_order m n }
{
    match m.cmp(&n) {
        Ordering::Less => Order::Earlier,
        Ordering::Equal => Order::Equal,
        Ordering::Greater => Order::Later,
    }
}
