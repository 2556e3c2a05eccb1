// Cases of the timestamp layer, run: the printed comparisons and where two timestamps part, the edges of each method, a value with an odd length field, sites in another order.
#![tactic(auto)]

use std::io;
use timestamp::{Count, Epoch, Timestamp, Tuple};
use timestamp_order::{Compared, Order, Parting};

fn main(rt: HostRuntime) -> io::Result<()> {
    let start = Timestamp {
        epoch: Epoch(0),
        len: 0,
        tuples: [Tuple {
            site: 9,
            count: Count(9),
        }; 8],
    };
    let a = start.append(1, Count(1));
    comparisons(&rt, a)?;
    epochs(&rt, a)?;
    sharing(&rt, start, a)?;
    edges(&rt, start)?;
    full(&rt, start)?;
    odd_lengths(&rt, start)?;
    words_and_back(&rt, a)?;
    other_places(&rt, start)?;
    past_the_table(&rt, start)
}

// The three comparisons printed under Definition 3.3, each in both directions.
fn comparisons(rt: &impl Print, a: Timestamp) -> io::Result<()> {
    let b = a.append(2, Count(1));
    let c = a.append(3, Count(1));
    let d = a.append(2, Count(2));
    compared(rt, a, b)?;
    compared(rt, c, b)?;
    compared(rt, b, d)
}

// A lower epoch is earlier, whatever the tuples, and how many they would share is not told.
fn epochs(rt: &impl Print, a: Timestamp) -> io::Result<()> {
    let low = a.append(2, Count(7));
    let high = a.at_epoch(Epoch(4294967295));
    compared(rt, low, high)?;
    compared(rt, a, a.at_epoch(Epoch(1)))
}

// All shared, none, and tuples that are the same behind the first that differ.
fn sharing(rt: &impl Print, start: Timestamp, a: Timestamp) -> io::Result<()> {
    compared(rt, a, a)?;
    compared(rt, start, a)?;
    compared(rt, a, start.append(1, Count(2)))?;
    compared(rt, a, start.append(2, Count(1)))?;
    let same_behind = a.append(2, Count(2)).append(3, Count(1));
    compared(rt, a.append(2, Count(1)).append(3, Count(1)), same_behind)
}

// No tuple to raise, and the largest count: the value as it was.
fn edges(rt: &impl Print, start: Timestamp) -> io::Result<()> {
    show(rt, start.raise())?;
    let top = start.append(5, Count(4294967294));
    show(rt, top)?;
    show(rt, top.raise())?;
    show(rt, top.raise().raise())
}

// Eight tuples: there is no place for a ninth, and the last of them may be where two part.
fn full(rt: &impl Print, start: Timestamp) -> io::Result<()> {
    let four = start
        .append(0, Count(1))
        .append(1, Count(2))
        .append(2, Count(3))
        .append(3, Count(4));
    let seven = four
        .append(4, Count(5))
        .append(5, Count(6))
        .append(6, Count(7));
    let eight = seven.append(7, Count(8));
    show(rt, eight)?;
    show(rt, eight.append(8, Count(9)))?;
    show(rt, eight.raise())?;
    compared(rt, eight, eight.append(8, Count(9)))?;
    compared(rt, seven, eight)?;
    compared(rt, eight, eight.raise())
}

// What stands in unused places, and a length field above eight, make no difference.
fn odd_lengths(rt: &impl Print, start: Timestamp) -> io::Result<()> {
    let mut long = start;
    long.len = 77;
    let mut full = start;
    full.len = 8;
    compared(rt, long, full)?;
    compared(rt, long, full.raise())?;
    full.len = 7;
    compared(rt, long, full)?;
    show(rt, long.raise())?;
    let mut other = start;
    other.tuples = [Tuple {
        site: 1,
        count: Count(2),
    }; 8];
    compared(rt, start, other)
}

// A timestamp written to words, read again, and read from too few words.
fn words_and_back(rt: &impl Print, a: Timestamp) -> io::Result<()> {
    let b = a.append(2, Count(4294967295)).at_epoch(Epoch(3));
    let mut w = [7u32; 18];
    timestamp_words::write_to(b, &mut w);
    show(rt, timestamp_words::from_words(&w))?;
    let few = [3u32, 2, 1];
    show(rt, timestamp_words::from_words(&few))?;
    compared(rt, timestamp_words::from_words(&w), b)
}

// Sites in another order, 1 3 0 2: not the higher number but the higher place is earlier.
fn other_places(rt: &impl Print, start: Timestamp) -> io::Result<()> {
    let places = [2u8, 0, 3, 1, 4, 5, 6, 7];
    let a = start.append(3, Count(1));
    compared_by(rt, start.append(0, Count(1)), a, places)?;
    let b = a.append(2, Count(1));
    compared_by(rt, a.append(0, Count(2)), b, places)?;
    compared_by(rt, b, a.append(2, Count(2)), places)?;
    compared_by(rt, b, b, places)?;
    compared_by(rt, a, b, places)?;
    let c = start.append(1, Count(1));
    compared_by(rt, c.append(3, Count(1)), c.append(0, Count(1)), places)?;
    compared_by(rt, a, a.at_epoch(Epoch(1)), places)
}

// A site past the table is at its number; and sites at one place go by their numbers.
fn past_the_table(rt: &impl Print, start: Timestamp) -> io::Result<()> {
    let places = [2u8, 0, 3, 1, 4, 5, 6, 200];
    compared_by(
        rt,
        start.append(8, Count(1)),
        start.append(6, Count(1)),
        places,
    )?;
    compared_by(
        rt,
        start.append(8, Count(1)),
        start.append(7, Count(1)),
        places,
    )?;
    compared_by(
        rt,
        start.append(0, Count(1)),
        start.append(3, Count(1)),
        [0u8; 8],
    )
}

// What the comparison finds, each site at its number.
fn compared(rt: &impl Print, s: Timestamp, t: Timestamp) -> io::Result<()> {
    compared_by(rt, s, t, place_table::numbers())
}

// What it finds by the places of the sites, in both directions.
fn compared_by(rt: &impl Print, s: Timestamp, t: Timestamp, places: [u8; 8]) -> io::Result<()> {
    verdict(rt, timestamp_comparison::compare(s, t, places))?;
    print!(rt; " ")?;
    verdict(rt, timestamp_comparison::compare(t, s, places))?;
    println!(rt)
}

// The order, then how many leading tuples are shared, or that the epochs differ.
fn verdict(rt: &impl Print, found: Compared) -> io::Result<()> {
    let by = order(found.order);
    match found.parting {
        Parting::Epochs => print!(rt; "{by} epochs"),
        Parting::After(n) => print!(rt; "{by} {n}"),
    }
}

fn order(o: Order) -> &'static str {
    match o {
        Order::Earlier => "earlier",
        Order::Equal => "equal",
        Order::Later => "later",
    }
}

// The epoch, then each tuple as site.count.
fn show(rt: &impl Print, t: Timestamp) -> io::Result<()> {
    let e = t.epoch;
    print!(rt; "{}", e.0)?;
    for i in 0..t.size() {
        let x = t.tuple(i);
        print!(rt; " {}.{}", x.site, x.count.0)?;
    }
    println!(rt)
}
