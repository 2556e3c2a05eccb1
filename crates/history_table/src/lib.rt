// The table of places that leads a history file: the places that it gives, and whether it may stand there.
#![tactic(auto)]

ghost use Rattle.std.specs.Prelude.{◌≡◌, not, ◌&&◌};
ghost use Rattle.lists.specs.Lists.{occurrences as occurrencesOf};
ghost use Rattle.timestamp_order.specs.Order.{rank};
ghost use Rattle.history_file.specs.File.{is_numbers};
ghost use Rattle.history_file.specs.Reading.{holds_each};
ghost use Rattle.history_file.specs.Promises.{eight};

use limits::SITES_WIDE;

// The places of eight sites: those of the table, and behind them the numbers.
pub fn table(b: &[u8]) -> [u8; SITES_WIDE]
    ensures { result ≡ eight b.now }
{
    [
        place(b, 0),
        place(b, 1),
        place(b, 2),
        place(b, 3),
        place(b, 4),
        place(b, 5),
        place(b, 6),
        place(b, 7),
    ]
}

// The place of a site, which past the table is its number.
fn place(b: &[u8], site: u8) -> u8
    ensures { result ≡ rank b.now site }
{
    let i = wide(site);
    if i < b.len() {
        return b[i];
    }
    site
}

// Whether a table may lead a file: it holds each place once, and is not the numbers.
pub fn fits(b: &[u8]) -> bool
    ensures { result ≡ (holds_each b.now && not (is_numbers b.now)) }
{
    if !each_once(b) {
        return false;
    }
    !are_numbers(b)
}

// Whether every place from 0 on stands in the table once.
fn each_once(b: &[u8]) -> bool
    ensures { result ≡ holds_each b.now }
{
    let mut k = 0usize;
    while k < b.len() {
        if occurrences(b, k) != 1 {
            return false;
        }
        k += 1;
    }
    true
}

// How often a place stands in the table.
fn occurrences(b: &[u8], k: usize) -> usize
    ensures { result ≡ occurrencesOf k b.now }
{
    let mut n = 0usize;
    let mut i = 0usize;
    while i < b.len() {
        if wide(b[i]) == k {
            n += 1;
        }
        i += 1;
    }
    n
}

// Whether each place is the site's number.
pub fn are_numbers(b: &[u8]) -> bool
    ensures { result ≡ is_numbers b.now }
{
    let mut i = 0usize;
    while i < b.len() {
        if wide(b[i]) != i {
            return false;
        }
        i += 1;
    }
    true
}

// A byte as a wide number.
fn wide(x: u8) -> usize
    ensures { result ≡ x }
{
    x as usize
}
