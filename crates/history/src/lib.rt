// The history file: export of a state's history to bytes, and reading it back, from a buffer that the file may end.
#![tactic(auto)]

ghost use Rattle.std.specs.Prelude.{◌≡◌, ◌≤◌, length};
ghost use Rattle.timestamp_order.specs.Order.{rank};
ghost use Rattle.history_file.specs.Bytes.{same};
ghost use Rattle.history_file.specs.File.{mark};
ghost use Rattle.history_file.specs.Reading.{sites_read, items_read, places_read, base_read, part_read, records_fill, table_fits, valid as valid_of, file_number, history_read, start_of};
ghost use Rattle.history_file.specs.Promises.{part_answered, places_answered, eight, sixty_four, base_answered, step_numbered, Gives};
ghost use Rattle.history_fields.specs.Asked.{Led};
ghost use Rattle.history.specs.Asked.{Reached, Placed, Valued, Numbered};
ghost use Rattle.history.specs.Answers.{Checks, Says};

pub use history_export::export;
pub use history_file::{Checked, Exported, Found};
use history_file::{MARK, TRAILER};
pub use history_record::record_from;
use limits::{ITEMS_WIDE, SITES_WIDE};

// Whether four bytes are the mark.
fn marked(b: &[u8]) -> bool
    requires { length b.now ≡ 4 }
    ensures { result ≡ same b.now mark }
{
    if b[0] != MARK[0] {
        return false;
    }
    if b[1] != MARK[1] {
        return false;
    }
    if b[2] != MARK[2] {
        return false;
    }
    b[3] == MARK[3]
}

// The places of the sites: those of the table, or the numbers.
fn places(b: &[u8]) -> [u8; SITES_WIDE]
    requires { Led b.now }
    ensures { result ≡ eight (places_read b.now) }
{
    history_table::table(history_fields::table_of(b))
}

// The base values of the items: those behind the table, or 0.
fn base(b: &[u8]) -> [i32; ITEMS_WIDE]
    requires { Valued b.now }
    ensures { result ≡ sixty_four (base_read b.now) }
{
    history_base::values(history_fields::base_of(b))
}

// Whether the table fits, where there is one.
fn table_fits(b: &[u8]) -> bool
    requires { Led b.now }
    ensures { result ≡ table_fits b.now }
{
    if !history_fields::has_table(b) {
        return true;
    }
    history_table::fits(history_fields::table_of(b))
}

// Whether n records fill the part.
fn filled(b: &[u8], n: u32) -> bool
    requires { Placed b.now }
    ensures { result ≡ records_fill (rank (places_read b.now)) (sites_read b.now) (items_read b.now) n (part_read b.now) }
{
    let sites = history_fields::sites_said(b);
    let items = history_fields::items_said(b);
    history_part::records_fill(history_fields::part_of(b), n, sites, items, places(b))
}

// Whether the bytes from the distance on are a valid file.
fn valid(b: &[u8]) -> bool
    requires { Reached b.now }
    ensures { result ≡ valid_of b.now }
{
    if !history_fields::trailer_fits(b) {
        return false;
    }
    if !history_fields::reaches(b) {
        return false;
    }
    if !table_fits(b) {
        return false;
    }
    let n = history_fields::records_said(b);
    if 256 < n {
        return false;
    }
    filled(b, n)
}

// The number for which the bytes are refused, or 0.
fn file_number(b: &[u8]) -> u32
    ensures { result ≡ file_number b.now }
{
    if b.len() < TRAILER {
        return 21;
    }
    let t = b.len() - TRAILER;
    let e = t + 4;
    if !marked(&b[t..e]) {
        return 21;
    }
    let d = history_fields::distance(b);
    if d < TRAILER {
        return 22;
    }
    if b.len() < d {
        return 22;
    }
    if !valid(b) {
        return 23;
    }
    0
}

// The part of a file whose number is known; empty where it is refused.
fn part_numbered(b: &[u8], number: u32) -> &[u8]
    requires { number ≡ file_number b.now }
    ensures { result.now ≡ part_answered b.now }
{
    if number != 0 {
        return &b[0..0];
    }
    history_fields::part_of(b)
}

// The places of its sites, with the numbers behind them; all 0 where it is refused.
fn places_numbered(b: &[u8], number: u32) -> [u8; SITES_WIDE]
    requires { number ≡ file_number b.now }
    ensures { result ≡ places_answered b.now }
{
    if number != 0 {
        return [0; SITES_WIDE];
    }
    places(b)
}

// Whether a collect has removed a record since set-up; not where it is refused.
fn folded_numbered(b: &[u8], number: u32) -> bool
    requires { number ≡ file_number b.now }
    ensures { result ≡ (history_read b.now).folded }
{
    if number != 0 {
        return false;
    }
    history_fields::has_base(b)
}

// The base values of its items, with 0 behind them; all 0 where it is refused.
fn base_numbered(b: &[u8], number: u32) -> [i32; ITEMS_WIDE]
    requires { number ≡ file_number b.now }
    ensures { result ≡ base_answered b.now }
{
    if number != 0 {
        return [0; ITEMS_WIDE];
    }
    base(b)
}

// What reading a file hands back: the number for which it is refused, or 0; the part of the buffer from the first record to the trailer, which
// it excludes, empty where the file is refused; the places of its sites, with the numbers behind them; whether a collect has removed a record
// since set-up; and the base values of its items, with 0 behind them. Where it is refused, all these are 0. `check` tells how many items there are.
#[derive(Clone, Copy)]
pub struct Reading<'a> {
    pub number: u32,
    pub part: &'a [u8],
    pub places: [u8; SITES_WIDE],
    pub folded: bool,
    pub base: [i32; ITEMS_WIDE],
}

pub fn read<'a>(b: &'a [u8]) -> Reading<'a>
    ensures { (result.number ≡ file_number b.now) × (result.part.now ≡ part_answered b.now) × (result.places ≡ places_answered b.now) × (result.folded ≡ (history_read b.now).folded) × (result.base ≡ base_answered b.now) }
{
    let number = file_number(b);
    let part = part_numbered(b, number);
    let places = places_numbered(b, number);
    let folded = folded_numbered(b, number);
    let base = base_numbered(b, number);
    Reading {
        number,
        part,
        places,
        folded,
        base,
    }
}

// The part alone: a caller that holds no `Reading` needs no walk by hand.
pub fn part(b: &[u8]) -> &[u8]
    ensures { result.now ≡ part_answered b.now }
{
    let number = file_number(b);
    part_numbered(b, number)
}

// The number of the file, how many records, sites and items it has, the length of its part, and what it says beside it.
pub fn check(b: &[u8]) -> Checked
    ensures { Checks b.now result }
{
    let number = file_number(b);
    if number != 0 {
        return Checked {
            number,
            records: 0,
            sites: 0,
            items: 0,
            length: 0,
            places: [0; SITES_WIDE],
            folded: false,
            base: [0; ITEMS_WIDE],
        };
    }
    accepted(b)
}

// What a file says beside its part.
#[derive(Clone, Copy)]
struct Beside {
    places: [u8; SITES_WIDE],
    folded: bool,
    base: [i32; ITEMS_WIDE],
}

fn beside_part(b: &[u8]) -> Beside
    requires { file_number b.now ≡ 0 }
    ensures { Says b.now result.places result.folded result.base }
{
    Beside {
        places: places(b),
        folded: history_fields::has_base(b),
        base: base(b),
    }
}

// The same of a file that is not refused.
fn accepted(b: &[u8]) -> Checked
    requires { file_number b.now ≡ 0 }
    ensures { Checks b.now result }
{
    let part = history_fields::part_of(b);
    let beside = beside_part(b);
    let places = beside.places;
    let base = beside.base;
    Checked {
        number: 0,
        records: history_fields::records_said(b),
        sites: history_fields::sites_said(b),
        items: history_fields::items_said(b),
        length: part.len(),
        places,
        folded: beside.folded,
        base,
    }
}

// Where record k starts.
fn start(b: &[u8], k: usize) -> usize
    requires { start_of k b.now ≤ length b.now }
    ensures { result ≡ start_of k b.now }
{
    let mut at = 0usize;
    let mut i = 0usize;
    while i < k {
        at += history_validity::size(&b[at..]);
        i += 1;
    }
    at
}

// The record of a number, counted from 0.
pub fn record(b: &[u8], k: usize) -> Found
    ensures { Gives (step_numbered b.now k) result }
{
    let file = check(b);
    if file.number != 0 {
        return history_record::refused(file.number);
    }
    if words::wide(file.records) <= k {
        return history_record::refused(24);
    }
    let places = file.places;
    record_there(b, k, file.sites, file.items, places)
}

// The same of a number that the file has, from what it says of its group.
fn record_there(b: &[u8], k: usize, sites: u32, items: u32, places: [u8; SITES_WIDE]) -> Found
    requires { Numbered b.now k sites items places }
    ensures { Gives (step_numbered b.now k) result }
{
    let part = history_fields::part_of(b);
    history_record::record_from(part, start(part, k), sites, items, places)
}
