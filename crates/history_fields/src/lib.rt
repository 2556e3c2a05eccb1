// What the trailer of a history file says, and the parts of the file that it gives.
#![tactic(auto)]

ghost use Rattle.std.specs.Prelude.{◌≡◌, ◌+◌, ◌≤◌, length, get_or, leb};
ghost use Rattle.words.specs.Words.{part};
ghost use Rattle.history_file.specs.File.{trailer_size};
ghost use Rattle.history_file.specs.Reading.{trailer_at, count_read, distance_read, sites_read, items_read, flag_read, has_table, has_base, start_read, table_size, base_size, lead_size, part_read, trailer_fits};
ghost use Rattle.history_fields.specs.Asked.{Led};

use history_file::TRAILER;

// The trailer's fields.
pub fn records_said(b: &[u8]) -> u32
    requires { trailer_size ≤ length b.now }
    ensures { result ≡ count_read b.now }
{
    let t = b.len() - TRAILER;
    history_numbers::number(b, t + 4)
}

pub fn distance(b: &[u8]) -> usize
    requires { trailer_size ≤ length b.now }
    ensures { result ≡ distance_read b.now }
{
    let t = b.len() - TRAILER;
    words::wide(history_numbers::number(b, t + 8))
}

pub fn sites_said(b: &[u8]) -> u32
    requires { trailer_size ≤ length b.now }
    ensures { result ≡ sites_read b.now }
{
    let t = b.len() - TRAILER;
    history_numbers::field(b, t + 12)
}

pub fn items_said(b: &[u8]) -> u32
    requires { trailer_size ≤ length b.now }
    ensures { result ≡ items_read b.now }
{
    let t = b.len() - TRAILER;
    history_numbers::field(b, t + 13)
}

fn flag_said(b: &[u8]) -> u32
    requires { trailer_size ≤ length b.now }
    ensures { result ≡ flag_read b.now }
{
    let t = b.len() - TRAILER;
    history_numbers::field(b, t + 14)
}

fn last_said(b: &[u8]) -> u32
    requires { trailer_size ≤ length b.now }
    ensures { result ≡ get_or b.now (trailer_at b.now + 15) 0 }
{
    let t = b.len() - TRAILER;
    history_numbers::field(b, t + 15)
}

// The flag of a table and that of base values.
const FLAGS: u32 = 3;

// 1 to 8 sites, 1 to 64 items, no flag but those of a table and of base values, and the last byte 0.
pub fn trailer_fits(b: &[u8]) -> bool
    requires { trailer_size ≤ length b.now }
    ensures { result ≡ trailer_fits b.now }
{
    let sites = sites_said(b);
    let items = items_said(b);
    let flag = flag_said(b);
    let last = last_said(b);
    if sites < 1 {
        return false;
    }
    if 8 < sites {
        return false;
    }
    if items < 1 {
        return false;
    }
    if 64 < items {
        return false;
    }
    if FLAGS < flag {
        return false;
    }
    last == 0
}

// Whether a table of places leads the file.
pub fn has_table(b: &[u8]) -> bool
    requires { trailer_size ≤ length b.now }
    ensures { result ≡ has_table b.now }
{
    flag_said(b) % 2 == 1
}

// Whether base values stand after the table.
pub fn has_base(b: &[u8]) -> bool
    requires { trailer_size ≤ length b.now }
    ensures { result ≡ has_base b.now }
{
    flag_said(b) / 2 % 2 == 1
}

// How many bytes the table has: one for each site, where there is one.
fn table_size(b: &[u8]) -> usize
    requires { trailer_size ≤ length b.now }
    ensures { (result ≡ table_size b.now) × (result ≤ 255) }
{
    if has_table(b) {
        return words::wide(sites_said(b));
    }
    0
}

// How many the base values have: four for each item, where they are there.
fn base_size(b: &[u8]) -> usize
    requires { trailer_size ≤ length b.now }
    ensures { (result ≡ base_size b.now) × (result ≤ 1020) }
{
    if has_base(b) {
        return words::wide(items_said(b)) * 4;
    }
    0
}

// How many bytes lead the records.
fn lead_size(b: &[u8]) -> usize
    requires { trailer_size ≤ length b.now }
    ensures { (result ≡ lead_size b.now) × (result ≤ 1275) }
{
    table_size(b) + base_size(b)
}

// Whether the distance reaches over them and the trailer.
pub fn reaches(b: &[u8]) -> bool
    requires { trailer_size ≤ length b.now }
    ensures { result ≡ leb (lead_size b.now + trailer_size) (distance_read b.now) }
{
    let n = lead_size(b);
    n + TRAILER <= distance(b)
}

// The table, or nothing.
pub fn table_of(b: &[u8]) -> &[u8]
    requires { Led b.now }
    ensures { result.now ≡ part b.now (start_read b.now) (table_size b.now) }
{
    let a = b.len() - distance(b);
    let e = a + table_size(b);
    &b[a..e]
}

// The base values, or nothing.
pub fn base_of(b: &[u8]) -> &[u8]
    requires { Led b.now }
    ensures { result.now ≡ part b.now (start_read b.now + table_size b.now) (base_size b.now) }
{
    let t = table_size(b);
    let a = b.len() - distance(b) + t;
    let e = a + base_size(b);
    &b[a..e]
}

// The part from the first record to the trailer.
pub fn part_of(b: &[u8]) -> &[u8]
    requires { Led b.now }
    ensures { result.now ≡ part_read b.now }
{
    let n = lead_size(b);
    let a = b.len() - distance(b) + n;
    let e = b.len() - TRAILER;
    &b[a..e]
}
