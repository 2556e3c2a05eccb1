// What leads the records of a file: a table of places, where places and numbers differ, and behind it base values, where a collect has removed a record.
#![tactic(auto)]

ghost use Rattle.std.specs.Prelude.{◌≡◌, cond, ◌+◌, ◌*◌, ◌≤◌, length, take, eqb};
ghost use Rattle.limits.specs.Limits.{sites_most};
ghost use Rattle.network_layout.specs.Layout.{item_count, state_size};
ghost use Rattle.network_layout.specs.InWords.{network_in};
ghost use Rattle.network_layout.specs.At.{AtNetwork};
ghost use Rattle.history_file.specs.Bytes.{value_size, value_bytes, joined};
ghost use Rattle.history_file.specs.File.{is_numbers, lead as leadOf};
ghost use Rattle.history_lead.specs.Leads.{own, Leads, Few, ForBase, ForLead};

use history_table::are_numbers;
use limits::SITES_WIDE;
use network_layout::{BASE, FOLDED};

// The places of a network's sites, how many of them stand in the table, and how many base values stand behind it: all or none.
#[derive(Clone, Copy)]
pub struct Lead {
    pub places: [u8; SITES_WIDE],
    pub table: usize,
    pub values: usize,
}

// What leads the file of a network.
pub fn lead_of(state: &[u32]) -> Lead
    requires { AtNetwork state.now }
    ensures { Leads state.now result }
{
    let places = network_placement::places(state);
    let table = table_size(places, network_placement::site_count(state));
    let values = value_count(state);
    Lead {
        places,
        table,
        values,
    }
}

// How many bytes the table has: one for each site, or none where the places are the numbers.
fn table_size(places: [u8; SITES_WIDE], sites: u32) -> usize
    requires { sites ≤ sites_most }
    ensures { result ≡ cond (is_numbers (take sites places)) 0 sites }
{
    let n = words::wide(sites);
    if are_numbers(&places[..n]) {
        return 0;
    }
    n
}

// How many base values there are: one for each item, or none where no record was removed.
fn value_count(state: &[u32]) -> usize
    requires { length state.now ≡ state_size }
    ensures { result ≡ cond (network_in state.now).base.folded (item_count state.now) 0 }
{
    if state[FOLDED] == 0 {
        return 0;
    }
    words::wide(network_placement::item_count(state))
}

// How many bytes lead the records.
pub fn size(lead: Lead) -> usize
    requires { Few lead }
    ensures { result ≡ lead.table + lead.values * value_size }
{
    lead.table + lead.values * 4
}

// The flag byte.
pub fn flag(lead: Lead) -> u32
    ensures { result ≡ cond (eqb lead.table 0) 0 1 + cond (eqb lead.values 0) 0 2 }
{
    table_flag(lead.table) + base_flag(lead.values)
}

// The flag of a table of so many bytes.
fn table_flag(n: usize) -> u32
    ensures { result ≡ cond (eqb n 0) 0 1 }
{
    if n == 0 {
        return 0;
    }
    1
}

// The flag of so many base values.
fn base_flag(n: usize) -> u32
    ensures { result ≡ cond (eqb n 0) 0 2 }
{
    if n == 0 {
        return 0;
    }
    2
}

// The table, and the base values behind it, over exactly their bytes.
pub fn put_lead(b: &mut [u8], state: &[u32], lead: Lead)
    requires { ForLead b.old state.now lead }
    ensures { b.new ≡ leadOf (own state.now) }
{
    let t = lead.table;
    let e = b.len();
    let places = lead.places;
    put_table(&mut b[0..t], places);
    put_base(&mut b[t..e], state, lead.values);
}

// As many places as there are bytes.
fn put_table(b: &mut [u8], places: [u8; SITES_WIDE])
    requires { length b.old ≤ sites_most }
    ensures { b.new ≡ take (length b.old) places }
{
    let n = b.len();
    b.copy_from_slice(&places[..n]);
}

// The first n base values of a network.
fn put_base(b: &mut [u8], state: &[u32], n: usize)
    requires { ForBase b.old state.now n }
    ensures { b.new ≡ joined value_bytes (take n (network_in state.now).base.values) }
{
    let mut x = 0usize;
    while x < n {
        let a = x * 4;
        let e = a + 4;
        history_units::put_number(&mut b[a..e], state[BASE + x]);
        x += 1;
    }
}
