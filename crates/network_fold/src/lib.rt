// The records that a collect removes, folded into the base values: of each item the last write of the last in turn of them that writes it.
#![tactic(auto)]

ghost use Rattle.std.specs.Prelude.{◌≡◌, cond, pos, get_or};
ghost use Rattle.std.proofs.Math.Option;
ghost use Rattle.std.proofs.Common.{to_z};
ghost use Rattle.std.specs.Int.{w32};
ghost use Rattle.site_operations.specs.Operations.{writes_item, last_written, no_op};
ghost use Rattle.record_codes.specs.Codes.{places_in, AtPlace};
ghost use Rattle.records.specs.InWords.{record_in};
ghost use Rattle.network_last_writes.specs.LastWrites.{Folding};
ghost use Rattle.network_fold.specs.Fold.{FoldingItem, ItemStep, FoldStep};

use limits::{RECORDS, RECORDS_WIDE, SITES_WIDE};
use network_layout::BASE;
use record_codes::VALUES;

// Every base value. `names`: the new number of each record, or that it goes; `places`: those of the sites.
pub fn fold(state: &mut [u32], names: &[u32; RECORDS_WIDE], places: [u8; SITES_WIDE])
    requires { Folding state.old names.now places }
    ensures { FoldStep state.old state.new }
{
    let table = network_last_writes::last_writes(state, names, places);
    let items = network_placement::item_count(state);
    for x in 0..items {
        fold_item(state, x, table[x as usize]);
    }
}

// The base value of one item: what record `last`, the last in turn of those that go and write it, leaves; it stays where there is none.
fn fold_item(state: &mut [u32], item: u32, last: u32)
    requires { FoldingItem state.old item last }
    ensures { ItemStep state.old state.new item }
{
    if last < RECORDS {
        let value = last_write(network_records::record_at(state, last as usize), item);
        words::store(state, BASE + item as usize, value);
    }
}

// The word of the last value that a record writes to the item; 0 where it writes none.
fn last_write(w: &[u32], item: u32) -> u32
    ensures { to_z w32 result ≡ Option.get_or (last_written item (record_in w.now).ops) (pos 0) }
{
    let n = records::count(w);
    let mut value = 0;
    for i in 0..n {
        value = later_write(w, item, i, value);
    }
    value
}

// The word of the value that operation i writes to the item; where it does not write it, the one before.
fn later_write(w: &[u32], item: u32, i: usize, before: u32) -> u32
    requires { AtPlace i }
    ensures { to_z w32 result ≡ cond (writes_item item (get_or (places_in w.now) i no_op)) (get_or (places_in w.now) i no_op).value (to_z w32 before) }
{
    if record_packing::is_write_of(w, i, item) {
        return words::word(w, VALUES + i);
    }
    before
}
