// A table of names in words: the number that each record has among those that stay, 256 of one that goes.
#![tactic(auto)]

ghost use Rattle.std.specs.Prelude.{◌≡◌};
ghost use Rattle.record_names.specs.Names.{stays as staysIn};

use limits::{RECORDS, RECORDS_WIDE};

// Whether record k stays.
pub fn stays(names: &[u32; RECORDS_WIDE], k: usize) -> bool
    ensures { result ≡ staysIn names.now k }
{
    word_access::word(names, k) < RECORDS
}
