// One site on a part of the state that is its own: the words of its timestamp, then its table of signed values, a word each.
#![tactic(auto)]

ghost use Rattle.std.specs.Prelude.{◌≡◌, true, min, length};
ghost use Rattle.timestamp.specs.Value.{stamp_of, PlainValue};
ghost use Rattle.site.specs.Site.{dummied, at_epoch, received};
ghost use Rattle.site.specs.InWords.{site_in, site_range, site_size, Changed, Committed};
ghost use Rattle.site_operations.specs.InWords.{ops_in};
ghost use Rattle.limits.specs.Limits.{ops_most};

use limits::ITEMS_WIDE;
use site_operations::OPERATIONS;
use timestamp::{Epoch, Timestamp};

// Where the table starts, and the words of a site.
const TABLE: usize = timestamp_words::WORDS;

pub const WORDS: usize = TABLE + ITEMS_WIDE;

// The timestamp of a site.
#[tactic(auto, using(timestamp::proofs::Plain::plain_as, crate::proofs::Laws::stamp_law))]
pub fn stamp(part: &[u32]) -> Timestamp
    ensures { PlainValue (site_in part.now).stamp result }
{
    timestamp_words::from_words(part)
}

// A commit: the operations as the history keeps them, 0 past the last; the table after them, the own count one higher.
pub fn commit(part: &mut [u32], ops: &[u32], n: usize) -> [u32; OPERATIONS]
    ensures { Committed part.old part.new (min n ops_most) (ops_in (min n ops_most) ops.now) result }
{
    if part.len() != WORDS {
        return [0u32; OPERATIONS];
    }
    let done = table_work::work(&mut part[TABLE..WORDS], ops, n);
    put_stamp(part, stamp(part).raise());
    done
}

// A dummy: the own count one higher.
#[tactic(auto, using(crate::proofs::Laws::unchanged))]
pub fn dummy(part: &mut [u32])
    ensures { Changed part.old part.new dummied }
{
    if part.len() == WORDS {
        put_stamp(part, stamp(part).raise());
    }
}

// Another epoch.
#[tactic(auto, using(crate::proofs::Laws::unchanged))]
pub fn epoch(part: &mut [u32], number: u32)
    ensures { Changed part.old part.new (at_epoch number) }
{
    if part.len() == WORDS {
        put_stamp(part, stamp(part).at_epoch(Epoch(number)));
    }
}

// An arriving message: its writes, and its timestamp with the site's own tuple added.
#[tactic(auto, using(crate::proofs::Laws::unchanged))]
pub fn receive(part: &mut [u32], ops: &[u32], n: usize, t: Timestamp)
    ensures { Changed part.old part.new (received (ops_in (min n ops_most) ops.now) (stamp_of t)) }
{
    if part.len() == WORDS {
        table_work::write(&mut part[TABLE..WORDS], ops, n);
        let own = stamp(part).own();
        put_stamp(part, t.append(own.site, own.count));
    }
}

// Another timestamp; the table stays.
fn put_stamp(part: &mut [u32], t: Timestamp)
    requires { length part.old ≡ site_size }
    ensures { (site_in part.new ≡ record { table = (site_in part.old).table; stamp = stamp_of t }) × (site_range part.new ≡ true) }
{
    timestamp_words::write_to(t, &mut part[..TABLE]);
}
