// What is read of a history file, for C: a record laid into words, and where the part of the file stands.
#![tactic(auto)]

ghost use Rattle.std.specs.Prelude.{◌≡◌, cond, [], ◌∷◌, ◌++◌, ◌+◌, ◌-◌, length, drop, eqb};
ghost use Rattle.timestamp.specs.Value.{stamp_of};
ghost use Rattle.timestamp_words.specs.InWords.{stamp_size, stamp_words};
ghost use Rattle.site_operations.specs.InWords.{ops_size};
ghost use Rattle.history_file.specs.File.{trailer_size};
ghost use Rattle.history_file.specs.Promises.{Step, Gives};
ghost use Rattle.c_files.specs.Laid.{RecordLaid};
ghost use Rattle.c_files.specs.Asked.{ForRecord, InBuffer};

use history_file::{Found, TRAILER};
use timestamp::Timestamp;

// Where a record's words have its timestamp and its operations.
const STAMP: usize = 2;

const OPERATIONS: usize = STAMP + timestamp_words::WORDS;

// A record, laid as the history lays it.
pub fn put_record(w: &mut [u32], given: Found)
    requires { ForRecord w.old given }
    ensures { (s : Step) → Gives s given → RecordLaid s.found w.new }
{
    let kinds = given.kinds;
    let items = given.items;
    let values = given.values;
    let ops = network_commit::op_words(&kinds, &items, &values);
    words::copy(&mut w[OPERATIONS..], &ops);
    put_head(w, given.site, c_answers::few(given.count), given.stamp);
}

// Its site, how many operations it has and its timestamp, before the operations.
fn put_head(w: &mut [u32], site: u32, count: u32, stamp: Timestamp)
    requires { length w.old ≡ 2 + stamp_size + ops_size }
    ensures { w.new ≡ site ∷ (count ∷ (stamp_words (stamp_of stamp) ++ drop (2 + stamp_size) w.old)) }
{
    let t = timestamp_words::to_words(stamp);
    words::lay(w, STAMP, &t);
    words::store(w, 0, site);
    words::store(w, 1, count);
}

// The fields of a file that was read.
pub fn file_fields(start: usize, length: usize, records: u32, sites: u32, items: u32) -> [usize; 5]
    ensures { result ≡ start ∷ (length ∷ (records ∷ (sites ∷ (items ∷ [])))) }
{
    [
        start,
        length,
        words::wide(records),
        words::wide(sites),
        words::wide(items),
    ]
}

// Where in a buffer the part of a file of that size starts; 0 where the file is refused.
pub fn part_start(number: u32, length: usize, size: usize) -> usize
    requires { InBuffer number length size }
    ensures { result ≡ cond (eqb number 0) (length - trailer_size - size) 0 }
{
    if number != 0 {
        return 0;
    }
    length - TRAILER - size
}
