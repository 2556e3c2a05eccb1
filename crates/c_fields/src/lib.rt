// Answers of a few fields laid into words, as C lends them: a timestamp, a line, an origin, a schedule. Each is zeros where the call is refused.
#![tactic(auto)]

ghost use Rattle.std.specs.Prelude.{◌≡◌, [], ◌∷◌, ◌+◌, ◌<◌, length};
ghost use Rattle.causes.specs.Refusals.{number_of, answered};
ghost use Rattle.timestamp_words.specs.InWords.{stamp_size, stamp_words};
ghost use Rattle.network_layout.specs.Promises.{answered_stamp, scheduled_parent, scheduled_stamp};
ghost use Rattle.c_fields.specs.Fields.{ForLine, line_held, line_arrived, origin_words};

use causes::{Refusal, number_of};
use network_layout::{Lined, Origin, Scheduled};
use timestamp::Timestamp;

// The kinds of origins: none where the call is refused, the start value, a commit, folded.
const NONE: u32 = 0;

const START: u32 = 1;

const COMMIT: u32 = 2;

const FOLDED: u32 = 3;

// A small number as a word.
pub fn few(n: usize) -> u32
    requires { n < 4294967296 }
    ensures { result ≡ n }
{
    n as u32
}

// A timestamp. It answers the call's number.
pub fn put_stamp(w: &mut [u32], given: Result<Timestamp, Refusal>) -> u32
    requires { length w.old ≡ stamp_size }
    ensures { (result ≡ number_of given) × (w.new ≡ stamp_words (answered_stamp given)) }
{
    timestamp_words::write_to(given.unwrap_or(timestamp::zero()), w);
    number_of(given)
}

// What a line holds and what has arrived. It answers the reader's number.
pub fn put_line(w: &mut [u32], given: Result<Lined, Refusal>) -> u32
    requires { ForLine w.old given }
    ensures { (result ≡ number_of given) × (w.new ≡ line_held given ∷ (line_arrived given ∷ [])) }
{
    match given {
        Ok(line) => w.copy_from_slice(&[line.held as u32, line.arrived as u32]),
        Err(_) => w.fill(0),
    }
    number_of(given)
}

// The kind of an origin, and the record number of the commit. It answers the call's number.
pub fn put_origin(w: &mut [u32], given: Result<Origin, Refusal>) -> u32
    requires { length w.old ≡ 2 }
    ensures { (result ≡ number_of given) × (w.new ≡ origin_words given) }
{
    w.copy_from_slice(&origin_words(given));
    number_of(given)
}

fn origin_words(given: Result<Origin, Refusal>) -> [u32; 2]
    ensures { result ≡ origin_words given }
{
    match given {
        Err(_) => [NONE, 0],
        Ok(Origin::Start) => [START, 0],
        Ok(Origin::Folded) => [FOLDED, 0],
        Ok(Origin::Commit(k)) => [COMMIT, k],
    }
}

// A schedule's parent and timestamp. It answers the schedule's number.
pub fn put_scheduled(w: &mut [u32], given: Result<Scheduled, Refusal>) -> u32
    requires { length w.old ≡ 1 + stamp_size }
    ensures { (result ≡ number_of given) × (w.new ≡ scheduled_parent given ∷ stamp_words (scheduled_stamp given)) }
{
    put_stamp(&mut w[1..], given.map(|scheduled| scheduled.stamp));
    w[0] = given.map_or(0, |scheduled| scheduled.parent);
    number_of(given)
}
