// Whether the words of a line are those of one of a network: it holds what it says, the placement gives it, and each message is the parent's.
#![tactic(auto)]

ghost use Rattle.std.specs.Prelude.{◌≡◌, ◌+◌, ◌*◌, ◌≤◌, ◌<◌, length};
ghost use Rattle.words.specs.Words.{part, chunks};
ghost use Rattle.lists.specs.Lists.{every};
ghost use Rattle.timestamp_order.specs.Order.{rank};
ghost use Rattle.placement.specs.Masks.{bit};
ghost use Rattle.messages.specs.InWords.{message_size};
ghost use Rattle.protocol.specs.Network.{lines_most};
ghost use Rattle.network_line_shape.specs.LineTests.{history_in, commit_test, message_test, LineTested, MessageAsked, MessagesAsked, LineAsked, HeldAsked, MadeAsked};

use limits::{RECORDS as RECORDS_MOST, SITES_WIDE};
use lines::BOXES;
use messages::MESSAGE;
use network_layout::{LINE, RECORD};

// Whether line k fits, by the bits of all lines and the places of the sites; one that holds nothing, where nothing has arrived.
pub fn line_shaped(
    l: &[u32],
    k: usize,
    given: u64,
    places: [u8; SITES_WIDE],
    kept: &[u32],
    made: u32,
) -> bool
    requires { LineAsked l.now k kept.now made }
    ensures { LineTested given places (history_in kept.now made) k l.now result }
{
    if lines::is_empty(l) {
        return lines::arrived(l) == 0;
    }
    let n = lines::held(l);
    held_shaped(l, n, k, given, places, kept, made)
}

// Whether line k, which holds n messages, fits.
fn held_shaped(
    l: &[u32],
    n: usize,
    k: usize,
    given: u64,
    places: [u8; SITES_WIDE],
    kept: &[u32],
    made: u32,
) -> bool
    requires { HeldAsked l.now n k kept.now made }
    ensures { LineTested given places (history_in kept.now made) k l.now result }
{
    if !lines::counted(l) {
        return false;
    }
    if !is_given(given, k) {
        return false;
    }
    messages_shaped(
        &l[BOXES..LINE],
        n,
        (k / SITES_WIDE) as u32,
        places,
        kept,
        made,
    )
}

// Bit k of the bits of all lines.
fn is_given(given: u64, k: usize) -> bool
    requires { k < lines_most }
    ensures { result ≡ bit given k }
{
    (given >> k) % 2 == 1
}

// Whether each of the first n messages fits a line from site p.
fn messages_shaped(
    w: &[u32],
    n: usize,
    p: u32,
    places: [u8; SITES_WIDE],
    kept: &[u32],
    made: u32,
) -> bool
    requires { MessagesAsked w.now n kept.now made }
    ensures { result ≡ every (message_test (rank places) (history_in kept.now made) p) (chunks message_size n w.now) }
{
    (0..n).all(|i| message_shaped(chunk(w, i, MESSAGE), p, places, kept, made))
}

// Whether a message is a dummy that site p made, or names a recorded commit of p.
fn message_shaped(w: &[u32], p: u32, places: [u8; SITES_WIDE], kept: &[u32], made: u32) -> bool
    requires { MessageAsked w.now kept.now made }
    ensures { result ≡ message_test (rank places) (history_in kept.now made) p w.now }
{
    let name = words::word(w, messages::NAME);
    if name < made {
        return made_at(kept, made, name, p);
    }
    if name < RECORDS_MOST {
        return false;
    }
    timestamp_words::made_by(&w[messages::STAMP..MESSAGE], p, places)
}

// Whether site p made record k.
fn made_at(kept: &[u32], made: u32, k: u32, p: u32) -> bool
    requires { MadeAsked kept.now made k }
    ensures { result ≡ commit_test (history_in kept.now made) p k }
{
    records::site(chunk(kept, k as usize, RECORD)) == p
}

// Chunk i of the words, of m words each.
pub fn chunk(w: &[u32], i: usize, m: usize) -> &[u32]
    requires { i * m + m ≤ length w.now }
    ensures { result.now ≡ part w.now (i * m) m }
{
    let a = i * m;
    &w[a..a + m]
}
