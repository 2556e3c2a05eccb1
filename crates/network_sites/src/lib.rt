// The sites of a state by their numbers.
#![tactic(auto)]

ghost use Rattle.std.specs.Prelude.{◌≡◌, ◌+◌, ◌*◌, ◌<◌, min};
ghost use Rattle.timestamp.specs.Value.{stamp_of, PlainValue};
ghost use Rattle.site_operations.specs.Operations.{worked};
ghost use Rattle.site.specs.Site.{committed, dummied, at_epoch, received};
ghost use Rattle.site.specs.InWords.{site_in, site_size};
ghost use Rattle.site_operations.specs.InWords.{ops_in, OpsLaid};
ghost use Rattle.limits.specs.Limits.{ops_most, sites_most};
ghost use Rattle.messages.specs.Messages.{commit};
ghost use Rattle.protocol.specs.Network.{site_at};
ghost use Rattle.protocol.specs.Steps.{count_at_most};
ghost use Rattle.network_layout.specs.InWords.{network_in, SiteStep};
ghost use Rattle.network_layout.specs.Layout.{sites_at};
ghost use Rattle.network_layout.specs.At.{AtSite};
ghost use Rattle.network_layout.specs.Lent.{Lent};

use network_layout::{SITE, SITES};
use site_operations::OPERATIONS;
use std::ops::Range;
use timestamp::{GREATEST, Timestamp};

// Where the words of site i are.
fn words_of(i: usize) -> Range<usize>
    requires { i < sites_most }
    ensures { result ≡ record { start = sites_at + i * site_size; end = sites_at + i * site_size + site_size } }
{
    let a = SITES + i * SITE;
    a..a + SITE
}

// The words of site i. It is seen here that they are `SITE`; by the end of `words_of` the compiler would not know it, and timestamps compared
// where they lie would be tested for their length, word by word.
pub fn site_at(state: &[u32], i: usize) -> &[u32]
    requires { AtSite state.now i }
    ensures { Lent site_size site_in (site_at (network_in state.now) i) result.now }
{
    let a = words_of(i).start;
    &state[a..a + SITE]
}

pub fn site_stamp(state: &[u32], i: usize) -> Timestamp
    requires { AtSite state.now i }
    ensures { PlainValue (site_at (network_in state.now) i).stamp result }
{
    site::stamp(site_at(state, i))
}

// Whether the own count of a site is the largest.
pub fn count_at_most(state: &[u32], i: usize) -> bool
    requires { AtSite state.now i }
    ensures { result ≡ count_at_most (network_in state.now) i }
{
    let own = site_stamp(state, i).own();
    let count = own.count;
    GREATEST <= count.0
}

pub fn site_dummy(state: &mut [u32], i: usize)
    requires { AtSite state.old i }
    ensures { SiteStep state.old state.new i dummied }
{
    site::dummy(&mut state[words_of(i)]);
}

pub fn site_epoch(state: &mut [u32], i: usize, number: u32)
    requires { AtSite state.old i }
    ensures { SiteStep state.old state.new i (at_epoch number) }
{
    site::epoch(&mut state[words_of(i)], number);
}

pub fn site_receive(state: &mut [u32], i: usize, ops: &[u32], n: usize, t: Timestamp)
    requires { AtSite state.old i }
    ensures { SiteStep state.old state.new i (received (ops_in (min n ops_most) ops.now) (stamp_of t)) }
{
    site::receive(&mut state[words_of(i)], ops, n, t);
}

pub fn site_commit(state: &mut [u32], i: usize, ops: &[u32], n: usize) -> [u32; OPERATIONS]
    requires { AtSite state.old i }
    ensures site_step { SiteStep state.old state.new i (committed (ops_in (min n ops_most) ops.now)) }
    ensures ops_laid { OpsLaid (min n ops_most) (worked (site_at (network_in state.old) i).table (ops_in (min n ops_most) ops.now)).ops result }
{
    site::commit(&mut state[words_of(i)], ops, n)
}
