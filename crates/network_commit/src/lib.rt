// Commit: its operations on the site's table, its record in the history, a message to each child due one.
#![tactic(auto)]

mod operation_causes; // operation_causes.rt: whether each operation may be done
mod operations; // operations.rt: a commit's operations in words, and the values read

ghost use Rattle.std.specs.Prelude.{◌≡◌, length};
ghost use Rattle.causes.specs.Refusals.{number_of};
ghost use Rattle.site_operations.specs.InWords.{ops_in};
ghost use Rattle.lists.specs.Numbers.{first_number};
ghost use Rattle.network_layout.specs.Layout.{state_size};
ghost use Rattle.protocol.specs.Steps.{commit_causes, wrong_lists};
ghost use Rattle.protocol.specs.Calls.{commit as commitCall};
ghost use Rattle.network_layout.specs.InWords.{network_in};
ghost use Rattle.network_layout.specs.At.{AtNetwork};
ghost use Rattle.network_layout.specs.Promises.{CommitAnswered};
ghost use Rattle.network_commit.specs.Done.{CommitAt, Masked, CommitReady, CommitDone, CommitTried};

use causes::Refusal;
use messages::Message;
use network_layout::{Committed, RECORD_COUNT, WORDS};
pub use operations::op_words;

// A commit at a site: operations as three lists of their fields. It answers the timestamp and the values read.
pub fn commit(
    state: &mut [u32; WORDS],
    site: u32,
    kinds: &[u8],
    items: &[u32],
    values: &[i32],
) -> Result<Committed, Refusal>
    ensures { CommitAnswered (commitCall site kinds.now items.now values.now) state.old state.new result }
{
    commit_in(state, site, kinds, items, values)
}

fn commit_in(
    state: &mut [u32],
    site: u32,
    kinds: &[u8],
    items: &[u32],
    values: &[i32],
) -> Result<Committed, Refusal>
    requires { length state.old ≡ state_size }
    ensures { CommitAnswered (commitCall site kinds.now items.now values.now) state.old state.new result }
{
    if !network_shape::shaped(state) {
        return Err(Refusal::NoState);
    }
    commit_on(state, site, kinds, items, values)
}

// The same on the words of a network.
pub fn commit_on(
    state: &mut [u32],
    site: u32,
    kinds: &[u8],
    items: &[u32],
    values: &[i32],
) -> Result<Committed, Refusal>
    requires { AtNetwork state.old }
    ensures { CommitAnswered (commitCall site kinds.now items.now values.now) state.old state.new result }
{
    if !network_placement::is_site(state, site) {
        return Err(Refusal::NoSuchSite);
    }
    if wrong_lists(kinds.len(), items.len(), values.len()) {
        return Err(Refusal::WrongOperations);
    }
    let ops = operations::op_words(kinds, items, values);
    commit_words(state, site, &ops, kinds.len())
}

// A commit of n operations in words, at a site that is there.
fn commit_words(state: &mut [u32], site: u32, ops: &[u32], n: usize) -> Result<Committed, Refusal>
    requires { CommitAt state.old site n }
    ensures { CommitTried state.old state.new site (ops_in n ops.now) result }
{
    let mask = network_placement::due_mask(state, ops, n);
    commit_cause(state, site, ops, n, mask)?;
    Ok(commit_done(state, site, ops, n, mask))
}

// The first cause from 9 on that refuses a commit of n operations.
fn commit_cause(state: &[u32], site: u32, ops: &[u32], n: usize, mask: u32) -> Result<(), Refusal>
    requires { Masked state.now site n mask (ops_in n ops.now) }
    ensures { number_of result ≡ first_number (commit_causes (network_in state.now) site (ops_in n ops.now)) }
{
    operation_causes::ops_number(state, site, ops, n)?;
    if limits::RECORDS <= state[RECORD_COUNT] {
        return Err(Refusal::HistoryFull);
    }
    if network_sending::some_line_full(state, site, mask) {
        return Err(Refusal::LineFull);
    }
    if network_sites::count_at_most(state, words::wide(site)) {
        return Err(Refusal::CountFull);
    }
    Ok(())
}

// A commit that no cause refuses: the site and the record, then the messages.
fn commit_done(state: &mut [u32], site: u32, ops: &[u32], n: usize, mask: u32) -> Committed
    requires { CommitReady state.old site n mask (ops_in n ops.now) }
    ensures { CommitDone state.old state.new site (ops_in n ops.now) result }
{
    let name = state[RECORD_COUNT];
    let worked = network_work::work(state, site, ops, n);
    let t = worked.stamp;
    let done = worked.ops;
    let m = Message { name, stamp: t };
    network_sending::send_all(state, site, mask, m);
    let given = operations::values_read(&done, n);
    let read = given.values;
    Committed {
        stamp: t,
        count: given.count,
        values: read,
    }
}

// Not 1 to 8 operations, or lists of several lengths.
fn wrong_lists(kinds: usize, items: usize, values: usize) -> bool
    ensures { result ≡ wrong_lists kinds items values }
{
    if kinds < 1 {
        return true;
    }
    if limits::OPERATIONS_WIDE < kinds {
        return true;
    }
    if items != kinds {
        return true;
    }
    values != kinds
}
