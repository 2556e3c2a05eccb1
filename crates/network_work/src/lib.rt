// A commit's work at its site: the operations on the table, and the record in the history.
#![tactic(auto)]

ghost use Rattle.std.specs.Prelude.{◌≡◌, ◌≤◌};
ghost use Rattle.site_operations.specs.InWords.{ops_in};
ghost use Rattle.limits.specs.Limits.{ops_most};
ghost use Rattle.network_work.specs.Work.{WorkReady, WorkDone};

use site_operations::OPERATIONS;
use timestamp::Timestamp;

// The timestamp of a commit, and its operations as the history keeps them.
#[derive(Clone, Copy)]
pub struct Worked {
    pub stamp: Timestamp,
    pub ops: [u32; OPERATIONS],
}

// The operations worked at the site, and the commit's record added.
pub fn work(state: &mut [u32], site: u32, ops: &[u32], n: usize) -> Worked
    requires { WorkReady state.old site n (ops_in n ops.now) }
    ensures { WorkDone state.old state.new site (ops_in n ops.now) result.stamp (ops_in n result.ops) }
{
    let i = site as usize;
    let done = network_sites::site_commit(state, i, ops, n);
    let t = network_sites::site_stamp(state, i);
    network_records::add_record(state, site, short(n), t, &done);
    Worked {
        stamp: t,
        ops: done,
    }
}

// A number of operations as a word.
fn short(n: usize) -> u32
    requires { n ≤ ops_most }
    ensures { result ≡ n }
{
    n as u32
}
