// Schedule: the chosen message is done at the site and taken off its line.
#![tactic(auto)]

ghost use Rattle.std.specs.Prelude.{◌≡◌, [], ◌∷◌, ◌++◌, ◌+◌, ◌<◌, length, Ok};
ghost use Rattle.lists.specs.Lists.{keep};
ghost use Rattle.limits.specs.Limits.{ops_most};
ghost use Rattle.timestamp.specs.Value.{stamp_of};
ghost use Rattle.site.specs.Site.{received};
ghost use Rattle.site_operations.specs.InWords.{op_at, ops_in};
ghost use Rattle.protocol.specs.Network.{nth_record};
ghost use Rattle.protocol.specs.Steps.{head, wanted_at, writes_for};
ghost use Rattle.network_layout.specs.Layout.{state_size};
ghost use Rattle.network_layout.specs.InWords.{network_in, SiteStep};
ghost use Rattle.network_layout.specs.At.{AtNetwork};
ghost use Rattle.network_layout.specs.Promises.{ScheduleAnswered};
ghost use Rattle.network_choice.specs.Choice.{Choosing, ChoosingFrom};
ghost use Rattle.network_schedule.specs.Wanted.{Laid, Recorded, Wanting, Gathering};

use causes::Refusal;
use network_layout::{Scheduled, WORDS};
use timestamp::Timestamp;

// Operations in words, three each: the first `count` of eight.
#[derive(Clone, Copy)]
struct Writes {
    count: usize,
    ops: [u32; site_operations::OPERATIONS],
}

// Schedule at a site. It answers the parent and the timestamp of the message done.
pub fn schedule(state: &mut [u32; WORDS], site: u32) -> Result<Scheduled, Refusal>
    ensures { ScheduleAnswered site state.old state.new result }
{
    schedule_in(state, site)
}

fn schedule_in(state: &mut [u32], site: u32) -> Result<Scheduled, Refusal>
    requires { length state.old ≡ state_size }
    ensures { ScheduleAnswered site state.old state.new result }
{
    if !network_shape::shaped(state) {
        return Err(Refusal::NoState);
    }
    schedule_on(state, site)
}

// The same on the words of a network.
pub fn schedule_on(state: &mut [u32], site: u32) -> Result<Scheduled, Refusal>
    requires { AtNetwork state.old }
    ensures { ScheduleAnswered site state.old state.new result }
{
    network_schedule_causes::schedule_number(state, site)?;
    Ok(take_chosen(state, site))
}

// ---- a schedule that is not refused
// The chosen message done at site j and taken off its line.
fn take_chosen(state: &mut [u32], j: u32) -> Scheduled
    requires { Choosing state.old j }
    ensures { ScheduleAnswered j state.old state.new (Ok result) }
{
    let best = network_choice::chosen(state, j);
    let parent = best.parent;
    let stamp = best.stamp;
    receive(state, parent, j, stamp);
    network_lines::line_take(state, network_lines::line_number(parent, j));
    Scheduled { parent, stamp }
}

// The oldest message from a parent done at the site, with its timestamp t.
fn receive(state: &mut [u32], p: u32, j: u32, t: Timestamp)
    requires { ChoosingFrom state.old p j }
    ensures { SiteStep state.old state.new j (received (writes_for (network_in state.old) j (head (network_in state.old) p j)) (stamp_of t)) }
{
    let wanted = head_writes(state, p, j);
    let ops = wanted.ops;
    network_sites::site_receive(state, words::wide(j), &ops, wanted.count, t);
}

// ---- the writes that site j wants
// Those of the oldest message from a parent: of a commit those of its record, of a dummy none.
fn head_writes(state: &[u32], p: u32, j: u32) -> Writes
    requires { ChoosingFrom state.now p j }
    ensures { Laid ops_most result.count result.ops (writes_for (network_in state.now) j (head (network_in state.now) p j)) }
{
    let name = network_lines::line_first_name(state, network_lines::line_number(p, j));
    if limits::RECORDS <= name {
        return Writes {
            count: 0,
            ops: [0u32; site_operations::OPERATIONS],
        };
    }
    record_writes(state, words::wide(name), j)
}

// Those of record k.
fn record_writes(state: &[u32], k: usize, j: u32) -> Writes
    requires { Recorded state.now k }
    ensures { Laid ops_most result.count result.ops (keep (wanted_at (network_in state.now).items j) (nth_record (network_in state.now) k).ops) }
{
    let n = network_records::operation_count(state, k);
    let ops = network_records::record_ops(state, k);
    wanted(state, &ops, n, j)
}

// Those of the first n operations.
fn wanted(state: &[u32], ops: &[u32], n: usize, j: u32) -> Writes
    requires { Wanting state.now n }
    ensures { Laid n result.count result.ops (keep (wanted_at (network_in state.now).items j) (ops_in n ops.now)) }
{
    let mut out = [0u32; site_operations::OPERATIONS];
    let mut count = 0;
    let mut i = 0;
    while i < n {
        count = wanted_one(&mut out, count, state, ops, i, j);
        i += 1;
    }
    Writes { count, ops: out }
}

// Operation i too, where it is wanted. It answers how many there are now.
fn wanted_one(
    out: &mut [u32; site_operations::OPERATIONS],
    count: usize,
    state: &[u32],
    ops: &[u32],
    i: usize,
    j: u32,
) -> usize
    requires { Gathering state.now out.old count ops.now i j }
    ensures { Laid (i + 1) result out.new (keep (wanted_at (network_in state.now).items j) (ops_in (i + 1) ops.now)) }
{
    if !network_placement::is_wanted(state, ops, i, j) {
        return count;
    }
    copy_one(out, count, ops, i);
    count + 1
}

// Operation i behind the first `count`.
fn copy_one(out: &mut [u32; site_operations::OPERATIONS], count: usize, ops: &[u32], i: usize)
    requires { count < ops_most }
    ensures { ops_in (count + 1) out.new ≡ ops_in count out.old ++ (op_at ops.now i ∷ []) }
{
    site_operations::put(
        out,
        count,
        site_operations::kind(ops, i),
        site_operations::item(ops, i),
        site_operations::value(ops, i),
    );
}
