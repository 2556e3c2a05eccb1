// A commit whose operations come as records: their fields are gathered into arrays, and committed.
#![tactic(auto)]

ghost use Rattle.std.specs.Prelude.{List, [], ◌∷◌, ◌++◌, ◌≤◌, take};
ghost use Rattle.network_layout.specs.declared.Operation.{Operation as Op};
ghost use Rattle.network_operations.specs.Gathered.{gathered_most, Gathers, operations_call};
ghost use Rattle.network_layout.specs.Promises.{CommitAnswered};

use causes::Refusal;
use network_layout::{Committed, Operation, WORDS};

// The fields of the first `count` operations. Nine stand for more, which are refused whatever they say.
#[derive(Clone, Copy)]
pub struct Gathered {
    pub count: usize,
    pub kinds: [u8; 9],
    pub items: [u32; 9],
    pub values: [i32; 9],
}

// A commit at a site, as `commit`, with its operations as records.
pub fn commit_operations(
    state: &mut [u32; WORDS],
    site: u32,
    operations: &[Operation],
) -> Result<Committed, Refusal>
    ensures { CommitAnswered (operations_call site operations.now) state.old state.new result }
{
    let gathered = gather(operations);
    commit_gathered(state, site, gathered)
}

// The fields of the first operations; `added` passes over those past the ninth.
fn gather(operations: &[Operation]) -> Gathered
    ensures { Gathers (take gathered_most operations.now) result }
{
    let mut gathered = empty();
    let mut i = 0usize;
    while i < operations.len() {
        gathered = added(gathered, operations[i]);
        i = i + 1;
    }
    gathered
}

// Nothing is gathered before the first operation.
pub fn empty() -> Gathered
    ensures { Gathers [] result }
{
    Gathered {
        count: 0,
        kinds: [0; 9],
        items: [0; 9],
        values: [0; 9],
    }
}

// One operation more, where there is room for it.
pub fn added(gathered: Gathered, operation: Operation) -> Gathered
    ensures { (os : List Op) → Gathers (take gathered_most os) gathered → Gathers (take gathered_most (os ++ (operation ∷ []))) result }
{
    let at = gathered.count;
    if 9 <= at {
        return gathered;
    }
    let mut kinds = gathered.kinds;
    let mut items = gathered.items;
    let mut values = gathered.values;
    let value = operation.value;
    kinds[at] = operation.kind;
    items[at] = operation.item;
    values[at] = value;
    Gathered {
        count: at + 1,
        kinds,
        items,
        values,
    }
}

// A commit of the operations, however many, of which these were gathered.
pub fn commit_gathered(
    state: &mut [u32; WORDS],
    site: u32,
    gathered: Gathered,
) -> Result<Committed, Refusal>
    requires { gathered.count ≤ gathered_most }
    ensures { (os : List Op) → Gathers (take gathered_most os) gathered → CommitAnswered (operations_call site os) state.old state.new result }
{
    let n = gathered.count;
    let kinds = gathered.kinds;
    let items = gathered.items;
    let values = gathered.values;
    network_commit::commit(state, site, &kinds[..n], &items[..n], &values[..n])
}
