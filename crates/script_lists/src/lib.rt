// The lists that a line's fields fill: the operations that are kept of a commit, and a set-up's items.
#![tactic(auto)]

ghost use Rattle.std.specs.Prelude.{◌≡◌, [], ◌∷◌, ◌++◌, ◌≤◌, take};
ghost use Rattle.std.specs.Option.{IfSome};
ghost use Rattle.lists.specs.Answers.{given_as};
ghost use Rattle.script_notation.specs.Parse.{first_operations, placed, first_items};
ghost use Rattle.script_lists.specs.Asked.{ToKeep, ToItems};
ghost use Rattle.script_lists.specs.Kept.{kept_most, op_of};

use network_layout::Operation;

// A commit takes eight operations at most: nine stand for more.
pub const KEPT: usize = 9;

// An operation behind the first `count`, where these are not nine. It answers how many there are now. Three lists, since `network_commit::commit_on` takes them.
pub fn keep(
    o: Operation,
    count: usize,
    kinds: &mut [u8],
    items: &mut [u32],
    values: &mut [i32],
) -> usize
    requires { ToKeep count kinds.old items.old values.old }
    ensures kept { first_operations result kinds.new items.new values.new ≡ take kept_most (first_operations count kinds.old items.old values.old ++ (op_of o ∷ [])) }
    ensures few { result ≤ kept_most }
{
    if KEPT <= count {
        return count;
    }
    kinds[count] = o.kind;
    items[count] = o.item;
    values[count] = o.value;
    count + 1
}

// The items that numbers stand for two by two, from the front of the lists. It answers how many there are.
pub fn items(list: &[u32], primaries: &mut [u32], masks: &mut [u8]) -> Option<usize>
    requires { ToItems list.now primaries.old masks.old }
    ensures placed { given_as (λ n. first_items n primaries.new masks.new) result ≡ placed list.now }
    ensures few { IfSome result (λ n. n ≤ 128) }
{
    let count = list.len() / 2;
    for i in 0..count {
        primaries[i] = list[2 * i];
        masks[i] = u8::try_from(list[2 * i + 1]).ok()?;
    }
    (list.len() == 2 * count).then_some(count)
}
