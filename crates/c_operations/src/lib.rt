// A commit's operations as C lends them, in words, three each: kind, item, value.
#![tactic(auto)]

ghost use Rattle.std.specs.Prelude.{◌≡◌, map, min, take};
ghost use Rattle.network_operations.specs.Gathered.{gathered_most, Gathers};
ghost use Rattle.c_operations.specs.Operations.{operation_of};

use network_layout::Operation;
use network_operations::Gathered;

// What a commit takes of them: the first nine, where there are more.
pub fn gather(operations: &[[u32; 3]]) -> Gathered
    ensures { Gathers (take gathered_most (map operation_of operations.now)) result }
{
    let mut gathered = network_operations::empty();
    let mut i = 0usize;
    while i < operations.len() {
        let w = operations[i];
        gathered = network_operations::added(gathered, operation(w));
        i += 1;
    }
    gathered
}

fn operation(w: [u32; 3]) -> Operation
    ensures { result ≡ operation_of w }
{
    Operation {
        kind: kind(w[0]),
        item: w[1],
        value: words::value(w[2]),
    }
}

fn kind(word: u32) -> u8
    ensures { result ≡ min word 255 }
{
    if word < 255 {
        return word as u8;
    }
    255
}
