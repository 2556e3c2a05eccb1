// A line's fields: the numbers and a commit's operations in them.
#![tactic(auto)]

ghost use Rattle.std.specs.Prelude.{◌≡◌, ◌≤◌, take};
ghost use Rattle.std.specs.Option.{IfSome};
ghost use Rattle.lists.specs.Answers.{given_as};
ghost use Rattle.decimal.specs.Decimal.{natural};
ghost use Rattle.script_notation.specs.Fields.{fields_from};
ghost use Rattle.script_notation.specs.Parse.{on, all, assigned as assignedIn, operation as operationIn, first_operations};
ghost use Rattle.script_parsing.specs.Asked.{ToNumbersFrom, ToOperations};
ghost use Rattle.script_parsing.specs.Parsed.{OneNumber, TwoNumbers};
ghost use Rattle.script_lists.specs.Kept.{kept_most, kept_of, op_of};

use network_layout::Operation;

// The number behind the letter, where it is all that stands there.
pub fn one_number(text: &[u8]) -> Option<u32>
    ensures { OneNumber text.now result }
{
    decimal::natural(text.get(2..)?)
}

// The two numbers behind the letter, where they are all that stands there.
pub fn two_numbers(text: &[u8]) -> Option<(u32, u32)>
    ensures { TwoNumbers text.now result }
{
    let end = script_fields::find(text, 2, b' ');
    let rest = text.get(end + 1..)?;
    let first = decimal::natural(&text[2..end])?;
    let second = decimal::natural(rest)?;
    Some((first, second))
}

// The fields from a position on as numbers, from the front of a list. It answers how many there are.
pub fn numbers(text: &[u8], from: usize, list: &mut [u32]) -> Option<usize>
    requires { ToNumbersFrom text.now from list.old }
    ensures numbers { given_as (λ n. take n list.new) result ≡ all natural (fields_from text.now from) }
    ensures few { IfSome result (λ n. n ≤ 256) }
{
    let mut at = from;
    let mut count = 0;
    while at <= text.len() {
        let end = script_fields::find(text, at, b' ');
        list[count] = decimal::natural(&text[at..end])?;
        count += 1;
        at = end + 1;
    }
    Some(count)
}

// The operations in the fields from a position on, the first nine of them from the front of the lists. It answers how many are there.
pub fn operations(
    text: &[u8],
    from: usize,
    kinds: &mut [u8],
    items: &mut [u32],
    values: &mut [i32],
) -> Option<usize>
    requires { ToOperations text.now kinds.old items.old values.old }
    ensures operations { given_as (λ n. first_operations n kinds.new items.new values.new) result ≡ on (all operationIn (fields_from text.now from)) kept_of }
    ensures few { IfSome result (λ n. n ≤ kept_most) }
{
    let mut at = from;
    let mut count = 0;
    while at <= text.len() {
        let end = script_fields::find(text, at, b' ');
        let o = operation(&text[at..end])?;
        count = script_lists::keep(o, count, kinds, items, values);
        at = end + 1;
    }
    Some(count)
}

// The operation in a field.
#[tactic(auto, unfolding(script_notation::specs::Parse::operation))]
fn operation(field: &[u8]) -> Option<Operation>
    ensures { given_as op_of result ≡ operationIn field.now }
{
    match field.split_first()? {
        (b'r', item) => Some(Operation {
            kind: 0,
            item: decimal::natural(item)?,
            value: 0,
        }),
        (b'w', rest) => assigned(rest),
        _ => None,
    }
}

// A write, from what stands behind its letter.
fn assigned(text: &[u8]) -> Option<Operation>
    ensures { given_as op_of result ≡ assignedIn text.now }
{
    let end = script_fields::find(text, 0, b'=');
    let value = text.get(end + 1..)?;
    Some(Operation {
        kind: 1,
        item: decimal::natural(&text[..end])?,
        value: decimal::signed(value)?,
    })
}
