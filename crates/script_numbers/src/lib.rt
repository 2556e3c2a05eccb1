// Numbers printed from a place of a buffer on: alone, behind a byte, and the two of a schedule; and a question mark.
#![tactic(auto)]

ghost use Rattle.std.specs.Prelude.{◌∷◌, [], ◌+◌, ◌≤◌, ◌<◌, length};
ghost use Rattle.decimal.specs.Decimal.{digits, signed_digits};
ghost use Rattle.script_notation.specs.Print.{Put, answer_most};
ghost use Rattle.script_numbers.specs.Numbers.{parent_text};

// A question mark, from a place of the buffer on.
pub fn question(out: &mut [u8], at: usize) -> usize
    requires { at < length out.old }
    ensures { Put answer_most out.old out.new at result (63 ∷ []) }
{
    out[at] = b'?';
    at + 1
}

// A number alone: what a set-up, an epoch and a deliver print, and every refusal.
pub fn number(out: &mut [u8], at: usize, n: u32) -> usize
    requires { at + 10 ≤ length out.old }
    ensures { Put 10 out.old out.new at result (digits n) }
{
    decimal_printing::put(out, at, n)
}

// A schedule's number and, of one that is accepted, its parent behind a space.
pub fn with_parent(out: &mut [u8], at: usize, n: u32, parent: u32) -> usize
    requires { at + 21 ≤ length out.old }
    ensures { Put 21 out.old out.new at result (parent_text n parent) }
{
    let end = number(out, at, n);
    if n != 0 {
        return end;
    }
    behind_byte(out, end, b' ', parent)
}

// A byte and a value behind it.
pub fn value(out: &mut [u8], at: usize, byte: u8, v: i32) -> usize
    requires { at + 12 ≤ length out.old }
    ensures { Put 12 out.old out.new at result (byte ∷ signed_digits v) }
{
    out[at] = byte;
    decimal_printing::put_signed(out, at + 1, v)
}

// A byte and a number behind it.
pub fn behind_byte(out: &mut [u8], at: usize, byte: u8, n: u32) -> usize
    requires { at + 11 ≤ length out.old }
    ensures { Put 11 out.old out.new at result (byte ∷ digits n) }
{
    out[at] = byte;
    decimal_printing::put(out, at + 1, n)
}
