// Numbers from decimal bytes: parsed from a lent text.
#![tactic(auto)]

ghost use Rattle.std.specs.Prelude.{◌≡◌, cond, ◌&&◌, ◌+◌, ◌-◌, ◌*◌, ◌≤◌, leb};
ghost use Rattle.std.proofs.Math.Option.{some, none};
ghost use Rattle.lists.specs.Lists.{every};
ghost use Rattle.lists.specs.Answers.{given};
ghost use Rattle.decimal.specs.Decimal.{is_digit, extra_zero, value_from, greatest, natural as naturalIn, signed as signedIn, negative, not_negative};

// The number that a text stands for.
#[tactic(auto, using(crate::proofs::Values::natural_empty, crate::proofs::Values::natural_zero, crate::proofs::Values::natural_told))]
pub fn natural(text: &[u8]) -> Option<u32>
    ensures { given result ≡ naturalIn text.now }
{
    if text.is_empty() || extra_zero(text) {
        return None;
    }
    value(text)
}

// The signed number that a text stands for.
pub fn signed(text: &[u8]) -> Option<i32>
    ensures { given result ≡ signedIn text.now }
{
    match text.strip_prefix(b"-") {
        Some(magnitude) => below_zero(natural(magnitude)?),
        None => above_zero(natural(text)?),
    }
}

// A zero in front of other bytes.
fn extra_zero(text: &[u8]) -> bool
    ensures { result ≡ extra_zero text.now }
{
    1 < text.len() && text[0] == b'0'
}

// The value of a text of digits.
fn value(text: &[u8]) -> Option<u32>
    ensures { given result ≡ cond (every is_digit text.now && leb (value_from 0 text.now) greatest) (some (value_from 0 text.now)) none }
{
    let mut v = 0;
    for d in text {
        v = with_digit(v, *d)?;
    }
    Some(v)
}

// The value with one digit more.
fn with_digit(v: u32, d: u8) -> Option<u32>
    ensures { given result ≡ cond (is_digit d && leb (v * 10 + (d - 48)) greatest) (some (v * 10 + (d - 48))) none }
{
    if !d.is_ascii_digit() {
        return None;
    }
    v.checked_mul(10)?.checked_add(u32::from(d - b'0'))
}

// A magnitude below zero.
fn below_zero(m: u32) -> Option<i32>
    ensures { given result ≡ negative (some m) }
{
    if m == 0 {
        return None;
    }
    0i32.checked_sub_unsigned(m)
}

// A magnitude not below zero.
fn above_zero(m: u32) -> Option<i32>
    ensures { given result ≡ not_negative (some m) }
{
    i32::try_from(m).ok()
}
