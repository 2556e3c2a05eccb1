// Numbers printed as decimal bytes into a lent buffer.
#![tactic(auto)]

ghost use Rattle.std.specs.Prelude.{◌≡◌, ◌+◌, ◌-◌, ◌≤◌, length, leb};
ghost use Rattle.decimal.specs.Decimal.{digits, signed_digits, Printed, PrintedIn};

// The digits of a number from a place on. It answers the place behind them. Where fewer than ten bytes are left it prints nothing.
pub fn put(out: &mut [u8], at: usize, n: u32) -> usize
    ensures { PrintedIn 10 out.old out.new at result (digits n) }
{
    if !has_room(out.len(), at, 10) {
        return at;
    }
    spell(out, at, n)
}

// A signed number likewise, where eleven bytes are left.
pub fn put_signed(out: &mut [u8], at: usize, v: i32) -> usize
    ensures { PrintedIn 11 out.old out.new at result (signed_digits v) }
{
    if !has_room(out.len(), at, 11) {
        return at;
    }
    let m = v.unsigned_abs();
    if 0 <= v {
        return spell(out, at, m);
    }
    out[at] = b'-';
    spell(out, at + 1, m)
}

// How many digits a number has.
fn size(n: u32) -> usize
    ensures { result ≡ length (digits n) }
{
    let mut m = n;
    let mut k = 1usize;
    while 10 <= m {
        m = m / 10;
        k += 1;
    }
    k
}

// The digits of a number from a place on, the last one first.
fn spell(out: &mut [u8], at: usize, n: u32) -> usize
    requires { at + length (digits n) ≤ length out.old }
    ensures { Printed out.old out.new at result (digits n) }
{
    let end = at + size(n);
    let mut i = end - 1;
    let mut m = n;
    while 10 <= m {
        out[i] = 48 + ((m % 10) as u8);
        m = m / 10;
        i -= 1;
    }
    out[i] = 48 + (m as u8);
    end
}

// k bytes are left of some from a place on.
fn has_room(len: usize, at: usize, k: usize) -> bool
    ensures { result ≡ leb (at + k) len }
{
    k <= len && at <= len - k
}
