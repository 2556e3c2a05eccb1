// What a file is written of: values in four bytes, eights of bytes, and a trailer.
#![tactic(auto)]

ghost use Rattle.std.specs.Prelude.{◌≡◌, length};
ghost use Rattle.history_file.specs.Bytes.{byte, little, value_size, unit, unit_size};
ghost use Rattle.history_file.specs.File.{trailer, trailer_size};
ghost use Rattle.history_units.specs.Asked.{InFile};

use history_file::MARK;

// The lowest byte of a number.
fn low(n: u32) -> u8
    ensures { result ≡ byte n }
{
    (n % 256) as u8
}

// Four bytes: a number.
pub fn put_number(b: &mut [u8], n: u32)
    requires { length b.old ≡ value_size }
    ensures { b.new ≡ little n }
{
    let u = [
        low(n),
        low(n / 256),
        low(n / 256 / 256),
        low(n / 256 / 256 / 256),
    ];
    b.copy_from_slice(&u);
}

// Eight bytes: three fields, 0, and a number in four bytes.
pub fn put_unit(b: &mut [u8], x: u32, y: u32, z: u32, n: u32)
    requires { length b.old ≡ unit_size }
    ensures { b.new ≡ unit x y z n }
{
    let u = [
        low(x),
        low(y),
        low(z),
        0u8,
        low(n),
        low(n / 256),
        low(n / 256 / 256),
        low(n / 256 / 256 / 256),
    ];
    b.copy_from_slice(&u);
}

// The trailer of a file.
pub fn put_trailer(b: &mut [u8], count: u32, distance: u32, sites: u32, items: u32, flag: u32)
    requires { length b.old ≡ trailer_size }
    ensures { b.new ≡ trailer count distance sites items flag }
{
    let t = [
        MARK[0],
        MARK[1],
        MARK[2],
        MARK[3],
        low(count),
        low(count / 256),
        low(count / 256 / 256),
        low(count / 256 / 256 / 256),
        low(distance),
        low(distance / 256),
        low(distance / 256 / 256),
        low(distance / 256 / 256 / 256),
        low(sites),
        low(items),
        low(flag),
        0u8,
    ];
    b.copy_from_slice(&t);
}

// A count as a number of 32 bits.
pub fn short(n: usize) -> u32
    requires { InFile n }
    ensures { result ≡ n }
{
    n as u32
}
