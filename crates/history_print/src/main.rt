// The records of a history file, one line each: the file is read on standard input.
#![tactic(auto)]

ghost use Rattle.std.specs.Prelude.{◌≤◌, IfOk, length};
ghost use Rattle.history_print.specs.Asked.{Filled, Room};

use history::Found;
use limits::SITES_WIDE;
use script_notation::ANSWER;
use std::io;
use std::io::Read;

// One byte more than is taken, for an input that is too long.
fn main(rt: HostRuntime) -> io::Result<()> {
    let mut file = [0u8; 65537];
    let n = load(&mut rt.stdin(), &mut file)?;
    if 65536 < n {
        return println!(rt; "?");
    }
    print(&rt, &file[..n])
}

// A reader's bytes to the front of the buffer, to their end or the buffer's. It answers how many bytes there are.
fn load<R: Read>(from: &mut R, file: &mut [u8]) -> io::Result<usize>
    ensures { IfOk result (λ n. n ≤ length file.old) }
{
    let mut filled = 0usize;
    while filled < file.len() {
        let n = from.read(&mut file[filled..])?;
        if n == 0 {
            return Ok(filled);
        }
        filled += n;
    }
    Ok(filled)
}

// The file at the end of the bytes, or the number for which it is refused.
fn print(rt: &impl Print, b: &[u8]) -> io::Result<()> {
    let file = history::check(b);
    if file.number != 0 {
        return println!(rt; "{}", file.number);
    }
    let part = history::part(b);
    let places = file.places;
    records(rt, part, file.records, file.sites, file.items, places)
}

// From record to record of a part; the lines are collected and written when there are many.
fn records(
    rt: &impl Print,
    part: &[u8],
    n: u32,
    sites: u32,
    items: u32,
    places: [u8; SITES_WIDE],
) -> io::Result<()> {
    let mut lines = [0u8; 65536];
    let mut filled = 0usize;
    let mut at = 0usize;
    for _ in 0..n {
        let r = history::record_from(part, at, sites, items, places);
        at = r.next;
        filled = add(rt, r, &mut lines, filled)?;
    }
    rt.write_all(&lines[..filled])
}

// A record's line behind the others, which are written first where there is no room for one more. It answers how many bytes are filled.
fn add(rt: &impl Print, r: Found, lines: &mut [u8], filled: usize) -> io::Result<usize>
    requires { Filled lines.old filled }
    ensures { IfOk result (λ n. n ≤ 65536) }
{
    let mut text = [0u8; ANSWER];
    let n = line(r, &mut text);
    if 65023 < filled {
        rt.write_all(&lines[..filled])?;
        return Ok(append(&text[..n], lines, 0));
    }
    Ok(append(&text[..n], lines, filled))
}

fn line(r: Found, text: &mut [u8; ANSWER]) -> usize
    ensures { (result ≤ 389) × (result ≤ length text.new) }
{
    let site = r.site;
    let stamp = r.stamp;
    let count = r.count;
    let kinds = r.kinds;
    let items = r.items;
    let values = r.values;
    script_printing::entry(site, stamp, count, &kinds, &items, &values, text)
}

// A line and a newline.
fn append(text: &[u8], lines: &mut [u8], filled: usize) -> usize
    requires { Room text.now lines.old filled }
    ensures { result ≤ 65536 }
{
    let end = filled + text.len();
    lines[end] = 10;
    lines[filled..end].copy_from_slice(text);
    end + 1
}
