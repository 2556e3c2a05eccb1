// The history of a script as a file: the lines of standard input are answered on standard error, and the history file is written to standard
// output.
#![tactic(auto)]

use network::WORDS;
use std::io;

// Where the script was not read or answered to its end, there is no file.
fn main(rt: HostRuntime) -> io::Result<()> {
    let mut state = [0u32; WORDS];
    if console::run_on(
        &mut state,
        &mut rt.stdin(),
        &mut rt.stderr(),
        &mut rt.stderr(),
    ) {
        save(&rt, &state)?;
    }
    Ok(())
}

// The buffer holds the longest file: a table of 8 bytes, 64 base values of 4, 256 records of 136 and a trailer of 16. A refused export prints its number on standard error.
fn save(rt: &(impl Print + Eprint), state: &[u32; WORDS]) -> io::Result<()> {
    let mut file = [0u8; 35096];
    let answer = history::export(state, &mut file);
    if answer.number != 0 {
        return eprintln!(rt; "{}", answer.number);
    }
    rt.write_all(&file[..answer.length])
}
