// The script program: it answers the lines of standard input, on a state that was never set up.
#![tactic(auto)]

use network_layout::WORDS;

fn main(rt: HostRuntime) {
    let mut state = [0u32; WORDS];
    console::run_on(
        &mut state,
        &mut rt.stdin(),
        &mut rt.stdout(),
        &mut rt.stderr(),
    );
}
