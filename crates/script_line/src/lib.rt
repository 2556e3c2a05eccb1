// One line of a script, with a test of the state, and on words of which it is known whether they are those of a network.
#![tactic(auto)]

ghost use Rattle.std.specs.Prelude.{get_or};
ghost use Rattle.script_notation.specs.Fields.{fields_from};
ghost use Rattle.script_notation.specs.Parse.{parse, called as calledBy};
ghost use Rattle.script_notation.specs.Answers.{Replied, Informed, Answered};
ghost use Rattle.script_line.specs.Asked.{Lettered};

use network_layout::WORDS;
use script_notation::{ANSWER, Reply};

// A line, without its newline, on a state: it answers the length of the answer, which is at the front of the buffer.
pub fn line(text: &[u8], state: &mut [u32; WORDS], out: &mut [u8; ANSWER]) -> usize
    ensures { Replied (parse text.now) state.old state.new out.old out.new result }
{
    let formed = network_state::well_shaped(state);
    let reply = line_on(text, state, formed, out, 0);
    reply.end
}

// The same from a place of the buffer on, where it is known whether the words are those of a network: nothing is tested but the line.
pub fn line_on(
    text: &[u8],
    state: &mut [u32; WORDS],
    formed: bool,
    out: &mut [u8],
    at: usize,
) -> Reply
    requires { Informed state.old formed out.old at }
    ensures { Answered (parse text.now) state.old state.new out.old out.new at result }
{
    if !script_fields::lettered(text) {
        return script_replies::question(formed, out, at);
    }
    called(text, state, formed, out, at)
}

// The call that the first byte chooses.
fn called(text: &[u8], state: &mut [u32; WORDS], formed: bool, out: &mut [u8], at: usize) -> Reply
    requires { Lettered text.now state.old formed out.old at }
    ensures { Answered (calledBy (get_or text.now 0 0) (fields_from text.now 2)) state.old state.new out.old out.new at result }
{
    match text[0] {
        b'p' => script_calls::set_up(text, state, formed, out, at),
        b'c' => script_calls::commit(text, state, formed, out, at),
        b'd' => script_calls::at_site(false, text, state, formed, out, at),
        b'e' => script_calls::of_two(false, text, state, formed, out, at),
        b'l' => script_calls::of_two(true, text, state, formed, out, at),
        b's' => script_calls::at_site(true, text, state, formed, out, at),
        _ => script_replies::question(formed, out, at),
    }
}
