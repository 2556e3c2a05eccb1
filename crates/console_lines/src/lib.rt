// The lines that a block of bytes ends, each answered where it lies. Nothing is tested of the words: whether they are those of a network is known.
#![tactic(auto)]

ghost use Rattle.std.specs.Prelude.{◌≡◌, [], ◌∷◌};
ghost use Rattle.network_layout.specs.InWords.{shaped, meaning};
ghost use Rattle.console_notation.specs.Lines.{newline, told};
ghost use Rattle.console_lines.specs.Asked.{Collecting};
ghost use Rattle.console_lines.specs.Promises.{Collected, Ended};

use network_layout::WORDS;
use script_notation::Reply;

// What comes behind the lines that were answered: the next one starts at `from` and goes to `end`, the answers end at `filled`, and whether the words are
// then those of a network.
#[derive(Clone, Copy)]
pub struct Next {
    pub from: usize,
    pub end: usize,
    pub filled: usize,
    pub formed: bool,
}

// The lines that a block ends, where nothing is held before it.
pub fn lines(
    block: &[u8],
    state: &mut [u32; WORDS],
    formed: bool,
    out: &mut [u8],
    at: usize,
) -> Next
    requires { formed ≡ shaped state.old }
    ensures { Ended block.now state.old state.new out.old out.new at result }
{
    let mut from = 0;
    let mut filled = at;
    let mut known = formed;
    let mut end = console_cut::line_end(block, 0);
    while console_cut::goes_on(end, block.len(), filled, out.len()) {
        let reply = collect(&block[from..end], state, known, out, filled);
        filled = reply.end;
        known = reply.formed;
        let next = console_cut::line_behind(block, end);
        from = next.from;
        end = next.end;
    }
    Next {
        from,
        end,
        filled,
        formed: known,
    }
}

// A line's answer and a newline behind the answers so far. It answers where they end.
pub fn collect(
    text: &[u8],
    state: &mut [u32; WORDS],
    formed: bool,
    out: &mut [u8],
    at: usize,
) -> Reply
    requires { Collecting state.old formed out.old at }
    ensures { Collected (told (meaning state.old) text.now (newline ∷ [])) state.new out.old out.new at result }
{
    let reply = script_line::line_on(text, state, formed, out, at);
    Reply {
        end: console_cut::end_line(out, reply.end),
        formed: reply.formed,
    }
}
