// The messages on all lines of a state by a table of names: whether one names a commit that goes, and the commits by their new names.
#![tactic(auto)]

ghost use Rattle.std.specs.Prelude.{◌≡◌, get_or};
ghost use Rattle.lines.specs.Lines.{no_line};
ghost use Rattle.line_renaming.specs.Renaming.{line_renamed_by};
ghost use Rattle.network_layout.specs.InWords.{network_in, LineStep};
ghost use Rattle.network_layout.specs.At.{AtState, HasLine};
ghost use Rattle.network_renaming.specs.Renamed.{line_gone, some_gone, Renaming, RenamingLine, RenamedStep};

use limits::RECORDS_WIDE;
use network_layout::{LINE, LINES, LINES_MOST};

// Whether a message on some line names a commit that goes.
pub fn some_gone(state: &[u32], names: &[u32; RECORDS_WIDE]) -> bool
    requires { AtState state.now }
    ensures { result ≡ some_gone names.now (network_in state.now) }
{
    for k in 0..LINES_MOST {
        if line_gone(state, k, names) {
            return true;
        }
    }
    false
}

fn line_gone(state: &[u32], k: usize, names: &[u32; RECORDS_WIDE]) -> bool
    requires { HasLine state.now k }
    ensures { result ≡ line_gone names.now (get_or (network_in state.now).lines k no_line) }
{
    line_renaming::names_gone(network_lines::line_at(state, k), names)
}

// Every commit named on a line by its new name.
pub fn rename(state: &mut [u32], names: &[u32; RECORDS_WIDE])
    requires { Renaming state.old names.now }
    ensures { RenamedStep names.now state.old state.new }
{
    for k in 0..LINES_MOST {
        rename_line(state, k, names);
    }
}

fn rename_line(state: &mut [u32], k: usize, names: &[u32; RECORDS_WIDE])
    requires { RenamingLine state.old names.now k }
    ensures { LineStep state.old state.new k (line_renamed_by names.now) }
{
    let a = LINES + k * LINE;
    let e = a + LINE;
    line_renaming::rename(&mut state[a..e], names);
}
