// One line of a script: a line of bytes in, the answer's bytes out, over a lent state.
#![tactic(auto)]

pub use script_line::line;
pub use script_notation::ANSWER;
pub use script_printing::entry;
