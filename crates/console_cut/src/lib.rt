// Where the lines of a block start and end, whether one is answered yet, and the newline behind an answer. No line is answered here.
#![tactic(auto)]

ghost use Rattle.std.specs.Prelude.{◌≡◌, ◌&&◌, [], ◌∷◌, ◌+◌, ◌<◌, ltb, leb, length};
ghost use Rattle.decimal.specs.Decimal.{Printed};
ghost use Rattle.console_notation.specs.Lines.{newline, line_most};
ghost use Rattle.console_cut.specs.Cuts.{end_from, LineBehind};

// A line of a block: where it starts, and the newline that ends it, or the block's end.
#[derive(Clone, Copy)]
pub struct Line {
    pub from: usize,
    pub end: usize,
}

// Where the line from a place on ends.
pub fn line_end(block: &[u8], from: usize) -> usize
    ensures { result ≡ end_from block.now from }
{
    script_fields::find(block, from, b'\n')
}

// The line behind the newline at `end`.
pub fn line_behind(block: &[u8], end: usize) -> Line
    requires { end < length block.now }
    ensures { LineBehind block.now end result }
{
    let from = end + 1;
    Line {
        from,
        end: line_end(block, from),
    }
}

// The most bytes of an answer and its newline.
const LINE_MOST: usize = 294;

// A newline stands at `end` of so many bytes, and there is room for an answer.
#[tactic(auto, using(decimal::proofs::Printing::room_test))]
pub fn goes_on(end: usize, size: usize, at: usize, room: usize) -> bool
    ensures { result ≡ (ltb end size && leb (at + line_most) room) }
{
    end < size && LINE_MOST <= room && at <= room - LINE_MOST
}

// A newline behind an answer that ends at `end`. It answers where the next one starts.
#[tactic(auto, using(decimal::proofs::Printing::printed_byte))]
pub fn end_line(out: &mut [u8], end: usize) -> usize
    requires { end < length out.old }
    ensures { Printed out.old out.new end result (newline ∷ []) }
{
    out[end] = b'\n';
    end + 1
}

// Bytes of a block are left behind those that are used.
pub fn left(used: usize, block: &[u8]) -> bool
    ensures { result ≡ ltb used (length block.now) }
{
    used < block.len()
}
