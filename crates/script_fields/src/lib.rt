// Where the fields of a line end, and whether a letter stands in front of them.
#![tactic(auto)]

ghost use Rattle.std.specs.Prelude.{◌≡◌, ◌&&◌, ◌+◌, not, eqb, leb, length, drop};
ghost use Rattle.std.specs.List.{prefix_len};
ghost use Rattle.script_notation.specs.Fields.{space, position};
ghost use Rattle.script_notation.specs.Parse.{longest};

// Where a byte first stands from a position on, or the end.
pub fn find(text: &[u8], from: usize, byte: u8) -> usize
    ensures { result ≡ from + position byte (drop from text.now) }
{
    from + first(&text[from.min(text.len())..], byte)
}

// The bytes of the longest line.
const LINE_BYTES: usize = 512;

// A line that is not too long, whose first field is one byte.
#[tactic(auto, using(script_notation::proofs::Places::place_is))]
pub fn lettered(text: &[u8]) -> bool
    ensures { result ≡ (leb (length text.now) longest && eqb (position space text.now) 1) }
{
    text.len() <= LINE_BYTES && first(text, b' ') == 1
}

// Where a byte first stands, or the end.
fn first(text: &[u8], byte: u8) -> usize
    ensures { result ≡ prefix_len (λ x. not (eqb x byte)) text.now }
{
    text.iter().take_while(|b| **b != byte).count()
}
