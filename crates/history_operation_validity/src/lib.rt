// Whether bytes are those of operations: their kinds, their items, their 00 bytes.
#![tactic(auto)]

ghost use Rattle.std.specs.Prelude.{◌≡◌, ◌*◌, ◌≤◌, length};
ghost use Rattle.words.specs.Words.{chunks};
ghost use Rattle.lists.specs.Lists.{every};
ghost use Rattle.history_file.specs.Bytes.{unit_size};
ghost use Rattle.history_operation_validity.specs.Fits.{op_fit};

// Whether an operation is of a known kind on one of the items, its 00 bytes 0.
fn operation_fits(u: &[u8], items: u32) -> bool
    requires { length u.now ≡ unit_size }
    ensures { result ≡ op_fit items u.now }
{
    if !history_numbers::zeros(&u[2..4]) {
        return false;
    }
    if 1 < u[0] {
        return false;
    }
    history_numbers::wide(u[1]) < items
}

// Whether n operations fit.
pub fn operations_fit(b: &[u8], n: usize, items: u32) -> bool
    requires { n * unit_size ≤ length b.now }
    ensures { result ≡ every (op_fit items) (chunks unit_size n b.now) }
{
    let mut i = 0usize;
    while i < n {
        let a = i * 8;
        let e = a + 8;
        if !operation_fits(&b[a..e], items) {
            return false;
        }
        i += 1;
    }
    true
}
