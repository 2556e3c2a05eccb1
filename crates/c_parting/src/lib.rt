// Where two timestamps part, laid into words, as C lends them.
#![tactic(auto)]

ghost use Rattle.std.specs.Prelude.{◌≡◌};
ghost use Rattle.timestamp_order.specs.Parting.{shared_of};
ghost use Rattle.c_parting.specs.Fields.{ForParting, parting_words};

use timestamp_order::Parting;

// Whether the epochs differ, and how many leading tuples are shared.
pub fn put_parting(w: &mut [u32], given: Parting)
    requires { ForParting w.old given }
    ensures { w.new ≡ parting_words (shared_of given) }
{
    match given {
        Parting::Epochs => words::copy(w, &[1, 0]),
        Parting::After(n) => words::copy(w, &[0, n as u32]),
    }
}
