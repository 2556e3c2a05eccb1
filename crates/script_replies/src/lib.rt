// Replies that need no step: a question mark, and the number of a call on no network; and what a set-up's answer says of the words.
#![tactic(auto)]

ghost use Rattle.std.specs.Prelude.{◌≡◌, true, cond, ◌∷◌, [], ◌+◌, ◌≤◌, eqb, length};
ghost use Rattle.causes.specs.Refusals.{number_of};
ghost use Rattle.decimal.specs.Decimal.{digits};
ghost use Rattle.script_notation.specs.Print.{answer_most};
ghost use Rattle.script_notation.specs.Answers.{Said};

use causes::Refusal;
use script_notation::Reply;

// A question mark, for what is no call.
pub fn question(formed: bool, out: &mut [u8], at: usize) -> Reply
    requires { at + answer_most ≤ length out.old }
    ensures { Said (63 ∷ []) formed out.old out.new at result }
{
    Reply {
        end: script_numbers::question(out, at),
        formed,
    }
}

// The number of a call that needs a network, on the words of none.
pub fn no_network(formed: bool, out: &mut [u8], at: usize) -> Reply
    requires { at + answer_most ≤ length out.old }
    ensures { Said (digits 6) formed out.old out.new at result }
{
    Reply {
        end: script_numbers::number(out, at, 6),
        formed,
    }
}

// An accepted set-up makes the words those of a network.
#[tactic(auto, using(causes::proofs::Refusals::accepted))]
pub fn formed_then(answer: Result<(), Refusal>, formed: bool) -> bool
    ensures { result ≡ cond (eqb (number_of answer) 0) true formed }
{
    answer.is_ok() || formed
}
