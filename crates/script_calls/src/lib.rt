// The calls by their letters: the fields behind the letter parsed, the call made, its answer printed. No words are tested: whether they are those of a
// network is known before a call, and answered for the words after it.
#![tactic(auto)]

ghost use Rattle.std.specs.Prelude.{◌≡◌, true, cond, [], ◌+◌, ◌≤◌, eqb, length};
ghost use Rattle.std.proofs.Math.Option.{some};
ghost use Rattle.decimal.specs.Decimal.{natural, digits};
ghost use Rattle.causes.specs.Refusals.{number_of};
ghost use Rattle.protocol.specs.Network.{no_stamp};
ghost use Rattle.network_layout.specs.InWords.{shaped};
ghost use Rattle.network_layout.specs.Promises.{Performed};
ghost use Rattle.script_notation.specs.Fields.{fields_from};
ghost use Rattle.script_notation.specs.Parse.{all, on, one, two, set_up_of, commit_of, commit_with, operation};
ghost use Rattle.script_notation.specs.Print.{answer_most};
ghost use Rattle.script_notation.specs.Answers.{RepliedAt, Calling, Answered, Said};
ghost use Rattle.script_calls.specs.Chosen.{site_call, pair_call};
ghost use Rattle.script_calls.specs.Asked.{SettingUp, OnNetwork};

use causes::Refusal;
use network_layout::WORDS;
use script_lists::KEPT;
use script_notation::Reply;

// ---- set-up
pub fn set_up(
    text: &[u8],
    state: &mut [u32; WORDS],
    formed: bool,
    out: &mut [u8],
    at: usize,
) -> Reply
    requires { Calling text.now state.old formed out.old at }
    ensures { Answered (on (all natural (fields_from text.now 2)) set_up_of) state.old state.new out.old out.new at result }
{
    let mut list = [0u32; 256];
    let Some(count) = script_parsing::numbers(text, 2, &mut list) else {
        return script_replies::question(formed, out, at);
    };
    if count < 2 {
        return script_replies::question(formed, out, at);
    }
    set_up_numbers(&list[..count], state, formed, out, at)
}

// A set-up of the numbers of its line.
fn set_up_numbers(
    list: &[u32],
    state: &mut [u32; WORDS],
    formed: bool,
    out: &mut [u8],
    at: usize,
) -> Reply
    requires { SettingUp list.now state.old formed out.old at }
    ensures { Answered (set_up_of list.now) state.old state.new out.old out.new at result }
{
    let mut primaries = [0u32; 128];
    let mut masks = [0u8; 128];
    let Some(count) = script_lists::items(&list[2..], &mut primaries, &mut masks) else {
        return script_replies::question(formed, out, at);
    };
    let answer = network_set_up::set_up(
        state,
        list[0],
        list[1],
        &primaries[..count],
        &masks[..count],
    );
    set_up_reply(answer, formed, out, at)
}

// The number of a set-up, and what it says of the words.
fn set_up_reply(answer: Result<(), Refusal>, formed: bool, out: &mut [u8], at: usize) -> Reply
    requires { at + answer_most ≤ length out.old }
    ensures { Said (digits (number_of answer)) (cond (eqb (number_of answer) 0) true formed) out.old out.new at result }
{
    Reply {
        end: script_numbers::number(out, at, causes::number_of(answer)),
        formed: script_replies::formed_then(answer, formed),
    }
}

// ---- commit
pub fn commit(
    text: &[u8],
    state: &mut [u32; WORDS],
    formed: bool,
    out: &mut [u8],
    at: usize,
) -> Reply
    requires { Calling text.now state.old formed out.old at }
    ensures { Answered (commit_of (fields_from text.now 2)) state.old state.new out.old out.new at result }
{
    if text.len() < 2 {
        return script_replies::question(formed, out, at);
    }
    let end = script_fields::find(text, 2, b' ');
    let Some(site) = decimal::natural(&text[2..end]) else {
        return script_replies::question(formed, out, at);
    };
    commit_at(site, text, end + 1, state, formed, out, at)
}

// A commit at a site, its operations from a place on.
fn commit_at(
    site: u32,
    text: &[u8],
    from: usize,
    state: &mut [u32; WORDS],
    formed: bool,
    out: &mut [u8],
    at: usize,
) -> Reply
    requires { Calling text.now state.old formed out.old at }
    ensures { Answered (on (all operation (fields_from text.now from)) (λ os. some (commit_with site os))) state.old state.new out.old out.new at result }
{
    let mut kinds = [0u8; KEPT];
    let mut items = [0u32; KEPT];
    let mut values = [0i32; KEPT];
    let Some(count) = script_parsing::operations(text, from, &mut kinds, &mut items, &mut values)
    else {
        return script_replies::question(formed, out, at);
    };
    if !formed {
        return script_replies::no_network(formed, out, at);
    }
    let answer = network_commit::commit_on(
        state,
        site,
        &kinds[..count],
        &items[..count],
        &values[..count],
    );
    Reply {
        end: script_printing::committed(out, at, answer),
        formed,
    }
}

// ---- calls of one number
// A schedule, or a dummy, at the site behind the letter.
pub fn at_site(
    schedules: bool,
    text: &[u8],
    state: &mut [u32; WORDS],
    formed: bool,
    out: &mut [u8],
    at: usize,
) -> Reply
    requires { Calling text.now state.old formed out.old at }
    ensures { Answered (on (all natural (fields_from text.now 2)) (one (site_call schedules))) state.old state.new out.old out.new at result }
{
    let Some(site) = script_parsing::one_number(text) else {
        return script_replies::question(formed, out, at);
    };
    if !formed {
        return script_replies::no_network(formed, out, at);
    }
    Reply {
        end: at_site_on(schedules, site, state, out, at),
        formed,
    }
}

// The call on the words of a network.
fn at_site_on(
    schedules: bool,
    site: u32,
    state: &mut [u32; WORDS],
    out: &mut [u8],
    at: usize,
) -> usize
    requires { OnNetwork state.old out.old at }
    ensures { RepliedAt (some (site_call schedules site)) state.old state.new out.old out.new at result }
{
    if schedules {
        let scheduled = network_schedule::schedule_on(state, site);
        return script_printing::scheduled(out, at, scheduled);
    }
    let dummied = network_dummy::dummy_on(state, site);
    script_printing::dummied(out, at, dummied)
}

// ---- calls of two numbers
// A deliver, or an epoch, of the two numbers behind the letter.
pub fn of_two(
    delivers: bool,
    text: &[u8],
    state: &mut [u32; WORDS],
    formed: bool,
    out: &mut [u8],
    at: usize,
) -> Reply
    requires { Calling text.now state.old formed out.old at }
    ensures { Answered (on (all natural (fields_from text.now 2)) (two (pair_call delivers))) state.old state.new out.old out.new at result }
{
    let Some((first, second)) = script_parsing::two_numbers(text) else {
        return script_replies::question(formed, out, at);
    };
    if !formed {
        return script_replies::no_network(formed, out, at);
    }
    let number = of_two_on(delivers, first, second, state);
    Reply {
        end: script_numbers::number(out, at, number),
        formed,
    }
}

// The call on the words of a network.
fn of_two_on(delivers: bool, first: u32, second: u32, state: &mut [u32; WORDS]) -> u32
    requires { shaped state.old ≡ true }
    ensures { Performed (pair_call delivers first second) state.old state.new result 0 no_stamp [] }
{
    if delivers {
        return causes::number_of(network_deliver::deliver_on(state, first, second));
    }
    causes::number_of(network_epoch::epoch_on(state, first, second))
}
