// The messages of a line by a table of names: whether one names a commit that goes, and the commits by their new names.
#![tactic(auto)]

ghost use Rattle.std.specs.Prelude.{◌≡◌, ◌+◌, ◌*◌, get_or};
ghost use Rattle.words.specs.Words.{part, put, Stepped};
ghost use Rattle.lists.specs.Lists.{any};
ghost use Rattle.messages.specs.Messages.{commit};
ghost use Rattle.messages.specs.InWords.{message_size};
ghost use Rattle.lines.specs.InWords.{line_in, line_range, line_size, boxes_at};
ghost use Rattle.line_renaming.specs.Renaming.{names_gone, line_renamed_by, box_renamed, NoneGone, AtMessage, AtBox};

use limits::{RECORDS, RECORDS_WIDE};
use lines::{BOXES, WORDS};
use messages::{MESSAGE, NAME};

// Whether a message of the line names a commit that goes.
pub fn names_gone(l: &[u32], names: &[u32; RECORDS_WIDE]) -> bool
    ensures { result ≡ any (names_gone names.now) (line_in l.now).messages }
{
    (0..lines::held(l)).any(|i| message_gone(l, i, names))
}

// Whether message i does; a dummy never does.
#[tactic(auto, using(crate::proofs::RenamingLaws::gone_dummy, crate::proofs::RenamingLaws::gone_commit))]
fn message_gone(l: &[u32], i: usize, names: &[u32; RECORDS_WIDE]) -> bool
    ensures { result ≡ names_gone names.now (get_or (line_in l.now).messages i (commit 0)) }
{
    let k = lines::name(l, i);
    k < RECORDS && !record_names::stays(names, k as usize)
}

// Every commit named by its new name.
pub fn rename(l: &mut [u32], names: &[u32; RECORDS_WIDE])
    requires { NoneGone names.now l.old }
    ensures { Stepped line_size line_in line_range (line_renamed_by names.now) l.old l.new }
{
    if l.len() != WORDS {
        return;
    }
    for i in 0..lines::held(l) {
        rename_message(l, i, names);
    }
}

fn rename_message(l: &mut [u32], i: usize, names: &[u32; RECORDS_WIDE])
    requires { AtMessage l.old i }
    ensures { l.new ≡ put l.old (boxes_at + i * message_size) message_size (box_renamed names.now (part l.old (boxes_at + i * message_size) message_size)) }
{
    let a = BOXES + i * MESSAGE;
    rename_box(&mut l[a..a + MESSAGE], names);
}

// The words of one message.
#[tactic(auto, using(crate::proofs::RenamingLaws::box_named, crate::proofs::RenamingLaws::box_none))]
fn rename_box(b: &mut [u32], names: &[u32; RECORDS_WIDE])
    requires { AtBox b.old }
    ensures { b.new ≡ box_renamed names.now b.old }
{
    let k = b[NAME];
    if k < RECORDS {
        b[NAME] = names[k as usize];
    }
}
