// The engine for C and what calls C: each call under its name in the header, its answer laid into an array that the caller lends.
#![tactic(auto)]

ghost use Rattle.std.specs.Prelude.{◌≡◌, [], map};
ghost use Rattle.timestamp_words.specs.InWords.{stamp_in, stamp_words};
ghost use Rattle.timestamp_order.specs.Order.{rank, order_by};
ghost use Rattle.timestamp_order.specs.Parting.{parting};
ghost use Rattle.protocol.specs.Network.{no_stamp};
ghost use Rattle.protocol.specs.Questions.{waiting as waitingOf, table as table_of, stamp as stamp_of, line as line_of, origin, places as placesQuestion, base as baseQuestion};
ghost use Rattle.protocol.specs.Calls.{set_up, commit, dummy, epoch, deliver, schedule, collect, round, ask};
ghost use Rattle.protocol.specs.Collect.{removed_by};
ghost use Rattle.protocol.specs.Round.{epoch_by};
ghost use Rattle.network_layout.specs.InWords.{meaning};
ghost use Rattle.network_layout.specs.Layout.{state_size};
ghost use Rattle.network_layout.specs.Promises.{Performed};
ghost use Rattle.network_operations.specs.Gathered.{operations_call};
ghost use Rattle.network_readers.specs.Readers.{stamp_answer};
ghost use Rattle.network_order.specs.Order.{places_answer};
ghost use Rattle.history_file.specs.Promises.{export_of, step_numbered, step_of};
ghost use Rattle.script_notation.specs.Parse.{parse};
ghost use Rattle.script_notation.specs.Answers.{Replied};
ghost use Rattle.c_parting.specs.Fields.{parting_words};
ghost use Rattle.c_answers.specs.Answers.{order_number};
ghost use Rattle.c_files.specs.Laid.{RecordLaid};
ghost use Rattle.c_operations.specs.Operations.{operation_of};
ghost use Rattle.gevrolen_c.specs.Answers.{committed_words, dummied_words, scheduled_words, Answered, report_words, table_words, line_words, origin_laid, base_laid, FileRead, LinesRun};
ghost use Rattle.gevrolen_c.specs.Version.{version};

use causes::number_of;
use limits::SITES_WIDE;
use network::{Based, WORDS};
use script::ANSWER;

// 0.8.0, two digits each for the last two parts.
const VERSION: u32 = 800;

// The words of the header's structs.
const STAMP: usize = timestamp_words::WORDS;

const COMMITTED: usize = STAMP + 1 + limits::OPERATIONS_WIDE;

const SCHEDULED: usize = 1 + STAMP;

const LISTED: usize = 1 + limits::ITEMS_WIDE;

const BASED: usize = 1 + LISTED;

const RECORD: usize = 2 + STAMP + site_operations::OPERATIONS;

// ---- which library this is: a program compares both with its header's, since a state of another size would be written past its end
#[unsafe(no_mangle)]
pub extern "C" fn gevrolen_version() -> u32
    ensures { result ≡ version }
{
    VERSION
}

#[unsafe(no_mangle)]
pub extern "C" fn gevrolen_words() -> usize
    ensures { result ≡ state_size }
{
    WORDS
}

// ---- set-up and steps
#[unsafe(no_mangle)]
pub extern "C" fn gevrolen_set_up(
    state: &mut [u32; WORDS],
    sites: u32,
    items: u32,
    primaries: &[u32],
    masks: &[u8],
) -> u32
    ensures { Performed (set_up sites items primaries.now masks.now) state.old state.new result 0 no_stamp [] }
{
    number_of(network::set_up(state, sites, items, primaries, masks))
}

#[unsafe(no_mangle)]
pub extern "C" fn gevrolen_commit(
    state: &mut [u32; WORDS],
    site: u32,
    operations: &[[u32; 3]],
    answer: &mut [u32; COMMITTED],
) -> u32
    ensures { Answered (operations_call site (map operation_of operations.now)) committed_words state.old state.new result answer.new }
{
    let gathered = c_operations::gather(operations);
    let given = network_operations::commit_gathered(state, site, gathered);
    c_answers::put_committed(answer, given)
}

#[unsafe(no_mangle)]
pub extern "C" fn gevrolen_commit_lists(
    state: &mut [u32; WORDS],
    site: u32,
    kinds: &[u8],
    items: &[u32],
    values: &[i32],
    answer: &mut [u32; COMMITTED],
) -> u32
    ensures { Answered (commit site kinds.now items.now values.now) committed_words state.old state.new result answer.new }
{
    let given = network::commit(state, site, kinds, items, values);
    c_answers::put_committed(answer, given)
}

#[unsafe(no_mangle)]
pub extern "C" fn gevrolen_dummy(
    state: &mut [u32; WORDS],
    site: u32,
    answer: &mut [u32; STAMP],
) -> u32
    ensures { Answered (dummy site) dummied_words state.old state.new result answer.new }
{
    c_answers::put_stamp(answer, network::dummy(state, site))
}

#[unsafe(no_mangle)]
pub extern "C" fn gevrolen_epoch(state: &mut [u32; WORDS], site: u32, number: u32) -> u32
    ensures { Performed (epoch site number) state.old state.new result 0 no_stamp [] }
{
    number_of(network::epoch(state, site, number))
}

#[unsafe(no_mangle)]
pub extern "C" fn gevrolen_deliver(state: &mut [u32; WORDS], parent: u32, child: u32) -> u32
    ensures { Performed (deliver parent child) state.old state.new result 0 no_stamp [] }
{
    number_of(network::deliver(state, parent, child))
}

#[unsafe(no_mangle)]
pub extern "C" fn gevrolen_schedule(
    state: &mut [u32; WORDS],
    site: u32,
    answer: &mut [u32; SCHEDULED],
) -> u32
    ensures { Answered (schedule site) scheduled_words state.old state.new result answer.new }
{
    c_answers::put_scheduled(answer, network::schedule(state, site))
}

#[unsafe(no_mangle)]
pub extern "C" fn gevrolen_collect(state: &mut [u32; WORDS], removed: &mut u32) -> u32
    ensures { Performed collect state.old state.new result 0 no_stamp [] × (removed.new ≡ removed_by (meaning state.old)) }
{
    let given = network::collect(state);
    *removed = given.unwrap_or(0);
    number_of(given)
}

#[unsafe(no_mangle)]
pub extern "C" fn gevrolen_round(state: &mut [u32; WORDS], raised: &mut u32) -> u32
    ensures { Performed round state.old state.new result 0 no_stamp [] × (raised.new ≡ epoch_by (meaning state.old)) }
{
    let given = network::round(state);
    *raised = given.unwrap_or(0);
    number_of(given)
}

// ---- calls that only look
#[unsafe(no_mangle)]
pub extern "C" fn gevrolen_waiting(
    state: &[u32; WORDS],
    site: u32,
    answer: &mut [u32; LISTED],
) -> u32
    ensures { Performed (ask (waitingOf site)) state.now state.now result 0 no_stamp [] × (answer.new ≡ report_words site state.now) }
{
    c_answers::put_report(answer, network::waiting(state, site))
}

#[unsafe(no_mangle)]
pub extern "C" fn gevrolen_table(state: &[u32; WORDS], site: u32, answer: &mut [u32; LISTED]) -> u32
    ensures { Performed (ask (table_of site)) state.now state.now result 0 no_stamp [] × (answer.new ≡ table_words site state.now) }
{
    c_answers::put_table(answer, network::table(state, site))
}

#[unsafe(no_mangle)]
pub extern "C" fn gevrolen_stamp(state: &[u32; WORDS], site: u32, answer: &mut [u32; STAMP]) -> u32
    ensures { Performed (ask (stamp_of site)) state.now state.now result 0 no_stamp [] × (answer.new ≡ stamp_words (stamp_answer site state.now)) }
{
    c_answers::put_stamp(answer, network::stamp(state, site))
}

#[unsafe(no_mangle)]
pub extern "C" fn gevrolen_line(
    state: &[u32; WORDS],
    parent: u32,
    child: u32,
    answer: &mut [u32; 2],
) -> u32
    ensures { Performed (ask (line_of parent child)) state.now state.now result 0 no_stamp [] × (answer.new ≡ line_words parent child state.now) }
{
    c_answers::put_line(answer, network::line(state, parent, child))
}

#[unsafe(no_mangle)]
pub extern "C" fn gevrolen_origin(
    state: &[u32; WORDS],
    reader: u32,
    operation: u32,
    answer: &mut [u32; 2],
) -> u32
    ensures { Performed (ask (origin reader operation)) state.now state.now result 0 no_stamp [] × (answer.new ≡ origin_laid reader operation state.now) }
{
    c_answers::put_origin(answer, network::origin(state, reader, operation))
}

#[unsafe(no_mangle)]
pub extern "C" fn gevrolen_places(state: &[u32; WORDS], places: &mut [u8; SITES_WIDE]) -> u32
    ensures { Performed (ask placesQuestion) state.now state.now result 0 no_stamp [] × (places.new ≡ places_answer state.now) }
{
    let given = network::places(state);
    *places = given.unwrap_or([0; SITES_WIDE]);
    number_of(given)
}

#[unsafe(no_mangle)]
pub extern "C" fn gevrolen_base(state: &[u32; WORDS], answer: &mut [u32; BASED]) -> u32
    ensures { Performed (ask baseQuestion) state.now state.now result 0 no_stamp [] × (answer.new ≡ base_laid state.now) }
{
    c_answers::put_base(answer, network::base(state))
}

// By the places of the sites: -1, 0 or 1, where the first timestamp is earlier, the same or later; and where the two part.
#[unsafe(no_mangle)]
pub extern "C" fn gevrolen_compare(
    first: &[u32; STAMP],
    second: &[u32; STAMP],
    places: &[u8; SITES_WIDE],
    answer: &mut [u32; 2],
) -> i32
    ensures { (result ≡ order_number (order_by (rank places.now) (stamp_in first.now) (stamp_in second.now))) × (answer.new ≡ parting_words (parting (stamp_in first.now) (stamp_in second.now))) }
{
    let found = timestamp_comparison::compare_words(first, second, *places);
    c_parting::put_parting(answer, found.parting);
    c_answers::order_number(found.order)
}

// ---- the history file
#[unsafe(no_mangle)]
pub extern "C" fn gevrolen_export(
    state: &[u32; WORDS],
    buffer: &mut [u8],
    length: &mut usize,
) -> u32
    ensures { export_of (meaning state.now) buffer.old ≡ record { number = result; size = length.new; buffer = buffer.new } }
{
    let given = history::export(state, buffer);
    *length = given.length;
    given.number
}

#[unsafe(no_mangle)]
pub extern "C" fn gevrolen_read(
    buffer: &[u8],
    answer: &mut [usize; 5],
    places: &mut [u8; SITES_WIDE],
    base: &mut [u32; BASED],
) -> u32
    ensures { FileRead buffer.now result answer.new places.new base.new }
{
    let given = history::check(buffer);
    let found = given.places;
    *places = found;
    let values = given.base;
    let kept = Based {
        folded: given.folded,
        count: given.items as usize,
        values,
    };
    c_answers::put_base(base, Ok(kept));
    let start = c_files::part_start(given.number, buffer.len(), given.length);
    *answer = c_files::file_fields(start, given.length, given.records, given.sites, given.items);
    given.number
}

#[unsafe(no_mangle)]
pub extern "C" fn gevrolen_record(buffer: &[u8], number: usize, answer: &mut [u32; RECORD]) -> u32
    ensures { (result ≡ (step_numbered buffer.now number).number) × RecordLaid (step_numbered buffer.now number).found answer.new }
{
    let given = history::record(buffer, number);
    c_files::put_record(answer, given);
    given.number
}

#[unsafe(no_mangle)]
pub extern "C" fn gevrolen_record_from(
    part: &[u8],
    from: usize,
    sites: u32,
    items: u32,
    places: &[u8; SITES_WIDE],
    answer: &mut [u32; RECORD],
    next: &mut usize,
) -> u32
    ensures { (result ≡ (step_of part.now from (rank places.now) sites items).number) × RecordLaid (step_of part.now from (rank places.now) sites items).found answer.new × (next.new ≡ (step_of part.now from (rank places.now) sites items).next) }
{
    let given = history::record_from(part, from, sites, items, *places);
    c_files::put_record(answer, given);
    *next = given.next;
    given.number
}

// ---- scripts
#[unsafe(no_mangle)]
pub extern "C" fn gevrolen_script(
    state: &mut [u32; WORDS],
    text: &[u8],
    answer: &mut [u8; ANSWER],
) -> usize
    ensures { Replied (parse text.now) state.old state.new answer.old answer.new result }
{
    script::line(text, state, answer)
}

#[unsafe(no_mangle)]
pub extern "C" fn gevrolen_run(
    state: &mut [u32; WORDS],
    text: &[u8],
    answers: &mut [u8],
    progress: &mut [usize; 2],
)
    ensures { LinesRun text.now state.old state.new answers.old answers.new progress.new }
{
    let formed = network::well_shaped(state);
    let given = console_lines::lines(text, state, formed, answers, 0);
    *progress = [given.from, given.filled];
}
