// The network's answers laid into words, as C lends them: one function for each struct of the header, those of a few fields from c_fields. Each is zeros where the call is refused.
#![tactic(auto)]

ghost use Rattle.std.specs.Prelude.{◌≡◌, ◌∷◌, ◌++◌, ◌+◌, suc, pos, length, take};
ghost use Rattle.limits.specs.Limits.{ops_most, items_most};
ghost use Rattle.causes.specs.Refusals.{number_of};
ghost use Rattle.lists.specs.Lists.{Filled};
ghost use Rattle.timestamp.specs.Value.{stamp_of};
ghost use Rattle.timestamp_words.specs.InWords.{stamp_size, stamp_words};
ghost use Rattle.network_layout.specs.Promises.{committed_stamp, committed_values};
ghost use Rattle.c_answers.specs.Answers.{listed, value_words, flag_word, order_number};
ghost use Rattle.c_answers.specs.Asked.{ForList, ForBase, ForTable, ForReport, ForCommitted, table_count, table_values, base_folded, base_count, base_values, report_count, report_items};

pub use c_fields::{few, put_line, put_origin, put_scheduled, put_stamp};
use causes::{Refusal, number_of};
use network_layout::{Based, Committed, Report, Tabled};
use timestamp_order::Order;

// Where a committed answer has how many values.
const VALUES: usize = timestamp_words::WORDS;

// How many values there are, and the values.
pub fn put_list(w: &mut [u32], count: usize, values: &[i32])
    requires { ForList w.old count (length values.now) }
    ensures { w.new ≡ count ∷ value_words values.now }
{
    put_values(&mut w[1..], values);
    words::store(w, 0, few(count));
}

fn put_values(w: &mut [u32], values: &[i32])
    requires { length w.old ≡ length values.now }
    ensures { w.new ≡ value_words values.now }
{
    let n = values.len();
    let mut i = 0usize;
    while i < n {
        w[i] = words::bits(values[i]);
        i += 1;
    }
}

// A site's table. It answers the reader's number.
pub fn put_table(w: &mut [u32], given: Result<Tabled, Refusal>) -> u32
    requires { ForTable w.old given }
    ensures { (result ≡ number_of given) × (w.new ≡ table_count given ∷ value_words (table_values given)) }
{
    match given {
        Ok(table) => put_list(w, table.count, &table.values),
        Err(_) => w.fill(0),
    }
    number_of(given)
}

// A base: whether records have been removed, how many values there are, and the values. It answers the reader's number.
pub fn put_base(w: &mut [u32], given: Result<Based, Refusal>) -> u32
    requires { ForBase w.old given }
    ensures { (result ≡ number_of given) × (w.new ≡ flag_word (base_folded given) ∷ (base_count given ∷ value_words (base_values given))) }
{
    match given {
        Ok(base) => {
            put_list(&mut w[1..], base.count, &base.values);
            w[0] = u32::from(base.folded);
        }
        Err(_) => w.fill(0),
    }
    number_of(given)
}

// A waiting report's items. It answers the report's number.
pub fn put_report(w: &mut [u32], given: Result<Report, Refusal>) -> u32
    requires { ForReport w.old given }
    ensures { (result ≡ number_of given) × (w.new ≡ report_count given ∷ report_items given) }
{
    match given {
        Ok(report) => {
            w[1..].copy_from_slice(&report.items);
            w[0] = report.count as u32;
        }
        Err(_) => w.fill(0),
    }
    number_of(given)
}

// A commit's timestamp and values. It answers the commit's number.
#[tactic(auto, unfolding(timestamp_words::specs::InWords::stamp_words))]
pub fn put_committed(w: &mut [u32], given: Result<Committed, Refusal>) -> u32
    requires { ForCommitted w.old given }
    ensures { (result ≡ number_of given) × (w.new ≡ stamp_words (committed_stamp given) ++ listed ops_most (value_words (committed_values given))) }
{
    match given {
        Ok(committed) => lay_committed(w, committed),
        Err(_) => w.fill(0),
    }
    number_of(given)
}

fn lay_committed(w: &mut [u32], given: Committed)
    requires { (length w.old ≡ stamp_size + suc ops_most) × Filled (pos 0) ops_most given.count given.values }
    ensures { w.new ≡ stamp_words (stamp_of given.stamp) ++ listed ops_most (value_words (take given.count given.values)) }
{
    put_list(&mut w[VALUES..], given.count, &given.values);
    words::lay(w, 0, &timestamp_words::to_words(given.stamp));
}

// -1, 0 or 1.
pub fn order_number(found: Order) -> i32
    ensures { result ≡ order_number found }
{
    match found {
        Order::Earlier => -1,
        Order::Equal => 0,
        Order::Later => 1,
    }
}
