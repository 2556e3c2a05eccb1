// Export: the file written to the front of a lent buffer.
#![tactic(auto)]

ghost use Rattle.std.specs.Prelude.{◌≡◌, ◌≤◌, length};
ghost use Rattle.network_layout.specs.At.{AtNetwork};
ghost use Rattle.network_layout.specs.InWords.{meaning};
ghost use Rattle.history_file.specs.File.{body, file_of};
ghost use Rattle.history_file.specs.Promises.{export_of};
ghost use Rattle.history_lead.specs.Leads.{own};
ghost use Rattle.history_record_bytes.specs.Asked.{Counted};
ghost use Rattle.history_export.specs.Asked.{ForFile};

use history_file::{Exported, TRAILER};
use history_lead::Lead;
use network_layout::WORDS;

// How many records a network has.
fn count(state: &[u32]) -> usize
    requires { AtNetwork state.now }
    ensures { Counted state.now result }
{
    words::wide(network_records::record_count(state))
}

// How many bytes they take.
fn body_size(state: &[u32]) -> usize
    requires { AtNetwork state.now }
    ensures { (result ≡ length (body (own state.now))) × (result ≤ 34816) }
{
    history_record_bytes::body_size(state, count(state))
}

// The file of a network over exactly its bytes: a of them lead the records, and the trailer follows m.
fn put_file(b: &mut [u8], state: &[u32], lead: Lead, a: usize, m: usize)
    requires { ForFile b.old state.now lead a m }
    ensures { b.new ≡ file_of (own state.now) }
{
    let e = b.len();
    history_lead::put_lead(&mut b[0..a], state, lead);
    history_record_bytes::put_records(&mut b[a..m], state, count(state));
    history_trailer::put_trailer(&mut b[m..e], state, e, history_lead::flag(lead));
}

// The history of a network as a file over the front of the buffer, the rest of which is left. It answers the file's length.
fn export_on(state: &[u32], b: &mut [u8]) -> Exported
    requires { AtNetwork state.now }
    ensures { export_of (meaning state.now) b.old ≡ record { number = result.number; size = result.length; buffer = b.new } }
{
    let lead = history_lead::lead_of(state);
    let a = history_lead::size(lead);
    let m = a + body_size(state);
    let e = m + TRAILER;
    if b.len() < e {
        return Exported {
            number: 25,
            length: 0,
        };
    }
    put_file(&mut b[0..e], state, lead, a, m);
    Exported {
        number: 0,
        length: e,
    }
}

// The same of any state.
pub fn export(state: &[u32; WORDS], b: &mut [u8]) -> Exported
    ensures { export_of (meaning state.now) b.old ≡ record { number = result.number; size = result.length; buffer = b.new } }
{
    if !network_shape::shaped(state) {
        return Exported {
            number: 6,
            length: 0,
        };
    }
    export_on(state, b)
}
