// Where the value of a read in the history came from. It only looks.
#![tactic(auto)]

ghost use Rattle.std.specs.Prelude.{◌≡◌, length};
ghost use Rattle.network_layout.specs.Layout.{state_size};
ghost use Rattle.network_layout.specs.At.{AtNetwork};
ghost use Rattle.network_writers.specs.Writers.{writer_of};
ghost use Rattle.network_origin.specs.Answer.{named as named_in, OriginAnswered};

use causes::Refusal;
use limits::RECORDS;
use network_layout::{Origin, WORDS};

// The origin of a read, by the number of its record and of the operation in it. It answers the record's own number where an operation before the read writes the
// item; else that of the last commit before the reader in timestamp order that writes it; else that the value is the start value, or folded where records have been removed.
pub fn origin(state: &[u32; WORDS], reader: u32, operation: u32) -> Result<Origin, Refusal>
    ensures { OriginAnswered reader operation state.now result }
{
    origin_in(state, reader, operation)
}

fn origin_in(state: &[u32], reader: u32, operation: u32) -> Result<Origin, Refusal>
    requires { length state.now ≡ state_size }
    ensures { OriginAnswered reader operation state.now result }
{
    if !network_shape::shaped(state) {
        return Err(Refusal::NoState);
    }
    origin_on(state, reader, operation)
}

// The same on the words of a network.
fn origin_on(state: &[u32], reader: u32, operation: u32) -> Result<Origin, Refusal>
    requires { AtNetwork state.now }
    ensures { OriginAnswered reader operation state.now result }
{
    let item = network_writers::find_read(state, reader, operation)?;
    if network_writers::own_write(state, reader, item, operation) {
        return Ok(Origin::Commit(reader));
    }
    let writer = network_writers::last_writer(state, reader, item);
    Ok(named(network_records::is_folded(state), writer))
}

// A record's number; where no record has it the start value, or folded where records have been removed.
fn named(folded: bool, writer: u32) -> Origin
    ensures { result ≡ named_in folded (writer_of writer) }
{
    if writer < RECORDS {
        return Origin::Commit(writer);
    }
    if folded {
        return Origin::Folded;
    }
    Origin::Start
}
