// A network of sites in one lent array of words: set-up, commit, dummy, epoch, deliver, schedule, collect, round, waiting report, readers, the order of the sites, the base, the origin of a read; and what else is read of a state.
#![tactic(auto)]

pub use causes::Refusal;
pub use network_base::base;
pub use network_collect::collect;
pub use network_commit::commit;
pub use network_deliver::deliver;
pub use network_dummy::dummy;
pub use network_epoch::epoch;
pub use network_layout::{
    Based, Committed, Entry, Lined, Operation, Origin, Report, Scheduled, Tabled, Totals, WORDS,
};
pub use network_operations::commit_operations;
pub use network_order::places;
pub use network_origin::origin;
pub use network_readers::{line, stamp, table};
pub use network_round::round;
pub use network_schedule::schedule;
pub use network_set_up::set_up;
pub use network_state::{holdings, record, well_shaped};
pub use network_waiting::waiting;
