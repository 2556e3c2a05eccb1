// The scope's limits, as words and, where they size or index something, as wide numbers.
#![tactic(auto)]

// The most sites of a group, and the most tuples of a timestamp.
pub const SITES: u32 = 8;

pub const SITES_WIDE: usize = SITES as usize;

// The most items of a group.
pub const ITEMS: u32 = 64;

pub const ITEMS_WIDE: usize = ITEMS as usize;

// The most operations of a commit.
pub const OPERATIONS: u32 = 8;

pub const OPERATIONS_WIDE: usize = OPERATIONS as usize;

// The most messages of a line, on the way and arrived together.
pub const MESSAGES: u32 = 16;

pub const MESSAGES_WIDE: usize = MESSAGES as usize;

// The most commits of a history.
pub const RECORDS: u32 = 256;

pub const RECORDS_WIDE: usize = RECORDS as usize;
