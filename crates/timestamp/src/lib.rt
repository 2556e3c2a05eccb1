// Timestamps as values: an epoch and up to eight tuples of site and count. Each method takes one and gives a new one, which is plain.
#![tactic(auto)]

ghost use Rattle.std.specs.Prelude.{◌≡◌, map, ◌≤◌, length, get_or};
ghost use Rattle.timestamp.specs.Value.{stamp_of, pair_of, PlainValue};
ghost use Rattle.lists.specs.Lists.{spell};
ghost use Rattle.timestamp_order.specs.Timestamp.{no_pair, no_stamp, with_epoch, appended_or_same, raised_or_same, last_pair, room};

use limits::SITES_WIDE;

// An epoch number. It is a type of its own, so that no count is compared with it.
#[derive(Clone, Copy, PartialEq, Eq, Default)]
pub struct Epoch(pub u32);

// A count of commits and dummies of one site.
#[derive(Clone, Copy, PartialEq, Eq, Default)]
pub struct Count(pub u32);

// The largest count.
pub const GREATEST: u32 = u32::MAX;

#[derive(Clone, Copy, PartialEq, Eq, Default)]
pub struct Tuple {
    pub site: u32,
    pub count: Count,
}

// The first `len` of eight places are tuples; where `len` is above eight, all of them. The rest means nothing, and is 0 in every value answered.
// No `PartialEq`: values that mean the same may differ in it.
#[derive(Clone, Copy, Default)]
pub struct Timestamp {
    pub epoch: Epoch,
    pub len: usize,
    pub tuples: [Tuple; SITES_WIDE],
}

impl Timestamp {
    // How many tuples there are: eight at most.
    pub fn size(self) -> usize
        ensures { (result ≡ length (stamp_of self).tuples) × (result ≤ room) }
    {
        self.len.min(SITES_WIDE)
    }

    // The tuple at a place, and zeros where there is none.
    pub fn tuple(self, i: usize) -> Tuple
        ensures { pair_of result ≡ get_or (stamp_of self).tuples i no_pair }
    {
        if i < self.size() {
            return self.tuples[i];
        }
        Tuple::default()
    }

    // The last tuple, which is that of the site itself; zeros where there is none.
    pub fn own(self) -> Tuple
        ensures { pair_of result ≡ last_pair (stamp_of self).tuples }
    {
        let n = self.size();
        if n == 0 {
            return Tuple::default();
        }
        self.tuples[n - 1]
    }

    // The same timestamp, plain: its unused places are 0.
    pub fn plain(self) -> Timestamp
        ensures { PlainValue (stamp_of self) result }
    {
        Timestamp {
            epoch: self.epoch,
            len: self.size(),
            tuples: self.places(),
        }
    }

    // The same tuples in another epoch.
    pub fn at_epoch(self, epoch: Epoch) -> Timestamp
        ensures { PlainValue (with_epoch (stamp_of self) epoch.0) result }
    {
        Timestamp {
            epoch,
            ..self.plain()
        }
    }

    // A tuple added at the end; where there are eight, the timestamp as it was.
    pub fn append(self, site: u32, count: Count) -> Timestamp
        ensures { PlainValue (appended_or_same (stamp_of self) site count.0) result }
    {
        let mut t = self.plain();
        if t.len < SITES_WIDE {
            t.tuples[t.len] = Tuple { site, count };
            t.len += 1;
        }
        t
    }

    // The own count one higher; where it is the largest, or there is no tuple, the timestamp as it was.
    pub fn raise(self) -> Timestamp
        ensures { PlainValue (raised_or_same (stamp_of self)) result }
    {
        let mut t = self.plain();
        let n = t.len;
        if n == 0 {
            return t;
        }
        let c = t.tuples[n - 1].count.0;
        if GREATEST <= c {
            return t;
        }
        t.tuples[n - 1].count = Count(c + 1);
        t
    }

    // The eight places, 0 where there is no tuple.
    fn places(self) -> [Tuple; SITES_WIDE]
        ensures { map pair_of result ≡ spell no_pair 0 room (stamp_of self).tuples }
    {
        std::array::from_fn(|i| self.tuple(i))
    }
}

// The timestamp of nothing: epoch 0, no tuple.
pub fn zero() -> Timestamp
    ensures { PlainValue no_stamp result }
{
    Timestamp::default()
}
