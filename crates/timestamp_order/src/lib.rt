// What a timestamp is, the order of timestamps, and where two part. Definitions and laws; of code only what a comparison answers.
#![tactic(auto)]

ghost use Rattle.std.specs.Prelude.{◌≡◌};
ghost use Rattle.timestamp_order.specs.Order.{is_earlier, not_later};

// What a comparison finds of the first of two. Not std's `Ordering`: these are the scope's words, and the definitions of specs/ match on them.
#[derive(Clone, Copy, PartialEq, Eq)]
pub enum Order {
    Earlier,
    Equal,
    Later,
}

// Where two timestamps part: at their epochs, or after so many leading tuples that both have. Not an `Option`: `shared_of` of specs/ reads it.
#[derive(Clone, Copy, PartialEq, Eq)]
pub enum Parting {
    Epochs,
    After(usize),
}

// What the comparison of two timestamps answers.
#[derive(Clone, Copy, PartialEq, Eq)]
pub struct Compared {
    pub order: Order,
    pub parting: Parting,
}

impl Compared {
    // Whether the first is earlier than the second.
    pub fn is_earlier(self) -> bool
        ensures { result ≡ is_earlier self.order }
    {
        matches!(self.order, Order::Earlier)
    }

    // Whether the first is not later than the second.
    pub fn not_later(self) -> bool
        ensures { result ≡ not_later self.order }
    {
        !matches!(self.order, Order::Later)
    }
}
