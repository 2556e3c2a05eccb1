// The place of each site, in a table by value: entry k is that of site k.
#![tactic(auto)]

ghost use Rattle.std.specs.Prelude.{◌≡◌};
ghost use Rattle.limits.specs.Limits.{sites_most};
ghost use Rattle.lists.specs.Lists.{up_to};
ghost use Rattle.timestamp_order.specs.Order.{rank};

use limits::SITES_WIDE;

// The place of a site, which past the table is its number.
pub fn place(places: [u8; SITES_WIDE], site: u32) -> u32
    ensures { result ≡ rank places site }
{
    places
        .get(site as usize)
        .map_or(site, |place| u32::from(*place))
}

// The table in which the place of each site is its number.
pub fn numbers() -> [u8; SITES_WIDE]
    ensures { result ≡ up_to 0 sites_most }
{
    [0, 1, 2, 3, 4, 5, 6, 7]
}
