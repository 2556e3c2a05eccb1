// The trailer of a state.
#![tactic(auto)]

ghost use Rattle.std.specs.Prelude.{◌≡◌};
ghost use Rattle.network_layout.specs.InWords.{network_in};
ghost use Rattle.history_trailer.specs.Asked.{trailer_of, ForTrailer};

// The trailer of a state over exactly its bytes, with a flag byte and a distance of so many from the file's start to its end.
pub fn put_trailer(b: &mut [u8], state: &[u32], distance: usize, flag: u32)
    requires { ForTrailer b.old state.now distance }
    ensures { b.new ≡ trailer_of (network_in state.now) distance flag }
{
    let records = network_records::record_count(state);
    let sites = network_placement::site_count(state);
    let items = network_placement::item_count(state);
    history_units::put_trailer(
        b,
        records,
        history_units::short(distance),
        sites,
        items,
        flag,
    );
}
