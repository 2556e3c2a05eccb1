// What a commit's operations ask of the placement: whether each may be done.
ghost use Rattle.std.specs.Prelude.{◌≡◌, map, length};
ghost use Rattle.causes.specs.Refusals.{number_of};
ghost use Rattle.site_operations.specs.InWords.{op_at, ops_in};
ghost use Rattle.lists.specs.Numbers.{first_number};
ghost use Rattle.protocol.specs.Steps.{op_number};
ghost use Rattle.network_layout.specs.Layout.{state_size};
ghost use Rattle.network_layout.specs.InWords.{network_in};

use causes::Refusal;

// What the first faulty of n operations is refused for at a site.
pub fn ops_number(state: &[u32], site: u32, ops: &[u32], n: usize) -> Result<(), Refusal>
    requires { length state.now ≡ state_size }
    ensures { number_of result ≡ first_number (map (op_number (network_in state.now).items site) (ops_in n ops.now)) }
{
    for k in 0..n {
        op_number(state, site, ops, k)?;
    }
    Ok(())
}

// What operation k is refused for at a site.
fn op_number(state: &[u32], site: u32, ops: &[u32], k: usize) -> Result<(), Refusal>
    requires { length state.now ≡ state_size }
    ensures { number_of result ≡ op_number (network_in state.now).items site (op_at ops.now k) }
{
    let kind = site_operations::kind(ops, k);
    let item = site_operations::item(ops, k);
    if site_operations::WRITE < kind {
        return Err(Refusal::UnknownOperation);
    }
    if network_placement::item_count(state) <= item {
        return Err(Refusal::UnknownOperation);
    }
    if network_placement::is_owned(state, item, site) {
        return Ok(());
    }
    if kind == site_operations::WRITE {
        return Err(Refusal::NotPrimary);
    }
    if network_placement::is_copied(state, item, site) {
        return Ok(());
    }
    Err(Refusal::NoCopy)
}
