ghost use Rattle.std.specs.Prelude.{◌≡◌, ◌^◌, ◌<◌, IfOk, length};
ghost use Rattle.object_perm.specs.Permutation.{first_flawed_place};

use std::alloc::Global;
use track_types::Memory;

/// The first place whose value is not below the length or stood before, in one pass that marks each
/// value that it meets.
pub fn find_flaw(alloc: Global, values: &[u32]) -> Result<Option<u32>, Memory>
    requires { length values.now < 2 ^ 32 }
    ensures { IfOk result (λ flaw. flaw ≡ first_flawed_place values.now) }
{
    let mut met = vec![in alloc; false; values.len()]?;
    for (place, value) in values.iter().enumerate() {
        let value = *value as usize;
        if value >= met.len() || met[value] {
            return Ok(Some(place as u32));
        }
        met[value] = true;
    }
    Ok(None)
}
