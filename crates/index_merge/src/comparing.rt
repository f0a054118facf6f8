ghost use Rattle.std.specs.Prelude.{◌≡◌, ◌<◌, ◌≤◌, None, Some, true, false, IfErr, OnOk, length};
ghost use Rattle.index_merge.specs.MergeFault.{common_fault, differs, settings_fault};

use crate::fault::MergeFault;
use snapshots::Stores;
use track_types::{Frame, Setting};

/// Refuses the first setting in which two indexes differ.
pub fn check_settings(left: &Frame, right: &Frame) -> Result<(), MergeFault>
    ensures ok { OnOk result (settings_fault left.now right.now ≡ None) }
    ensures err { IfErr result (λ fault. settings_fault left.now right.now ≡ Some fault) }
{
    check_setting(Setting::Cell, left.cell, right.cell)?;
    check_setting(Setting::Tick, left.tick, right.tick)?;
    check_setting(
        Setting::Period,
        u64::from(left.period),
        u64::from(right.period),
    )
}

fn check_setting(setting: Setting, left: u64, right: u64) -> Result<(), MergeFault>
    ensures ok { OnOk result (differs (setting, left, right) ≡ false) }
    ensures err { IfErr result (λ fault. (fault ≡ MergeFault.Settings setting left right)
        × (differs (setting, left, right) ≡ true)) }
{
    if left == right {
        return Ok(());
    }
    Err(MergeFault::Settings {
        setting,
        left,
        right,
    })
}

/// Refuses the least object that is listed in both indexes.
pub fn check_common(left: &Stores, right: &Stores) -> Result<(), MergeFault>
    ensures ok { OnOk result (common_fault left.now.objects right.now.objects ≡ None) }
    ensures err { IfErr result (λ fault. common_fault left.now.objects right.now.objects ≡ Some fault) }
{
    for place in 0..left.objects() {
        let object = left.object_at(place);
        if right.index_of(object).is_some() {
            return Err(MergeFault::Common { object });
        }
    }
    Ok(())
}
