ghost use Rattle.std.specs.Prelude.{◌≡◌, ◌+◌, ◌^◌, ◌<◌, ◌≤◌, [], IfErr, OnOk, Err};
ghost use Rattle.track_types.specs.Limits.{limit_of};
ghost use Rattle.track_types.specs.declared.limit.LimitKind.{LimitKind};
ghost use Rattle.gract_top.specs.Loading.{IsReceived, LoadsOnly};
ghost use Rattle.gract_top.specs.Stopping.{IsLoadFault};

use crate::fault::LoadFault;
use crate::receiver::Receiver;
use host_ports::Files;
use track_types::LimitKind;

/// How many bytes are asked for at a time.
const PIECE: usize = 0x4_0000;

// Loads a file piece by piece into a receiver that took nothing yet. At most one byte beyond the limit of that kind is
// asked for.
pub(crate) fn load<F: Files, R: Receiver>(
    files: &mut F,
    name: &str,
    kind: LimitKind,
    receiver: &mut R,
) -> Result<(), LoadFault>
    requires small { limit_of kind < 2 ^ 40 }
    requires most { limit_of kind ≤ R.most }
    requires fresh { R.has_taken receiver.old [] receiver.old }
    ensures came { OnOk result (IsReceived kind (F.map files.old) (F.loads files.new) (F.taken files.new) name.now
        (λ bytes. R.has_taken receiver.old bytes receiver.new)) }
    ensures fault { IfErr result (IsLoadFault kind (F.map files.old) (F.loads files.new) (F.taken files.new) name.now) }
    ensures loads { LoadsOnly F.Files files.old files.new name.now (result ≡ Err LoadFault.Failed) }
    ensures taken { F.taken files.new ≤ limit_of kind + 1 }
{
    files.begin(name)?;
    let limit = kind.greatest() as usize;
    let mut piece = [0; PIECE];
    let mut count = 0;
    'pieces: loop {
        let room = PIECE.min(limit + 1 - count);
        let came = files.pull(&mut piece[..room])?;
        if came == 0 {
            return Ok(());
        }
        count += came;
        if count > limit {
            return Err(LoadFault::Long {
                value: limit as u64 + 1,
            });
        }
        receiver.take(&piece[..came])?;
    }
}
