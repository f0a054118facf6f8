ghost use Rattle.question_shell.specs.RunEnds.{AnswersRun, CountsRun};
ghost use Rattle.step_count.specs.Reads.{AllMay};
ghost use Rattle.question_shell.specs.Session.{meaning_by, run_by};

use crate::desk::Desk;
use crate::listening::{Talk, take_end, take_piece};
use crate::shell_fault::ShellFault;
use host_ports::{Sink, Source};
use std::alloc::Global;
use step_count::{Reads, Steps};
use track_types::{MAX_QUESTIONS, Meets};

/// How many bytes question input may have.
const LONGEST_INPUT: usize = MAX_QUESTIONS as usize;

/// How many bytes are listened to at a time.
const PIECE: usize = 4096;

/// Answers the question lines of a source until its end, and says the replies.
///
/// Every whole line that came is answered before more is listened to. At most 2^32 bytes are
/// answered, and one byte more is listened to, in pieces of at most 4,096. Memory is taken only for
/// questions of any kind but `position`, `info`, `more` and `free`, and for no `hold` whose slot is
/// held (`takes_memory`).
///
/// `Listen` comes only where the source failed, and then the whole lines that came were answered.
/// `Say` comes only where the sink failed, and then a front of the replies was said and nothing
/// more was listened to. `Limit` comes where more than 2^32 bytes came, and then the whole lines
/// among the first 2^32 were answered. After `Memory` exactly the lines before one that takes it
/// were answered. The count of faults of a device that the answer does not name is what it was, so
/// that devices without a fault have `Ok`, `Limit` or `Memory`.
pub fn run<A: Meets, S: Source, K: Sink, L: Reads>(
    alloc: Global,
    answerer: A,
    desk: &mut Desk<A::Walk>,
    source: &mut S,
    sink: &mut K,
    steps: &mut Steps<L>,
) -> Result<(), ShellFault>
    requires may { AllMay L.may }
    ensures answers { AnswersRun (meaning_by A.Answerer answerer) result
        (run_by S.Source K.Sink source.old sink.old desk.old.view steps.old)
        (run_by S.Source K.Sink source.new sink.new desk.new.view steps.new) }
    ensures counts { CountsRun S.Source K.Sink result source.old source.new sink.old sink.new }
{
    let mut talk = Talk::new();
    let mut buffer = [0; PIECE];
    let mut taken = 0;
    'pieces: while taken <= LONGEST_INPUT {
        let room = PIECE.min(LONGEST_INPUT + 1 - taken);
        let count = source.listen(&mut buffer[..room])?;
        if count == 0 {
            return Ok(take_end(alloc, answerer, &mut talk, desk, sink, steps)?);
        }
        // The byte past the longest input is taken and not answered.
        let counted = count.min(LONGEST_INPUT - taken);
        take_piece(
            alloc,
            answerer,
            &mut talk,
            &buffer[..counted],
            desk,
            sink,
            steps,
        )?;
        taken += count;
    }
    Err(ShellFault::Limit {
        value: taken as u64,
    })
}
