ghost use Rattle.std.specs.Prelude.{◌≡◌, ℕ, ◌↔◌, ◌⊎◌};
ghost use Rattle.step_count.specs.Reads.{AllMay};
ghost use Rattle.host_ports.specs.Meanings.{files_at};
ghost use Rattle.gract_top.specs.Completeness.{IsCalm, IsReady};
ghost use Rattle.gract_top.specs.Counting.{CountsFiles, CountsTalk};
ghost use Rattle.gract_top.specs.Ends.{Ends, moment_of};
ghost use Rattle.gract_top.specs.Request.{request_of};

use crate::asking::{ask, once};
use crate::building::build;
use crate::extending::extend;
use crate::merging::merge;
use crate::outcome::Outcome;
use crate::request::{Request, read_request};
use crate::sampling::sample;
use crate::tail_asking::ask_tail;
use crate::upgrading::upgrade;
use host_ports::{Files, Sink, Source};
use std::alloc::Global;
use step_count::{Reads, Steps};

/// Does what the command words ask, and answers how it ended.
///
/// The words are those after the program's name:
/// - `once CSV CELL TICK PERIOD` loads the CSV file, grids its rows, writes the index of their chart,
///   opens what the files give for its bytes, and answers the source's lines from that;
/// - `build CSV INDEX CELL TICK PERIOD` saves the bytes of that index under INDEX;
/// - `ask INDEX` loads and opens an index file, and answers the source's lines from it;
/// - `ask INDEX TAIL` opens it, then loads the CSV file TAIL and grids its rows as those of the index were, and answers
///   the source's lines from both. Where both have a row of an object and an instant, TAIL's counts. TAIL may have no
///   row;
/// - `sample OBJECTS INSTANTS SEED PERIOD` makes rows from a number, grids them with CELL and TICK 1, and writes the
///   index of their chart. It opens what the files give for its bytes, and says a summary: the reply to `info`, and the
///   last line of the reply to each of five other questions. Files and source are left alone;
/// - `upgrade OLD NEW` loads and opens an index file, and saves the bytes of the same index in the
///   newest version of the format under NEW;
/// - `merge A B OUT` loads and opens two index files, A and then B, and saves the bytes of the index of
///   the union of what they hold under OUT;
/// - `extend INDEX TAIL OUT` opens an index file, then loads and grids TAIL, as `ask INDEX TAIL` does, and
///   saves the bytes of the index of all their rows under OUT.
///
/// Each outcome comes for its cause alone, which its clause states. `Memory` may come to any words
/// that have a form, before the first question is listened to or at a line that takes memory.
pub fn gract<F: Files, S: Source, K: Sink, L: Reads>(
    alloc: Global,
    words: &[&str],
    files: &mut F,
    source: &mut S,
    sink: &mut K,
    steps: &mut Steps<L>,
) -> Outcome
    requires may { AllMay L.may }
    // The words have no form if and only if the outcome says so, with the first bad one's place.
    ensures words { (place : ℕ) →
        (result ≡ Outcome.Words place) ↔ (request_of words.now ≡ Request.Refused place) }
    ensures words_untouched { (place : ℕ) → result ≡ Outcome.Words place →
        (files.new ≡ files.old) × (source.new ≡ source.old) × (sink.new ≡ sink.old)
        × (steps.new ≡ steps.old) }

    // Else the outcome is that of the command and of the file that they name.
    ensures ends { Ends (request_of words.now) result (source.new ≡ source.old) (sink.new ≡ sink.old)
        (moment_of F.Files S.Source K.Sink files.old source.old sink.old steps.old)
        (moment_of F.Files S.Source K.Sink files.new source.new sink.new steps.new) }

    // Only the device that the outcome names counted a fault. Of the questions at most one byte beyond their limit is
    // asked for.
    ensures counts { CountsFiles result (files_at F.Files files.old) (files_at F.Files files.new) }
    ensures talk { CountsTalk S.Source K.Sink result source.old source.new sink.old sink.new }

    // Where what the request needs is there and no device fails, all is done, unless memory is refused.
    ensures complete { IsReady (request_of words.now)
        (moment_of F.Files S.Source K.Sink files.old source.old sink.old steps.old) →
        IsCalm F.Files S.Source K.Sink files.old files.new source.old source.new sink.old
        sink.new → (result ≡ Outcome.Done) ⊎ (result ≡ Outcome.Memory) }
{
    match read_request(words) {
        Request::Refused { place } => Outcome::Words { place },
        Request::Once { csv, settings } => {
            once(alloc, csv, settings, files, source, sink, steps).into()
        }
        Request::Build {
            csv,
            index,
            settings,
        } => build(alloc, csv, index, settings, files).into(),
        Request::Ask { index } => ask(alloc, index, files, source, sink, steps).into(),
        Request::AskTail { index, tail } => {
            ask_tail(alloc, index, tail, files, source, sink, steps).into()
        }
        Request::Sample { settings } => sample(alloc, settings, files, sink, steps).into(),
        Request::Upgrade { old, new } => upgrade(alloc, old, new, files, steps).into(),
        Request::Merge { left, right, out } => merge(alloc, left, right, out, files, steps).into(),
        Request::Extend { index, tail, out } => extend(
            alloc, index, tail, out, files, steps,
        ).into(),
    }
}
