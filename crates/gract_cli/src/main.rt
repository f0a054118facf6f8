//! The program: the one call of gract_top over the real files, standard input and standard output.
//!
//! An outcome other than `Done` is told in one line on standard error, and each has its status.
//! `--help` and `--version`, each alone, are answered here.
#![tactic(auto)]

ghost use Rattle.std.specs.Prelude.{◌≡◌, ◌<◌, ℕ, List, Some, None};
ghost use Rattle.step_count.specs.Reads.{AllMay};
ghost use Rattle.gract_cli.specs.About.{about_of};
ghost use Rattle.gract_cli.specs.Devices.{CountsText, Runs, SaysText, TellsText, devices};

mod about;
mod command_line;
mod standard_streams;

use about::about_text;
use command_line::{command_words, texts_of};
use gract_top::{Outcome, gract};
use host_ports::{DiskFiles, InputSource, OutputSink, Sink};
use standard_streams::take_standard_streams;
use std::io::{self, Read, Write};
use std::marker::Brand;
use std::process::ExitCode;
use std::rt::Files;
use std::sync::ledger::Blank;
use step_count::{Reads, Steps};

fn main(rt: HostRuntime) -> ExitCode {
    take_standard_streams(&rt);
    let mut files = DiskFiles::new(&rt);
    let mut source = InputSource::new(rt.reader());
    let mut sink = OutputSink::new(io::writer(&rt));
    let outcome = match command_words(&rt) {
        Ok(words) => match texts_of(rt.alloc(), &words) {
            Ok(texts) => answer(&rt, &texts, &mut files, &mut source, &mut sink),
            Err(outcome) => outcome,
        },
        Err(outcome) => outcome,
    };
    if outcome != Outcome::Done {
        // Where standard error is closed, the status alone says the outcome.
        let _ = eprintln!(rt; "{}", outcome.text());
    }
    ExitCode::from(outcome.status())
}

// Says the text that the words ask for, or does what they ask, over the real devices.
fn answer<D: Files, R: Read, W: Write>(
    rt: &HostRuntime,
    words: &[&str],
    files: &mut DiskFiles<'_, D>,
    source: &mut InputSource<R>,
    sink: &mut OutputSink<W>,
) -> Outcome
    // `--help` and `--version` say their text, and do nothing else.
    ensures about { (text : List ℕ) → about_of words.now ≡ Some text →
        SaysText result text (devices files.old source.old sink.old) (devices files.new source.new sink.new) }

    // Else the call ends as `gract` does, over what came of the files and of standard input since.
    ensures runs { about_of words.now ≡ None →
        Runs words.now result (devices files.old source.old sink.old) (devices files.new source.new sink.new) }
{
    match about_text(words) {
        Some(text) => say_text(text, sink),
        None => run_words::<Brand, D, R, W>(rt, words, files, source, sink, Blank::new(1)),
    }
}

// Says a text.
fn say_text<K: Sink>(text: &str, sink: &mut K) -> Outcome
    ensures told { TellsText result text.now (K.said sink.old) (K.said sink.new) }
    ensures count { CountsText result (K.faults sink.old) (K.faults sink.new) }
{
    match sink.say(text.as_bytes()) {
        Ok(()) => Outcome::Done,
        Err(_) => Outcome::SayFailed,
    }
}

// Runs the program on its words; nothing asks how many reads were counted.
fn run_words<L: Reads, D: Files, R: Read, W: Write>(
    rt: &HostRuntime,
    words: &[&str],
    files: &mut DiskFiles<'_, D>,
    source: &mut InputSource<R>,
    sink: &mut OutputSink<W>,
    blank: Blank,
) -> Outcome
    requires name { blank.name ≡ L.name }
    requires parts { blank.parts ≡ L.parts }
    requires some { 0 < L.parts }
    requires may { AllMay L.may }
    ensures { Runs words.now result (devices files.old source.old sink.old) (devices files.new source.new sink.new) }
{
    let mut steps = Steps::<L>::new(rt, blank);
    gract(rt.alloc(), words, files, source, sink, &mut steps)
}
