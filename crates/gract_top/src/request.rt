ghost use Rattle.std.specs.Prelude.{◌≡◌, IfOk, IfErr};
ghost use Rattle.gract_top.specs.Request.{AreInRange, ask_form, asked, build_form, once_form, request_of, sample_form};
ghost use Rattle.gract_top.specs.Request.{extend_form, merge_form, upgrade_form};
ghost use Rattle.gract_top.specs.declared.request.Request.TheVariants.{Refused};

use crate::command_words::CommandWords;
use track_types::{MAX_OBJECTS, MAX_PERIOD, MAX_RESOLUTION, MAX_SPAN};

/// What the command words ask for.
#[derive(Clone, Copy, Debug, PartialEq, Eq)]
pub enum Request<'a> {
    /// To answer the source's lines from the CSV file of that name.
    Once {
        csv: &'a str,
        settings: Settings,
    },
    /// To save the index of the CSV file of that name under another, which may be the same.
    Build {
        csv: &'a str,
        index: &'a str,
        settings: Settings,
    },
    /// To answer the source's lines from the index file of that name.
    Ask {
        index: &'a str,
    },
    /// To answer the source's lines from the index file of one name and the later rows of the CSV file
    /// of another, its tail.
    AskTail {
        index: &'a str,
        tail: &'a str,
    },
    /// To say the summary of a sample.
    Sample {
        settings: SampleSettings,
    },
    /// To save the index file of one name in the newest version of the format, under another, which may
    /// be the same.
    Upgrade {
        old: &'a str,
        new: &'a str,
    },
    /// To save the union of the index files of two names under a third, which may be either of these.
    Merge {
        left: &'a str,
        right: &'a str,
        out: &'a str,
    },
    /// To save an index file and its tail, the later rows of a CSV file, as one index under a third name. That may be
    /// either of the other two.
    Extend {
        index: &'a str,
        tail: &'a str,
        out: &'a str,
    },
    /// Nothing: the first bad word stands at this place, counted from 1.
    Refused {
        place: u32,
    },
}

/// How rows are gridded, and how the axis of time is cut into periods.
#[derive(Clone, Copy, Debug, PartialEq, Eq)]
pub struct Settings {
    /// The side of a cell.
    pub cell: u64,
    /// The length of an instant.
    pub tick: u64,
    /// How many instants are in a period.
    pub period: u32,
}

/// What a sample is made from.
#[derive(Clone, Copy, Debug, PartialEq, Eq)]
pub struct SampleSettings {
    /// How many objects it has, 1 to 2^16.
    pub objects: u32,
    /// How many instants it has, 1 to 2^22.
    pub instants: u32,
    /// What its generator begins with, at most 2^62.
    pub seed: u64,
    /// How many instants are in a period.
    pub period: u32,
}

/// The greatest SEED, 2^62.
const MAX_SEED: u64 = 4_611_686_018_427_387_904;

// Reads the command words.
pub(crate) fn read_request<'a>(words: &'a [&'a str]) -> Request<'a>
    ensures value { result ≡ request_of words.now }
    ensures ranges { AreInRange result }
{
    match read_form(words) {
        Ok(request) => request,
        Err(place) => Request::Refused { place },
    }
}

// Reads them by the form that the first one names, or answers the place of the first bad one.
fn read_form<'a>(words: &'a [&'a str]) -> Result<Request<'a>, u32>
    ensures ok { IfOk result (λ request. request_of words.now ≡ request) }
    ensures err { IfErr result (λ place. request_of words.now ≡ Refused place) }
    ensures ranges { IfOk result AreInRange }
{
    let [name, rest @ ..] = words else {
        return Err(1);
    };
    let words = CommandWords { rest, place: 2 };
    match *name {
        "once" => read_once(words),
        "build" => read_build(words),
        "ask" => read_ask(words),
        "sample" => read_sample(words),
        "upgrade" => read_upgrade(words),
        "merge" => read_merge(words),
        "extend" => read_extend(words),
        _ => Err(1),
    }
}

// once CSV CELL TICK PERIOD
fn read_once<'a>(mut words: CommandWords<'a>) -> Result<Request<'a>, u32>
    requires { words.place ≡ 2 }
    ensures ok { IfOk result (λ request.
        asked once_form words.entry.rest.now words.entry.place ≡ request) }
    ensures err { IfErr result (λ place.
        asked once_form words.entry.rest.now words.entry.place ≡ Refused place) }
    ensures ranges { IfOk result AreInRange }
{
    let csv = words.file()?;
    let settings = words.settings()?;
    words.end()?;
    Ok(Request::Once { csv, settings })
}

// build CSV INDEX CELL TICK PERIOD
fn read_build<'a>(mut words: CommandWords<'a>) -> Result<Request<'a>, u32>
    requires { words.place ≡ 2 }
    ensures ok { IfOk result (λ request.
        asked build_form words.entry.rest.now words.entry.place ≡ request) }
    ensures err { IfErr result (λ place.
        asked build_form words.entry.rest.now words.entry.place ≡ Refused place) }
    ensures ranges { IfOk result AreInRange }
{
    let csv = words.file()?;
    let index = words.file()?;
    let settings = words.settings()?;
    words.end()?;
    Ok(Request::Build {
        csv,
        index,
        settings,
    })
}

// ask INDEX, or ask INDEX TAIL
fn read_ask<'a>(mut words: CommandWords<'a>) -> Result<Request<'a>, u32>
    requires { words.place ≡ 2 }
    ensures ok { IfOk result (λ request.
        asked ask_form words.entry.rest.now words.entry.place ≡ request) }
    ensures err { IfErr result (λ place.
        asked ask_form words.entry.rest.now words.entry.place ≡ Refused place) }
    ensures ranges { IfOk result AreInRange }
{
    let index = words.file()?;
    let tail = words.optional_file()?;
    words.end()?;
    match tail {
        None => Ok(Request::Ask { index }),
        Some(tail) => Ok(Request::AskTail { index, tail }),
    }
}

// sample OBJECTS INSTANTS SEED PERIOD
fn read_sample<'a>(mut words: CommandWords<'a>) -> Result<Request<'a>, u32>
    requires { words.place ≡ 2 }
    ensures ok { IfOk result (λ request.
        asked sample_form words.entry.rest.now words.entry.place ≡ request) }
    ensures err { IfErr result (λ place.
        asked sample_form words.entry.rest.now words.entry.place ≡ Refused place) }
    ensures ranges { IfOk result AreInRange }
{
    let settings = SampleSettings {
        objects: words.number(1, MAX_OBJECTS)? as u32,
        instants: words.number(1, MAX_SPAN)? as u32,
        seed: words.number(0, MAX_SEED)?,
        period: words.number(1, MAX_PERIOD)? as u32,
    };
    words.end()?;
    Ok(Request::Sample { settings })
}

// upgrade OLD NEW
fn read_upgrade<'a>(mut words: CommandWords<'a>) -> Result<Request<'a>, u32>
    requires { words.place ≡ 2 }
    ensures ok { IfOk result (λ request.
        asked upgrade_form words.entry.rest.now words.entry.place ≡ request) }
    ensures err { IfErr result (λ place.
        asked upgrade_form words.entry.rest.now words.entry.place ≡ Refused place) }
    ensures ranges { IfOk result AreInRange }
{
    let old = words.file()?;
    let new = words.file()?;
    words.end()?;
    Ok(Request::Upgrade { old, new })
}

// merge A B OUT
fn read_merge<'a>(mut words: CommandWords<'a>) -> Result<Request<'a>, u32>
    requires { words.place ≡ 2 }
    ensures ok { IfOk result (λ request.
        asked merge_form words.entry.rest.now words.entry.place ≡ request) }
    ensures err { IfErr result (λ place.
        asked merge_form words.entry.rest.now words.entry.place ≡ Refused place) }
    ensures ranges { IfOk result AreInRange }
{
    let left = words.file()?;
    let right = words.file()?;
    let out = words.file()?;
    words.end()?;
    Ok(Request::Merge { left, right, out })
}

// extend INDEX TAIL OUT
fn read_extend<'a>(mut words: CommandWords<'a>) -> Result<Request<'a>, u32>
    requires { words.place ≡ 2 }
    ensures ok { IfOk result (λ request.
        asked extend_form words.entry.rest.now words.entry.place ≡ request) }
    ensures err { IfErr result (λ place.
        asked extend_form words.entry.rest.now words.entry.place ≡ Refused place) }
    ensures ranges { IfOk result AreInRange }
{
    let index = words.file()?;
    let tail = words.file()?;
    let out = words.file()?;
    words.end()?;
    Ok(Request::Extend { index, tail, out })
}
