ghost use Rattle.std.specs.Prelude.{◌≡◌, ◌+◌, ◌≤◌, ◌++◌, length};
ghost use Rattle.gract_top.specs.OutcomeText.{before_field, behind_field, status_of};
ghost use Rattle.gract_top.specs.OutcomeText.{text_of};
ghost use Rattle.track_types.specs.FlawText.{kind_name, section_name};

use crate::outcome::Outcome;
use arrayvec::ArrayString;
use itoa::Buffer;
use track_types::{Flaw, Kind, LimitKind, RowFault, Section, Setting};

/// The line that a program ends with.
type Text = ArrayString<160>;

impl Outcome {
    /// The status that a program ends with: 0 where everything was done.
    pub fn status(&self) -> u8
        ensures { result ≡ status_of self.now }
    {
        match self {
            Outcome::Done => 0,
            Outcome::Words { .. } => 2,
            Outcome::Row { .. } | Outcome::Empty => 3,
            Outcome::Limit { .. } => 4,
            Outcome::Flaw(_) => 5,
            Outcome::LoadFailed
            | Outcome::SaveFailed
            | Outcome::ListenFailed
            | Outcome::SayFailed => 6,
            Outcome::Memory => 7,
            Outcome::Settings { .. } => 8,
            Outcome::Common { .. } => 9,
        }
    }

    /// The line that a program ends with, without a line feed; empty where everything was done. It
    /// takes no memory.
    pub fn text(&self) -> ArrayString<160>
        ensures { result.bytes ≡ text_of self.now }
    {
        match *self {
            Outcome::Done => Text::new(),
            Outcome::Words { place } => words_text(place),
            Outcome::LoadFailed => plain_text("gract: a file could not be read"),
            Outcome::Limit { kind, value } => limit_text(kind, value),
            Outcome::Row { nth, field, fault } => record_text(nth, field, fault),
            Outcome::Empty => plain_text("gract: no rows"),
            Outcome::Flaw(flaw) => flaw_line(flaw),
            Outcome::Settings {
                setting,
                left,
                right,
            } => settings_text(setting, left, right),
            Outcome::Common { object } => common_text(object),
            Outcome::SaveFailed => plain_text("gract: the index could not be saved"),
            Outcome::ListenFailed => plain_text("gract: the questions could not be read"),
            Outcome::SayFailed => plain_text("gract: the answers could not be written"),
            Outcome::Memory => plain_text("gract: no memory"),
        }
    }
}

fn plain_text(line: &str) -> ArrayString<160>
    requires { length line.now ≤ 160 }
    ensures { result.bytes ≡ line.now }
{
    let mut text = ArrayString::new();
    text.push_str(line);
    text
}

fn words_text(place: u32) -> ArrayString<160>
    ensures { result.bytes ≡ text_of (Outcome.Words place) }
{
    let mut digits = Buffer::new();
    let mut text = plain_text("gract: word ");
    text.push_str(digits.format(place));
    text.push_str(" is not as expected");
    text
}

fn limit_text(kind: LimitKind, value: u64) -> ArrayString<160>
    ensures { result.bytes ≡ text_of (Outcome.Limit kind value) }
{
    let mut digits = Buffer::new();
    let mut text = plain_text("gract: limit ");
    text.push_str(kind.name());
    text.push_str(" passed at ");
    text.push_str(digits.format(value));
    text
}

fn record_text(nth: u64, field: u32, fault: RowFault) -> ArrayString<160>
    ensures { result.bytes ≡ text_of (Outcome.Row nth field fault) }
{
    let mut digits = Buffer::new();
    let mut text = plain_text("gract: record ");
    text.push_str(digits.format(nth));
    text.push_str(words_before(fault));
    text.push_str(digits.format(field));
    text.push_str(words_after(fault));
    text
}

fn flaw_line(flaw: Flaw) -> ArrayString<160>
    ensures { result.bytes ≡ text_of (Outcome.Flaw flaw) }
{
    let mut digits = Buffer::new();
    let mut text = plain_text("gract: index ");
    text.push_str(section_word(flaw.section));
    text.push_str(" period ");
    text.push_str(digits.format(flaw.period));
    text.push_str(" place ");
    text.push_str(digits.format(flaw.index));
    text.push_str(": ");
    text.push_str(kind_word(flaw.kind));
    text
}

fn settings_text(setting: Setting, left: u64, right: u64) -> ArrayString<160>
    ensures { result.bytes ≡ text_of (Outcome.Settings setting left right) }
{
    let mut digits = Buffer::new();
    let mut text = plain_text("gract: the files differ in ");
    text.push_str(setting.name());
    text.push_str(": ");
    text.push_str(digits.format(left));
    text.push_str(" and ");
    text.push_str(digits.format(right));
    text
}

fn common_text(object: u32) -> ArrayString<160>
    ensures { result.bytes ≡ text_of (Outcome.Common object) }
{
    let mut digits = Buffer::new();
    let mut text = plain_text("gract: object ");
    text.push_str(digits.format(object));
    text.push_str(" is in both files");
    text
}

fn section_word(section: Section) -> &'static str
    ensures value { result.now ≡ section_name section }
    ensures short { length result.now ≤ 8 }
{
    section.name()
}

fn kind_word(kind: Kind) -> &'static str
    ensures value { result.now ≡ kind_name kind }
    ensures short { length result.now ≤ 9 }
{
    kind.name()
}

fn words_before(fault: RowFault) -> &'static str
    ensures value { result.now ≡ before_field fault }
    ensures short { length result.now ≤ 16 }
{
    match fault {
        RowFault::Count => " has ",
        RowFault::NotNumber | RowFault::Range => " field ",
    }
}

fn words_after(fault: RowFault) -> &'static str
    ensures value { result.now ≡ behind_field fault }
    ensures short { length result.now ≤ 16 }
{
    match fault {
        RowFault::Count => " fields",
        RowFault::NotNumber => " is not a number",
        RowFault::Range => " is out of range",
    }
}
