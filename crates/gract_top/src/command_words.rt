use crate::request::Settings;
use track_types::{MAX_PERIOD, MAX_RESOLUTION, number_within};

// The command words that are not read yet.
#[derive(Clone, Copy)]
pub(crate) struct CommandWords<'a> {
    pub(crate) rest: &'a [&'a str],
    // Where the first of them stands, counted from 1.
    pub(crate) place: u32,
}

impl<'a> CommandWords<'a> {
    ghost use Rattle.std.specs.Prelude.{◌≡◌, ◌+◌, ◌<◌, ◌≤◌, ◌^◌, List, [], ◌∷◌, Ok, Err, IfOk, IfErr, OnOk};
    ghost use Rattle.gract_top.specs.Request.{AreSettings, File, Number, OptionalFile, WordKind, value_and_others, period};
    ghost use Rattle.gract_top.specs.Request.{resolution, word_values};

    // The next one as the name of a file: any text that is not empty; or else its place.
    #[tactic(auto, unfolding(crate::specs::Request::word_values))]
    pub(crate) fn file(&mut self) -> Result<&'a str, u32>
        requires { self.old.place < 2 ^ 31 }
        ensures ok { IfOk result (λ name. (kinds : List WordKind) →
            word_values (File ∷ kinds) self.old.rest.now self.old.place
            ≡ value_and_others name (word_values kinds self.new.rest.now self.new.place)) }
        ensures err { IfErr result (λ place. (kinds : List WordKind) →
            word_values (File ∷ kinds) self.old.rest.now self.old.place ≡ Err place) }
        ensures next { OnOk result (self.new.place ≡ self.old.place + 1) }
    {
        let [word, rest @ ..] = self.rest else {
            return Err(self.place);
        };
        if word.is_empty() {
            return Err(self.place);
        }
        self.rest = rest;
        self.place += 1;
        Ok(*word)
    }

    // The next one as the name of a file, and none where there is no other word; or else its place.
    #[tactic(auto, unfolding(crate::specs::Request::word_values))]
    pub(crate) fn optional_file(&mut self) -> Result<Option<&'a str>, u32>
        requires { self.old.place < 2 ^ 31 }
        ensures ok { IfOk result (λ name. (kinds : List WordKind) →
            word_values (OptionalFile ∷ kinds) self.old.rest.now self.old.place
            ≡ value_and_others name (word_values kinds self.new.rest.now self.new.place)) }
        ensures err { IfErr result (λ place. (kinds : List WordKind) →
            word_values (OptionalFile ∷ kinds) self.old.rest.now self.old.place ≡ Err place) }
    {
        let [word, rest @ ..] = self.rest else {
            return Ok(None);
        };
        if word.is_empty() {
            return Err(self.place);
        }
        self.rest = rest;
        self.place += 1;
        Ok(Some(*word))
    }

    // The value of the next one, a numeral from `least` to `greatest`; or else its place.
    #[tactic(auto, unfolding(crate::specs::Request::word_values))]
    pub(crate) fn number(&mut self, least: u64, greatest: u64) -> Result<u64, u32>
        requires small { self.old.place < 2 ^ 31 }
        requires bounds { (least ≤ greatest) × (greatest < 2 ^ 63) }
        ensures ok { IfOk result (λ value. (kinds : List WordKind) →
            word_values (Number least greatest ∷ kinds) self.old.rest.now self.old.place
            ≡ value_and_others value (word_values kinds self.new.rest.now self.new.place)) }
        ensures err { IfErr result (λ place. (kinds : List WordKind) →
            word_values (Number least greatest ∷ kinds) self.old.rest.now self.old.place ≡ Err place) }
        ensures within { IfOk result (λ value. (least ≤ value) × (value ≤ greatest)) }
        ensures next { OnOk result (self.new.place ≡ self.old.place + 1) }
    {
        let [word, rest @ ..] = self.rest else {
            return Err(self.place);
        };
        let Ok(value) = number_within(word.as_bytes(), least as i64, greatest as i64) else {
            return Err(self.place);
        };
        self.rest = rest;
        self.place += 1;
        Ok(value.unsigned_abs())
    }

    // The next three as CELL, TICK and PERIOD, or the place of the first that is none.
    pub(crate) fn settings(&mut self) -> Result<Settings, u32>
        requires { self.old.place < 2 ^ 30 }
        ensures ok { IfOk result (λ settings. (kinds : List WordKind) →
            word_values (resolution ∷ resolution ∷ period ∷ kinds) self.old.rest.now self.old.place
            ≡ value_and_others settings.cell (value_and_others settings.tick (value_and_others settings.period
            (word_values kinds self.new.rest.now self.new.place)))) }
        ensures err { IfErr result (λ place. (kinds : List WordKind) →
            word_values (resolution ∷ resolution ∷ period ∷ kinds) self.old.rest.now self.old.place
            ≡ Err place) }
        ensures ranges { IfOk result AreSettings }
    {
        let cell = self.number(1, MAX_RESOLUTION)?;
        let tick = self.number(1, MAX_RESOLUTION)?;
        let period = self.number(1, MAX_PERIOD)? as u32;
        Ok(Settings { cell, tick, period })
    }

    // The place of the first one, where there is any.
    #[tactic(auto, unfolding(crate::specs::Request::word_values))]
    pub(crate) fn end(self) -> Result<(), u32>
        ensures ok { OnOk result (word_values [] self.entry.rest.now self.entry.place ≡ Ok tt) }
        ensures err { IfErr result (λ place. word_values [] self.entry.rest.now self.entry.place ≡ Err place) }
    {
        if self.rest.is_empty() {
            Ok(())
        } else {
            Err(self.place)
        }
    }
}
