ghost use Rattle.std.specs.Prelude.{◌≡◌, ◌∷◌, [], IfOk};
ghost use Rattle.track_types.specs.Region.{IsRegionAsked};
ghost use Rattle.track_types.specs.declared.question.Question.TheVariants as question;
ghost use Rattle.question_shell.specs.Grammar.{asks_of};
ghost use Rattle.question_shell.specs.Kinds.{AreAsked, IsTimeAsked, form_words, time_question};
ghost use Rattle.question_shell.specs.NumberWords.{first_fault, word_number};
ghost use Rattle.question_shell.specs.RegionWords.{unless_bad};
ghost use Rattle.question_shell.specs.declared.form.Form.TheVariants as form;

use crate::bad::Bad;
use crate::number_word::read_place;
use track_types::{Question, Region};

/// When a region is asked about.
#[derive(Clone, Copy)]
pub enum Time {
    /// At an instant.
    At(i64),
    /// From one instant to another, both counted.
    During(i64, i64),
}

impl Time {
    // Writes the question about a region at this time into its place.
    #[inline(always)]
    pub(crate) fn ask(self, region: &Region, question: &mut Question)
        requires time { IsTimeAsked self }
        requires region { IsRegionAsked region.now }
        ensures value { question.new ≡ time_question self region.now }
        ensures asked { AreAsked question.new }
    {
        let region = *region;
        match self {
            Time::At(instant) => *question = Question::Slice { instant, region },
            Time::During(from, to) => *question = Question::Interval { from, to, region },
        }
    }
}

// Reads the instant of a slice.
pub(crate) fn read_instant(word: &[u8]) -> Result<Time, Bad>
    ensures value { asks_of result ≡ unless_bad (first_fault (form_words form.Slice) 1 (word.now ∷ []))
        (question.Slice (word_number word.now)) }
    ensures asked { IfOk result IsTimeAsked }
{
    Ok(Time::At(read_place(word, 2)?))
}

// Reads the instants of an interval.
pub(crate) fn read_window(from: &[u8], to: &[u8]) -> Result<Time, Bad>
    ensures value { asks_of result
        ≡ unless_bad (first_fault (form_words form.Interval) 1 (from.now ∷ to.now ∷ []))
        (question.Interval (word_number from.now) (word_number to.now)) }
    ensures asked { IfOk result IsTimeAsked }
{
    let from = read_place(from, 2)?;
    let to = read_place(to, 3)?;
    Ok(Time::During(from, to))
}
