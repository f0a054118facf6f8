ghost use Rattle.std.specs.Prelude.{◌≡◌, ◌≤◌, ◌+◌, ◌++◌, ◌∷◌, [], IfNone, IfSome, drop, option_to_list, length};
ghost use Rattle.question_shell.specs.Items.{fact_line};
ghost use Rattle.question_shell.specs.Kinds.{named_facts};

use crate::reply_line::ReplyLine;
use itoa::Buffer;
use std::marker::Model;
use track_types::Facts;

/// What `info` tells of a fact: its name and its number.
#[derive(Drop)]
pub struct NamedFact {
    name: &'static str,
    number: i128,
}

impl Model for NamedFact {
    ghost use Rattle.std.specs.Prelude.{ℕ, ℤ, List, ◌≤◌, length};

    ghost Value = { List ℕ × ℤ };

    ghost view = { λ fact. (fact.name.now, fact.number) };

    ghost invariant = { λ fact. length fact.name.now ≤ 8 };
}

impl NamedFact {
    // NAME N
    #[inline(always)]
    pub(crate) fn write(&self, line: &mut ReplyLine)
        ensures { line.new ≡ fact_line self.now }
    {
        line.begin();
        // Nearly every number fits 64 bits, and is then written in its place at once.
        match i64::try_from(self.number) {
            Ok(number) => line.put_number(number),
            Err(_) => line.put_text(Buffer::new().format(self.number)),
        }
        line.put_space();
        line.put_text(self.name);
    }
}

/// The facts that are left to tell, in the order of the reply.
#[derive(Drop)]
pub struct NamedFacts {
    facts: Facts,
    told: usize,
}

impl Model for NamedFacts {
    ghost use Rattle.std.specs.Prelude.{ℕ, ℤ, List, drop};
    ghost use Rattle.question_shell.specs.Kinds.{named_facts};

    ghost Value = { List (List ℕ × ℤ) };

    ghost view = { λ left. drop left.told (named_facts left.facts) };
}

impl NamedFacts {
    pub(crate) fn new(facts: Facts) -> Self
        ensures { result ≡ named_facts facts }
    {
        NamedFacts { facts, told: 0 }
    }

    // Takes the first of them off.
    #[inline(always)]
    pub(crate) fn draw(&mut self) -> Option<NamedFact>
        ensures found { self.old ≡ option_to_list result ++ self.new }
        ensures none { IfNone result (self.old ≡ []) }
    {
        let fact = named_fact(&self.facts, self.told)?;
        self.told += 1;
        Some(fact)
    }
}

// The fact at this place of the reply, if there is one.
#[inline(always)]
fn named_fact(facts: &Facts, place: usize) -> Option<NamedFact>
    ensures some { IfSome result (λ fact. drop place (named_facts facts.now)
        ≡ fact ∷ drop (place + 1) (named_facts facts.now)) }
    ensures none { IfNone result (drop place (named_facts facts.now) ≡ []) }
{
    let (name, number) = match place {
        0 => ("objects", facts.objects as i128),
        1 => ("first", facts.first as i128),
        2 => ("last", facts.last as i128),
        3 => ("period", facts.period as i128),
        4 => ("cell", facts.cell as i128),
        5 => ("tick", facts.tick as i128),
        6 => ("height", facts.height as i128),
        7 => ("alphabet", facts.alphabet as i128),
        8 => ("rules", facts.rules as i128),
        9 => ("log", facts.entries as i128),
        10 => ("depth", facts.depth as i128),
        _ => return None,
    };
    Some(NamedFact { name, number })
}
