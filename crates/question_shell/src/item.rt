ghost use Rattle.std.specs.Prelude.{◌≡◌};
ghost use Rattle.question_shell.specs.Items.{line_of};
ghost use Rattle.question_shell.specs.declared.item.Item.TheVariants as item;

use crate::named_fact::NamedFact;
use crate::reply_line::ReplyLine;
use itoa::Buffer;
use track_types::{Cell, Hit, Meeting, Near, Sighting, Stop};

/// Something that a question finds. Its reply has a line for each.
#[derive(Drop)]
pub enum Item {
    Cell(Cell),
    Stop(Stop),
    Sighting(Sighting),
    Hit(Hit),
    Near(Near),
    Meeting(Meeting),
    Fact(NamedFact),
}

impl Item {
    // Puts its line of the reply together, in the place of a line.
    #[inline(always)]
    pub(crate) fn write(&self, line: &mut ReplyLine)
        ensures { line.new ≡ line_of self.now }
    {
        match self {
            Item::Cell(cell) => line.begin_cell(*cell),
            Item::Stop(stop) => write_stop(line, *stop),
            Item::Sighting(sighting) => write_sighting(line, *sighting),
            Item::Hit(hit) => write_hit(line, *hit),
            Item::Near(near) => write_near(line, *near),
            Item::Meeting(meeting) => write_meeting(line, *meeting),
            Item::Fact(fact) => fact.write(line),
        }
    }
}

// T X Y
#[inline(always)]
fn write_stop(line: &mut ReplyLine, stop: Stop)
    ensures { line.new ≡ line_of (item.Stop stop) }
{
    line.begin_cell(stop.cell);
    line.put_space();
    line.put_number(stop.instant);
}

// O X Y
fn write_sighting(line: &mut ReplyLine, sighting: Sighting)
    ensures { line.new ≡ line_of (item.Sighting sighting) }
{
    line.begin_cell(sighting.cell);
    line.put_space();
    line.put_count(u64::from(sighting.object));
}

// O T X Y
fn write_hit(line: &mut ReplyLine, hit: Hit)
    ensures { line.new ≡ line_of (item.Hit hit) }
{
    line.begin_cell(hit.cell);
    line.put_space();
    line.put_number(hit.instant);
    line.put_space();
    line.put_count(u64::from(hit.object));
}

// O X Y D2
fn write_near(line: &mut ReplyLine, near: Near)
    ensures { line.new ≡ line_of (item.Near near) }
{
    line.begin();
    line.put_text(Buffer::new().format(near.dist2));
    line.put_space();
    line.put_number(near.cell.y);
    line.put_space();
    line.put_number(near.cell.x);
    line.put_space();
    line.put_count(u64::from(near.object));
}

// T XA YA XB YB
fn write_meeting(line: &mut ReplyLine, meeting: Meeting)
    ensures { line.new ≡ line_of (item.Meeting meeting) }
{
    line.begin_cell(meeting.right);
    line.put_space();
    line.put_cell(meeting.left);
    line.put_space();
    line.put_number(meeting.instant);
}
