ghost use Rattle.std.specs.Prelude.{◌≡◌, ◌≤◌, ◌++◌, length};
ghost use Rattle.std.specs.Fmt.{decimal};
ghost use Rattle.question_shell.specs.Items.{said_line};
ghost use Rattle.question_shell.specs.Reply.{bad_line, free_line, held_line, ok_line};

use crate::bad::Bad;
use crate::reply_line::ReplyLine;

// ok N
pub(crate) fn ok_line(count: u64) -> ReplyLine
    ensures { result ≡ ok_line count }
{
    let mut line = ReplyLine::new();
    line.put_count(count);
    line.put_text("ok ");
    line
}

// bad CAUSE
pub(crate) fn bad_line(bad: Bad) -> ReplyLine
    ensures { result ≡ bad_line bad }
{
    match bad {
        Bad::Long => plain_line("bad long"),
        Bad::Word => plain_line("bad word"),
        Bad::Count => plain_line("bad count"),
        Bad::Number(place) => placed_line("bad number ", place),
        Bad::Range(place) => placed_line("bad range ", place),
    }
}

// bad held
pub(crate) fn held_line() -> ReplyLine
    ensures { result ≡ held_line }
{
    plain_line("bad held")
}

// bad free
pub(crate) fn free_line() -> ReplyLine
    ensures { result ≡ free_line }
{
    plain_line("bad free")
}

fn plain_line(text: &str) -> ReplyLine
    requires { length text.now ≤ 20 }
    ensures { result ≡ said_line text.now }
{
    let mut line = ReplyLine::new();
    line.put_text(text);
    line
}

fn placed_line(text: &str, place: u32) -> ReplyLine
    requires { length text.now ≤ 20 }
    ensures { result ≡ said_line (text.now ++ decimal place) }
{
    let mut line = ReplyLine::new();
    line.put_count(u64::from(place));
    line.put_text(text);
    line
}
