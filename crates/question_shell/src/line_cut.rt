ghost use Rattle.std.specs.Prelude.{◌≡◌, ◌∷◌, ◌++◌, true, not, IfNone, IfSome};
ghost use Rattle.std.specs.List.{list_all};
ghost use Rattle.question_shell.specs.Lines.{is_line_feed};

use memchr::memchr;

// Cuts the first line off bytes, and its line feed off it.
#[inline(always)]
pub(crate) fn cut_line(bytes: &[u8]) -> Option<(&[u8], &[u8])>
    ensures none { IfNone result (list_all (λ byte. not (is_line_feed byte)) bytes.now ≡ true) }
    ensures some { IfSome result (λ cut. bytes.now ≡ cut.0.now ++ 10 ∷ cut.1.now) }
    ensures line { IfSome result (λ cut.
        list_all (λ byte. not (is_line_feed byte)) cut.0.now ≡ true) }
{
    let length = memchr(b'\n', bytes)?;
    let (line, rest) = bytes.split_at(length);
    Some((line, &rest[1..]))
}
