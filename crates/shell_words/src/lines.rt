ghost use Rattle.std.specs.Prelude.{◌≡◌};
ghost use Rattle.std.specs.List.{list_all};
ghost use Rattle.shell_words.specs.Script.{is_blank, is_plain, is_comment, has_no_answer, is_readable, without_cr};

use super::words::{is_blank, is_plain};

/// The most bytes of a line that is read for its words.
const MOST_LINE: usize = 4096;

fn is_all_blank(line: &[u8]) -> bool
    ensures { result ≡ list_all is_blank line.now }
{
    line.iter().all(|b| is_blank(*b))
}

fn is_all_plain(line: &[u8]) -> bool
    ensures { result ≡ list_all is_plain line.now }
{
    line.iter().all(|b| is_plain(*b))
}

fn is_comment(line: &[u8]) -> bool
    ensures { result ≡ is_comment line.now }
{
    match line {
        [] => false,
        [first, ..] => *first == b'#',
    }
}

/// A comment, or a line without a word: it has no answer.
pub fn has_no_answer(line: &[u8]) -> bool
    ensures { result ≡ has_no_answer line.now }
{
    is_comment(line) || is_all_blank(line)
}

/// At most 4,096 bytes of printable ASCII and tabs.
pub fn is_readable(line: &[u8]) -> bool
    ensures { result ≡ is_readable line.now }
{
    line.len() <= MOST_LINE && is_all_plain(line)
}

/// A line without a CR at its end.
pub fn without_cr(line: &[u8]) -> &[u8]
    ensures { result.now ≡ without_cr line.now }
{
    match line {
        [front @ .., b'\r'] => front,
        _ => line,
    }
}
