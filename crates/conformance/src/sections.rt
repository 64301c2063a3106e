/// A section of a case: its first line, which begins with its word, and the lines that follow.
#[derive(Clone, Copy)]
pub struct Section<'a> {
    pub word: &'a str,
    pub values: &'a str,
    /// The lines, each with its end.
    pub lines: &'a str,
}

impl<'a> Section<'a> {
    /// Takes a section apart. The text may end in the `@` of the next one, and begin with its own.
    pub fn parse(text: &'a str) -> Section<'a> {
        let text = text.strip_suffix('@').unwrap_or(text);
        let text = text.strip_prefix('@').unwrap_or(text);
        let (head, lines) = text.split_once('\n').unwrap_or((text, ""));
        let (word, values) = head.split_once(' ').unwrap_or((head, ""));
        Section {
            word,
            values,
            lines,
        }
    }
}
