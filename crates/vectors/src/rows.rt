ghost use Rattle.std.specs.Prelude.{◌≡◌, ◌≢◌, ◌↔◌, IsTrue};

/// A line that asks something: a question, and the answer that stands beside it.
#[derive(Clone, Copy)]
pub struct Row<'a> {
    pub question: &'a str,
    pub wanted: &'a str,
    /// Whether any other answer is wanted, as it stands with ` != `.
    pub differs: bool,
}

impl<'a> Row<'a> {
    /// Takes a line apart. `None` where no answer stands there.
    pub fn parse(line: &'a str) -> Option<Row<'a>> {
        if let Some((question, wanted)) = line.split_once(" != ") {
            return Some(Row {
                question,
                wanted,
                differs: true,
            });
        }
        let (question, wanted) = line.split_once(" = ")?;
        Some(Row {
            question,
            wanted,
            differs: false,
        })
    }

    /// Whether the answer is the one that stands there.
    pub fn is_answered_by(&self, answer: &str) -> bool
        ensures { IsTrue result ↔ (answer.now ≡ self.now.wanted.now) }
    {
        answer == self.wanted
    }

    /// Whether the line passes, where the answer is the one that stands there or not.
    pub fn passes(&self, same: bool) -> bool
        ensures { IsTrue result ↔ (same ≢ self.now.differs) }
    {
        same != self.differs
    }
}
