ghost use Rattle.std.specs.Prelude.{◌≡◌, ◌≢◌, ◌↔◌, IsTrue};

/// A line: a command, and the answer that stands beside it.
#[derive(Clone, Copy)]
pub struct Line<'a> {
    pub command: &'a str,
    pub wanted: &'a str,
    /// Whether any other answer is wanted, as it stands with ` != `.
    pub differs: bool,
}

impl<'a> Line<'a> {
    /// Takes a line apart. `None` where no answer stands there.
    pub fn parse(line: &'a str) -> Option<Line<'a>> {
        if let Some((command, wanted)) = line.split_once(" != ") {
            return Some(Line {
                command,
                wanted,
                differs: true,
            });
        }
        let (command, wanted) = line.split_once(" = ")?;
        Some(Line {
            command,
            wanted,
            differs: false,
        })
    }

    /// Whether the answer is the one that stands there.
    pub fn is_answered_by(&self, answer: &str) -> bool
        ensures { IsTrue result ↔ (answer.now ≡ self.now.wanted.now) }
    {
        answer == self.wanted
    }

    /// Whether the line passes, where the answer is the one that stands there or not.
    pub fn passes(&self, same: bool) -> bool
        ensures { IsTrue result ↔ (same ≢ self.now.differs) }
    {
        same != self.differs
    }
}
