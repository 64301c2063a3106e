ghost use Rattle.std.specs.Prelude.{◌≡◌, ◌≢◌, ◌↔◌, IsTrue, IsSome};

use outside::MemSink;
use std::alloc::{AllocError, Global};

/// How a run ended: the status with which it ended, and what it answered.
#[derive(Drop)]
pub struct Played {
    pub status: u8,
    pub answers: MemSink,
}

impl Played {
    /// Whether the status and the answers are these.
    pub fn is_wanted(&self, status: u8, answers: &str) -> bool
        ensures { IsTrue result ↔ ((self.now.status ≡ status)
            × (self.now.answers.written ≡ answers.now)) }
    {
        self.status == status && self.answers.bytes() == answers.as_bytes()
    }
}

/// What a check found: how things differ, if they do, and whether they are wanted to.
#[derive(Drop)]
pub struct Check {
    pub difference: Option<String>,
    pub differs: bool,
}

impl Check {
    /// Whether things differ as they are wanted to.
    pub fn passes(&self) -> bool
        ensures { IsTrue result ↔ (IsSome self.now.difference ↔ IsTrue self.now.differs) }
    {
        self.difference.is_some() == self.differs
    }
}

/// A line for print: without its end, or that there is none.
fn shown(line: Option<&str>) -> &str {
    match line {
        Some(line) => line.strip_suffix('\n').unwrap_or(line),
        None => "(nothing)",
    }
}

/// The first line in which two texts differ, by its number from 1 on, and as it stands in both; empty where none does.
pub fn first_difference(alloc: Global, got: &str, wanted: &str) -> Result<String, AllocError> {
    let mut got = got.split_inclusive('\n');
    let mut wanted = wanted.split_inclusive('\n');
    for number in 1..u32::MAX {
        let (here, there) = (got.next(), wanted.next());
        if here != there {
            let (here, there) = (shown(here), shown(there));
            let text = format!(in alloc; "; line {number} is `{here}`, wanted `{there}`")?;
            return Ok(text);
        }
        if here.is_none() {
            break;
        }
    }
    Ok(String::new(alloc))
}
