ghost use Rattle.std.specs.Prelude.{◌≡◌};
ghost use Rattle.node_shell.specs.Replies.{is_end};

use network_core::Outcome;
use std::fmt;

/// What a line is answered with.
#[derive(Drop)]
pub enum Reply {
    /// A comment, or a line without a word.
    Silence,
    /// The script ends here.
    Quit,
    /// The outcome of a step, or a refusal.
    Told(Outcome),
    /// The lines of a query, each with its end.
    Printed(String),
    /// Workers made their turns.
    Worked,
}

impl Reply {
    /// Whether the script ends here.
    pub fn is_end(&self) -> bool
        ensures { result ≡ is_end self.now }
    {
        matches!(self, Reply::Quit)
    }
}

impl fmt::Display for Reply {
    ghost use Rattle.std.specs.Prelude.{Some};
    ghost use Rattle.node_shell.specs.Replies.{reply_text};

    ghost output = { λ r. Some (reply_text r) };

    fn fmt<W: fmt::Write>(&self, f: &mut fmt::Formatter<W>) -> fmt::Result {
        match self {
            Reply::Silence | Reply::Quit => Ok(()),
            Reply::Told(Outcome::Fine) => writeln!(f, "ok"),
            Reply::Told(Outcome::Started { flow }) => writeln!(f, "flow {flow}"),
            Reply::Told(Outcome::Moved { flow }) => writeln!(f, "moved {flow}"),
            Reply::Told(Outcome::Idle) => writeln!(f, "idle"),
            Reply::Told(Outcome::Posted { count }) => writeln!(f, "posted {count}"),
            Reply::Told(Outcome::Took { .. }) => writeln!(f, "took"),
            Reply::Told(Outcome::Acked) => writeln!(f, "acked"),
            Reply::Told(Outcome::Again { expected }) => writeln!(f, "again {expected}"),
            Reply::Told(Outcome::Early { expected }) => writeln!(f, "early {expected}"),
            Reply::Told(Outcome::NoSession) => writeln!(f, "nosession"),
            Reply::Told(Outcome::Lost) => writeln!(f, "lost"),
            Reply::Told(Outcome::Armed) => writeln!(f, "armed"),
            Reply::Told(Outcome::Down) => writeln!(f, "down"),
            Reply::Told(Outcome::Booted) => writeln!(f, "booted"),
            Reply::Told(Outcome::Fault) => writeln!(f, "fault"),
            Reply::Told(Outcome::Drained { full: true }) => writeln!(f, "drained full"),
            Reply::Told(Outcome::Drained { full: false }) => writeln!(f, "drained"),
            Reply::Told(Outcome::Refused { why }) => {
                let code = why.code();
                let name = why.name();
                writeln!(f, "! {code} {name}")
            }
            Reply::Printed(text) => write!(f, "{text}"),
            Reply::Worked => writeln!(f, "worked"),
        }
    }
}
