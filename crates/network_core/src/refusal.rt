//! Why a network, or a script, refuses what it is asked for.

ghost use Rattle.std.specs.Prelude.{◌≡◌};
ghost use Rattle.network_core.specs.Refusals.{code_of, name_of};

/// Why a step, or a line of a script, is refused. Nothing changed but, with `Journal`, the power of the node's disk.
#[derive(Clone, Copy, PartialEq)]
pub enum Refusal {
    /// The line is no command, or the outcome of a cut is above 3.
    Syntax,
    /// There is no such node.
    UnknownNode,
    /// The node is down.
    NodeDown,
    /// The node is up.
    NodeUp,
    /// The class of a flow is unknown.
    UnknownClass,
    /// The arguments of a flow are refused.
    BadArgs,
    /// No frame waits at that place.
    NoFrame,
    /// The node's disk is a file.
    NoFuse,
    /// The journal takes no more records, or the last stamp was given.
    Full,
    /// The moment is past.
    Backwards,
    /// The node has no flow of that number.
    NoFlow,
    /// The node recorded no such transaction.
    NoTransaction,
    /// The boot found no journal of this node, or a damaged one.
    Journal,
}

impl Refusal {
    /// Its number, 1 to 13, by which scripts tell it.
    pub fn code(self) -> u8
        ensures { result ≡ code_of self }
    {
        match self {
            Refusal::Syntax => 1,
            Refusal::UnknownNode => 2,
            Refusal::NodeDown => 3,
            Refusal::NodeUp => 4,
            Refusal::UnknownClass => 5,
            Refusal::BadArgs => 6,
            Refusal::NoFrame => 7,
            Refusal::NoFuse => 8,
            Refusal::Full => 9,
            Refusal::Backwards => 10,
            Refusal::NoFlow => 11,
            Refusal::NoTransaction => 12,
            Refusal::Journal => 13,
        }
    }

    /// Its name, one word, by which scripts tell it too.
    pub fn name(self) -> &'static str
        ensures { result.now ≡ name_of self }
    {
        match self {
            Refusal::Syntax => "Syntax",
            Refusal::UnknownNode => "UnknownNode",
            Refusal::NodeDown => "NodeDown",
            Refusal::NodeUp => "NodeUp",
            Refusal::UnknownClass => "UnknownClass",
            Refusal::BadArgs => "BadArgs",
            Refusal::NoFrame => "NoFrame",
            Refusal::NoFuse => "NoFuse",
            Refusal::Full => "Full",
            Refusal::Backwards => "Backwards",
            Refusal::NoFlow => "NoFlow",
            Refusal::NoTransaction => "NoTransaction",
            Refusal::Journal => "Journal",
        }
    }
}
