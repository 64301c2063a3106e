ghost use Rattle.node_shell.specs.Together.{LinesArePassages, ScriptsAreBoth, ScriptsArePassages};

/// The law that a script, as `run` tells it of networks together with the worlds that they show, is one passage from the first of them to
/// the last, and that passages lead to and on from each that a line left: ways, with work side by side between one and the next at most as
/// often as lines of the script are `workers`. So at every moment of a script but those within such a line, also within any other line,
/// whichever image power cuts leave of each disk: the journals are those of one run of the network, the causes of each begin with those
/// that its disk had before, and what was acknowledged at the end of an earlier line stands once in the merged journals. What the disk of
/// one node may leave within `workers` is a law of its history (`work_law::histories_last`).
pub fn scripts_are_passages<F>()
    ensures { ScriptsArePassages F }
{}

/// The law that each line of such a script is a passage of its own, whether it was answered or not: with one piece of work side by side at
/// most where it is `workers`, and else a way (`work_law::unworked_are_ways`).
pub fn lines_are_passages<F>()
    ensures { LinesArePassages F }
{}

/// The law that such a script is one of the worlds alone, and one of the networks alone.
pub fn scripts_are_both<F>()
    ensures { ScriptsAreBoth F }
{}
