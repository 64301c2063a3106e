ghost use Rattle.net_model.specs.Environment.{meaning, Meaning};
ghost use Rattle.ledger_laws.specs.Ledgers.{HasOneConsumerEach, IsSignedInBook, HasWholeChains, HasNoneSpentTwice};
ghost use Rattle.ledger_laws.specs.Places.{Made, InWorlds, OnWays};
ghost use Rattle.ledger_laws.specs.Windows.{KeepsWindows};

use contract_verify::Judge;
use flow_machine::FlowSet;

/// The law that in the notary's book each state has one consumer at most, and that each item of each conflict in it names, by the digest of
/// its id, the first transaction signed before that has the state among its inputs.
///
/// As the laws below it holds of every coherent world, whichever journals power cuts leave of it, and at every moment of a way, also within
/// a call of a disk, whichever images power cuts leave of the disks. What a network does is ways (`network_core::calls_are_ways`), and a
/// script is a passage (`node_shell::scripts_are_passages`): ways, with work side by side between them.
pub fn each_state_has_one_consumer<F>()
    ensures worlds { (m : Meaning F) → InWorlds m (Made HasOneConsumerEach) }
    ensures moments { (m : Meaning F) → OnWays m (Made HasOneConsumerEach) }
{}

/// The law that each tag by the notary that a node holds, in a flow, a message, a transaction or an entry, checks and is over an id that the
/// notary's book signed; and that the id of each recorded transaction that has an input, a reference or a time window is one.
///
/// It rests on two laws that are asked of whoever hands in flows and contracts: no flow makes a tag up (`FlowSet`), and what is accepted
/// names a notary where one has to sign (`Judge`).
pub fn what_is_held_was_signed<F: FlowSet, J: Judge>()
    ensures worlds { (contracts : J) → InWorlds (meaning F.machine F.reading (J.judges contracts))
        (Made IsSignedInBook) }
    ensures moments { (contracts : J) → OnWays (meaning F.machine F.reading (J.judges contracts))
        (Made IsSignedInBook) }
{}

/// The law that each node recorded its transactions in order, each behind all that it depends on, so that the whole back-chain of each
/// is recorded there; and that each of them was accepted with the states that it names, and has all signatures that it needs.
pub fn back_chains_are_whole<F>()
    ensures worlds { (m : Meaning F) → InWorlds m (Made HasWholeChains) }
    ensures moments { (m : Meaning F) → OnWays m (Made HasWholeChains) }
{}

/// The law that two recorded transactions of different ids, at any two nodes, have no input in common: the notary's book has one consumer of
/// each input of a recorded transaction, which is that transaction.
///
/// What it asks is that SHA-256 tells apart what was hashed to sign these two: for each, what its own tear-off is hashed from and what the
/// tear-off is hashed from over which its id was first signed. No two different ones of these byte lists share a digest, and no digest is all
/// zeros or all ones.
pub fn no_state_is_spent_twice<F: FlowSet, J: Judge>()
    ensures worlds { (contracts : J) → InWorlds (meaning F.machine F.reading (J.judges contracts))
        (Made HasNoneSpentTwice) }
    ensures moments { (contracts : J) → OnWays (meaning F.machine F.reading (J.judges contracts))
        (Made HasNoneSpentTwice) }
{}

/// The law that each recorded transaction that has an input, a reference or a time window was first signed by the notary at a moment that its
/// window holds, if it has one: a record of the notary's journal, of that moment, booked the first entry of its book that signed the id.
///
/// It asks of flows and contracts what `what_is_held_was_signed` does. Only that the window holds the moment asks more: of digests what the law
/// above does, of the one transaction; and that the moments of the window have 64 bits, as those of `Window` have.
pub fn recorded_was_signed_in_its_window<F: FlowSet, J: Judge>()
    ensures worlds { (contracts : J) → InWorlds (meaning F.machine F.reading (J.judges contracts))
        KeepsWindows }
    ensures moments { (contracts : J) → OnWays (meaning F.machine F.reading (J.judges contracts))
        KeepsWindows }
{}
