ghost use Rattle.net_model.specs.Environment.{meaning};
ghost use Rattle.ledger_laws.specs.Ledgers.{HasOneConsumerEach, IsSignedInBook, HasWholeChains, HasNoneSpentTwice};
ghost use Rattle.ledger_laws.specs.Windows.{KeepsWindows};
ghost use Rattle.ledger_laws.specs.Places.{Made};
ghost use Rattle.story_laws.specs.Scripts.{InScripts};

use contract_verify::Judge;
use flow_machine::FlowSet;

/// The law that the laws of `ledger_laws` hold throughout a script, as `node_shell::run` tells it of networks together with the worlds that
/// they show: as it begins and after every line, whichever journals power cuts leave, and at every moment of it but those within
/// `workers`, also within a call of a disk, whichever images they leave of the disks.
pub fn ledgers_hold_in_scripts<F: FlowSet, J: Judge>()
    ensures one_consumer { (contracts : J)
        → InScripts (meaning F.machine F.reading (J.judges contracts)) (Made HasOneConsumerEach) }
    ensures signed { (contracts : J) → InScripts (meaning F.machine F.reading (J.judges contracts))
        (Made IsSignedInBook) }
    ensures whole_chains { (contracts : J)
        → InScripts (meaning F.machine F.reading (J.judges contracts)) (Made HasWholeChains) }
    ensures none_twice { (contracts : J)
        → InScripts (meaning F.machine F.reading (J.judges contracts)) (Made HasNoneSpentTwice) }
    ensures windows { (contracts : J) → InScripts (meaning F.machine F.reading (J.judges contracts))
        KeepsWindows }
{}
