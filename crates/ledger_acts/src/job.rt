//! Jobs.

ghost use Rattle.std.specs.Prelude.{◌≡◌, []};
ghost use Rattle.net_base.specs.Parties.{members};
ghost use Rattle.signing.specs.Marks.{keyed_mark};
ghost use Rattle.ledger_types.specs.Txs.{IsTx};
ghost use Rattle.tx_store.specs.Stored.{HasEach};
ghost use Rattle.ledger_acts.specs.Jobs.{missing_in, IsRun};

use contract_verify::Judge;
use ledger_types::{Resolved, SignedTx, TagList, Verdict, WireTx};
use net_base::{Party, PartySet};
use signing::KeyedDigest;
use tx_rules::missing_tags;

/// What a flow waits for that wants a transaction judged, or recorded. It is run without the node, which may go on meanwhile.
#[derive(Debug, Drop)]
pub struct Job {
    pub node: Party,
    pub flow: u32,
    /// The step at which the flow waits.
    pub step: u32,
    pub tx: WireTx,
    /// Those of a transaction that is to be recorded; `None` of one that is only to be judged.
    pub tags: Option<TagList>,
    /// The states that the transaction names.
    pub resolved: Resolved,
}

/// A job that was run.
#[derive(Debug, Drop)]
pub struct Done {
    pub job: Job,
    pub verdict: Verdict,
    /// Who has to sign the transaction and has not; nobody of a job without tags.
    pub missing: PartySet,
}

/// No party.
fn nobody() -> PartySet
    ensures { members result ≡ [] }
{
    PartySet::empty()
}

/// Who has to sign a transaction and has not, nobody where no tags are asked for; and the transaction and its tags again.
fn missing_of(tx: WireTx, tags: Option<TagList>) -> (WireTx, Option<TagList>, PartySet)
    requires { IsTx tx }
    ensures tx { result.0 ≡ tx }
    ensures tags { result.1 ≡ tags }
    ensures missing { members result.2 ≡ missing_in keyed_mark tx tags }
{
    match tags {
        None => (tx, None, nobody()),
        Some(tags) => {
            let stx = SignedTx { tx, tags };
            let missing = missing_tags(&stx, &KeyedDigest);
            let SignedTx { tx, tags } = stx;
            (tx, Some(tags), missing)
        }
    }
}

impl Job {
    /// Runs the job: the verdict on its transaction over these contracts, and who has to sign it and has not. It takes no memory.
    pub fn run<J: Judge>(self, contracts: &J) -> Done
        requires limits { IsTx self.tx }
        requires states { HasEach self.tx self.resolved }
        ensures job { result.job ≡ self }
        ensures run { IsRun (J.judges contracts.now) keyed_mark result }
    {
        let Job {
            node,
            flow,
            step,
            tx,
            tags,
            resolved,
        } = self;
        let verdict = contracts.judge(&tx, &resolved);
        let (tx, tags, missing) = missing_of(tx, tags);
        Done {
            job: Job {
                node,
                flow,
                step,
                tx,
                tags,
                resolved,
            },
            verdict,
            missing,
        }
    }
}
