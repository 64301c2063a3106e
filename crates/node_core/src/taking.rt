//! How a node that is up takes a frame.

ghost use Rattle.std.specs.Prelude.{◌≡◌, ◌<◌, ◌≤◌, ◌^◌, ◌+◌, false, Err, Some, IfOk};
ghost use Rattle.session_frames.specs.Items.{CanAnswer, IsNextItem};
ghost use Rattle.net_model.specs.Environment.{environment, unjudged};
ghost use Rattle.node_tables.specs.Journals.{state_of};
ghost use Rattle.node_core.specs.Journals.{is_full};
ghost use Rattle.node_core.specs.Seen.{CommitsAs, Tied};
ghost use Rattle.node_core.specs.States.{seen_up, seen_after, TakesItem};
ghost use Rattle.node_core.specs.Takes.{accepting, ack_to, TakesAs};

use super::faults::{CommitFault, TakeFault, Taken};
use super::up::Up;
use flow_machine::FlowSet;
use net_base::{Identity, Key, Moment, Party};
use outside::Disk;
use session_frames::{Judged, Outgoing, ack_frame};
use session_table::Item;
use std::alloc::{AllocError, Global};

/// The acknowledgement of the first `upto` items of a direction of a session, with its addressee. The only error is want of memory.
fn ack_to(
    alloc: Global,
    party: Party,
    to: Party,
    key: &Key,
    direction: u8,
    upto: u32,
) -> Result<Outgoing, AllocError>
    requires { CanAnswer party to key.now direction upto }
    ensures { IfOk result (λ ack. ack ≡ ack_to party to key.now direction upto) }
{
    let bytes = ack_frame(alloc, party, to, key, direction, upto)?;
    Ok(Outgoing { to, bytes })
}

impl<D: Disk, F: FlowSet> Up<D, F> {
    /// Takes a frame, as `Node::take` does. After `Fault` the node is to go down.
    pub fn take(
        &mut self,
        alloc: Global,
        identity: &Identity,
        now: Moment,
        bytes: &[u8],
    ) -> Result<Taken, TakeFault>
        requires tied { Tied identity.now self.old.journal self.old.bodies }
        requires by { (state_of F.reading self.old.bodies).moment ≤ now.0 }
        ensures takes { TakesAs (environment (unjudged F.machine F.reading) identity.now) now.0
            bytes.now self.old.bodies (seen_up identity.now self.old) result
            (seen_after identity.now result self.new) }
        ensures tied { (result ≡ Err TakeFault.Fault → ⊥)
            → Tied identity.now self.new.journal self.new.bodies }
        ensures by { (state_of F.reading self.new.bodies).moment ≤ now.0 }
    {
        match self.judge(alloc, identity, bytes)? {
            Judged::Garbled => Err(TakeFault::Garbled),
            Judged::NotMine { to } => Err(TakeFault::NotMine { to }),
            Judged::NoSession => Ok(Taken::NoSession),
            Judged::Early { expected } => Ok(Taken::Early { expected }),
            Judged::Acked {
                key,
                direction,
                upto,
            } => {
                self.acknowledge(&key, direction, upto);
                Ok(Taken::Acked)
            }
            Judged::Again {
                from,
                key,
                direction,
                expected,
            } => {
                let ack = ack_to(alloc, identity.party, from, &key, direction, expected)?;
                Ok(Taken::Again { expected, ack })
            }
            Judged::Next {
                from,
                key,
                direction,
                number,
                stamp,
                body,
            } => {
                let item = Item {
                    peer: from,
                    key,
                    direction,
                    number,
                    stamp,
                    body,
                };
                self.take_item(alloc, identity, now, item)
            }
        }
    }

    /// Takes the item that comes next of its session.
    fn take_item(
        &mut self,
        alloc: Global,
        identity: &Identity,
        now: Moment,
        item: Item,
    ) -> Result<Taken, TakeFault>
        requires tied { Tied identity.now self.old.journal self.old.bodies }
        requires by { (state_of F.reading self.old.bodies).moment ≤ now.0 }
        requires next { IsNextItem identity.now
            (state_of F.reading self.old.bodies).sessions item.peer item.key item.direction
            item.number item.stamp item.body }
        ensures takes { TakesItem (environment (unjudged F.machine F.reading) identity.now) now.0
            self.old.bodies item (seen_up identity.now self.old) result
            (seen_after identity.now result self.new) }
        ensures tied { (result ≡ Err TakeFault.Fault → ⊥)
            → Tied identity.now self.new.journal self.new.bodies }
        ensures by { (state_of F.reading self.new.bodies).moment ≤ now.0 }
    {
        self.law_known_next(identity, &item);
        if self.is_full(item.stamp) {
            drop(item);
            return Err(TakeFault::Full);
        }
        let upto = item.number + 1;
        match ack_to(
            alloc,
            identity.party,
            item.peer,
            &item.key,
            item.direction,
            upto,
        ) {
            Ok(ack) => self.accept(alloc, identity, now, item, ack),
            Err(_) => {
                drop(item);
                Err(TakeFault::Memory)
            }
        }
    }

    /// Commits an item that comes next; its acknowledgement is worked out already, so that no memory is wanted afterwards.
    fn accept(
        &mut self,
        alloc: Global,
        identity: &Identity,
        now: Moment,
        item: Item,
        ack: Outgoing,
    ) -> Result<Taken, TakeFault>
        requires tied { Tied identity.now self.old.journal self.old.bodies }
        requires by { (state_of F.reading self.old.bodies).moment ≤ now.0 }
        requires next { IsNextItem identity.now
            (state_of F.reading self.old.bodies).sessions item.peer item.key item.direction
            item.number item.stamp item.body }
        requires small { item.number + 1 < 2 ^ 32 }
        requires room { is_full F.reading item.stamp self.old.bodies ≡ false }
        requires ack { ack ≡ ack_to identity.now.party item.peer item.key item.direction
            (item.number + 1) }
        ensures takes { TakesItem (environment (unjudged F.machine F.reading) identity.now) now.0
            self.old.bodies item (seen_up identity.now self.old) result
            (seen_after identity.now result self.new) }
        ensures tied { (result ≡ Err TakeFault.Fault → ⊥)
            → Tied identity.now self.new.journal self.new.bodies }
        ensures by { (state_of F.reading self.new.bodies).moment ≤ now.0 }
    {
        let upto = item.number + 1;
        match self.commit_item(alloc, identity, now, item) {
            Ok(()) => Ok(Taken::Took { upto, ack }),
            Err(why) => {
                drop(ack);
                match why {
                    CommitFault::Memory => Err(TakeFault::Memory),
                    CommitFault::Fault => Err(TakeFault::Fault),
                }
            }
        }
    }

    /// Commits the record by which an item that comes next is accepted.
    fn commit_item(
        &mut self,
        alloc: Global,
        identity: &Identity,
        now: Moment,
        item: Item,
    ) -> Result<(), CommitFault>
        requires tied { Tied identity.now self.old.journal self.old.bodies }
        requires by { (state_of F.reading self.old.bodies).moment ≤ now.0 }
        requires next { IsNextItem identity.now
            (state_of F.reading self.old.bodies).sessions item.peer item.key item.direction
            item.number item.stamp item.body }
        requires small { item.number + 1 < 2 ^ 32 }
        requires room { is_full F.reading item.stamp self.old.bodies ≡ false }
        ensures commits { CommitsAs (environment (unjudged F.machine F.reading) identity.now)
            identity.now now.0 (accepting (state_of F.reading self.old.bodies).sessions item.key
            item.direction item.number) (Some (record { body = item.body; stamp = item.stamp }))
            self.old result self.new }
        ensures by { (state_of F.reading self.new.bodies).moment ≤ now.0 }
    {
        let step = self.accepting(alloc, identity, now, item)?;
        self.commit(alloc, identity, now, step)
    }
}
