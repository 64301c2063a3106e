//! What the notary decides over its book.

ghost use Rattle.std.specs.Prelude.{◌≡◌, ◌<◌, ◌++◌, false, filter_map, OnOk, IfOk, IfSome};
ghost use Rattle.std.specs.Option.{option_copied};
ghost use Rattle.std.specs.List.{list_any, AllByRecursion};
ghost use Rattle.net_base.specs.Values.{IsParty};
ghost use Rattle.net_base.specs.Names.{IsTag};
ghost use Rattle.ledger_types.specs.Requests.{IsConflictItem, IsNotaryAnswer};
ghost use Rattle.ledger_types.specs.Names.{is_party};
ghost use Rattle.ledger_types.specs.Tears.{visible_of};
ghost use Rattle.ledger_types.specs.Notary.{signs, conflict_over, tag_by, has_good_tag, is_inside, conflicts, answer_unsigned, answer_shown, answer_new, reply};

use crate::book::Book;
use ledger_types::{ConflictItem, NotaryAnswer, RefKind, Request, Visible, Window, consumer_hash};
use net_base::{Hash32, Identity, ListOf, Moment, Party, StateRef, Tag};
use signing::Signer;
use std::alloc::{AllocError, Global};

/// An answer, and whether it is fresh: an entry is added exactly for a fresh one.
#[derive(Debug, Drop)]
pub struct Decision {
    pub answer: NotaryAnswer,
    pub fresh: bool,
}

fn tag_by<S: Signer>(signer: &S, by: Party, id: Hash32) -> Tag
    ensures tag { result ≡ tag_by (S.mark_of signer.now) by id }
    ensures limits { IsParty by → IsTag result }
{
    Tag {
        by,
        of: id,
        mark: signer.mark(by, &id),
    }
}

/// Whether the request's tag is by the asking party, over the id, and checks.
fn has_good_tag<S: Signer>(signer: &S, request: &Request) -> bool
    ensures { result ≡ has_good_tag (S.mark_of signer.now) request.now }
{
    request.tag.by.0 == request.party.0
        && request.tag.of == request.torn.id
        && signer.checks(&request.tag)
}

fn is_inside(window: &Option<Window>, now: Moment) -> bool
    ensures { result ≡ is_inside window.now now }
{
    match window {
        None => true,
        Some(window) => window.holds(now),
    }
}

fn is_party(party: Party, option: &Option<Party>) -> bool
    ensures { result ≡ is_party party option.now }
{
    match option {
        None => false,
        Some(other) => party == *other,
    }
}

impl Book {
    fn conflict_over(&self, id: &Hash32, kind: RefKind, reference: StateRef) -> Option<ConflictItem>
        requires { list_any (signs id.now) self.now.entries ≡ false }
        ensures item { result ≡ conflict_over self.now.entries id.now kind reference }
        ensures limits { IfSome result IsConflictItem }
    {
        match self.find_consumer(id, &reference) {
            None => None,
            Some(entry) => Some(ConflictItem {
                reference,
                consumer_hash: consumer_hash(&entry.request.torn.id),
                kind,
            }),
        }
    }

    /// Adds the conflicts over the references. After want of memory some may have been added.
    fn add_conflicts(
        &self,
        id: &Hash32,
        kind: RefKind,
        refs: &[StateRef],
        items: &mut Vec<ConflictItem>,
    ) -> Result<(), AllocError>
        requires { list_any (signs id.now) self.now.entries ≡ false }
        ensures items { OnOk result (items.new.items
            ≡ items.old.items ++ filter_map (conflict_over self.now.entries id.now kind)
            refs.now) }
        ensures limits { AllByRecursion IsConflictItem items.old.items
            → OnOk result (AllByRecursion IsConflictItem items.new.items) }
    {
        for reference in refs {
            if let Some(item) = self.conflict_over(id, kind, *reference) {
                items.push(item)?;
            }
        }
        Ok(())
    }

    /// The answer about an id that was not signed before: a conflict, of which at most 80 items are named; or that the
    /// moment is outside the window; else the notary's tag.
    #[tactic(auto, using(crate::proofs::Answering::conflicting, crate::proofs::Answering::free))]
    fn answer_unsigned<S: Signer>(
        &self,
        alloc: Global,
        id: &Hash32,
        seen: &Visible,
        me: Party,
        now: Moment,
        signer: &S,
    ) -> Result<NotaryAnswer, AllocError>
        requires { list_any (signs id.now) self.now.entries ≡ false }
        ensures answer { IfOk result (λ a. a
            ≡ answer_unsigned (S.mark_of signer.now) me id.now now seen.now.window
            (conflicts self.now.entries id.now seen.now)) }
        ensures limits { IsParty me → IfOk result IsNotaryAnswer }
    {
        let mut items = Vec::new(alloc);
        self.add_conflicts(id, RefKind::Input, seen.inputs.as_slice(), &mut items)?;
        self.add_conflicts(
            id,
            RefKind::Reference,
            seen.references.as_slice(),
            &mut items,
        )?;
        if items.len() > 0 {
            items.truncate(80);
            return Ok(NotaryAnswer::Conflict {
                list: ListOf::from_vec(items),
            });
        }
        if !is_inside(&seen.window, now) {
            return Ok(NotaryAnswer::OutsideWindow { now });
        }
        Ok(NotaryAnswer::Signed {
            tag: tag_by(signer, me, *id),
        })
    }

    /// The answer to a good tear-off that names this notary.
    fn answer_shown<S: Signer>(
        &self,
        alloc: Global,
        request: &Request,
        seen: &Visible,
        me: Party,
        now: Moment,
        signer: &S,
    ) -> Result<NotaryAnswer, AllocError>
        ensures answer { IfOk result (λ a. a
            ≡ answer_shown (S.mark_of signer.now) me self.now.entries request.now now
            seen.now) }
        ensures limits { IsParty me → IfOk result IsNotaryAnswer }
    {
        if !has_good_tag(signer, request) {
            return Ok(NotaryAnswer::BadRequestTag);
        }
        let id = &request.torn.id;
        if self.is_signed(id) {
            return Ok(NotaryAnswer::Signed {
                tag: tag_by(signer, me, *id),
            });
        }
        self.answer_unsigned(alloc, id, seen, me, now, signer)
    }

    /// The answer to a request that no entry repeats.
    fn answer_new<S: Signer>(
        &self,
        alloc: Global,
        request: &Request,
        seen: Option<&Visible>,
        me: &Identity,
        now: Moment,
        signer: &S,
    ) -> Result<NotaryAnswer, AllocError>
        requires { option_copied seen ≡ visible_of request.now.torn }
        ensures answer { IfOk result (λ a. a
            ≡ answer_new (S.mark_of signer.now) me.now self.now.entries request.now now) }
        ensures limits { IsParty me.now.party → IfOk result IsNotaryAnswer }
    {
        if me.party != me.notary {
            return Ok(NotaryAnswer::WrongNotary);
        }
        match seen {
            None => Ok(NotaryAnswer::BadTear),
            Some(seen) => {
                if is_party(me.party, &seen.notary) {
                    self.answer_shown(alloc, request, seen, me.party, now, signer)
                } else {
                    Ok(NotaryAnswer::WrongNotary)
                }
            }
        }
    }

    /// What the notary replies to a request, of whose tear-off `seen` is what it shows, `None` where it is bad. The
    /// first of these that applies:
    ///
    /// 1. An entry of the same party, flow and id has its answer repeated, which is not fresh.
    /// 2. `WrongNotary` where this node is not its network's notary (which is not fresh), or a good tear-off names none
    ///    or another one.
    /// 3. `BadTear` where the tear-off is bad.
    /// 4. `BadRequestTag` where the request's tag isn't the asking party's over the id, or doesn't check.
    /// 5. `Signed` where an entry signed this id already.
    /// 6. `Conflict` where an input or a reference is an input of a signed entry of another id: each such one, inputs
    ///    first, at most 80.
    /// 7. `OutsideWindow` where there is a time window that doesn't hold the moment.
    /// 8. `Signed` with the notary's tag.
    #[tactic(auto, unfolding(ledger_types::specs::Notary::reply))]
    pub fn decide<S: Signer>(
        &self,
        alloc: Global,
        request: &Request,
        seen: Option<&Visible>,
        me: &Identity,
        now: Moment,
        signer: &S,
    ) -> Result<Decision, AllocError>
        requires { option_copied seen ≡ visible_of request.now.torn }
        ensures answer { IfOk result (λ d. d.answer
            ≡ (reply (S.mark_of signer.now) self.now.entries request.now me.now now).answer) }
        ensures fresh { IfOk result (λ d. d.fresh
            ≡ (reply (S.mark_of signer.now) self.now.entries request.now me.now now).fresh) }
        ensures limits { IsParty me.now.party → IfOk result (λ d. IsNotaryAnswer d.answer) }
    {
        // Each look-up is in the book's indices, so no list of entries is gone through.
        match self.find_repeated(request) {
            Some(entry) => Ok(Decision {
                answer: entry.answer.copy(alloc)?,
                fresh: false,
            }),
            None => Ok(Decision {
                answer: self.answer_new(alloc, request, seen, me, now, signer)?,
                fresh: me.party == me.notary,
            }),
        }
    }
}
