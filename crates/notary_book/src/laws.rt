//! Laws of books. The functions do nothing when they run; their contracts are the laws.

ghost use Rattle.std.specs.Prelude.{◌≡◌, ◌≤◌, List, length, true, false};
ghost use Rattle.std.specs.List.{list_any};
ghost use Rattle.net_base.specs.declared.values.Hash32.{Hash32};
ghost use Rattle.net_base.specs.declared.values.Party.{Party};
ghost use Rattle.net_base.specs.declared.values.Moment.{Moment};
ghost use Rattle.net_base.specs.declared.names.StateRef.{StateRef};
ghost use Rattle.net_base.specs.declared.names.Identity.{Identity};
ghost use Rattle.ledger_types.specs.declared.notary.Request.{Request};
ghost use Rattle.ledger_types.specs.declared.notary.Entry.{Entry};
ghost use Rattle.ledger_types.specs.Notary.{is_signature, signs, consumers, reply, IsBook};
ghost use Rattle.notary_book.specs.Agreement.{refuses, AgreesWith, AllAgree, EntriesAgree, RequestAgrees};
ghost use Rattle.notary_book.specs.Causes.{is_conflict, AreCaused};

/// In a book whose every entry was added for a fresh decision over the entries before it, a state has at most one
/// consumer.
pub fn one_consumer()
    ensures { (mark : Party → Hash32 → Hash32) (me : Identity) (book : List Entry) (r : StateRef)
        → IsBook mark me book → length (consumers book r) ≤ 1 }
{}

/// In such a book each item of each conflict has the hash of the first entry before it that signed another id with the
/// item's reference among its inputs.
pub fn conflicts_name_consumers()
    ensures { (mark : Party → Hash32 → Hash32) (me : Identity) (book : List Entry)
        → IsBook mark me book → AreCaused book }
{}

/// In such a book, where no two requests of one id whose tear-offs are good and name this notary show different things,
/// an id that was signed is never answered a conflict, whatever its request.
pub fn signed_is_never_refused()
    ensures { (mark : Party → Hash32 → Hash32) (me : Identity) (book : List Entry) (q : Request)
        (now : Moment) → IsBook mark me book → AllAgree me.party book
        → list_any (signs q.torn.id) book ≡ true
        → is_conflict (reply mark book q me now).answer ≡ false }
{}

/// In such a book, where no two requests of one id whose tear-offs are good and name this notary show different things,
/// the new request among them, an id that was answered a conflict is never signed.
pub fn refused_is_never_signed()
    ensures { (mark : Party → Hash32 → Hash32) (me : Identity) (book : List Entry) (q : Request)
        (now : Moment) → IsBook mark me book → AllAgree me.party book → AgreesWith me.party q book
        → list_any (refuses q.torn.id) book ≡ true
        → is_signature (reply mark book q me now).answer ≡ false }
{}

/// Requests whose tear-offs are within their limits show the same where they have one id and name one notary: this is
/// what the two laws before ask. It holds where no digests of what is hashed for these tear-offs collide.
pub fn requests_agree()
    ensures entries { EntriesAgree }
    ensures request { RequestAgrees }
{}
