//! Laws of frames and of the sessions behind them. The functions do nothing when they run; their contracts are the laws.

ghost use Rattle.session_frames.specs.Agreement.{MessagesAreJudged, AcknowledgementsAreJudged, SpellingsAreJudged};
ghost use Rattle.session_frames.specs.Lawful.{NoneAreLawful, AnsweringIsLawful, ArrivingIsLawful, OpeningIsLawful, SendingIsLawful, TakingIsLawful};

/// The addressee of an item's message says that it is the next one, with the body and the stamp that were sent, exactly where
/// as many items of its direction arrived as stand before it. Where more arrived it came before, and where fewer did it is
/// early.
pub fn messages_are_judged_by_number()
    ensures { MessagesAreJudged }
{}

/// The addressee of an acknowledgement notes it where it sent that many items in the session, and else says that it is early.
pub fn acknowledgements_are_judged_by_number()
    ensures { AcknowledgementsAreJudged }
{}

/// A node says of the spelling of a frame what it says of that frame.
pub fn spellings_are_judged()
    ensures { SpellingsAreJudged }
{}

/// What the calls of this crate ask of a node's sessions holds where there are none, and every change that a transition makes
/// of sessions keeps it: an Init is answered, an item arrives, a session is opened, items are sent, an item is taken.
pub fn sessions_stay_lawful()
    ensures none { NoneAreLawful }
    ensures answered { AnsweringIsLawful }
    ensures arrived { ArrivingIsLawful }
    ensures opened { OpeningIsLawful }
    ensures sent { SendingIsLawful }
    ensures taken { TakingIsLawful }
{}
