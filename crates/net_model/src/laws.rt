ghost use Rattle.net_model.specs.Enabled.{EnabledIsDefined};
ghost use Rattle.net_model.specs.Fits.{StepsFit, FitsKeepSound, FreshIsSound};
ghost use Rattle.net_model.specs.Left.{LeftFalls};
ghost use Rattle.net_model.specs.Tags.{NotaryTagsHold};
ghost use Rattle.net_model.specs.Stores.{RunsHoldStores, StoredIsSigned};
ghost use Rattle.net_model.specs.Books.{BooksOfRuns, BooksOfJournals};
ghost use Rattle.net_model.specs.Runs.{MergesInOrder, MergesEach, PrefixesAreRuns, StampsRise, StepIsItsEffect, ItemsStay, ItemsAreStamped, FaithfulExactly, FaithfulRun, CommitsKeepLocal, CommitsKeepMatched, CameWasSent, CameWasSentInJournals};

/// The law that a flow which keeps its own number goes on, by the event that performs its act, exactly where that event has an effect.
#[tactic(auto, using(crate::proofs::Enabled::enabled_is_defined))]
pub fn enabled_is_defined<F>()
    ensures { EnabledIsDefined F }
{}

/// The law that along a run of the network the stamps of each node rise, by one at least at each cause.
#[tactic(auto, using(crate::proofs::Stamps::stamps_rise))]
pub fn stamps_rise<F>()
    ensures { StampsRise F }
{}

/// The law that lists whose stamps rise from above 0 are merged in order, by stamp and then by node. That each cause of each list is
/// there, and no other, is `merges_each`.
#[tactic(auto, using(crate::proofs::Ordered::merges_in_order))]
pub fn merges_in_order<X>()
    ensures { MergesInOrder X }
{}

/// The law that the merged journals hold each node's causes, all of them, once each and in their order, and no others.
#[tactic(auto, using(crate::proofs::Kept::merges_each))]
pub fn merges_each()
    ensures { MergesEach }
{}

/// The law that each prefix of a run is a run.
#[tactic(auto, using(crate::proofs::Stamps::prefixes_are_runs))]
pub fn prefixes_are_runs<F>()
    ensures { PrefixesAreRuns F }
{}

/// The law that the state after a step is what its effect makes of the state before.
#[tactic(auto, using(crate::proofs::Effects::step_is_its_effect))]
pub fn step_is_its_effect<F>()
    ensures { StepIsItsEffect F }
{}

/// The law that a step of a network loses and changes no item that was sent, and that what it sends bears its stamp: an item of
/// another stamp was sent before it.
#[tactic(auto, using(crate::proofs::Local::items_stay, crate::proofs::Local::items_are_stamped))]
pub fn items_stay<F>()
    ensures stay { ItemsStay F }
    ensures stamped { ItemsAreStamped F }
{}

/// The law that what has come into a session is a front of what its peer has sent there, in a run and in the journals of one: items
/// come in their order, and none is passed over, comes twice, or was not sent.
#[tactic(auto, using(crate::proofs::Came::came_was_sent, crate::proofs::Came::came_was_sent_in_journals))]
pub fn came_was_sent<F>()
    ensures runs { CameWasSent F }
    ensures journals { CameWasSentInJournals F }
{}

/// The law that journals, one of each node, are those of a run exactly where each record is a step of its node alone and each
/// accepted item is its sender's.
#[tactic(auto, using(crate::proofs::Faithful::faithful_exactly))]
pub fn faithful_exactly<F>()
    ensures { FaithfulExactly F }
{}

/// The law that the merged causes of journals of a run are a legal run, and that the network after it is what each journal makes.
#[tactic(auto, using(crate::proofs::Faithful::faithful_run))]
pub fn faithful_run<F>()
    ensures { FaithfulRun F }
{}

/// The law that journals stay local and matched by one more record that is a step of its node over an item that its sender has.
#[tactic(auto, using(crate::proofs::Commits::commits_keep_local, crate::proofs::Commits::commits_keep_matched))]
pub fn commits_keep<F>()
    ensures local { CommitsKeepLocal F }
    ensures matched { CommitsKeepMatched F }
{}

/// The law that a step of a sound state gives a record that fits, that a record which fits keeps a state sound, and that the state in
/// which nothing has happened is sound.
#[tactic(auto, using(crate::proofs::Fitting::steps_fit, crate::proofs::Sound::fits_keep_sound, crate::proofs::Sound::fresh_is_sound))]
pub fn steps_fit<F>()
    ensures fits { StepsFit F }
    ensures sound { FitsKeepSound F }
    ensures fresh { FreshIsSound F }
{}

/// The law that in a run what is left falls at each cause but Start, for every flow set in which the weights of frames fall, a class's
/// load is enough for the flow that answers its `Init`, and a frame is over exactly where its act is Return or Fail.
#[tactic(auto, using(crate::proofs::LeftFalls::left_falls))]
pub fn left_falls<F>()
    ensures { LeftFalls F }
{}

/// The law that in a run each tag by the notary checks and is over an id that its book has signed, for every flow set that makes no
/// tags.
#[tactic(auto, using(crate::proofs::HoldsKept::notary_tags_hold))]
pub fn notary_tags_hold<F>()
    ensures { NotaryTagsHold F }
{}

/// The law that in a run each recorded transaction resolves among those of its node, was accepted over what it resolves to, has all tags
/// that it needs, and names no other notary than the network's.
#[tactic(auto, using(crate::proofs::Proven::stores_hold))]
pub fn stores_hold<F>()
    ensures { RunsHoldStores F }
{}

/// The law that in a run the id of each recorded transaction with an input, a reference or a time window is signed in the notary's book,
/// where the flow set makes no tags, a transaction that is accepted with one of these names a notary, and the network's notary is one
/// of the parties 0 to 15.
#[tactic(auto, using(crate::proofs::Spent::stored_is_signed))]
pub fn stored_is_signed<F>()
    ensures { StoredIsSigned F }
{}

/// The law that each entry of a node's book was added for a fresh answer over the entries before it, in a run and in a journal of the
/// node's own steps.
#[tactic(auto, using(crate::proofs::BookKept::books_of_runs, crate::proofs::BookKept::books_of_journals))]
pub fn books_hold<F>()
    ensures runs { BooksOfRuns F }
    ensures journals { BooksOfJournals F }
{}
