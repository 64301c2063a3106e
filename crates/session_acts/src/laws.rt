//! Laws of the definitions that the calls of this crate cite.

ghost use Rattle.session_acts.specs.Parts.{AnswersAsMeant, ArrivesAsMeant, SoundSessions};

/// The law that the answer to an `Init`, and an item that arrives, change of the sessions just what accepting them changes of the node.
#[tactic(auto, using(crate::proofs::Meant::answers_as_meant, crate::proofs::Meant::arrives_as_meant))]
pub fn accepted_as_meant<F>()
    ensures answers { AnswersAsMeant F }
    ensures arrives { ArrivesAsMeant F }
{}

/// The law that the sessions of a state that records which fit have made are sound.
#[tactic(auto, using(crate::proofs::Meant::sound_sessions))]
pub fn sessions_are_sound<F>()
    ensures { SoundSessions F }
{}
