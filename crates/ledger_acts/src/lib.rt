//! What the acts of a flow on its node's ledger do, over the tables of that ledger (Corda 4 documentation, "Vault", "Soft
//! locking", "Notaries"); and the jobs for which flows wait: a transaction that is to be judged, and recorded or not. Each call
//! answers what changes, and changes nothing itself. A job is run without the node, which may go on meanwhile.
#![tactic(auto)]

mod acts;
mod awaiting;
mod concluding;
mod job;
mod laws;
mod outcome;

pub use acts::{look_up, missing, notarise, reserve, sign};
pub use awaiting::{is_awaited, needs_job, record_unjudged, take_job, verify_unjudged};
pub use concluding::conclude;
pub use job::{Done, Job};
pub use laws::{
    acts_as_meant, concludes_as_meant, job_is_the_act, job_stays, jobs_are_within,
    settles_as_meant, unclaimed_is_picked, unjudged_as_meant,
};
pub use outcome::LedgerOutcome;
