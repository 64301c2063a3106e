//! The notary client, which has the network's notary decide a request, and the notary service that answers it.
#![tactic(auto)]

mod client;
mod service;

pub use client::{Client, ClientFrame, ClientPlace};
pub use service::{Service, ServiceFrame, ServicePlace};

/// The class of an Init that the notary service answers, and that the notary client sends.
pub const NOTARY_CLASS: u16 = 20;
