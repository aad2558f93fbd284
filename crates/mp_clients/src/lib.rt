//! Conversations with a pool that they share. Each line is answered before the next of its conversation is read.
#![tactic(auto)]

mod adopting;
mod allowed;
mod answering;
mod asking;
mod bad;
mod beginning;
mod checking;
mod client;
mod closing;
mod connected;
mod conversation;
mod conversing;
mod fault;
mod finishing;
mod forgetting;
mod former;
mod journal;
mod meaning;
mod opening;
mod reading;
mod recorded;
mod service;
mod settling;
mod shared;
mod stop;

pub use beginning::{begin, refuse};
pub use client::Client;
pub use closing::Close;
pub use connected::Connected;
pub use conversation::Conversation;
pub use fault::ClientFault;
pub use opening::{Opened, Seat, open};
pub use service::{Finished, Service, serve};
pub use shared::Shared;
