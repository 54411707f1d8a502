//! The banner and the control payloads of msgr2: their exact readers and writers.
//!
//! What it is: [`Banner`], read step by step by [`read_banner`] and appended by [`write_banner`];
//! [`Control`], one variant a payload, read by [`Control::read`] under the tag of its frame and
//! appended by [`Control::write`]. [`ControlFault`] names each refusal. [`written_payload_is_read`] and [`written_banner_is_read`] are laws. What it
//! isn't: frames, or what a side does with a payload.
//!
//! The formats are those of Ceph's msgr2 documentation; what is refused, and in which order, is
//! this project's profile (docs/PROTOCOL.md).
#![tactic(auto)]

mod ack;
mod auth_bad_method;
mod auth_done;
mod auth_request;
mod auth_signature;
mod banner;
mod client_ident;
mod control;
mod fault;
mod fields;
mod hello;
mod ident;
mod ident_missing_features;
mod keepalive;
mod keepalive_ack;
mod laws;
mod server_facts;
mod server_ident;
mod session_reconnect;
mod session_reconnect_ok;
mod session_reset;
mod session_retry;
mod session_retry_global;
mod stamp;
mod wait;

pub use ack::Ack;
pub use auth_bad_method::AuthBadMethod;
pub use auth_done::AuthDone;
pub use auth_request::AuthRequest;
pub use auth_signature::AuthSignature;
pub use banner::{Banner, BannerStep, LEAST_BANNER, MOST_BANNER, read_banner, write_banner};
pub use client_ident::ClientIdent;
pub use control::Control;
pub use fault::ControlFault;
pub use fields::{GREATEST_NUMBER, MOST_BYTES, MOST_LISTED, NumList, SIGNATURE_BYTES};
pub use hello::Hello;
pub use ident_missing_features::IdentMissingFeatures;
pub use keepalive::Keepalive;
pub use keepalive_ack::KeepaliveAck;
pub use laws::{
    banner_is_a_function, others_are_refused, written_banner_is_read, written_payload_is_read,
};
pub use server_facts::ServerFacts;
pub use server_ident::ServerIdent;
pub use session_reconnect::SessionReconnect;
pub use session_reconnect_ok::SessionReconnectOk;
pub use session_reset::SessionReset;
pub use session_retry::SessionRetry;
pub use session_retry_global::SessionRetryGlobal;
pub use wait::Wait;
