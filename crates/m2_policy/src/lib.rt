//! What two entities have agreed on before they speak: the policies of a link, who wins a race of
//! connects, which features are missing, and by which path a message is dispatched; and what each
//! chooses for itself.
//!
//! What it is: [`Policy`] with the five that a node can have towards another, and [`is_allowed`],
//! the pairs that a link can have; [`Rules`], what a node may do otherwise than its peer, with
//! [`profile`] and [`of_daemons`]; [`wins`], the race of two connects that cross; [`missing`],
//! feature bits; [`Path`], [`Key`] and [`FastSet`], how messages are ordered and dispatched at
//! their reader. What it isn't: state. All of these are values, and nothing here takes memory.
#![tactic(auto)]

mod fast_set;
mod features;
mod laws;
mod path;
mod policy;
mod race;
mod rules;

pub use fast_set::FastSet;
pub use features::missing;
pub use laws::one_wins;
pub use path::{Key, Path};
pub use policy::{
    Policy, is_allowed, lossless_client, lossless_peer, lossy_client, stateful_server,
    stateless_server,
};
pub use race::wins;
pub use rules::{AuthPayload, ConnectRise, Rules, of_daemons, profile};
