//! Words that threads share: how much a throttle has out, and numbers that no two draws give twice.
//!
//! What it is: [`Throttle`], which grants up to a bound, with [`TakePass`], [`Grant`] and [`Take`];
//! [`Grants`], what three such [`Stages`] have granted for one message, with [`StagePasses`], [`Stage`] and [`More`];
//! [`Throttles`], all of a node, with [`TakePasses`], [`PeerGrants`], [`PeerType`] and [`Bounds`];
//! [`Numbers`], which gives each number once, with [`NumberPass`] and [`Draw`]; and two names for
//! contracts above, [`Item`], whose values belong to an owner, and [`Ids`], which names a throttle.
//! What it isn't: a lock or a queue. No call here waits, and each returns.
//!
//! A throttle and a counter of numbers are each one type with two makings. `alone` makes one whose
//! word is a number in its only pass: all of it is known. `new` makes one whose word lies in memory
//! that threads share and changes by single atomic steps: what is known is what holds in every order
//! of steps. Contracts see which it is by the place of the word, which is none where it is alone, and
//! each pass and each grant has the place of what it was made from.
//!
//! A message is granted in three stages: as one message more of its sender's type, by its bytes from peers of that type,
//! and by its bytes from all peers. What a stage refuses leaves what the stages before it have granted, and who asks
//! again asks for the rest alone (`specs/More.antt`). A node has a throttle for messages and one for bytes for each type,
//! and one for its dispatch. Contracts name each by its gate, and a clause that holds at each gate is one clause
//! (`specs/Gates.antt`).
//!
//! What holds in every order of steps is the rule of the memory, which each step is proved to keep: the word
//! of a throttle is the sum of the grants out, and within its bound (`specs/Held.antt`); no number is given
//! twice, and none above the last (`specs/Counted.antt`).
#![tactic(auto)]

mod bounds;
mod counted;
mod draw;
mod drawn;
mod grant;
mod grants;
mod held;
mod ids;
mod item;
mod limits;
mod more;
mod number_pass;
mod numbers;
mod peer_grants;
mod peer_type;
mod stage;
mod stages;
mod take;
mod take_pass;
mod throttle;
mod throttles;
mod type_throttle;
mod type_throttle_list;

pub use bounds::{Bounds, TypeBound};
pub use draw::Draw;
pub use grant::Grant;
pub use grants::Grants;
pub use ids::Ids;
pub use item::Item;
pub use limits::{LAST_NUMBER, MOST_TAKEN, NO_BOUND};
pub use more::More;
pub use number_pass::NumberPass;
pub use numbers::Numbers;
pub use peer_grants::PeerGrants;
pub use peer_type::PeerType;
pub use stage::Stage;
pub use stages::{StagePasses, Stages};
pub use take::Take;
pub use take_pass::TakePass;
pub use throttle::Throttle;
pub use throttles::{TakePasses, Throttles};
pub use type_throttle::{TypePass, TypeThrottle};
pub use type_throttle_list::{TypePassList, TypeThrottleList};
