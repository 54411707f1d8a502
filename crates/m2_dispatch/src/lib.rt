//! What a node's dispatchers are called with, and the queue before them: letters wait in it in the order of their
//! priorities.
//!
//! What it is: [`Dispatch`], which takes [`Parcel`]s and hands the messages of [`Letter`]s to a [`Dispatcher`] one by
//! one, the greatest priority first; [`LogDispatcher`], a dispatcher that writes down what it was called with, a
//! [`Logged`] each; and [`LoggedList`], the list of them. Each letter holds what a throttle granted for its message,
//! and the queue gives it back when the message is dispatched or thrown away. What it isn't: a thread, or a rule of
//! what a message means; both are the caller's.
#![tactic(auto)]

mod dispatch;
mod dispatcher;
mod laws;
mod letter;
mod log_dispatcher;
mod logged;
mod parcel;
mod thrown;
mod turn;
mod waiting;

pub use dispatch::Dispatch;
pub use dispatcher::Dispatcher;
pub use laws::{each_key_keeps_its_order, greatest_priority_first};
pub use letter::Letter;
pub use log_dispatcher::LogDispatcher;
pub use logged::{Logged, LoggedList};
pub use parcel::Parcel;
pub use turn::DispatchTurn;
