//! Bytes: buffers, fields of wire formats, and numbers and bytes as text.
//!
//! What it is: [`Blob`], a growing buffer whose spare room contracts can see; [`Part`], bytes that no longer change; [`Items`], a list
//! that contracts see as a list; [`Reader`] and the `put_` functions, little-endian fields;
//! [`read_decimal`], [`read_hex`] and their writers, the canonical words of scenario files and
//! reports. What it isn't: input or output. Whatever takes memory answers [`NoMemory`] where
//! there is none, and its arguments are then as before.
#![tactic(auto)]

mod blob;
mod decimal;
mod fields;
mod hexadecimal;
mod items;
mod memory;
mod part;
mod reader;
mod told;

pub use blob::Blob;
pub use decimal::{put_decimal, read_decimal};
pub use fields::{put_u8, put_u16, put_u32, put_u64};
pub use hexadecimal::{HexFault, hex_is_read_again, put_hex, read_hex};
pub use items::Items;
pub use memory::{NoMemory, Short};
pub use part::Part;
pub use reader::Reader;
pub use told::Told;
