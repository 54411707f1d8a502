//! Where an arrival is judged.

ghost use Rattle.std.specs.Prelude.{◌≤◌};

/// One of a node's event threads, of which there are `centers`: it judges the asks of the addresses whose
/// port and nonce together have this place modulo `centers`.
#[derive(Clone, Copy, Debug, PartialEq, Eq)]
pub struct HomeOf {
    /// Its place among them, from 0.
    pub center: u32,
    pub centers: u32,
    ghost some: { 1 ≤ centers },
}
