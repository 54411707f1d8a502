//! The throttles of all types of peers.

use crate::type_throttle::{TypePass, TypeThrottle};

/// Throttles for each type of peers.
#[derive(Drop)]
pub struct TypeThrottleList {
    pub mon: TypeThrottle,
    pub mds: TypeThrottle,
    pub osd: TypeThrottle,
    pub client: TypeThrottle,
    pub mgr: TypeThrottle,
}

/// The rights of one thread to take from them and to give back.
#[derive(Drop)]
pub struct TypePassList {
    pub mon: TypePass,
    pub mds: TypePass,
    pub osd: TypePass,
    pub client: TypePass,
    pub mgr: TypePass,
}
