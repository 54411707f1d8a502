//! The types of peers.

ghost use Rattle.std.specs.Prelude.{◌≡◌};
ghost use Rattle.m2_shared.specs.Gates.{peer_type, type_of};

/// The types of Ceph's entities, for each of which a node may have throttles.
#[derive(Clone, Copy, Debug, Drop, PartialEq, Eq)]
pub enum PeerType {
    Mon,
    Mds,
    Osd,
    Client,
    Mgr,
}

impl PeerType {
    /// The type that an entity's number means. None where it means none.
    pub fn of(entity: u8) -> Option<PeerType>
        ensures { result ≡ type_of entity }
    {
        match entity {
            1 => Some(PeerType::Mon),
            2 => Some(PeerType::Mds),
            4 => Some(PeerType::Osd),
            8 => Some(PeerType::Client),
            16 => Some(PeerType::Mgr),
            _ => None,
        }
    }

    /// The same, where a number that means none stands for a client.
    pub fn of_peer(entity: u8) -> PeerType
        ensures { result ≡ peer_type entity }
    {
        match PeerType::of(entity) {
            Some(of) => of,
            None => PeerType::Client,
        }
    }
}
