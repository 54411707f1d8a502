//! The names of Ceph's messages.

ghost use Rattle.std.specs.Prelude.{◌≡◌, option_map};
ghost use Rattle.m2_frame_facts.specs.MessageType.{with_monitors, of_clients, of_monitors, of_osds, of_recovery, of_metadata_servers, of_migration, of_managers, name_of_type};

/// The name of a message between clients and monitors.
fn with_monitors(number: u16) -> Option<&'static str>
    ensures { option_map (λ name. name.now) result ≡ with_monitors number }
{
    match number {
        1 => Some("CEPH_MSG_SHUTDOWN"),
        2 => Some("CEPH_MSG_PING"),
        4 => Some("CEPH_MSG_MON_MAP"),
        5 => Some("CEPH_MSG_MON_GET_MAP"),
        6 => Some("CEPH_MSG_MON_GET_OSDMAP"),
        7 => Some("CEPH_MSG_MON_METADATA"),
        13 => Some("CEPH_MSG_STATFS"),
        14 => Some("CEPH_MSG_STATFS_REPLY"),
        15 => Some("CEPH_MSG_MON_SUBSCRIBE"),
        16 => Some("CEPH_MSG_MON_SUBSCRIBE_ACK"),
        17 => Some("CEPH_MSG_AUTH"),
        18 => Some("CEPH_MSG_AUTH_REPLY"),
        19 => Some("CEPH_MSG_MON_GET_VERSION"),
        20 => Some("CEPH_MSG_MON_GET_VERSION_REPLY"),
        21 => Some("CEPH_MSG_MDS_MAP"),
        41 => Some("CEPH_MSG_OSD_MAP"),
        45 => Some("CEPH_MSG_FS_MAP"),
        48 => Some("CEPH_MSG_POOLOP_REPLY"),
        49 => Some("CEPH_MSG_POOLOP"),
        103 => Some("CEPH_MSG_FS_MAP_USER"),
        _ => None,
    }
}

/// The name of a message between clients and metadata servers or OSDs.
fn of_clients(number: u16) -> Option<&'static str>
    ensures { option_map (λ name. name.now) result ≡ of_clients number }
{
    match number {
        22 => Some("CEPH_MSG_CLIENT_SESSION"),
        23 => Some("CEPH_MSG_CLIENT_RECONNECT"),
        24 => Some("CEPH_MSG_CLIENT_REQUEST"),
        25 => Some("CEPH_MSG_CLIENT_REQUEST_FORWARD"),
        26 => Some("CEPH_MSG_CLIENT_REPLY"),
        27 => Some("CEPH_MSG_CLIENT_RECLAIM"),
        28 => Some("CEPH_MSG_CLIENT_RECLAIM_REPLY"),
        29 => Some("CEPH_MSG_CLIENT_METRICS"),
        42 => Some("CEPH_MSG_OSD_OP"),
        43 => Some("CEPH_MSG_OSD_OPREPLY"),
        44 => Some("CEPH_MSG_WATCH_NOTIFY"),
        61 => Some("CEPH_MSG_OSD_BACKOFF"),
        784 => Some("CEPH_MSG_CLIENT_CAPS"),
        785 => Some("CEPH_MSG_CLIENT_LEASE"),
        786 => Some("CEPH_MSG_CLIENT_SNAP"),
        787 => Some("CEPH_MSG_CLIENT_CAPRELEASE"),
        788 => Some("CEPH_MSG_CLIENT_QUOTA"),
        _ => None,
    }
}

/// The name of a message of monitors, a command or a log.
fn of_monitors(number: u16) -> Option<&'static str>
    ensures { option_map (λ name. name.now) result ≡ of_monitors number }
{
    match number {
        40 => Some("MSG_PAXOS"),
        46 => Some("MSG_FORWARD"),
        47 => Some("MSG_ROUTE"),
        50 => Some("MSG_MON_COMMAND"),
        51 => Some("MSG_MON_COMMAND_ACK"),
        52 => Some("MSG_LOG"),
        53 => Some("MSG_LOGACK"),
        58 => Some("MSG_GETPOOLSTATS"),
        59 => Some("MSG_GETPOOLSTATSREPLY"),
        60 => Some("MSG_MON_GLOBAL_ID"),
        62 => Some("MSG_CONFIG"),
        63 => Some("MSG_GET_CONFIG"),
        64 => Some("MSG_MON_SCRUB"),
        65 => Some("MSG_MON_ELECTION"),
        66 => Some("MSG_MON_PAXOS"),
        67 => Some("MSG_MON_PROBE"),
        68 => Some("MSG_MON_JOIN"),
        69 => Some("MSG_MON_SYNC"),
        97 => Some("MSG_COMMAND"),
        98 => Some("MSG_COMMAND_REPLY"),
        140 => Some("MSG_MON_PING"),
        1536 => Some("MSG_TIMECHECK"),
        1537 => Some("MSG_MON_HEALTH"),
        _ => None,
    }
}

/// The name of a message of OSDs, of the lower numbers.
fn of_osds(number: u16) -> Option<&'static str>
    ensures { option_map (λ name. name.now) result ≡ of_osds number }
{
    match number {
        70 => Some("MSG_OSD_PING"),
        71 => Some("MSG_OSD_BOOT"),
        72 => Some("MSG_OSD_FAILURE"),
        73 => Some("MSG_OSD_ALIVE"),
        74 => Some("MSG_OSD_MARK_ME_DOWN"),
        75 => Some("MSG_OSD_FULL"),
        78 => Some("MSG_OSD_PGTEMP"),
        79 => Some("MSG_OSD_BEACON"),
        80 => Some("MSG_OSD_PG_NOTIFY"),
        81 => Some("MSG_OSD_PG_QUERY"),
        83 => Some("MSG_OSD_PG_LOG"),
        84 => Some("MSG_OSD_PG_REMOVE"),
        85 => Some("MSG_OSD_PG_INFO"),
        86 => Some("MSG_OSD_PG_TRIM"),
        87 => Some("MSG_PGSTATS"),
        88 => Some("MSG_PGSTATSACK"),
        89 => Some("MSG_OSD_PG_CREATE"),
        90 => Some("MSG_REMOVE_SNAPS"),
        91 => Some("MSG_OSD_SCRUB"),
        93 => Some("MSG_OSD_REP_SCRUB"),
        94 => Some("MSG_OSD_PG_SCAN"),
        95 => Some("MSG_OSD_PG_BACKFILL"),
        96 => Some("MSG_OSD_PG_BACKFILL_REMOVE"),
        99 => Some("MSG_OSD_BACKFILL_RESERVE"),
        _ => None,
    }
}

/// The name of a message of OSDs, of the higher numbers.
fn of_recovery(number: u16) -> Option<&'static str>
    ensures { option_map (λ name. name.now) result ≡ of_recovery number }
{
    match number {
        105 => Some("MSG_OSD_PG_PUSH"),
        106 => Some("MSG_OSD_PG_PULL"),
        107 => Some("MSG_OSD_PG_PUSH_REPLY"),
        108 => Some("MSG_OSD_EC_WRITE"),
        109 => Some("MSG_OSD_EC_WRITE_REPLY"),
        110 => Some("MSG_OSD_EC_READ"),
        111 => Some("MSG_OSD_EC_READ_REPLY"),
        112 => Some("MSG_OSD_REPOP"),
        113 => Some("MSG_OSD_REPOPREPLY"),
        114 => Some("MSG_OSD_PG_UPDATE_LOG_MISSING"),
        115 => Some("MSG_OSD_PG_UPDATE_LOG_MISSING_REPLY"),
        116 => Some("MSG_OSD_PG_CREATED"),
        117 => Some("MSG_OSD_REP_SCRUBMAP"),
        118 => Some("MSG_OSD_PG_RECOVERY_DELETE"),
        119 => Some("MSG_OSD_PG_RECOVERY_DELETE_REPLY"),
        120 => Some("MSG_OSD_PG_CREATE2"),
        121 => Some("MSG_OSD_SCRUB2"),
        122 => Some("MSG_OSD_PG_READY_TO_MERGE"),
        123 => Some("MSG_OSD_MARK_ME_DEAD"),
        130 => Some("MSG_OSD_PG_NOTIFY2"),
        131 => Some("MSG_OSD_PG_QUERY2"),
        132 => Some("MSG_OSD_PG_INFO2"),
        133 => Some("MSG_OSD_PG_LEASE"),
        134 => Some("MSG_OSD_PG_LEASE_ACK"),
        150 => Some("MSG_OSD_RECOVERY_RESERVE"),
        151 => Some("MSG_OSD_FORCE_RECOVERY"),
        _ => None,
    }
}

/// The name of a message of metadata servers.
fn of_metadata_servers(number: u16) -> Option<&'static str>
    ensures { option_map (λ name. name.now) result ≡ of_metadata_servers number }
{
    match number {
        100 => Some("MSG_MDS_BEACON"),
        102 => Some("MSG_MDS_TABLE_REQUEST"),
        512 => Some("MSG_MDS_RESOLVE"),
        513 => Some("MSG_MDS_RESOLVEACK"),
        514 => Some("MSG_MDS_CACHEREJOIN"),
        515 => Some("MSG_MDS_DISCOVER"),
        516 => Some("MSG_MDS_DISCOVERREPLY"),
        517 => Some("MSG_MDS_INODEUPDATE"),
        518 => Some("MSG_MDS_DIRUPDATE"),
        519 => Some("MSG_MDS_CACHEEXPIRE"),
        520 => Some("MSG_MDS_DENTRYUNLINK"),
        521 => Some("MSG_MDS_FRAGMENTNOTIFY"),
        522 => Some("MSG_MDS_OFFLOAD_TARGETS"),
        524 => Some("MSG_MDS_DENTRYLINK"),
        525 => Some("MSG_MDS_FINDINO"),
        526 => Some("MSG_MDS_FINDINOREPLY"),
        527 => Some("MSG_MDS_OPENINO"),
        528 => Some("MSG_MDS_OPENINOREPLY"),
        768 => Some("MSG_MDS_LOCK"),
        769 => Some("MSG_MDS_INODEFILECAPS"),
        _ => None,
    }
}

/// The name of a message of metadata servers that hand on directories or balance their load.
fn of_migration(number: u16) -> Option<&'static str>
    ensures { option_map (λ name. name.now) result ≡ of_migration number }
{
    match number {
        1097 => Some("MSG_MDS_EXPORTDIRDISCOVER"),
        1104 => Some("MSG_MDS_EXPORTDIRDISCOVERACK"),
        1105 => Some("MSG_MDS_EXPORTDIRCANCEL"),
        1106 => Some("MSG_MDS_EXPORTDIRPREP"),
        1107 => Some("MSG_MDS_EXPORTDIRPREPACK"),
        1108 => Some("MSG_MDS_EXPORTDIRWARNING"),
        1109 => Some("MSG_MDS_EXPORTDIRWARNINGACK"),
        1110 => Some("MSG_MDS_EXPORTDIR"),
        1111 => Some("MSG_MDS_EXPORTDIRACK"),
        1112 => Some("MSG_MDS_EXPORTDIRNOTIFY"),
        1113 => Some("MSG_MDS_EXPORTDIRNOTIFYACK"),
        1120 => Some("MSG_MDS_EXPORTDIRFINISH"),
        1136 => Some("MSG_MDS_EXPORTCAPS"),
        1137 => Some("MSG_MDS_EXPORTCAPSACK"),
        1280 => Some("MSG_MDS_HEARTBEAT"),
        _ => None,
    }
}

/// The name of a message of managers.
fn of_managers(number: u16) -> Option<&'static str>
    ensures { option_map (λ name. name.now) result ≡ of_managers number }
{
    match number {
        1792 => Some("MSG_MGR_OPEN"),
        1793 => Some("MSG_MGR_CONFIGURE"),
        1794 => Some("MSG_MGR_REPORT"),
        1795 => Some("MSG_MGR_BEACON"),
        1796 => Some("MSG_MGR_MAP"),
        1797 => Some("MSG_MGR_DIGEST"),
        1798 => Some("MSG_MON_MGR_REPORT"),
        1799 => Some("MSG_SERVICE_MAP"),
        1800 => Some("MSG_MGR_CLOSE"),
        1801 => Some("MSG_MGR_COMMAND"),
        1802 => Some("MSG_MGR_COMMAND_REPLY"),
        _ => None,
    }
}

/// The name of the message with this number, as Ceph's sources have it; a dash where the table has none.
pub(crate) fn name_of_type(number: u16) -> &'static str
    ensures { result.now ≡ name_of_type number }
{
    if let Some(name) = with_monitors(number) {
        return name;
    }
    if let Some(name) = of_clients(number) {
        return name;
    }
    if let Some(name) = of_monitors(number) {
        return name;
    }
    if let Some(name) = of_osds(number) {
        return name;
    }
    if let Some(name) = of_recovery(number) {
        return name;
    }
    if let Some(name) = of_metadata_servers(number) {
        return name;
    }
    if let Some(name) = of_migration(number) {
        return name;
    }
    if let Some(name) = of_managers(number) {
        return name;
    }
    "-"
}
