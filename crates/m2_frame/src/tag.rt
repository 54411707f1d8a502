//! The tags of frames.

ghost use Rattle.std.specs.Prelude.{◌≡◌, IfSome, IfNone, ◌<◌, ◌⊎◌};
ghost use Rattle.m2_frame.specs.declared.tag.TheConstants.{FIRST_TAG, LAST_TAG};
ghost use Rattle.m2_frame.specs.Tags.{tag_number, tag_in, name_of, name_in, is_control, is_negotiated};

/// The least number of a tag.
pub const FIRST_TAG: u8 = 1;

/// The greatest number of a tag.
pub const LAST_TAG: u8 = 22;

/// What a frame is, as Ceph's msgr2 documentation numbers it.
#[derive(Clone, Copy, Debug, PartialEq, Eq)]
pub enum Tag {
    Hello = 1,
    AuthRequest = 2,
    AuthBadMethod = 3,
    AuthReplyMore = 4,
    AuthRequestMore = 5,
    AuthDone = 6,
    AuthSignature = 7,
    ClientIdent = 8,
    ServerIdent = 9,
    IdentMissingFeatures = 10,
    SessionReconnect = 11,
    SessionReset = 12,
    SessionRetry = 13,
    SessionRetryGlobal = 14,
    SessionReconnectOk = 15,
    Wait = 16,
    Message = 17,
    Keepalive = 18,
    KeepaliveAck = 19,
    Ack = 20,
    CompressionRequest = 21,
    CompressionDone = 22,
}

impl Tag {
    /// The number on the wire.
    pub fn number(self) -> u8
        ensures { result ≡ tag_number self }
    {
        self as u8
    }

    /// The tag with this number; none exactly where there is none.
    pub fn of(number: u8) -> Option<Tag>
        ensures is { result ≡ tag_in number }
        ensures some { IfSome result (λ t. tag_number t ≡ number) }
        ensures none { IfNone result ((number < FIRST_TAG) ⊎ (LAST_TAG < number)) }
    {
        match number {
            1 => Some(Tag::Hello),
            2 => Some(Tag::AuthRequest),
            3 => Some(Tag::AuthBadMethod),
            4 => Some(Tag::AuthReplyMore),
            5 => Some(Tag::AuthRequestMore),
            6 => Some(Tag::AuthDone),
            7 => Some(Tag::AuthSignature),
            8 => Some(Tag::ClientIdent),
            9 => Some(Tag::ServerIdent),
            10 => Some(Tag::IdentMissingFeatures),
            11 => Some(Tag::SessionReconnect),
            12 => Some(Tag::SessionReset),
            13 => Some(Tag::SessionRetry),
            14 => Some(Tag::SessionRetryGlobal),
            15 => Some(Tag::SessionReconnectOk),
            16 => Some(Tag::Wait),
            17 => Some(Tag::Message),
            18 => Some(Tag::Keepalive),
            19 => Some(Tag::KeepaliveAck),
            20 => Some(Tag::Ack),
            21 => Some(Tag::CompressionRequest),
            22 => Some(Tag::CompressionDone),
            _ => None,
        }
    }

    /// The name in Ceph's msgr2 documentation.
    pub fn name(self) -> &'static str
        ensures { result.now ≡ name_of self }
    {
        match self {
            Tag::Hello => "HELLO",
            Tag::AuthRequest => "AUTH_REQUEST",
            Tag::AuthBadMethod => "AUTH_BAD_METHOD",
            Tag::AuthReplyMore => "AUTH_REPLY_MORE",
            Tag::AuthRequestMore => "AUTH_REQUEST_MORE",
            Tag::AuthDone => "AUTH_DONE",
            Tag::AuthSignature => "AUTH_SIGNATURE",
            Tag::ClientIdent => "CLIENT_IDENT",
            Tag::ServerIdent => "SERVER_IDENT",
            Tag::IdentMissingFeatures => "IDENT_MISSING_FEATURES",
            Tag::SessionReconnect => "SESSION_RECONNECT",
            Tag::SessionReset => "SESSION_RESET",
            Tag::SessionRetry => "SESSION_RETRY",
            Tag::SessionRetryGlobal => "SESSION_RETRY_GLOBAL",
            Tag::SessionReconnectOk => "SESSION_RECONNECT_OK",
            Tag::Wait => "WAIT",
            Tag::Message => "MESSAGE",
            Tag::Keepalive => "KEEPALIVE2",
            Tag::KeepaliveAck => "KEEPALIVE2_ACK",
            Tag::Ack => "ACK",
            Tag::CompressionRequest => "COMPRESSION_REQUEST",
            Tag::CompressionDone => "COMPRESSION_DONE",
        }
    }

    /// The name of the tag with this number; empty where there is none.
    pub fn name_of_number(number: u8) -> &'static str
        ensures { result.now ≡ name_in number }
    {
        match Tag::of(number) {
            Some(tag) => tag.name(),
            None => "",
        }
    }

    /// Whether a frame of this tag is a control frame, which has one segment: all but MESSAGE.
    pub fn is_control(self) -> bool
        ensures { result ≡ is_control self }
    {
        !matches!(self, Tag::Message)
    }

    /// Whether this profile has the exchange that the tag belongs to: all but the longer authentications
    /// and compression.
    pub fn is_negotiated(self) -> bool
        ensures { result ≡ is_negotiated self }
    {
        !matches!(
            self,
            Tag::AuthReplyMore
                | Tag::AuthRequestMore
                | Tag::CompressionRequest
                | Tag::CompressionDone
        )
    }
}
