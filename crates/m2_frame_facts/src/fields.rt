//! The fields of each payload, by name.

ghost use Rattle.std.specs.Prelude.{◌≡◌, [], ◌∷◌, ◌++◌, OnOk};
ghost use Rattle.m2_frame_facts.specs.Value.{fields_text};
ghost use Rattle.m2_frame_facts.specs.Line.{banner_fields};
ghost use Rattle.m2_frame_facts.specs.Fields.{header_fields, size_fields, message_fields, hello_fields, auth_request_fields, auth_bad_method_fields, auth_done_fields, auth_signature_fields, client_ident_fields, server_ident_fields, ident_missing_features_fields, session_reconnect_fields, session_reset_fields, session_retry_fields, session_retry_global_fields, session_reconnect_ok_fields, wait_fields, keepalive_fields, keepalive_ack_fields, ack_fields, control_fields, address_word, fault_at_fields, bad_value_fields, fault_field, fault_fields, aborted_fields, fields_of};

use crate::facts::{Facts, MessageFacts};
use crate::field_name::FieldName;
use crate::message_type::name_of_type;
use crate::style::Style;
use crate::value::{Field, Value, put_fields};
use m2_addr::AddrFault;
use m2_bytes::{Blob, NoMemory};
use m2_control::{
    Ack, AuthBadMethod, AuthDone, AuthRequest, AuthSignature, Banner, ClientIdent, Control,
    ControlFault, Hello, IdentMissingFeatures, Keepalive, KeepaliveAck, ServerIdent,
    SessionReconnect, SessionReconnectOk, SessionReset, SessionRetry, SessionRetryGlobal,
};
use m2_message::Header;

/// Appends what a message's header tells.
fn put_header(out: &mut Blob, style: Style, h: &Header) -> Result<(), NoMemory>
    ensures { OnOk result (out.new.bytes ≡ out.old.bytes ++ fields_text style (header_fields h.now)) }
{
    put_fields(
        out,
        style,
        &[
            Field {
                name: FieldName::MessageType,
                value: Value::Number(u64::from(h.kind)),
            },
            Field {
                name: FieldName::MessageName,
                value: Value::Word(name_of_type(h.kind)),
            },
            Field {
                name: FieldName::Seq,
                value: Value::Number(h.seq),
            },
            Field {
                name: FieldName::Tid,
                value: Value::Number(h.tid),
            },
            Field {
                name: FieldName::Priority,
                value: Value::Number(u64::from(h.priority)),
            },
            Field {
                name: FieldName::Ack,
                value: Value::Number(h.ack_seq),
            },
        ],
    )
}

/// Appends the sizes of a message's parts.
fn put_sizes(out: &mut Blob, style: Style, p: &MessageFacts) -> Result<(), NoMemory>
    ensures { OnOk result (out.new.bytes ≡ out.old.bytes ++ fields_text style (size_fields p.now)) }
{
    put_fields(
        out,
        style,
        &[
            Field {
                name: FieldName::Front,
                value: Value::Number(p.front),
            },
            Field {
                name: FieldName::Middle,
                value: Value::Number(p.middle),
            },
            Field {
                name: FieldName::Data,
                value: Value::Number(p.data_bytes),
            },
        ],
    )
}

fn put_message(out: &mut Blob, style: Style, p: &MessageFacts) -> Result<(), NoMemory>
    ensures { OnOk result (out.new.bytes ≡ out.old.bytes ++ fields_text style (message_fields p.now)) }
{
    put_header(out, style, &p.header)?;
    put_sizes(out, style, p)
}

fn put_hello(out: &mut Blob, style: Style, p: &Hello) -> Result<(), NoMemory>
    ensures { OnOk result (out.new.bytes ≡ out.old.bytes ++ fields_text style (hello_fields p.now)) }
{
    put_fields(
        out,
        style,
        &[
            Field {
                name: FieldName::Entity,
                value: Value::Number(u64::from(p.entity)),
            },
            Field {
                name: FieldName::Seen,
                value: Value::Address(&p.seen),
            },
        ],
    )
}

fn put_auth_request(out: &mut Blob, style: Style, p: &AuthRequest) -> Result<(), NoMemory>
    ensures { OnOk result (out.new.bytes ≡ out.old.bytes ++ fields_text style (auth_request_fields p.now)) }
{
    put_fields(
        out,
        style,
        &[
            Field {
                name: FieldName::Method,
                value: Value::Number(u64::from(p.method)),
            },
            Field {
                name: FieldName::Modes,
                value: Value::Numbers(p.modes.as_slice()),
            },
            Field {
                name: FieldName::Payload,
                value: Value::Bytes(p.payload.as_slice()),
            },
        ],
    )
}

fn put_auth_bad_method(out: &mut Blob, style: Style, p: &AuthBadMethod) -> Result<(), NoMemory>
    ensures { OnOk result (out.new.bytes ≡ out.old.bytes ++ fields_text style (auth_bad_method_fields p.now)) }
{
    put_fields(
        out,
        style,
        &[
            Field {
                name: FieldName::Method,
                value: Value::Number(u64::from(p.method)),
            },
            Field {
                name: FieldName::Outcome,
                value: Value::Signed(i64::from(p.outcome)),
            },
            Field {
                name: FieldName::Methods,
                value: Value::Numbers(p.methods.as_slice()),
            },
            Field {
                name: FieldName::Modes,
                value: Value::Numbers(p.modes.as_slice()),
            },
        ],
    )
}

fn put_auth_done(out: &mut Blob, style: Style, p: &AuthDone) -> Result<(), NoMemory>
    ensures { OnOk result (out.new.bytes ≡ out.old.bytes ++ fields_text style (auth_done_fields p.now)) }
{
    put_fields(
        out,
        style,
        &[
            Field {
                name: FieldName::GlobalId,
                value: Value::Number(p.global_id),
            },
            Field {
                name: FieldName::Mode,
                value: Value::Number(u64::from(p.mode)),
            },
            Field {
                name: FieldName::Payload,
                value: Value::Bytes(p.payload.as_slice()),
            },
        ],
    )
}

fn put_auth_signature(out: &mut Blob, style: Style, p: &AuthSignature) -> Result<(), NoMemory>
    ensures { OnOk result (out.new.bytes ≡ out.old.bytes ++ fields_text style (auth_signature_fields p.now)) }
{
    put_fields(
        out,
        style,
        &[Field {
            name: FieldName::Signature,
            value: Value::Bytes(p.signature.as_slice()),
        }],
    )
}

fn put_client_ident(out: &mut Blob, style: Style, p: &ClientIdent) -> Result<(), NoMemory>
    ensures { OnOk result (out.new.bytes ≡ out.old.bytes ++ fields_text style (client_ident_fields p.now)) }
{
    put_fields(
        out,
        style,
        &[
            Field {
                name: FieldName::Addrs,
                value: Value::Addresses(p.addrs.as_slice()),
            },
            Field {
                name: FieldName::Target,
                value: Value::Ipv4(&p.target),
            },
            Field {
                name: FieldName::Gid,
                value: Value::Signed(p.gid),
            },
            Field {
                name: FieldName::Global,
                value: Value::Number(p.global),
            },
            Field {
                name: FieldName::Supported,
                value: Value::Bits(p.supported),
            },
            Field {
                name: FieldName::Required,
                value: Value::Bits(p.required),
            },
            Field {
                name: FieldName::Flags,
                value: Value::Bits(p.flags),
            },
            Field {
                name: FieldName::Cookie,
                value: Value::Bits(p.cookie),
            },
        ],
    )
}

fn put_server_ident(out: &mut Blob, style: Style, p: &ServerIdent) -> Result<(), NoMemory>
    ensures { OnOk result (out.new.bytes ≡ out.old.bytes ++ fields_text style (server_ident_fields p.now)) }
{
    put_fields(
        out,
        style,
        &[
            Field {
                name: FieldName::Addrs,
                value: Value::Addresses(p.addrs.as_slice()),
            },
            Field {
                name: FieldName::Gid,
                value: Value::Signed(p.gid),
            },
            Field {
                name: FieldName::Global,
                value: Value::Number(p.global),
            },
            Field {
                name: FieldName::Supported,
                value: Value::Bits(p.supported),
            },
            Field {
                name: FieldName::Required,
                value: Value::Bits(p.required),
            },
            Field {
                name: FieldName::Flags,
                value: Value::Bits(p.flags),
            },
            Field {
                name: FieldName::Cookie,
                value: Value::Bits(p.cookie),
            },
        ],
    )
}

fn put_ident_missing_features(
    out: &mut Blob,
    style: Style,
    p: &IdentMissingFeatures,
) -> Result<(), NoMemory>
    ensures { OnOk result (out.new.bytes ≡ out.old.bytes ++ fields_text style (ident_missing_features_fields p.now)) }
{
    put_fields(
        out,
        style,
        &[Field {
            name: FieldName::Features,
            value: Value::Bits(p.bits),
        }],
    )
}

fn put_session_reconnect(out: &mut Blob, style: Style, p: &SessionReconnect) -> Result<(), NoMemory>
    ensures { OnOk result (out.new.bytes ≡ out.old.bytes ++ fields_text style (session_reconnect_fields p.now)) }
{
    put_fields(
        out,
        style,
        &[
            Field {
                name: FieldName::Addrs,
                value: Value::Addresses(p.addrs.as_slice()),
            },
            Field {
                name: FieldName::ClientCookie,
                value: Value::Bits(p.client),
            },
            Field {
                name: FieldName::ServerCookie,
                value: Value::Bits(p.server),
            },
            Field {
                name: FieldName::Global,
                value: Value::Number(p.global),
            },
            Field {
                name: FieldName::Connect,
                value: Value::Number(p.connect),
            },
            Field {
                name: FieldName::Seen,
                value: Value::Number(p.seen),
            },
        ],
    )
}

fn put_session_reset(out: &mut Blob, style: Style, p: &SessionReset) -> Result<(), NoMemory>
    ensures { OnOk result (out.new.bytes ≡ out.old.bytes ++ fields_text style (session_reset_fields p.now)) }
{
    put_fields(
        out,
        style,
        &[Field {
            name: FieldName::Full,
            value: Value::Flag(p.full),
        }],
    )
}

fn put_session_retry(out: &mut Blob, style: Style, p: &SessionRetry) -> Result<(), NoMemory>
    ensures { OnOk result (out.new.bytes ≡ out.old.bytes ++ fields_text style (session_retry_fields p.now)) }
{
    put_fields(
        out,
        style,
        &[Field {
            name: FieldName::Connect,
            value: Value::Number(p.connect),
        }],
    )
}

fn put_session_retry_global(
    out: &mut Blob,
    style: Style,
    p: &SessionRetryGlobal,
) -> Result<(), NoMemory>
    ensures { OnOk result (out.new.bytes ≡ out.old.bytes ++ fields_text style (session_retry_global_fields p.now)) }
{
    put_fields(
        out,
        style,
        &[Field {
            name: FieldName::Global,
            value: Value::Number(p.global),
        }],
    )
}

fn put_session_reconnect_ok(
    out: &mut Blob,
    style: Style,
    p: &SessionReconnectOk,
) -> Result<(), NoMemory>
    ensures { OnOk result (out.new.bytes ≡ out.old.bytes ++ fields_text style (session_reconnect_ok_fields p.now)) }
{
    put_fields(
        out,
        style,
        &[Field {
            name: FieldName::Seen,
            value: Value::Number(p.seen),
        }],
    )
}

fn put_keepalive(out: &mut Blob, style: Style, p: &Keepalive) -> Result<(), NoMemory>
    ensures { OnOk result (out.new.bytes ≡ out.old.bytes ++ fields_text style (keepalive_fields p.now)) }
{
    put_fields(
        out,
        style,
        &[
            Field {
                name: FieldName::Seconds,
                value: Value::Number(u64::from(p.seconds)),
            },
            Field {
                name: FieldName::Nanoseconds,
                value: Value::Number(u64::from(p.nanos)),
            },
        ],
    )
}

fn put_keepalive_ack(out: &mut Blob, style: Style, p: &KeepaliveAck) -> Result<(), NoMemory>
    ensures { OnOk result (out.new.bytes ≡ out.old.bytes ++ fields_text style (keepalive_ack_fields p.now)) }
{
    put_fields(
        out,
        style,
        &[
            Field {
                name: FieldName::Seconds,
                value: Value::Number(u64::from(p.seconds)),
            },
            Field {
                name: FieldName::Nanoseconds,
                value: Value::Number(u64::from(p.nanos)),
            },
        ],
    )
}

fn put_ack(out: &mut Blob, style: Style, p: &Ack) -> Result<(), NoMemory>
    ensures { OnOk result (out.new.bytes ≡ out.old.bytes ++ fields_text style (ack_fields p.now)) }
{
    put_fields(
        out,
        style,
        &[Field {
            name: FieldName::Seen,
            value: Value::Number(p.seen),
        }],
    )
}

fn put_control(out: &mut Blob, style: Style, control: &Control) -> Result<(), NoMemory>
    ensures { OnOk result (out.new.bytes ≡ out.old.bytes ++ fields_text style (control_fields control.now)) }
{
    match control {
        Control::Hello(p) => put_hello(out, style, p),
        Control::AuthRequest(p) => put_auth_request(out, style, p),
        Control::AuthBadMethod(p) => put_auth_bad_method(out, style, p),
        Control::AuthDone(p) => put_auth_done(out, style, p),
        Control::AuthSignature(p) => put_auth_signature(out, style, p),
        Control::ClientIdent(p) => put_client_ident(out, style, p),
        Control::ServerIdent(p) => put_server_ident(out, style, p),
        Control::IdentMissingFeatures(p) => put_ident_missing_features(out, style, p),
        Control::SessionReconnect(p) => put_session_reconnect(out, style, p),
        Control::SessionReset(p) => put_session_reset(out, style, p),
        Control::SessionRetry(p) => put_session_retry(out, style, p),
        Control::SessionRetryGlobal(p) => put_session_retry_global(out, style, p),
        Control::SessionReconnectOk(p) => put_session_reconnect_ok(out, style, p),
        Control::Wait(_) => put_fields(out, style, &[]),
        Control::Keepalive(p) => put_keepalive(out, style, p),
        Control::KeepaliveAck(p) => put_keepalive_ack(out, style, p),
        Control::Ack(p) => put_ack(out, style, p),
    }
}

fn address_word(fault: AddrFault) -> &'static str
    ensures { result.now ≡ address_word fault }
{
    match fault {
        AddrFault::Short => "address-short",
        AddrFault::BadMarker => "address-bad-marker",
        AddrFault::BadLength => "address-bad-length",
        AddrFault::NotIpv4 => "address-not-ipv4",
        AddrFault::NoMsgr2 => "address-no-msgr2",
        AddrFault::TooMany => "address-too-many",
        AddrFault::NoMemory => "address-no-memory",
    }
}

fn put_fault_word(out: &mut Blob, style: Style, why: &str) -> Result<(), NoMemory>
    ensures { OnOk result (out.new.bytes ≡ out.old.bytes ++ fields_text style (fault_field why.now ∷ [])) }
{
    put_fields(
        out,
        style,
        &[Field {
            name: FieldName::Fault,
            value: Value::Word(why),
        }],
    )
}

fn put_fault_at(out: &mut Blob, style: Style, why: &str, field: u8) -> Result<(), NoMemory>
    ensures { OnOk result (out.new.bytes ≡ out.old.bytes ++ fields_text style (fault_at_fields why.now field)) }
{
    put_fields(
        out,
        style,
        &[
            Field {
                name: FieldName::Fault,
                value: Value::Word(why),
            },
            Field {
                name: FieldName::Field,
                value: Value::Number(u64::from(field)),
            },
        ],
    )
}

fn put_bad_value(out: &mut Blob, style: Style, field: u8) -> Result<(), NoMemory>
    ensures { OnOk result (out.new.bytes ≡ out.old.bytes ++ fields_text style (bad_value_fields field)) }
{
    put_fault_at(out, style, "bad-value", field)
}

fn put_fault(out: &mut Blob, style: Style, fault: ControlFault) -> Result<(), NoMemory>
    ensures { OnOk result (out.new.bytes ≡ out.old.bytes ++ fields_text style (fault_fields fault)) }
{
    match fault {
        ControlFault::Short => put_fault_word(out, style, "short"),
        ControlFault::Extra => put_fault_word(out, style, "extra"),
        ControlFault::BadValue { field } => put_bad_value(out, style, field),
        ControlFault::NotNegotiated => put_fault_word(out, style, "not-negotiated"),
        ControlFault::Address(why) => put_fault_word(out, style, address_word(why)),
        ControlFault::NoMemory => put_fault_word(out, style, "no-memory"),
    }
}

fn put_aborted(out: &mut Blob, style: Style) -> Result<(), NoMemory>
    ensures { OnOk result (out.new.bytes ≡ out.old.bytes ++ fields_text style aborted_fields) }
{
    put_fields(
        out,
        style,
        &[Field {
            name: FieldName::Aborted,
            value: Value::Flag(true),
        }],
    )
}

/// Appends the fields of a banner.
pub(crate) fn put_banner(out: &mut Blob, style: Style, b: &Banner) -> Result<(), NoMemory>
    ensures { OnOk result (out.new.bytes ≡ out.old.bytes ++ fields_text style (banner_fields b.now)) }
{
    put_fields(
        out,
        style,
        &[
            Field {
                name: FieldName::Supported,
                value: Value::Bits(b.supported),
            },
            Field {
                name: FieldName::Required,
                value: Value::Bits(b.required),
            },
        ],
    )
}

/// Appends the fields of what a frame says.
pub(crate) fn put_facts(out: &mut Blob, style: Style, facts: &Facts) -> Result<(), NoMemory>
    ensures { OnOk result (out.new.bytes ≡ out.old.bytes ++ fields_text style (fields_of facts.now)) }
{
    match facts {
        Facts::Message(p) => put_message(out, style, p),
        Facts::NoHeader => put_fault_word(out, style, "bad-header"),
        Facts::Control(control) => put_control(out, style, control),
        Facts::NoPayload(fault) => put_fault(out, style, *fault),
        Facts::Aborted => put_aborted(out, style),
    }
}
