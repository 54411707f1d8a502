//! The names of fields, each with what stands around it.

ghost use Rattle.std.specs.Prelude.{◌≡◌, ◌++◌};
ghost use Rattle.m2_frame_facts.specs.FieldName.{before_name, behind_name, name_of};
ghost use Rattle.m2_frame_facts.specs.declared.style.Style.TheVariants as style;

use crate::style::Style;

/// The name of a field.
#[derive(Clone, Copy, Debug, PartialEq, Eq)]
pub(crate) enum FieldName {
    MessageType,
    MessageName,
    Seq,
    Tid,
    Priority,
    Ack,
    Front,
    Middle,
    Data,
    Entity,
    Seen,
    Method,
    Modes,
    Payload,
    Outcome,
    Methods,
    GlobalId,
    Mode,
    Signature,
    Addrs,
    Target,
    Gid,
    Global,
    Supported,
    Required,
    Flags,
    Cookie,
    Features,
    ClientCookie,
    ServerCookie,
    Connect,
    Full,
    Seconds,
    Nanoseconds,
    Fault,
    Field,
    Aborted,
}

/// What stands before a value with this name in a line of words.
fn word_before(name: FieldName) -> &'static [u8]
    ensures { result.now ≡ before_name style.Line ++ name_of name ++ behind_name style.Line }
{
    match name {
        FieldName::MessageType => b" type=",
        FieldName::MessageName => b" name=",
        FieldName::Seq => b" seq=",
        FieldName::Tid => b" tid=",
        FieldName::Priority => b" priority=",
        FieldName::Ack => b" ack=",
        FieldName::Front => b" front=",
        FieldName::Middle => b" middle=",
        FieldName::Data => b" data=",
        FieldName::Entity => b" entity=",
        FieldName::Seen => b" seen=",
        FieldName::Method => b" method=",
        FieldName::Modes => b" modes=",
        FieldName::Payload => b" payload=",
        FieldName::Outcome => b" result=",
        FieldName::Methods => b" methods=",
        FieldName::GlobalId => b" global_id=",
        FieldName::Mode => b" mode=",
        FieldName::Signature => b" signature=",
        FieldName::Addrs => b" addrs=",
        FieldName::Target => b" target=",
        FieldName::Gid => b" gid=",
        FieldName::Global => b" global=",
        FieldName::Supported => b" supported=",
        FieldName::Required => b" required=",
        FieldName::Flags => b" flags=",
        FieldName::Cookie => b" cookie=",
        FieldName::Features => b" features=",
        FieldName::ClientCookie => b" client_cookie=",
        FieldName::ServerCookie => b" server_cookie=",
        FieldName::Connect => b" connect=",
        FieldName::Full => b" full=",
        FieldName::Seconds => b" seconds=",
        FieldName::Nanoseconds => b" nanoseconds=",
        FieldName::Fault => b" fault=",
        FieldName::Field => b" field=",
        FieldName::Aborted => b" aborted=",
    }
}

/// What stands before a value with this name in a JSON object.
fn key_before(name: FieldName) -> &'static [u8]
    ensures { result.now ≡ before_name style.Json ++ name_of name ++ behind_name style.Json }
{
    match name {
        FieldName::MessageType => b",\"type\":",
        FieldName::MessageName => b",\"name\":",
        FieldName::Seq => b",\"seq\":",
        FieldName::Tid => b",\"tid\":",
        FieldName::Priority => b",\"priority\":",
        FieldName::Ack => b",\"ack\":",
        FieldName::Front => b",\"front\":",
        FieldName::Middle => b",\"middle\":",
        FieldName::Data => b",\"data\":",
        FieldName::Entity => b",\"entity\":",
        FieldName::Seen => b",\"seen\":",
        FieldName::Method => b",\"method\":",
        FieldName::Modes => b",\"modes\":",
        FieldName::Payload => b",\"payload\":",
        FieldName::Outcome => b",\"result\":",
        FieldName::Methods => b",\"methods\":",
        FieldName::GlobalId => b",\"global_id\":",
        FieldName::Mode => b",\"mode\":",
        FieldName::Signature => b",\"signature\":",
        FieldName::Addrs => b",\"addrs\":",
        FieldName::Target => b",\"target\":",
        FieldName::Gid => b",\"gid\":",
        FieldName::Global => b",\"global\":",
        FieldName::Supported => b",\"supported\":",
        FieldName::Required => b",\"required\":",
        FieldName::Flags => b",\"flags\":",
        FieldName::Cookie => b",\"cookie\":",
        FieldName::Features => b",\"features\":",
        FieldName::ClientCookie => b",\"client_cookie\":",
        FieldName::ServerCookie => b",\"server_cookie\":",
        FieldName::Connect => b",\"connect\":",
        FieldName::Full => b",\"full\":",
        FieldName::Seconds => b",\"seconds\":",
        FieldName::Nanoseconds => b",\"nanoseconds\":",
        FieldName::Fault => b",\"fault\":",
        FieldName::Field => b",\"field\":",
        FieldName::Aborted => b",\"aborted\":",
    }
}

/// What stands before a value with this name. It is one constant, so that it is appended at once.
pub(crate) fn before_value(form: Style, name: FieldName) -> &'static [u8]
    ensures { result.now ≡ before_name form ++ name_of name ++ behind_name form }
{
    match form {
        Style::Line => word_before(name),
        Style::Json => key_before(name),
    }
}
