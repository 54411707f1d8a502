//! How a command ended: the exit code, and the line on standard error.

ghost use Rattle.std.specs.Prelude.{◌≡◌, ◌++◌, IfOk, OnOk, map};
ghost use Rattle.std.specs.Fmt.{decimal};
ghost use Rattle.m2_scenario.specs.Report.{name_of};
ghost use Rattle.m2_scenario.specs.Text.{word};
ghost use Rattle.m2_cli.specs.Status.{code_of, line_of, fixed_line_of};

use m2_bytes::{Blob, NoMemory, put_decimal};
use m2_fabric::SocketId;
use m2_scenario::Node;
use m2_weave::Why;
use std::alloc::Global;

/// How a command ended.
#[derive(Clone, Copy, Debug, PartialEq, Eq)]
pub enum Status {
    /// The work is whole: every post was dispatched, or the file is frames to its end.
    Done,
    /// The words are none of the command's forms.
    Usage,
    /// This line of the scenario is the first bad one, in this way.
    BadScenario {
        line: u32,
        kind: u8,
    },
    /// The file couldn't be read.
    ReadFault,
    /// Standard output or standard error couldn't be written.
    WriteFault,
    /// The node at this place couldn't listen.
    BindFault {
        node: u32,
    },
    /// A byte that was read isn't one that the other end has written: at this end of this socket, the opener's or the
    /// acceptor's, behind so many others.
    Unfit {
        socket: SocketId,
        opener: bool,
        place: u64,
        why: Why,
    },
    /// All was still for as long as the limit, and so many posts weren't dispatched.
    Stalled {
        left: u64,
    },
    /// The script ended with so many posts that weren't dispatched.
    Left {
        count: u64,
    },
    /// Memory ran out.
    NoMemory,
    /// The file stops being frames at this place, a count of bytes from its start, for this cause:
    /// 1 to 9 are those of [`FrameFault`](m2_frame::FrameFault) in its order, 10 where the file ends
    /// inside a frame, 11 where it has more bytes than may be listed.
    BadFrames {
        place: u64,
        fault: u8,
    },
}

impl Status {
    /// The exit code of the program.
    pub fn code(&self) -> u8
        ensures { result ≡ code_of self.now }
    {
        match self {
            Status::Done => 0,
            Status::Usage => 1,
            Status::BadScenario { .. } => 2,
            Status::ReadFault => 3,
            Status::WriteFault => 4,
            Status::BindFault { .. } => 5,
            Status::Unfit { .. } => 6,
            Status::Stalled { .. } => 7,
            Status::Left { .. } => 8,
            Status::NoMemory => 9,
            Status::BadFrames { .. } => 10,
        }
    }
}

/// The line of a status that carries no number, with its line feed; nothing for the others.
pub(crate) fn fixed_line(status: &Status) -> &'static [u8]
    ensures { result.now ≡ fixed_line_of status.now }
{
    match status {
        Status::Usage => b"usage: msgr2 sim FILE or run FILE or frames FILE or load N SEED\n",
        Status::ReadFault => b"read fault\n",
        Status::WriteFault => b"write fault\n",
        Status::NoMemory => b"no memory\n",
        Status::Done
        | Status::BadScenario { .. }
        | Status::BindFault { .. }
        | Status::Unfit { .. }
        | Status::Stalled { .. }
        | Status::Left { .. }
        | Status::BadFrames { .. } => b"",
    }
}

/// The line that standard error gets, with its line feed; nothing where the work is done. `nodes` are those of the
/// scenario, of which one is named.
pub(crate) fn line(alloc: Global, nodes: &[Node], status: &Status) -> Result<Blob, NoMemory>
    ensures { IfOk result (λ b. b.bytes ≡ line_of (map name_of nodes.now) status.now) }
{
    let mut text = Blob::empty(alloc);
    put_line(&mut text, nodes, status)?;
    Ok(text)
}

/// Appends the line.
fn put_line(text: &mut Blob, nodes: &[Node], status: &Status) -> Result<(), NoMemory>
    ensures { OnOk result (text.new.bytes ≡ text.old.bytes ++ line_of (map name_of nodes.now) status.now) }
{
    match status {
        Status::BadScenario { line, kind } => {
            put_number(text, b"bad scenario: line ", u64::from(*line))?;
            put_number(text, b" kind ", u64::from(*kind))?;
            text.push_all(b"\n")
        }
        Status::BindFault { node } => {
            text.push_all(b"bind fault: ")?;
            text.push_all(name_at(nodes, *node))?;
            text.push_all(b"\n")
        }
        Status::Unfit {
            socket,
            opener: _,
            place,
            why: _,
        } => {
            put_number(text, b"unfit: socket ", u64::from(socket.from_port))?;
            put_number(text, b"-", u64::from(socket.to_port))?;
            put_number(text, b" place ", *place)?;
            text.push_all(b"\n")
        }
        Status::Stalled { left } => {
            put_number(text, b"stalled: ", *left)?;
            text.push_all(b" left\n")
        }
        Status::Left { count } => {
            put_number(text, b"left: ", *count)?;
            text.push_all(b"\n")
        }
        Status::BadFrames { place, fault } => {
            put_number(text, b"bad frames: place ", *place)?;
            put_number(text, b" fault ", u64::from(*fault))?;
            text.push_all(b"\n")
        }
        _ => text.push_all(fixed_line(status)),
    }
}

/// Appends a number, behind these words.
fn put_number(text: &mut Blob, words: &[u8], number: u64) -> Result<(), NoMemory>
    ensures { OnOk result (text.new.bytes ≡ text.old.bytes ++ words.now ++ decimal number) }
{
    text.push_all(words)?;
    put_decimal(text, number)
}

/// The name of the node at this place; nothing where there is none.
fn name_at(nodes: &[Node], place: u32) -> &[u8]
    ensures { result.now ≡ word (map name_of nodes.now) place }
{
    let place = place as usize;
    if place >= nodes.len() {
        return b"";
    }
    nodes[place].name.as_slice()
}
