//! What all ports of a fabric share.

ghost use Rattle.std.specs.Prelude.{◌≡◌, ◌<◌, ◌++◌, ◌∷◌, [], length, IfSome, MatchOption};
ghost use Rattle.std.specs.VecDeque.{deque_capacity, deque_len};
ghost use Rattle.m2_mem_fabric.specs.Network.{Admits, IsNamed, Opens, Rings, Takes, names};
ghost use Rattle.m2_ports.specs.Made.{next_socket};
ghost use Rattle.m2_ports.specs.Port.{MakesNext};

use crate::bells::{Bells, ring_all};
use crate::line::Line;
use crate::plan::{EndPlan, Plan};
use m2_addr::Addr;
use m2_bytes::{NoMemory, Told};
use m2_fabric::{ListenFault, SocketId};
use m2_ports::{FourNumbers, PortBook};
use std::alloc::Global;
use std::collections::VecDeque;
use std::sync::{Arc, Wait};

/// The greatest port number of an opener; then they begin again at 1.
const MOST_PORT: u16 = 65_535;

/// A socket that waits for an accept, by the acceptor's line.
#[derive(Drop)]
struct Arriving<R: Wait + Copy> {
    id: SocketId,
    line: Line<R>,
}

/// Where somebody listens.
#[derive(Drop)]
struct Listener<R: Wait + Copy> {
    number: u32,
    ip: u32,
    port: u16,
    /// Longest waiting first.
    waiting: VecDeque<Arriving<R>>,
    /// Rung for the port that accepts, once there is one.
    bells: Option<Arc<Bells, Global>>,
}

/// What a connect of a network gave.
#[derive(Drop)]
pub(crate) enum Opening {
    /// A socket, and what is planned for its opener's end.
    Opened(SocketId, EndPlan),
    /// It was planned to fail, or nobody listens there.
    Refused,
    NoMemory,
}

/// What an accept of a network gave.
#[derive(Drop)]
pub(crate) enum Taking<R: Wait + Copy> {
    /// A socket, and the acceptor's line.
    Taken(SocketId, Line<R>),
    Nobody,
    /// It was planned to fail.
    Refused,
}

/// What all ports of a fabric share: who listens where, the sockets that wait for an accept, and which
/// calls are to fail. It stands under a lock.
#[derive(Drop)]
pub(crate) struct Network<R: Wait + Copy> {
    alloc: Global,
    pub(crate) plan: Plan,
    listeners: Vec<Listener<R>>,
    /// How many listeners there were.
    numbered: u32,
    /// The last opener's port number.
    last_port: u16,
    /// A mark for each ring of those that accept.
    rung: Told,
}

/// The opener's port number after another, from 1 on.
fn port_after(last: u16) -> u16 {
    if last == MOST_PORT { 1 } else { last + 1 }
}

/// The place of the listener at an ip and port.
fn place_at<R: Wait + Copy>(listeners: &[Listener<R>], at: &Addr) -> Option<usize>
    ensures { IfSome result (λ place. place < length listeners.now) }
{
    listeners.iter().position(|listener| listener.ip == at.ip && listener.port == at.port)
}

/// The place of a listener.
fn place_of<R: Wait + Copy>(listeners: &[Listener<R>], number: u32) -> Option<usize>
    ensures { IfSome result (λ place. place < length listeners.now) }
{
    listeners
        .iter()
        .position(|listener| listener.number == number)
}

/// Lets a socket in that waited, where it is the next one of its four numbers at the acceptor too, as it
/// was at the opener.
fn admit<R: Wait + Copy>(book: &mut PortBook, arriving: Arriving<R>) -> Taking<R>
    requires { 0 < book.old.room }
    ensures admits { Admits result book.old.shows book.new.shows }
    ensures named { IsNamed result arriving.id }
{
    let (from, at) = (arriving.id, book.at());
    match book.next((from.from_ip, from.from_port, at.ip, at.port)) {
        Some(id) if id.is_same(&arriving.id) => {
            book.enter(id);
            Taking::Taken(id, arriving.line)
        }
        _ => Taking::Refused,
    }
}

/// Opens the next socket of these four numbers, whose acceptor's line waits last, under the same name. None where its
/// turn would pass 32 bits; all is as before then.
#[tactic(auto, using(crate::proofs::Names::named_last))]
fn open_at<R: Wait + Copy>(
    waiting: &mut VecDeque<Arriving<R>>,
    book: &mut PortBook,
    four: FourNumbers,
    line: Line<R>,
) -> Option<SocketId>
    requires place { deque_len waiting.old < deque_capacity waiting.old }
    requires room { 0 < book.old.room }
    ensures next { IfSome result (λ id. id ≡ next_socket four book.old.shows.made) }
    ensures made { MatchOption result (book.new.shows ≡ book.old.shows) (λ id. MakesNext id book.old.shows book.new.shows) }
    ensures waits { MatchOption result (names waiting.new.items ≡ names waiting.old.items)
        (λ id. names waiting.new.items ≡ names waiting.old.items ++ id ∷ []) }
{
    let Some(id) = book.open(four) else {
        return None;
    };
    waiting.push_back_reserved(Arriving { id, line });
    Some(id)
}

impl<R: Wait + Copy> Network<R> {
    /// Nobody listens, and no call is to fail. Takes no memory.
    pub(crate) fn new(alloc: Global) -> Network<R> {
        Network {
            alloc,
            plan: Plan::new(alloc),
            listeners: Vec::new(alloc),
            numbered: 0,
            last_port: 0,
            rung: Told::nothing(),
        }
    }

    /// Listens at an ip and port. The listener's number; Failed where the call is to fail, or where somebody
    /// listens there.
    pub(crate) fn listen(&mut self, at: &Addr) -> Result<u32, ListenFault> {
        if self.plan.listens.count() || place_at(self.listeners.as_slice(), at).is_some() {
            return Err(ListenFault::Failed);
        }
        let number = self.numbered;
        let listener = Listener {
            number,
            ip: at.ip,
            port: at.port,
            waiting: VecDeque::new(self.alloc),
            bells: None,
        };
        if self.listeners.push(listener).is_err() {
            return Err(ListenFault::NoMemory);
        }
        self.numbered = number.saturating_add(1);
        Ok(number)
    }

    /// These bells are rung for a listener from now on.
    pub(crate) fn attend(&mut self, number: u32, bells: Arc<Bells, Global>) {
        if let Some(place) = place_of(self.listeners.as_slice(), number) {
            self.listeners[place].bells = Some(bells);
        }
    }

    /// A listener is no more. What waits there is dropped.
    pub(crate) fn silence(&mut self, number: u32) {
        if let Some(place) = place_of(self.listeners.as_slice(), number) {
            let _ = self.listeners.swap_remove(place);
        }
    }

    /// Opens a socket of a node to an address, whose acceptor's line waits for an accept there, and wakes the node that
    /// listens there. It comes from the ip of the opener's node and a port number that the network gives.
    pub(crate) fn connect(
        &mut self,
        book: &mut PortBook,
        node: u32,
        to: &Addr,
        line: Line<R>,
    ) -> Opening
        requires { 0 < book.old.room }
        ensures opens { Opens result to.now book.old.shows book.new.shows }
        ensures rings { Rings result self.old.rung.bytes self.new.rung.bytes }
    {
        if self.plan.connects.count() {
            return Opening::Refused;
        }
        let Some(place) = place_at(self.listeners.as_slice(), to) else {
            return Opening::Refused;
        };
        self.last_port = port_after(self.last_port);
        let four = (book.at().ip, self.last_port, to.ip, to.port);
        let listener = &mut self.listeners[place];
        if listener.waiting.reserve(1).is_err() {
            return Opening::NoMemory;
        }
        let Some(id) = open_at(&mut listener.waiting, book, four, line) else {
            return Opening::Refused;
        };
        ring_all(&listener.bells, &mut self.rung);
        Opening::Opened(id, self.plan.opens(node))
    }

    /// Takes the socket that waits longest at a listener, for a port that accepts.
    pub(crate) fn accept(&mut self, book: &mut PortBook, number: Option<u32>) -> Taking<R>
        requires { 0 < book.old.room }
        ensures { Takes result book.old.shows book.new.shows }
    {
        if self.plan.accepts.count() {
            return Taking::Refused;
        }
        let Some(number) = number else {
            return Taking::Nobody;
        };
        if !book.accepts() {
            return Taking::Nobody;
        }
        match self.next_arriving(number) {
            Some(arriving) => admit(book, arriving),
            None => Taking::Nobody,
        }
    }

    /// The socket that waits longest at a listener.
    fn next_arriving(&mut self, number: u32) -> Option<Arriving<R>> {
        let place = place_of(self.listeners.as_slice(), number)?;
        self.listeners[place].waiting.pop_front()
    }
}
