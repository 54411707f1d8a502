//! One side of a session.

ghost use Rattle.std.specs.Prelude.{◌≡◌, ◌<◌, ◌-◌, option_map};
ghost use Rattle.m2_session.specs.declared.cookie.TheConstants.{MOST_PLACES};
ghost use Rattle.m2_journal.specs.State.{start};
ghost use Rattle.m2_shared.specs.Gates.{AreHeld, ArePassesOf, Return, dispatch, held, places};
ghost use Rattle.m2_core.specs.LiveNow.{is_waiting};
ghost use Rattle.m2_core.specs.Agrees.{Agrees};
ghost use Rattle.m2_core.specs.Calls.{is_exhausted, lacks_connect_number, lacks_message_number};
ghost use Rattle.m2_core.specs.CoreNow.{at_start, may_dial};

use crate::Live;
use m2_addr::Addr;
use m2_control::GREATEST_NUMBER;
use m2_fabric::End;
use m2_feed::Feed;
use m2_journal::NodeFacts;
use m2_policy::Policy;
use m2_queues::OutQueues;
use m2_session::{Phase, Session};
use m2_shared::{PeerGrants, PeerType, TakePasses, Throttles};
use std::alloc::Global;
use std::marker::Model;

/// One side of a session, without the journal of what it did. Contracts see it as one value, and say of
/// each call that makes an entry that behind that entry it stands where the replay of a journal does,
/// wherever it did so before. It can't be dropped, since a grant can't: it ends by [`end`](Core::end).
///
/// Readers: [`session`](Core::session), [`feed`](Core::feed), [`out`](Core::out), [`accepted`](Core::accepted),
/// [`granted`](Core::granted), [`waits`](Core::waits), [`may_dial`](Core::may_dial), [`is_exhausted`](Core::is_exhausted). By the plan:
/// [`post`](Core::post), [`dial`](Core::dial), [`down`](Core::down). The feed comes and goes: [`opened`](Core::opened), [`fault`](Core::fault).
/// Bytes: [`read`](Core::read), [`write`](Core::write). What was read: [`shake`](Core::shake),
/// [`hearing`](Core::hearing), [`obey`](Core::obey), and [`next`](Core::next), which
/// does what the front of the feed says by [`grant`](Core::grant), [`pass_frame`](Core::pass_frame),
/// [`pass_keepalive`](Core::pass_keepalive), [`acked`](Core::acked) and [`accept`](Core::accept). What is
/// composed: [`ask`](Core::ask), [`number`](Core::number), [`acknowledge`](Core::acknowledge),
/// [`answer_keepalive`](Core::answer_keepalive). An ask of the peer: [`answer_to`](Core::answer_to),
/// [`verdict`](Core::verdict); then [`answered`](Core::answered), or [`acceptance`](Core::acceptance) and
/// [`take_over`](Core::take_over). Behind a resumption: [`count_resumption`](Core::count_resumption).
///
/// A call that takes throttles has the condition that the passes and what the core holds were made from them.
pub struct Core<E: End> {
    pub(crate) alloc: Global,
    pub(crate) mine: Addr,
    pub(crate) peer: Addr,
    pub(crate) policy: Policy,
    pub(crate) node: NodeFacts,
    pub(crate) live: Live<E>,
    /// Whether a message was accepted since one was acknowledged.
    pub(crate) owes: bool,
    /// Whether a dial is still to be made.
    pub(crate) dials: bool,
    /// The greatest global number used.
    pub(crate) top: u64,
}

impl<E: End> Model for Core<E> {
    ghost use Rattle.m2_core.specs.CoreNow.{CoreNow, Holds};

    ghost Value = { CoreNow };

    ghost view = { λ c. record {
      facts = record { mine = c.mine; peer = c.peer; policy = c.policy; node = c.node };
      live = c.live;
      owes = c.owes;
      dials = c.dials;
      top = c.top;
    } };

    ghost invariant = { λ c. Holds (record {
      facts = record { mine = c.mine; peer = c.peer; policy = c.policy; node = c.node };
      live = c.live;
      owes = c.owes;
      dials = c.dials;
      top = c.top;
    }) };
}

impl<E: End> Core<E> {
    /// No session, towards this peer, which is of this type. Takes no memory.
    pub fn new(
        alloc: Global,
        mine: Addr,
        peer: Addr,
        policy: Policy,
        node: NodeFacts,
        peer_type: PeerType,
    ) -> Core<E>
        requires { node.number < MOST_PLACES }
        ensures value { result ≡ at_start (record { mine = mine; peer = peer; policy = policy; node = node }) peer_type }
        ensures agrees { Agrees result (start result.facts) }
    {
        let session = Session {
            mine,
            peer,
            policy,
            rules: node.rules,
            phase: Phase::Absent,
            client_cookie: 0,
            server_cookie: 0,
            peer_global: 0,
            connect: 0,
            lost_ready: false,
        };
        let live = Live {
            session,
            out: OutQueues::new(alloc, !policy.lossy),
            last: 0,
            life: 0,
            resumed: 0,
            feed: None,
            granted: PeerGrants::none(peer_type),
        };
        Core {
            alloc,
            mine,
            peer,
            policy,
            node,
            live,
            owes: false,
            dials: false,
            top: 0,
        }
    }

    /// What is remembered of the peer.
    pub fn session(&self) -> &Session
        ensures { result.now ≡ self.now.live.session }
    {
        &self.live.session
    }

    /// The feed.
    pub fn feed(&self) -> Option<&Feed<E>>
        ensures { option_map (λ f. f.now) result ≡ self.now.live.feed }
    {
        self.live.feed.as_ref()
    }

    /// The messages that are to be sent, or sent and not yet acknowledged.
    pub fn out(&self) -> &OutQueues
        ensures { result.now ≡ self.now.live.out }
    {
        &self.live.out
    }

    /// The number of the last accepted message, 0 before the first.
    pub fn accepted(&self) -> u64
        ensures { result ≡ self.now.live.last }
    {
        self.live.last
    }

    /// How many bytes the throttle of the dispatch has granted for the MESSAGE that isn't finished.
    pub fn granted(&self) -> u64
        ensures { result ≡ held self.now.live.granted dispatch }
    {
        match &self.live.granted.grants.dispatch {
            Some(grant) => grant.n(),
            None => 0,
        }
    }

    /// Whether a message is kept or waits to be written.
    pub fn waits(&self) -> bool
        ensures { result ≡ is_waiting self.now.live }
    {
        self.live.waits()
    }

    /// Whether a dial was asked for that wasn't made yet.
    pub fn wants_dial(&self) -> bool
        ensures { result ≡ self.now.dials }
    {
        self.dials
    }

    /// Whether a dial is due, the moment aside.
    pub fn may_dial(&self) -> bool
        ensures { result ≡ may_dial self.now }
    {
        m2_session::dials(&self.live.session, self.live.out.waits(), self.dials)
    }

    /// Whether a number that is needed next is above the greatest: that of the next message, of a dial
    /// that is due, or of the next ask.
    pub fn is_exhausted(&self) -> bool
        ensures { result ≡ is_exhausted self.now }
    {
        self.lacks_message_number() || self.lacks_connect_number()
    }

    /// The same of the next message.
    fn lacks_message_number(&self) -> bool
        ensures { result ≡ lacks_message_number self.now.live }
    {
        match self.live.out.peek() {
            Some(due) => due.number > GREATEST_NUMBER,
            None => false,
        }
    }

    /// The same of a dial and of an ask.
    fn lacks_connect_number(&self) -> bool
        ensures { result ≡ lacks_connect_number self.now }
    {
        let s = &self.live.session;
        let more = m2_session::rises(s) as u64;
        (self.may_dial() && s.connect + more > GREATEST_NUMBER)
            || (s.phase == Phase::Connecting && s.connect > GREATEST_NUMBER)
    }

    /// Gives back what is held, and gives the feed as it is.
    pub fn end(self, throttles: &Throttles, passes: &mut TakePasses) -> Option<Feed<E>>
        requires passes { ArePassesOf throttles.now passes.old }
        requires owned { AreHeld (places throttles.now) self.live.granted }
        ensures feed { result ≡ self.live.feed }
        ensures passes { ArePassesOf throttles.now passes.new }
        ensures word { Return (held self.live.granted) throttles.now passes.old passes.new }
    {
        let Core {
            alloc: _,
            mine: _,
            peer: _,
            policy: _,
            node: _,
            live,
            owes: _,
            dials: _,
            top: _,
        } = self;
        live.end(throttles, passes)
    }
}
