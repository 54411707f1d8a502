//! One side of a handshake.

ghost use Rattle.std.specs.Prelude.{◌≡◌, ◌≤◌, ◌+◌, true, false, None, IsOk, IsSome, OnOk, OnErr, IsTrue, ◌↔◌, length};
ghost use Rattle.m2_handshake.specs.declared.stage.HalfSide.TheVariants as sides;
ghost use Rattle.m2_handshake.specs.declared.stage.Stage.TheVariants as stages;
ghost use Rattle.m2_handshake.specs.Asking.{AskAdvances, AskAnswers, AskShrinks, Replies, is_ready};
ghost use Rattle.m2_handshake.specs.Half.{Advances, Answers, AnswersSigned, Ends, Follows, IsReading, SaysHello, Shrinks, StaysSigned, TakesFrame, writer};
ghost use Rattle.m2_handshake.specs.Moves.{can_ask, is_agreed, is_at_rest, is_banner_start, is_start};
ghost use Rattle.m2_handshake.specs.Reading.{found_in};
ghost use Rattle.m2_handshake.specs.Standing.{CanFeed, IsSameButRoom, acceptor_at_start, at_start, faulted, fed, opener_at_start};
ghost use Rattle.m2_handshake.specs.Texts.{IsReply};

use crate::answer::HalfStep;
use crate::ask::{Ask, AskStep, read_ask};
use crate::fault::HalfFault;
use crate::halt::Halt;
use crate::progress::Progress;
use crate::reaction::{Turn, react};
use crate::stage::{Awaited, HalfSide, Stage};
use crate::taking::take;
use crate::texts::{put_hello, put_reply};
use m2_addr::Addr;
use m2_bytes::{Blob, NoMemory};
use m2_control::{Banner, BannerStep, Control, read_banner, write_banner};
use m2_frame::{Decoder, Frame};
use m2_policy::AuthPayload;
use std::alloc::Global;
use std::marker::Model;

/// The features that a half supports and requires: msgr2.1 alone.
const FEATURES: Banner = Banner {
    supported: 1,
    required: 1,
};

/// One side of a handshake, from its banner to the ask. Contracts see where it stands, how many bytes it
/// was fed, and the room: how many more fit before memory is taken.
///
/// Makers: [`client`](Half::client), [`server`](Half::server). Feed it the pieces of the socket in
/// order with [`feed`](Half::feed), and ask [`next`](Half::next) until it answers
/// [`HalfStep::NotYet`]; what it appends goes to the socket. Its answers are those of the bytes that
/// were fed, however they were cut. An authed client is [`finish`](Half::finish)ed. An authed server is
/// [`ask`](Half::ask)ed, and each ask is given its [`reply`](Half::reply) unless its session is accepted.
/// Before bytes are read that can't be given back, [`reserve`](Half::reserve) makes room for them.
/// Looks: [`stage`](Half::stage), [`rests`](Half::rests), [`can_ask`](Half::can_ask),
/// [`is_ready`](Half::is_ready).
#[derive(Debug, Drop)]
pub struct Half {
    alloc: Global,
    side: HalfSide,
    auth: AuthPayload,
    entity: u8,
    seen: Addr,
    stage: Stage,
    peer: Option<Addr>,
    held: Option<Frame>,
    early: Blob,
    decoder: Decoder,
    count: u64,
}

impl Model for Half {
    ghost use Rattle.m2_handshake.specs.Standing.{HalfState, Holds, parts_held, unread_of};

    ghost Value = { HalfState };

    ghost view = { λ h. record {
      standing = record {
        side = h.side;
        auth = h.auth;
        entity = h.entity;
        seen = h.seen;
        stage = h.stage;
        peer = h.peer;
        held = parts_held h.held;
        rest = (unread_of h.stage h.early h.decoder).rest;
      };
      count = h.count;
      room = (unread_of h.stage h.early h.decoder).room;
    } };

    ghost invariant = { λ h. Holds (record {
      standing = record {
        side = h.side;
        auth = h.auth;
        entity = h.entity;
        seen = h.seen;
        stage = h.stage;
        peer = h.peer;
        held = parts_held h.held;
        rest = (unread_of h.stage h.early h.decoder).rest;
      };
      count = h.count;
      room = (unread_of h.stage h.early h.decoder).room;
    }) (unread_of h.stage h.early h.decoder) };
}

impl Half {
    /// The side that connected. Its AUTH_REQUEST carries this, and its HELLO names this entity, and the
    /// address that was dialled.
    pub fn client(alloc: Global, auth: AuthPayload, entity: u8, seen: Addr) -> Half
        ensures { result.standing ≡ opener_at_start auth entity seen }
    {
        Half::new(alloc, HalfSide::Opener, auth, entity, seen)
    }

    /// The side that accepted. Its HELLO names this entity, and the address of the socket with the
    /// kind of msgr2 and nonce 0.
    pub fn server(alloc: Global, entity: u8, seen: Addr) -> Half
        ensures { result.standing ≡ acceptor_at_start entity seen }
    {
        Half::new(alloc, HalfSide::Acceptor, AuthPayload::Empty, entity, seen)
    }

    fn new(alloc: Global, side: HalfSide, auth: AuthPayload, entity: u8, seen: Addr) -> Half
        ensures { result.standing ≡ at_start side auth entity seen }
    {
        Half {
            alloc,
            side,
            auth,
            entity,
            seen,
            stage: Stage::Opening,
            peer: None,
            held: None,
            early: Blob::empty(alloc),
            decoder: Decoder::new(alloc),
            count: 0,
        }
    }

    /// Where the half stands.
    pub fn stage(&self) -> Stage
        ensures { result ≡ self.now.standing.stage }
    {
        self.stage
    }

    /// Whether both sides have signed and no frame is in hand, so that the half can be finished. After
    /// an answer of Authed it is so; only an ask that found no memory may leave its frame in hand.
    pub fn is_ready(&self) -> bool
        ensures { result ≡ is_ready self.now.standing }
    {
        match self.stage {
            Stage::Authed | Stage::Asked | Stage::Ended => self.held.is_none(),
            _ => false,
        }
    }

    /// Whether nothing is to be done before more bytes come, or while a reply is owed: where
    /// [`next`](Half::next), or [`ask`](Half::ask) at an acceptor that has signed, answers NotYet and
    /// leaves the half where it stands. An opener that has signed answers Authed, and doesn't rest.
    #[tactic(auto, using(crate::proofs::Resting::banner_rest, crate::proofs::Resting::held_rest, crate::proofs::Resting::read_rest, crate::proofs::Resting::refuse_rest, crate::proofs::Banners::step_is))]
    pub fn rests(&self) -> bool
        ensures { result ≡ is_at_rest self.now.standing }
    {
        match self.stage {
            Stage::Opening | Stage::Faulty(_) => false,
            Stage::Banner => is_start_of_banner(read_banner(self.early.as_slice())),
            Stage::Waits(_) => self.is_at_start(),
            Stage::Authed | Stage::Ended => match self.side {
                HalfSide::Opener => false,
                HalfSide::Acceptor => self.is_at_start(),
            },
            Stage::Asked => match self.side {
                HalfSide::Opener => false,
                HalfSide::Acceptor => true,
            },
        }
    }

    /// Whether no frame is in hand, and what is unread is the start of one.
    #[tactic(auto, using(crate::proofs::Sizes::reads_decoder, crate::proofs::Resting::start_is, crate::proofs::Resting::start_isnt))]
    fn is_at_start(&self) -> bool
        requires { IsReading self.now.standing.stage }
        ensures { result ≡ is_start self.now.standing.held (found_in self.now.standing.rest) }
    {
        match self.held {
            Some(_) => false,
            None => self.decoder.rests(),
        }
    }

    /// Makes room for `more` bytes, so that feeding them can't fail.
    ///
    /// The room is that of what is fed before the next answer. The end of a banner moves the bytes behind
    /// it, which may want memory: [`next`](Half::next) then answers want of memory, no byte is lost, and
    /// a later call goes on from there.
    pub fn reserve(&mut self, more: usize) -> Result<(), NoMemory>
        ensures same { IsSameButRoom self.old self.new }
        ensures fits { OnOk result (CanFeed self.new more) }
        ensures grows { self.old.room ≤ self.new.room }
    {
        if more as u64 > u64::MAX - self.count {
            return Err(NoMemory);
        }
        match self.stage {
            Stage::Opening | Stage::Banner => self.early.reserve(more),
            _ => self.decoder.reserve(more),
        }
    }

    /// Takes the next piece of the socket. A half that has answered a fault keeps nothing of it. A
    /// socket that would pass 2^64 bytes is answered as want of memory.
    pub fn feed(&mut self, piece: &[u8]) -> Result<(), NoMemory>
        ensures ok { OnOk result (self.new.standing ≡ fed self.old.standing piece.now) }
        ensures err { OnErr result (IsSameButRoom self.old self.new) }
        ensures count { OnOk result (self.new.count ≡ self.old.count + length piece.now) }
        ensures room { self.old.room ≤ self.new.room + length piece.now }
        ensures succeeds { CanFeed self.old (length piece.now) → IsOk result }
    {
        if piece.len() as u64 > u64::MAX - self.count {
            return Err(NoMemory);
        }
        match self.stage {
            Stage::Opening | Stage::Banner => self.early.push_all(piece)?,
            Stage::Faulty(_) => {}
            _ => self.decoder.feed(piece)?,
        }
        self.count += piece.len() as u64;
        Ok(())
    }

    /// The next answer of the handshake; what it writes is appended to `out`. A half that has signed stays as it
    /// is.
    pub fn next(&mut self, out: &mut Blob) -> HalfStep
        ensures answer { Answers result (writer self.old out.old) (writer self.new out.new) }
        ensures signed { StaysSigned self.old self.new }
    {
        'moves: loop {
            match self.advance(out) {
                Ok(Progress::On) => {}
                Ok(Progress::Wrote) => return HalfStep::Wrote,
                Ok(Progress::Signed) => return HalfStep::Authed,
                Err(Halt::NotYet) => return HalfStep::NotYet,
                Err(Halt::NoMemory) => return HalfStep::NoMemory,
                Err(Halt::Fault(fault)) => {
                    self.fail(fault);
                    return HalfStep::Fault(fault);
                }
            }
        }
    }

    /// Whether this is an acceptor and both sides have signed, so that it can be asked for asks.
    pub fn can_ask(&self) -> bool
        ensures { result ≡ can_ask self.now.standing }
    {
        match (self.side, self.stage) {
            (HalfSide::Opener, _) => false,
            (HalfSide::Acceptor, Stage::Opening | Stage::Banner | Stage::Waits(_)) => false,
            (HalfSide::Acceptor, _) => true,
        }
    }

    /// The next ask, at an acceptor that is authed.
    #[tactic(auto, using(crate::proofs::Reaching::asks_acceptor))]
    pub fn ask(&mut self) -> AskStep
        requires { can_ask self.old.standing ≡ true }
        ensures { AskAnswers result self.old.standing self.new.standing }
    {
        'moves: loop {
            match self.advance_ask() {
                Ok(None) => {}
                Ok(Some(ask)) => return AskStep::Asked(ask),
                Err(Halt::NotYet) => return AskStep::NotYet,
                Err(Halt::NoMemory) => return AskStep::NoMemory,
                Err(Halt::Fault(fault)) => {
                    self.fail(fault);
                    return AskStep::Fault(fault);
                }
            }
        }
    }

    /// Appends the frame of the reply to the last ask, which isn't that of an accepted session.
    pub fn reply(&mut self, c: &Control, out: &mut Blob) -> Result<(), NoMemory>
        requires owed { self.old.standing.stage ≡ stages.Asked }
        requires reply { IsReply c.now }
        ensures exact { Replies result c.now (writer self.old out.old) (writer self.new out.new) }
    {
        put_reply(self.alloc, c, out)?;
        self.stage = match c {
            Control::IdentMissingFeatures(_) | Control::Wait(_) => Stage::Ended,
            _ => Stage::Authed,
        };
        Ok(())
    }

    /// Hands on the decoder with all unread bytes, and with nothing granted.
    pub fn finish(self) -> Decoder
        requires { is_ready self.standing ≡ true }
        ensures rest { result.rest ≡ self.standing.rest }
        ensures ungranted { result.granted ≡ false }
    {
        self.decoder
    }

    /// One move towards the next ask.
    fn advance_ask(&mut self) -> Result<Option<Ask>, Halt>
        requires { self.old.standing.side ≡ sides.Acceptor }
        ensures side_stays { self.new.standing.side ≡ self.old.standing.side }
        ensures exact { AskAdvances result self.old.standing self.new.standing }
        ensures shrinks { AskShrinks result self.old.standing self.new.standing }
    {
        match self.stage {
            Stage::Authed => self.seek_ask(),
            Stage::Ended => self.await_end(),
            Stage::Faulty(fault) => Err(Halt::Fault(fault)),
            Stage::Opening | Stage::Banner | Stage::Waits(_) | Stage::Asked => Err(Halt::NotYet),
        }
    }

    /// Takes the next frame, or reads the ask that is in hand.
    fn seek_ask(&mut self) -> Result<Option<Ask>, Halt>
        requires stage { self.old.standing.stage ≡ stages.Authed }
        requires side { self.old.standing.side ≡ sides.Acceptor }
        ensures side_stays { self.new.standing.side ≡ self.old.standing.side }
        ensures exact { AskAdvances result self.old.standing self.new.standing }
        ensures shrinks { AskShrinks result self.old.standing self.new.standing }
    {
        let Some(frame) = &self.held else {
            self.take_frame()?;
            return Ok(None);
        };
        let (ask, main) = read_ask(self.alloc, self.peer, frame)?;
        self.held = None;
        self.stage = Stage::Asked;
        self.peer = Some(main);
        Ok(Some(ask))
    }

    /// Takes the next frame; any whole one, and any MESSAGE, is too much.
    fn await_end(&mut self) -> Result<Option<Ask>, Halt>
        requires stage { self.old.standing.stage ≡ stages.Ended }
        requires side { self.old.standing.side ≡ sides.Acceptor }
        ensures side_stays { self.new.standing.side ≡ self.old.standing.side }
        ensures exact { AskAdvances result self.old.standing self.new.standing }
        ensures shrinks { AskShrinks result self.old.standing self.new.standing }
    {
        let Some(frame) = &self.held else {
            self.take_frame()?;
            return Ok(None);
        };
        Err(Halt::Fault(HalfFault::Unexpected { tag: frame.tag }))
    }

    /// One move.
    fn advance(&mut self, out: &mut Blob) -> Result<Progress, Halt>
        ensures signed { AnswersSigned result self.old self.new }
        ensures exact { Advances result (writer self.old out.old) (writer self.new out.new) }
        ensures shrinks { Shrinks result self.old.standing self.new.standing }
    {
        match self.stage {
            Stage::Opening => self.open(out),
            Stage::Banner => self.greet(out),
            Stage::Waits(awaited) => self.go_on(awaited, out),
            Stage::Authed | Stage::Asked | Stage::Ended => Ok(Progress::Signed),
            Stage::Faulty(fault) => Err(Halt::Fault(fault)),
        }
    }

    /// Writes its banner.
    fn open(&mut self, out: &mut Blob) -> Result<Progress, Halt>
        requires { self.old.standing.stage ≡ stages.Opening }
        ensures exact { Advances result (writer self.old out.old) (writer self.new out.new) }
        ensures shrinks { Shrinks result self.old.standing self.new.standing }
    {
        write_banner(&FEATURES, out)?;
        self.stage = Stage::Banner;
        Ok(Progress::Wrote)
    }

    /// Reads the banner of the other side, and answers with HELLO.
    #[tactic(auto, using(crate::proofs::Banners::step_is))]
    fn greet(&mut self, out: &mut Blob) -> Result<Progress, Halt>
        requires { self.old.standing.stage ≡ stages.Banner }
        ensures exact { Advances result (writer self.old out.old) (writer self.new out.new) }
        ensures shrinks { Shrinks result self.old.standing self.new.standing }
    {
        match read_banner(self.early.as_slice()) {
            BannerStep::NotYet => Err(Halt::NotYet),
            BannerStep::BadBanner => Err(Halt::Fault(HalfFault::BadBanner)),
            BannerStep::Got { banner, used } => {
                if !agrees(&banner) {
                    return Err(Halt::Fault(HalfFault::BannerFeatures));
                }
                self.say_hello(used as usize, out)?;
                Ok(Progress::Wrote)
            }
        }
    }

    /// Writes HELLO, and leaves what stands behind the banner to the decoder.
    fn say_hello(&mut self, used: usize, out: &mut Blob) -> Result<(), NoMemory>
        requires stage { self.old.standing.stage ≡ stages.Banner }
        requires there { used ≤ length self.old.standing.rest }
        ensures { SaysHello result used (writer self.old out.old) (writer self.new out.new) }
    {
        let (_, unread) = self.early.as_slice().split_at(used);
        let mut decoder = Decoder::new(self.alloc);
        decoder.feed(unread)?;
        put_hello(self.alloc, self.entity, self.seen, out)?;
        self.decoder = decoder;
        self.early = Blob::empty(self.alloc);
        self.stage = Stage::Waits(Awaited::Hello);
        Ok(())
    }

    /// Takes the next frame, or answers the one that is in hand.
    fn go_on(&mut self, awaited: Awaited, out: &mut Blob) -> Result<Progress, Halt>
        requires { self.old.standing.stage ≡ stages.Waits awaited }
        ensures exact { Advances result (writer self.old out.old) (writer self.new out.new) }
        ensures shrinks { Shrinks result self.old.standing self.new.standing }
    {
        let Some(frame) = &self.held else {
            self.take_frame()?;
            return Ok(Progress::On);
        };
        let turn = react(self.alloc, self.auth, self.side, awaited, frame)?;
        self.follow(turn, out)
    }

    /// Takes the next frame into hand.
    #[tactic(auto, using(crate::proofs::Sizes::reads_decoder))]
    fn take_frame(&mut self) -> Result<(), Halt>
        requires free { self.old.standing.held ≡ None }
        requires reads { IsReading self.old.standing.stage }
        ensures exact { TakesFrame result self.old.standing self.new.standing }
        ensures side_stays { self.new.standing.side ≡ self.old.standing.side }
        ensures stage_stays { self.new.standing.stage ≡ self.old.standing.stage }
    {
        self.held = Some(take(&mut self.decoder)?);
        Ok(())
    }

    /// Does what the frame in hand brings.
    fn follow(&mut self, turn: Turn, out: &mut Blob) -> Result<Progress, Halt>
        requires held { IsSome self.old.standing.held }
        requires reads { IsReading self.old.standing.stage }
        ensures exact { Follows turn result (writer self.old out.old) (writer self.new out.new) }
    {
        let (stage, progress) = match turn {
            Turn::Says(next, text) => {
                out.push_all(text.as_slice())?;
                (Stage::Waits(next), Progress::Wrote)
            }
            Turn::Listens(next) => (Stage::Waits(next), Progress::On),
            Turn::Signs => (Stage::Authed, Progress::Signed),
        };
        self.held = None;
        self.stage = stage;
        Ok(progress)
    }

    /// Keeps the first fault, and lets go of what was read.
    fn fail(&mut self, fault: HalfFault)
        ensures { self.new.standing ≡ faulted fault self.old.standing }
    {
        if let Stage::Faulty(_) = self.stage {
            return;
        }
        self.held = None;
        self.early = Blob::empty(self.alloc);
        self.decoder = Decoder::new(self.alloc);
        self.stage = Stage::Faulty(fault);
    }
}

/// Whether what is there is the start of a banner.
fn is_start_of_banner(step: BannerStep) -> bool
    ensures { result ≡ is_banner_start step }
{
    match step {
        BannerStep::NotYet => true,
        BannerStep::BadBanner | BannerStep::Got { .. } => false,
    }
}

/// Whether the other side supports msgr2.1, and requires nothing else.
fn agrees(banner: &Banner) -> bool
    ensures { result ≡ is_agreed banner.now }
{
    banner.supported % 2 == 1 && banner.required < 2
}
