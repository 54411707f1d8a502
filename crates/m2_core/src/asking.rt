//! Asks.

ghost use Rattle.std.specs.Prelude.{◌≡◌, ◌≤◌, ◌<◌, IfOk};
ghost use Rattle.m2_core.specs.LiveAsking.{IsAsk, ask_len};
ghost use Rattle.m2_core.specs.Asking.{HasAsked, LeavesAsk, LeavesPass, MayAskNow, ask_of};

use crate::feed_laws::feed_laws;
use crate::side::Core;
use crate::{ask_len, cookie_at};
use m2_addr::AddrVec;
use m2_bytes::NoMemory;
use m2_control::{ClientIdent, Control, SessionReconnect};
use m2_fabric::End;
use m2_shared::{Draw, NumberPass, Numbers};

/// What an ask answered.
#[derive(Clone, Copy, Debug, PartialEq, Eq)]
pub enum CoreAsk {
    /// A CLIENT_IDENT (`ident`) or a SESSION_RECONNECT is composed, with the number that was drawn for it.
    Asked { ident: bool, number: u64 },
    /// No number is left.
    Spent,
    /// Another thread drew at that moment. One may try again.
    Again { seen: u64, now: u64 },
    NoMemory,
}

impl<E: End> Core<E> {
    /// The ask of this side with cookie and number 0.
    #[tactic(auto, using(crate::proofs::Asked::is_ask))]
    fn ask_without_number(&self, ident: bool) -> Result<Control, NoMemory>
        ensures value { IfOk result (λ c. c ≡ ask_of self.now.facts self.now.live ident 0 0) }
        ensures ask { IfOk result (IsAsk (ask_len ident)) }
    {
        let addrs = AddrVec::one(self.alloc, self.mine)?;
        let s = &self.live.session;
        if ident {
            return Ok(Control::ClientIdent(ClientIdent {
                addrs,
                target: self.peer,
                gid: self.node.number as i64,
                global: 0,
                supported: self.node.supports,
                required: self.node.requires_,
                flags: self.policy.lossy as u64,
                cookie: 0,
            }));
        }
        Ok(Control::SessionReconnect(SessionReconnect {
            addrs,
            client: s.client_cookie,
            server: s.server_cookie,
            global: 0,
            connect: s.connect,
            seen: self.live.last,
        }))
    }

    /// Draws a global number and composes the ask of this side: an ident where no server cookie is kept,
    /// else a reconnect: the entry Asked. The numbers that the pass draws are above all that this side has
    /// used. An answer other than Asked leaves all but the feed's room as it was.
    #[tactic(auto, using(crate::proofs::Asked::has_asked, crate::proofs::Asked::stays_so))]
    pub fn ask(&mut self, numbers: &Numbers, pass: &mut NumberPass) -> CoreAsk
        requires may { MayAskNow self.old }
        requires pass { pass.old.place ≡ numbers.now.place }
        requires top { self.old.top ≤ pass.old.least }
        ensures asked { HasAsked result self.old self.new }
        ensures leaves { LeavesAsk result self.old self.new }
        ensures pass { LeavesPass result numbers.now.place pass.old pass.new }
        ensures place { pass.new.place ≡ pass.old.place }
    {
        feed_laws();
        let ident = self.live.session.server_cookie == 0;
        let Ok(ask) = self.ask_without_number(ident) else {
            return CoreAsk::NoMemory;
        };
        if self.live.reserve_ask(ask_len(ident)).is_err() {
            return CoreAsk::NoMemory;
        }
        match numbers.draw(pass) {
            Draw::Number(number) => {
                let cookie = cookie_at(&self.policy, &self.node, number);
                self.live.compose_ask(ident, cookie, number, ask);
                self.top = number;
                CoreAsk::Asked { ident, number }
            }
            Draw::Spent => {
                drop(ask);
                CoreAsk::Spent
            }
            Draw::Again { seen, now } => {
                drop(ask);
                CoreAsk::Again { seen, now }
            }
        }
    }
}
