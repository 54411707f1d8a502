//! The sockets between two nodes.

ghost use Rattle.std.specs.Prelude.{◌≡◌, ◌<◌, [], ◌∷◌, ◌++◌, All, map, IfOk, OnOk, OnErr};
ghost use Rattle.std.specs.List.{list_any};
ghost use Rattle.m2_fabric.specs.Sockets.{same_socket};
ghost use Rattle.m2_fabric.specs.Kept.{AreWithin, IsWithin, SeenPair, between, chosen, cleared, cleared_pair, directions, is_kept, joins, numbered, of_pair, of_sockets, pairs_after_add, with_kept};
ghost use Rattle.m2_fabric.specs.News.{AreTold, kept_after, logs_of, pair_after, told_to};
ghost use Rattle.m2_fabric.specs.Over.{AreOver};

use crate::kept::Kept;
use crate::newest::Newest;
use crate::passing::Passing;
use crate::{Holder, SocketId};
use m2_bytes::{Blob, NoMemory};
use std::alloc::Global;
use std::marker::Model;

/// Two nodes, and the sockets between them in the order in which they were opened.
#[derive(Debug, Drop)]
pub(crate) struct Pair {
    first: u32,
    second: u32,
    sockets: Vec<Kept>,
    /// So many of the first sockets are over both ways: a call passes nothing on there.
    over: usize,
    newest: Newest,
}

impl Model for Pair {
    ghost use Rattle.m2_fabric.specs.Kept.{SeenPair};
    ghost use Rattle.m2_fabric.specs.Newest.{AreBelow};
    ghost use Rattle.m2_fabric.specs.Over.{AreOver};

    ghost Value = { SeenPair };

    ghost view = { λ p. record { first = p.first; second = p.second; sockets = p.sockets.items } };

    ghost invariant = { λ p. AreOver p.over p.sockets.items × AreBelow p.newest p.sockets.items };
}

/// How many of the first sockets are over both ways, where so many are known to be.
fn count_over(sockets: &[Kept], known: usize) -> usize
    requires { AreOver known sockets.now }
    ensures { AreOver result sockets.now }
{
    let mut over = known;
    while over < sockets.len() && sockets[over].is_over() {
        over += 1;
    }
    over
}

/// Passes on what each socket does, as far as `what` is about it.
fn pass_sockets<H: Holder>(
    sockets: &mut [Kept],
    h: &mut H,
    piece: &mut Blob,
    first: u32,
    second: u32,
    what: &Passing,
) -> Result<(), NoMemory>
    requires first { first < (H.seen h.old).nodes }
    requires second { second < (H.seen h.old).nodes }
    ensures same { map cleared sockets.new ≡ map cleared sockets.old }
    ensures sockets { OnOk result (sockets.new ≡ map (kept_after what.now (logs_of (H.seen h.old)) first second) sockets.old) }
    ensures told { OnOk result (AreTold (told_to what.now (logs_of (H.seen h.old)) (of_sockets first second sockets.old)) (H.seen h.old) (H.seen h.new)) }
    ensures rest { H.rest h.new ≡ H.rest h.old }
{
    for kept in sockets {
        kept.pass(h, piece, first, second, what)?;
    }
    Ok(())
}

/// The same, where the first `over` sockets are over both ways.
fn pass_behind<H: Holder>(
    sockets: &mut [Kept],
    over: usize,
    h: &mut H,
    piece: &mut Blob,
    first: u32,
    second: u32,
    what: &Passing,
) -> Result<(), NoMemory>
    requires over { AreOver over sockets.old }
    requires first { first < (H.seen h.old).nodes }
    requires second { second < (H.seen h.old).nodes }
    ensures over { AreOver over sockets.new }
    ensures same { map cleared sockets.new ≡ map cleared sockets.old }
    ensures sockets { OnOk result (sockets.new ≡ map (kept_after what.now (logs_of (H.seen h.old)) first second) sockets.old) }
    ensures told { OnOk result (AreTold (told_to what.now (logs_of (H.seen h.old)) (of_sockets first second sockets.old)) (H.seen h.old) (H.seen h.new)) }
    ensures rest { H.rest h.new ≡ H.rest h.old }
{
    let (_, live) = sockets.split_at_mut(over);
    pass_sockets(live, h, piece, first, second, what)
}

/// The same in a vector.
fn pass_in<H: Holder>(
    sockets: &mut Vec<Kept>,
    over: usize,
    h: &mut H,
    piece: &mut Blob,
    first: u32,
    second: u32,
    what: &Passing,
) -> Result<(), NoMemory>
    requires over { AreOver over sockets.old.items }
    requires first { first < (H.seen h.old).nodes }
    requires second { second < (H.seen h.old).nodes }
    ensures over { AreOver over sockets.new.items }
    ensures same { map cleared sockets.new.items ≡ map cleared sockets.old.items }
    ensures sockets { OnOk result (sockets.new.items ≡ map (kept_after what.now (logs_of (H.seen h.old)) first second) sockets.old.items) }
    ensures told { OnOk result (AreTold (told_to what.now (logs_of (H.seen h.old)) (of_sockets first second sockets.old.items)) (H.seen h.old) (H.seen h.new)) }
    ensures rest { H.rest h.new ≡ H.rest h.old }
{
    pass_behind(sockets.as_mut_slice(), over, h, piece, first, second, what)
}

impl Pair {
    /// Two nodes with one socket between them. Err comes for want of memory.
    #[tactic(auto, using(crate::proofs::Below::below_one))]
    fn of(alloc: Global, first: u32, second: u32, kept: Kept) -> Result<Pair, NoMemory>
        ensures { IfOk result (λ p. p ≡ record { first = first; second = second; sockets = kept ∷ [] }) }
    {
        let mut sockets = Vec::new(alloc);
        sockets.push(kept)?;
        Ok(Pair {
            first,
            second,
            sockets,
            over: 0,
            newest: Newest::of(&kept.id),
        })
    }

    /// Whether it is that of these two nodes.
    fn joins(&self, a: u32, b: u32) -> bool
        ensures { result ≡ joins a b self.now }
    {
        self.first == a && self.second == b || self.first == b && self.second == a
    }

    /// Whether a socket is among its own. One that is newer than all isn't looked for.
    fn has(&self, id: &SocketId) -> bool
        ensures { result ≡ list_any (λ k. same_socket k.id id.now) self.now.sockets }
    {
        if self.newest.is_before(id) {
            return false;
        }
        self.sockets.iter().any(|kept| kept.id.is_same(id))
    }

    /// The sockets.
    fn sockets(&self) -> &[Kept]
        ensures { result.now ≡ self.now.sockets }
    {
        self.sockets.as_slice()
    }

    /// Adds a socket. On Err for want of memory the pair is unchanged.
    fn push(&mut self, kept: Kept) -> Result<(), NoMemory>
        ensures ok { OnOk result (self.new ≡ record self.old { sockets = self.old.sockets ++ kept ∷ [] }) }
        ensures err { OnErr result (self.new ≡ self.old) }
    {
        self.sockets.push(kept)?;
        self.newest = self.newest.raised(&kept.id);
        Ok(())
    }

    /// Passes on what each socket does, as far as `what` is about it. `piece` is room for what flows.
    pub(crate) fn pass<H: Holder>(
        &mut self,
        h: &mut H,
        piece: &mut Blob,
        what: &Passing,
    ) -> Result<(), NoMemory>
        requires first { self.old.first < (H.seen h.old).nodes }
        requires second { self.old.second < (H.seen h.old).nodes }
        ensures same { cleared_pair self.new ≡ cleared_pair self.old }
        ensures pair { OnOk result (self.new ≡ pair_after what.now (logs_of (H.seen h.old)) self.old) }
        ensures told { OnOk result (AreTold (told_to what.now (logs_of (H.seen h.old)) (of_pair self.old)) (H.seen h.old) (H.seen h.new)) }
        ensures rest { H.rest h.new ≡ H.rest h.old }
    {
        if !what.is_between(self.first, self.second) {
            return Ok(());
        }
        self.over = count_over(self.sockets.as_slice(), self.over);
        pass_in(
            &mut self.sockets,
            self.over,
            h,
            piece,
            self.first,
            self.second,
            what,
        )
    }
}

/// Whether a socket is kept.
pub(crate) fn is_kept(id: &SocketId, pairs: &[Pair]) -> bool
    ensures { result ≡ is_kept id.now pairs.now }
{
    pairs.iter().any(|pair| pair.has(id))
}

/// The sockets between two nodes.
pub(crate) fn between(pairs: &[Pair], a: u32, b: u32) -> &[Kept]
    ensures { result.now ≡ between a b pairs.now }
{
    match pairs.split_first() {
        None => &[],
        Some((pair, rest)) => {
            if pair.joins(a, b) {
                pair.sockets()
            } else {
                between(rest, a, b)
            }
        }
    }
}

/// The socket of that number, from 1; none where there is no such socket.
pub(crate) fn numbered(number: usize, sockets: &[Kept]) -> Option<Kept>
    ensures { result ≡ numbered number sockets.now }
{
    if number == 0 {
        return None;
    }
    sockets.get(number - 1).copied()
}

/// The socket of that number, or the newest one where the number is 0.
pub(crate) fn chosen(socket: u32, sockets: &[Kept]) -> Option<Kept>
    ensures { result ≡ chosen socket sockets.now }
{
    if socket == 0 {
        return numbered(sockets.len(), sockets);
    }
    numbered(socket as usize, sockets)
}

/// Adds a socket to the first pair of its two nodes, if there is one. Whether there is. On Err for want of memory
/// the pairs are unchanged.
fn add(pairs: &mut [Pair], a: u32, b: u32, kept: Kept) -> Result<bool, NoMemory>
    ensures ok { IfOk result (λ found. pairs_after_add found a b kept pairs.old pairs.new) }
    ensures err { OnErr result (pairs.new ≡ pairs.old) }
{
    match pairs.split_first_mut() {
        None => Ok(false),
        Some((pair, rest)) => {
            if pair.joins(a, b) {
                pair.push(kept)?;
                return Ok(true);
            }
            add(rest, a, b, kept)
        }
    }
}

/// Keeps a socket between two nodes, behind those that are there. On Err for want of memory the pairs are
/// unchanged.
pub(crate) fn keep(
    alloc: Global,
    pairs: &mut Vec<Pair>,
    a: u32,
    b: u32,
    kept: Kept,
) -> Result<(), NoMemory>
    ensures ok { OnOk result (pairs.new.items ≡ with_kept a b kept pairs.old.items) }
    ensures err { OnErr result (pairs.new.items ≡ pairs.old.items) }
{
    if !add(pairs.as_mut_slice(), a, b, kept)? {
        pairs.push(Pair::of(alloc, a, b, kept)?)?;
    }
    Ok(())
}

/// Passes on what each pair does, as far as `what` is about it. `piece` is room for what flows.
fn pass_each<H: Holder>(
    pairs: &mut [Pair],
    h: &mut H,
    piece: &mut Blob,
    what: &Passing,
) -> Result<(), NoMemory>
    requires { All (IsWithin (H.seen h.old).nodes) pairs.old }
    ensures same { map cleared_pair pairs.new ≡ map cleared_pair pairs.old }
    ensures pairs { OnOk result (pairs.new ≡ map (pair_after what.now (logs_of (H.seen h.old))) pairs.old) }
    ensures told { OnOk result (AreTold (told_to what.now (logs_of (H.seen h.old)) (directions pairs.old)) (H.seen h.old) (H.seen h.new)) }
    ensures rest { H.rest h.new ≡ H.rest h.old }
{
    for pair in pairs {
        pair.pass(h, piece, what)?;
    }
    Ok(())
}

/// The same of a vector.
#[tactic(auto, using(crate::proofs::Pairs::all_within))]
pub(crate) fn pass_all<H: Holder>(
    pairs: &mut Vec<Pair>,
    h: &mut H,
    piece: &mut Blob,
    what: &Passing,
) -> Result<(), NoMemory>
    requires { AreWithin (H.seen h.old).nodes pairs.old.items }
    ensures same { map cleared_pair pairs.new.items ≡ map cleared_pair pairs.old.items }
    ensures pairs { OnOk result (pairs.new.items ≡ map (pair_after what.now (logs_of (H.seen h.old))) pairs.old.items) }
    ensures told { OnOk result (AreTold (told_to what.now (logs_of (H.seen h.old)) (directions pairs.old.items)) (H.seen h.old) (H.seen h.new)) }
    ensures rest { H.rest h.new ≡ H.rest h.old }
{
    pass_each(pairs.as_mut_slice(), h, piece, what)
}
