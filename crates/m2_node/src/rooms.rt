//! The inboxes of all event threads before these begin, with the rights to them.

ghost use Rattle.std.specs.Prelude.{◌++◌, ◌∷◌, [], IfOk, OnOk, List};
ghost use Rattle.m2_node.specs.Rooms.{AreRoomsOf, HomeAt, homes_from, homes_if, homes_of, thread_of};

use m2_bytes::NoMemory;
use m2_fabric::End;
use m2_handover::{GetPass, Handed, Inbox, MOST_ARRIVALS, PutPass};
use m2_scenario::Node;
use m2_trail::HomeOf;
use std::alloc::Global;
use std::sync::atomic::AtomicBool;

/// The rights to inboxes, in their order.
#[derive(Drop)]
pub struct Rights<E: End> {
    pub puts: Vec<PutPass<Handed<E>>>,
    pub gets: Vec<GetPass<Handed<E>>>,
}

/// An inbox for each event thread that is on, in the order of the nodes, with the rights to it; and for each a place where its
/// port tells whether anything waits there. It can't be dropped, since an inbox can't.
pub struct Rooms<E: End> {
    pub inboxes: Vec<Inbox<Handed<E>>>,
    pub rights: Rights<E>,
    pub rests: Vec<AtomicBool>,
}

/// Empty inboxes for all threads of these nodes.
pub fn rooms_of<E: End>(alloc: Global, nodes: &[Node]) -> Result<Rooms<E>, NoMemory>
    ensures { IfOk result (λ rooms. AreRoomsOf (homes_of nodes.now) rooms.inboxes.items rooms.rights.puts.items rooms.rights.gets.items) }
{
    let mut rooms = Rooms {
        inboxes: Vec::new(alloc),
        rights: Rights {
            puts: Vec::new(alloc),
            gets: Vec::new(alloc),
        },
        rests: Vec::new(alloc),
    };
    'nodes: for node in nodes {
        if let Err(NoMemory) = add_rooms_of(alloc, node, &mut rooms) {
            let_rooms_go(rooms);
            return Err(NoMemory);
        }
    }
    Ok(rooms)
}

/// Those of a node go last, where it is on.
fn add_rooms_of<E: End>(alloc: Global, node: &Node, rooms: &mut Rooms<E>) -> Result<(), NoMemory>
    ensures { OnOk result ((homes : List HomeAt) → AreRoomsOf homes rooms.old.inboxes.items rooms.old.rights.puts.items rooms.old.rights.gets.items → AreRoomsOf (homes ++ homes_if node.now.started node.now.centers) rooms.new.inboxes.items rooms.new.rights.puts.items rooms.new.rights.gets.items) }
{
    if node.started {
        return add_rooms(alloc, node.centers, rooms);
    }
    Ok(())
}

/// Those of so many threads do.
fn add_rooms<E: End>(alloc: Global, centers: u32, rooms: &mut Rooms<E>) -> Result<(), NoMemory>
    ensures { OnOk result ((homes : List HomeAt) → AreRoomsOf homes rooms.old.inboxes.items rooms.old.rights.puts.items rooms.old.rights.gets.items → AreRoomsOf (homes ++ homes_from 0 centers centers) rooms.new.inboxes.items rooms.new.rights.puts.items rooms.new.rights.gets.items) }
{
    'centers: for center in 0..centers {
        add_room(alloc, HomeOf { center, centers }, rooms)?;
    }
    Ok(())
}

/// That of one does.
fn add_room<E: End>(alloc: Global, home: HomeOf, rooms: &mut Rooms<E>) -> Result<(), NoMemory>
    ensures { OnOk result ((homes : List HomeAt) → AreRoomsOf homes rooms.old.inboxes.items rooms.old.rights.puts.items rooms.old.rights.gets.items → AreRoomsOf (homes ++ thread_of home ∷ []) rooms.new.inboxes.items rooms.new.rights.puts.items rooms.new.rights.gets.items) }
{
    rooms.inboxes.reserve(1)?;
    rooms.rights.puts.reserve(1)?;
    rooms.rights.gets.reserve(1)?;
    rooms.rests.push(AtomicBool::new(false))?;
    let (inbox, put, get) = Inbox::new(alloc, MOST_ARRIVALS, &home)?;
    rooms.inboxes.push_reserved(inbox);
    rooms.rights.puts.push_reserved(put);
    rooms.rights.gets.push_reserved(get);
    Ok(())
}

/// Lets inboxes go, with what they hold.
pub fn let_rooms_go<E: End>(rooms: Rooms<E>) {
    let Rooms {
        inboxes,
        rights: _,
        rests: _,
    } = rooms;
    let_inboxes_go(inboxes);
}

/// The same of these.
pub fn let_inboxes_go<E: End>(mut inboxes: Vec<Inbox<Handed<E>>>) {
    'inboxes: while let Some(inbox) = inboxes.pop() {
        inbox.let_go();
    }
    inboxes.destroy_empty();
}
