//! A list that contracts see as a list.

ghost use Rattle.std.specs.Prelude.{◌≡◌, ◌==◌, ◌+◌, ◌-◌, ◌<◌, ◌≤◌, [], ◌∷◌, ◌++◌, length, slice_get, MatchOption, OnOk, OnErr, IsOk, vec_len, vec_capacity};
ghost use Rattle.std.specs.Option.{option_copied};
ghost use Rattle.m2_bytes.specs.Items.{Pushes};

use crate::memory::NoMemory;
use std::alloc::Global;
use std::marker::Model;

/// A growing list. Contracts see its items in order, and the room: how many more items fit before
/// memory is taken.
///
/// A list type of a crate is an alias of it, as `InputList = Items<Input>`.
///
/// Makers: [`empty`](Items::empty), [`from_vec`](Items::from_vec). Readers: [`len`](Items::len),
/// [`is_empty`](Items::is_empty), [`get`](Items::get), [`as_slice`](Items::as_slice). Writers:
/// [`reserve`](Items::reserve), [`push`](Items::push), [`push_reserved`](Items::push_reserved),
/// [`pop`](Items::pop). Ends: [`into_vec`](Items::into_vec), and
/// [`destroy_empty`](Items::destroy_empty) where the items can't be dropped.
#[derive(Debug, Drop)]
pub struct Items<T> {
    vec: Vec<T>,
}

impl<T> Model for Items<T> {
    ghost use Rattle.std.specs.Prelude.{◌-◌, vec_len, vec_capacity};
    ghost use Rattle.m2_bytes.specs.Items.{Holding};

    ghost Value = { Holding T };

    ghost view = { λ l. record { items = l.vec.items; room = vec_capacity l.vec - vec_len l.vec } };
}

impl<T> Items<T> {
    /// No items. Takes no memory.
    pub fn empty(alloc: Global) -> Items<T>
        ensures { result.items ≡ [] }
    {
        Items {
            vec: Vec::new(alloc),
        }
    }

    /// The items of a vector, moved, with its room. Takes no memory.
    pub fn from_vec(vec: Vec<T>) -> Items<T>
        ensures { result ≡ record { items = vec.items; room = vec_capacity vec - vec_len vec } }
    {
        Items { vec }
    }

    /// The items, moved back into a vector. Takes no memory.
    pub fn into_vec(self) -> Vec<T>
        ensures { result.items ≡ self.items }
    {
        self.vec
    }

    /// Makes room for `more` items, so that pushing them can't fail. On Err the list is unchanged.
    pub fn reserve(&mut self, more: usize) -> Result<(), NoMemory>
        ensures items { self.new.items ≡ self.old.items }
        ensures room { OnOk result (more ≤ self.new.room) }
        ensures grows { self.old.room ≤ self.new.room }
        ensures err { OnErr result (self.new ≡ self.old) }
        ensures succeeds { more ≤ self.old.room → IsOk result }
    {
        self.vec.reserve(more)?;
        Ok(())
    }

    /// Adds an item at the end. It succeeds wherever there is room; Err hands the item back for want
    /// of memory.
    pub fn push(&mut self, item: T) -> Result<(), T>
        ensures { Pushes result self.old self.new item }
    {
        if self.vec.reserve(1).is_err() {
            return Err(item);
        }
        self.vec.push_reserved(item);
        Ok(())
    }

    /// Adds an item at the end, in the room that is there. Takes no memory.
    pub fn push_reserved(&mut self, item: T)
        requires { 0 < self.old.room }
        ensures { self.new ≡ record { items = self.old.items ++ item ∷ []; room = self.old.room - 1 } }
    {
        self.vec.push_reserved(item);
    }

    /// Takes the last item out; none exactly where there is none. Its place is room again.
    pub fn pop(&mut self) -> Option<T>
        ensures { MatchOption result ((self.old.items ≡ []) × (self.new ≡ self.old))
            (λ item. (self.old.items ≡ self.new.items ++ item ∷ []) × (self.new.room ≡ self.old.room + 1)) }
    {
        self.vec.pop()
    }

    pub fn len(&self) -> usize
        ensures { result ≡ length self.now.items }
    {
        self.vec.len()
    }

    pub fn is_empty(&self) -> bool
        ensures { result ≡ (length self.now.items == 0) }
    {
        self.vec.is_empty()
    }

    /// The item at a place, from 0; none exactly where there is none.
    pub fn get(&self, i: usize) -> Option<&T>
        ensures { option_copied result ≡ slice_get self.now.items i }
    {
        self.vec.get(i)
    }

    pub fn as_slice(&self) -> &[T]
        ensures { result.now ≡ self.now.items }
    {
        self.vec.as_slice()
    }

    /// Frees an empty list, also where its items can't be dropped.
    pub fn destroy_empty(self)
        requires { self.items ≡ [] }
    {
        self.vec.destroy_empty();
    }
}
