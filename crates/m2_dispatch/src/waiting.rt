//! The letters that wait.

ghost use Rattle.std.specs.Prelude.{◌≡◌, ◌-◌, ◌*◌, ◌<◌, ◌∷◌, drop, OnOk, OnErr, IfErr, IfSome};
ghost use Rattle.m2_queues.specs.ByRank.{put_behind};
ghost use Rattle.m2_dispatch.specs.Letters.{first_of, letter_priority};
ghost use Rattle.m2_dispatch.specs.Waiting.{GoesFirst, IsOrdered, letters_in};

use crate::letter::Letter;
use m2_queues::PriorityQueue;

/// The letters that wait. A priority has two ranks: a letter goes in with the lower one, and with the
/// upper one where it was taken out and comes back, so that it is the first of its priority again.
pub(crate) type Waiting = PriorityQueue<Letter>;

/// The room that is made before a letter goes in: for it, and for a letter that is taken and comes back.
const ROOM_TO_ADD: u32 = 2;

/// The rank of a letter that comes in.
fn rank_of(letter: &Letter) -> u64
    ensures { result ≡ 2 * letter_priority letter.now }
{
    2 * u64::from(letter.key.priority)
}

/// Puts a letter into the room that is there for it, behind all of its priority.
pub(crate) fn add_reserved(waiting: &mut Waiting, letter: Letter)
    requires ordered { IsOrdered waiting.old.items }
    requires room { 0 < waiting.old.room }
    ensures letters { letters_in waiting.new.items ≡ put_behind letter_priority letter (letters_in waiting.old.items) }
    ensures ordered { IsOrdered waiting.new.items }
    ensures room { waiting.new.room ≡ waiting.old.room - 1 }
{
    let rank = rank_of(&letter);
    waiting.push_reserved(rank, letter);
}

/// Puts a letter behind all of its priority. Err hands it back for want of memory.
pub(crate) fn add(waiting: &mut Waiting, letter: Letter) -> Result<(), Letter>
    requires ordered { IsOrdered waiting.old.items }
    ensures letters { OnOk result
        (letters_in waiting.new.items ≡ put_behind letter_priority letter (letters_in waiting.old.items)) }
    ensures ordered { IsOrdered waiting.new.items }
    ensures back { IfErr result (λ back. back ≡ letter) }
    ensures err { OnErr result (waiting.new ≡ waiting.old) }
{
    if waiting.reserve(ROOM_TO_ADD).is_err() {
        return Err(letter);
    }
    add_reserved(waiting, letter);
    Ok(())
}

/// Takes the first letter out. What is left has no place before it.
pub(crate) fn take(waiting: &mut Waiting) -> Option<Letter>
    requires ordered { IsOrdered waiting.old.items }
    ensures first { result ≡ first_of (letters_in waiting.old.items) }
    ensures letters { letters_in waiting.new.items ≡ drop 1 (letters_in waiting.old.items) }
    ensures ordered { IsOrdered waiting.new.items }
    ensures before { IfSome result (λ letter. GoesFirst letter waiting.new.items) }
    ensures room { waiting.new.room ≡ waiting.old.room }
{
    waiting.pop()
}

/// Puts the letter that was taken last back where it was.
pub(crate) fn put_back(waiting: &mut Waiting, letter: Letter)
    requires ordered { IsOrdered waiting.old.items }
    requires before { GoesFirst letter waiting.old.items }
    requires room { 0 < waiting.old.room }
    ensures letters { letters_in waiting.new.items ≡ letter ∷ letters_in waiting.old.items }
    ensures ordered { IsOrdered waiting.new.items }
{
    let rank = rank_of(&letter) + 1;
    waiting.push_reserved(rank, letter);
}
