//! The mails of event threads, by which what they hand on comes to the dispatcher of their node.

ghost use Rattle.std.specs.Prelude.{◌≡◌, [], IfOk};
ghost use Rattle.m2_dispatch.specs.Parcel.{AllOwned};
ghost use Rattle.m2_dispatch.specs.m2_shared.Gates.{places};
ghost use Rattle.m2_mailbox.specs.Passes.{IsGetPassOf, IsPutPassOf, parts_of, puts_of, taken_of};
ghost use Rattle.m2_mailbox.specs.Views.{all_parts};
ghost use Rattle.m2_node.specs.Dispatching.{HasDispatched, HasEmptied, IsNewMail, throttles_of};

use crate::dispatcher::NodeDispatcher;
use m2_bytes::NoMemory;
use m2_dispatch::Parcel;
use m2_mailbox::{GetPass, Inbox, MOST_PARCELS, PutPass};
use m2_shared::{Ids, Throttles};
use std::alloc::Global;
use std::collections::VecDeque;
use std::sync::Wait;

/// What an event thread has handed on and the dispatcher of its node hasn't taken yet.
pub(crate) type Mail = Inbox<Parcel>;

/// An empty mail for what these throttles have granted for, with the whole right to put and the right to take.
pub(crate) fn new_mail(
    alloc: Global,
    throttles: &Throttles,
) -> Result<(Mail, PutPass<Parcel>, GetPass<Parcel>), NoMemory>
    ensures { IfOk result (λ r. IsNewMail throttles.now r.0 r.1 r.2) }
{
    let ids = Ids::of(throttles);
    Inbox::new(alloc, MOST_PARCELS, &ids)
}

/// Lets mails go, with what they hold.
pub(crate) fn let_mails_go(mut mails: Vec<Mail>) {
    'mails: while let Some(mail) = mails.pop() {
        mail.let_go();
    }
    mails.destroy_empty();
}

/// Closes a mail, to which these are all rights, and has all that is left in it dispatched, in order.
pub(crate) fn close_mail<R: Wait>(
    rt: &R,
    mail: Mail,
    put: PutPass<Parcel>,
    get: GetPass<Parcel>,
    to: &mut NodeDispatcher<'_>,
)
    requires put { IsPutPassOf mail put }
    requires get { IsGetPassOf mail get }
    requires only { parts_of put ≡ all_parts }
    requires throttles { throttles_of mail ≡ to.old.throttles }
    ensures { HasEmptied (puts_of put) (taken_of get) to.old to.new }
{
    let mut rest = mail.close(rt, put, get);
    'left: for _ in rt.forever() {
        let Some(parcel) = rest.next(rt) else {
            rest.destroy_empty();
            return;
        };
        to.dispatch(parcel);
    }
    unreachable!()
}

/// Has these parcels dispatched, in order.
pub(crate) fn dispatch_all(parcels: &mut VecDeque<Parcel>, to: &mut NodeDispatcher<'_>)
    requires { AllOwned (places to.old.throttles) parcels.old.items }
    ensures none { parcels.new.items ≡ [] }
    ensures dispatched { HasDispatched parcels.old.items to.old to.new }
{
    'parcels: while let Some(parcel) = parcels.pop_front() {
        to.dispatch(parcel);
    }
}
