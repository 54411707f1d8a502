//! Throttles for peers of a type.

ghost use Rattle.std.specs.Prelude.{◌≡◌, IfOk};
ghost use Rattle.m2_shared.specs.Place.{IsShared};
ghost use Rattle.m2_shared.specs.Throttle.{bound_of, joined};
ghost use Rattle.m2_shared.specs.Gates.{alone_type, unused_of, unused_type};

use crate::bounds::TypeBound;
use crate::take_pass::TakePass;
use crate::throttle::Throttle;
use m2_bytes::NoMemory;
use std::alloc::Global;

/// What may be on its way from all peers of a type: so many messages, and so many bytes.
#[derive(Drop)]
pub struct TypeThrottle {
    pub messages: Throttle,
    pub bytes: Throttle,
}

/// The right of one thread to take from them and to give back.
#[derive(Drop)]
pub struct TypePass {
    pub messages: TakePass,
    pub bytes: TakePass,
}

impl TypeThrottle {
    /// Throttles with these bounds whose words are numbers in their only passes. Takes no memory.
    pub fn alone(bound: TypeBound) -> (TypeThrottle, TypePass)
        ensures throttle { result.0 ≡ alone_type bound }
        ensures pass { result.1 ≡ unused_type }
    {
        let (messages, messages_pass) = Throttle::alone(bound.messages);
        let (bytes, bytes_pass) = Throttle::alone(bound.bytes);
        let throttle = TypeThrottle { messages, bytes };
        let pass = TypePass {
            messages: messages_pass,
            bytes: bytes_pass,
        };
        (throttle, pass)
    }

    /// Throttles with these bounds whose words lie in memory that threads share, and the pass of the first thread.
    pub fn new(alloc: Global, bound: TypeBound) -> Result<(TypeThrottle, TypePass), NoMemory>
        ensures messages { IfOk result (λ r. (r.0.messages.most ≡ bound_of bound.messages) × IsShared r.0.messages.place) }
        ensures bytes { IfOk result (λ r. (r.0.bytes.most ≡ bound_of bound.bytes) × IsShared r.0.bytes.place) }
        ensures pass { IfOk result (λ r. r.1 ≡ unused_of r.0) }
    {
        let (messages, messages_pass) = Throttle::new(alloc, bound.messages)?;
        let (bytes, bytes_pass) = Throttle::new(alloc, bound.bytes)?;
        let throttle = TypeThrottle { messages, bytes };
        let pass = TypePass {
            messages: messages_pass,
            bytes: bytes_pass,
        };
        Ok((throttle, pass))
    }
}

impl TypePass {
    /// A pass for one thread more. No throttle is alone.
    pub fn split(&mut self, of: &TypeThrottle) -> TypePass
        requires messages { self.old.messages.place ≡ of.now.messages.place }
        requires bytes { self.old.bytes.place ≡ of.now.bytes.place }
        requires messages_shared { IsShared of.now.messages.place }
        requires bytes_shared { IsShared of.now.bytes.place }
        ensures pass { self.new ≡ self.old }
        ensures new { result ≡ unused_of of.now }
    {
        TypePass {
            messages: self.messages.split(&of.messages),
            bytes: self.bytes.split(&of.bytes),
        }
    }

    /// Takes another pass in. No throttle is alone.
    pub fn join(&mut self, of: &TypeThrottle, other: TypePass)
        requires messages { self.old.messages.place ≡ of.now.messages.place }
        requires bytes { self.old.bytes.place ≡ of.now.bytes.place }
        requires other_messages { other.messages.place ≡ of.now.messages.place }
        requires other_bytes { other.bytes.place ≡ of.now.bytes.place }
        requires messages_shared { IsShared of.now.messages.place }
        requires bytes_shared { IsShared of.now.bytes.place }
        ensures messages { self.new.messages ≡ joined self.old.messages other.messages }
        ensures bytes { self.new.bytes ≡ joined self.old.bytes other.bytes }
    {
        let TypePass { messages, bytes } = other;
        self.messages.join(&of.messages, messages);
        self.bytes.join(&of.bytes, bytes);
    }
}
