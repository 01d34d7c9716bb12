//! The last deliveries of messages and notifications: a ring of 1,024.

ghost use Rattle.std.specs.Prelude.{◌≡◌, [], ◌∷◌, ◌++◌, IfOk, slice_get};
ghost use Rattle.circular_buffer.specs.Buffer.{keep_last};

use crate::rings::copy_ring;
use circular_buffer::HeapCircularBuffer;
use mx_word::NoMemory;
use std::alloc::Global;
use std::marker::Model;

/// How many deliveries are recorded.
pub const KEPT_DELIVERIES: usize = 1024;

/// What was delivered.
#[derive(Clone, Copy, PartialEq, Eq)]
pub enum DeliveryKind {
    /// A message that a process sent.
    Message,
    /// A notification, by a process, by an interrupt line or by the clock.
    Notification,
}

/// A delivery: the endpoints that the sender and the receiver had at that time, and the message's type.
#[derive(Clone, Copy, PartialEq, Eq)]
pub struct Delivery {
    pub from: u32,
    pub to: u32,
    pub message_type: u32,
    pub kind: DeliveryKind,
}

/// The last 1,024 deliveries, the oldest first.
#[derive(Drop)]
pub struct Deliveries {
    kept: HeapCircularBuffer<Delivery>,
}

impl Model for Deliveries {
    ghost use Rattle.std.specs.Prelude.{List, ◌≡◌};
    ghost use Rattle.mx_proc.specs.declared.deliveries.Delivery.{Delivery};

    ghost Value = { List Delivery };

    ghost view = { λ d. d.kept.items };

    ghost invariant = { λ d. d.kept.capacity ≡ 1024 };
}

impl Deliveries {
    /// No deliveries. Takes memory for 1,024 of them: answers `NoMemory` if there isn't enough.
    pub fn new(alloc: Global) -> Result<Deliveries, NoMemory>
        ensures { IfOk result (λ deliveries. deliveries ≡ []) }
    {
        let kept = HeapCircularBuffer::with_capacity(alloc, KEPT_DELIVERIES)?;
        Ok(Deliveries { kept })
    }

    /// The same deliveries. Takes memory for 1,024: answers `NoMemory` if there isn't enough.
    pub fn copied(&self, alloc: Global) -> Result<Deliveries, NoMemory>
        ensures { IfOk result (λ copy. copy ≡ self.now) }
    {
        let kept = copy_ring(alloc, &self.kept)?;
        Ok(Deliveries { kept })
    }

    /// Records one delivery more. If there are 1,024 already, the oldest of them goes.
    pub fn push(&mut self, delivery: Delivery)
        ensures { self.new ≡ keep_last 1024 (self.old ++ delivery ∷ []) }
    {
        self.kept.push_back(delivery);
    }

    /// A recorded delivery: index 0 is the oldest that is left. `None` if the index is too high.
    pub fn get(&self, index: usize) -> Option<Delivery>
        ensures { result ≡ slice_get self.now index }
    {
        self.kept.get(index).copied()
    }
}
