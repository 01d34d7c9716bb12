//! Breakpoints of a debugger: at most 64, each a slot and an address.

ghost use Rattle.std.specs.Prelude.{◌≡◌, Some, None, OnOk, OnErr, IfErr};
ghost use Rattle.std.specs.List.{list_any};
ghost use Rattle.mx_debug.specs.Points.{is_at, has_breakpoint, has_any, with_point, without_point};
ghost use Rattle.mx_debug.specs.declared.error.DebugError.TheVariants as errors;

use crate::error::DebugError;
use arrayvec::ArrayVec;
use mx_proc::Slot;
use std::marker::Model;

/// A place at which a slot's process is to be stopped, before the instruction at the address.
#[derive(Clone, Copy, Debug, Default, PartialEq, Eq)]
pub struct Breakpoint {
    pub slot: Slot,
    pub address: u32,
}

/// Breakpoints, 64 at most over all slots. Takes no memory.
#[derive(Drop)]
pub struct Debugger {
    points: ArrayVec<Breakpoint, 64>,
}

impl Model for Debugger {
    ghost use Rattle.std.specs.Prelude.{List};
    ghost use Rattle.mx_debug.specs.declared.points.Breakpoint.{Breakpoint};

    ghost Value = { List Breakpoint };

    ghost view = { λ d. d.points.items };
}

fn is_at(point: &Breakpoint, slot: Slot, address: u32) -> bool
    ensures { result ≡ is_at slot address point.now }
{
    point.slot == slot && point.address == address
}

impl Debugger {
    ghost use Rattle.std.specs.Prelude.{[]};

    /// A debugger without breakpoints.
    pub fn new() -> Debugger
        ensures { result ≡ [] }
    {
        Debugger {
            points: ArrayVec::new(),
        }
    }

    /// The breakpoints that are set.
    pub fn as_slice(&self) -> &[Breakpoint]
        ensures { result.now ≡ self.now }
    {
        self.points.as_slice()
    }

    /// Whether a slot has a breakpoint at all.
    pub fn has_any(&self, slot: Slot) -> bool
        ensures { result ≡ has_any self.now slot }
    {
        self.points
            .as_slice()
            .iter()
            .any(|point| point.slot == slot)
    }

    /// Whether a slot has a breakpoint at an address.
    pub fn has_breakpoint(&self, slot: Slot, address: u32) -> bool
        ensures { result ≡ has_breakpoint self.now slot address }
    {
        self.points
            .as_slice()
            .iter()
            .any(|point| is_at(point, slot, address))
    }

    /// Adds a breakpoint; one that is there already isn't added again. An error changes nothing.
    pub fn add(&mut self, slot: Slot, address: u32) -> Result<(), DebugError>
        ensures added { OnOk result (with_point self.old slot address ≡ Some self.new) }
        ensures full { OnErr result (with_point self.old slot address ≡ None) }
        ensures unchanged { OnErr result (self.new ≡ self.old) }
        ensures error { IfErr result (λ e. e ≡ errors.TooMany) }
    {
        if self.has_breakpoint(slot, address) {
            return Ok(());
        }
        if self.points.is_full() {
            return Err(DebugError::TooMany);
        }
        self.points.push(Breakpoint { slot, address });
        Ok(())
    }

    /// Removes a slot's breakpoint at an address, if there is one.
    pub fn remove(&mut self, slot: Slot, address: u32)
        ensures { self.new ≡ without_point self.old slot address }
    {
        self.points.retain(|point| !is_at(point, slot, address));
    }
}
