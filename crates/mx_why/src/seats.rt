//! What is known of a world at the end of a history: its slots, who owns which line, whether it is at
//! rest.

ghost use Rattle.std.specs.Prelude.{◌≡◌, None, Some, MatchOption};
ghost use Rattle.mx_why.specs.Seats.{doing_in, first_line, owns, seat_in};

use mx_print_report::Doing;
use mx_proc::Endpoint;
use mx_text::Name;

/// What is known of a slot that has a service.
#[derive(Clone, Copy)]
pub struct Seat {
    pub name: Name,
    /// The number of its process.
    pub endpoint: Endpoint,
    /// What its process does. Its partners are told by their slots.
    pub doing: Doing,
    /// The traps that it may make, bit n for trap n.
    pub traps: u32,
    /// To whom it may send, bit s for slot s.
    pub sends: u32,
    /// The uptime at which its alarm rings.
    pub alarm: Option<u64>,
    /// How often it may still be respawned.
    pub restarts: u32,
    /// Whether its program has no instruction.
    pub is_bare: bool,
}

/// What is known of a world at the end of a history.
#[derive(Clone, Copy)]
pub struct End {
    /// Slots that there aren't are none.
    pub seats: [Option<Seat>; 32],
    /// Who owns which interrupt line.
    pub owners: [Option<u8>; 16],
    /// The ticks since boot.
    pub uptime: u32,
    pub at_rest: bool,
}

impl End {
    /// What is known of a slot.
    pub fn seat(&self, slot: u32) -> Option<&Seat>
        ensures { MatchOption result (seat_in self.now slot ≡ None) (λ seat. seat_in self.now slot
            ≡ Some seat.now) }
    {
        if slot as usize >= self.seats.len() {
            return None;
        }
        match &self.seats[slot as usize] {
            Some(seat) => Some(seat),
            None => None,
        }
    }

    /// What the process of a slot does, if the slot has a service.
    pub(crate) fn doing(&self, slot: u32) -> Option<Doing>
        ensures { result ≡ doing_in self.now slot }
    {
        match self.seat(slot) {
            Some(seat) => Some(seat.doing),
            None => None,
        }
    }

    /// Whether a slot owns an interrupt line.
    pub(crate) fn owns(&self, slot: u32, line: u32) -> bool
        ensures { result ≡ owns self.now slot line }
    {
        if line as usize >= self.owners.len() {
            return false;
        }
        match self.owners[line as usize] {
            Some(owner) => u32::from(owner) == slot,
            None => false,
        }
    }

    /// The first interrupt line that a slot owns.
    pub(crate) fn first_line(&self, slot: u32) -> Option<u32>
        ensures { result ≡ first_line self.now slot }
    {
        (0..16u32).find(|line| self.owns(slot, *line))
    }
}
