//! Boots a machine that threads will share.

ghost use Rattle.std.specs.Prelude.{◌≡◌, ◌<◌, ◌≤◌, [], All, IfOk, None, OnErr, OnOk, length};
ghost use Rattle.mx_machine.specs.Boot.{world_at_boot};
ghost use Rattle.mx_cpus.specs.Boots.{all_seats};

use crate::shared::Shared;
use crate::{ActorSeat, Desk, Kernel, Locked, Naming, Service};
use mx_machine::Config;
use mx_spool::Spool;
use mx_word::NoMemory;
use std::alloc::Global;
use std::marker::Model;

/// A machine that was just booted and has no name yet. Contracts see the table of its seats, the world
/// at its boot, and its history, which is empty.
pub struct Blank {
    kernel: Kernel,
    desk: Desk,
    spool: Spool,
}

impl Model for Blank {
    ghost use Rattle.mx_cpus.specs.Boots.{BlankView, IsBlank, blank_of};

    ghost Value = { BlankView };

    ghost view = { λ b. blank_of b.desk b.kernel };

    ghost invariant = { λ b. IsBlank b.desk b.kernel b.spool };
}

/// Boots a machine from a configuration and its services, with an empty history, and gives the seats of
/// all actors in order: the processors, then the others. Each seat is new: it holds nothing, and has
/// recorded and seen nothing. The services are moved out of the list, which is left empty; if memory runs
/// out, they stay.
pub fn boot(
    alloc: Global,
    config: &Config,
    services: &mut Vec<Service>,
) -> Result<(Blank, Vec<ActorSeat>), NoMemory>
    requires some { 0 < length services.old.items }
    requires few { length services.old.items ≤ 32 }
    ensures boot { IfOk result (λ r. r.0.boot ≡ world_at_boot config.now services.old.items) }
    ensures history { IfOk result (λ r. r.0.history ≡ []) }
    ensures seats { IfOk result (λ r. r.1.items ≡ all_seats config.now r.0.table) }
    ensures tables { IfOk result (λ r. All (λ s. s.table ≡ r.0.table) r.1.items) }
    ensures empties { IfOk result (λ r. All (λ s. s.held ≡ None) r.1.items) }
    ensures fresh { IfOk result (λ r. All (λ s. (s.mine ≡ []) × (s.seen ≡ [])) r.1.items) }
    ensures emptied { OnOk result (services.new.items ≡ []) }
    ensures same { OnErr result (services.new.items ≡ services.old.items) }
{
    let (desk, seats) = Desk::open(alloc, config.cpus + config.others, config.cpus)?;
    // A record writes one byte at most, so this is room for all of them.
    let spool = Spool::with_room(alloc, config.log as usize)?;
    let kernel = Kernel::new(alloc, config, services)?;
    let blank = Blank {
        kernel,
        desk,
        spool,
    };
    Ok((blank, seats))
}

impl Blank {
    /// The shared machine, under the name that its proofs use. Takes no memory.
    pub fn open<M: Naming>(self) -> Shared<M>
        requires table { self.table ≡ M.table }
        requires boot { self.boot ≡ M.boot }
    {
        let Blank {
            kernel,
            desk,
            spool,
        } = self;
        let cpus = kernel.cpus();
        Shared::new(cpus, Locked::new(kernel, desk, spool))
    }
}
