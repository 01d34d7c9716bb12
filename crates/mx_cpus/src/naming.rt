//! The name of a shared machine, as a type.

use std::marker::Brand;

/// Which machine it is: the table of its seats, and the world at its boot. Both are only for
/// clauses. Of a value under a lock only its type's invariant is known, so the type names the
/// machine. A caller picks the members for `Brand`, by those of the blank that it opens.
pub trait Naming {
    ghost use Rattle.atomic_table.specs.Seated.{TableId};
    ghost use Rattle.mx_machine.specs.World.{World};

    ghost table: { TableId };

    ghost boot: { World };
}

impl Naming for Brand {
    ghost use Rattle.mx_cpus.specs.Calls.{unnamed_table, unnamed_boot};

    ghost table = { unnamed_table };

    ghost boot = { unnamed_boot };
}
