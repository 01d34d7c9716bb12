//! The laws. They have no code: they state that the facts from two glances are what the event
//! between them did.
//!
//! # What an event delivers
//!
//! It is what is recorded after the event in this world without recorded deliveries. That an event
//! makes these deliveries whatever is recorded before is shown first.
//!
//! # The console
//!
//! A record tells the byte that it wrote, if it wrote one. These bytes, in order, are all that comes to the console.

ghost use Rattle.std.specs.Prelude.{◌≡◌, ℕ, List};
ghost use Rattle.mx_kcall.specs.Service.{Service};
ghost use Rattle.mx_machine.specs.Boot.{world_at_boot};
ghost use Rattle.mx_machine.specs.declared.config.Config.{Config};
ghost use Rattle.mx_machine.specs.declared.history.Record.{Record};
ghost use Rattle.mx_machine.specs.World.{World};
ghost use Rattle.mx_look.specs.declared.transition.Transition.{Transition};
ghost use Rattle.mx_proc.specs.Console.{empty_console};
ghost use Rattle.mx_laws.specs.Consoles.{BytesGiveConsole, HasLast, RowTellsByte};
ghost use Rattle.mx_laws.specs.Made.{ToldAreMade};
ghost use Rattle.mx_laws.specs.Told.{IsMadeIn, IsServed, ToldGoneOn};

use crate::diaries_tell_images;

/// Law: a slot has gone on with a result, in the facts of a record, exactly if the event of the
/// record put that result into its EAX.
pub fn told_gone_on()
    ensures { (w : World) (n : ℕ) (x : Record) (s : ℕ) → IsMadeIn w x → IsServed w x s
        → ToldGoneOn w n x s }
{
    diaries_tell_images();
}

/// Law: the deliveries in the facts of a record are those that its event makes, each with the slot
/// that it came to.
pub fn told_are_made()
    ensures { (w : World) (n : ℕ) (x : Record) → IsMadeIn w x → ToldAreMade w n x }
{
    diaries_tell_images();
}

/// Law: what records leave on the console is what was there before them, and the bytes that are told of them, of which it
/// has the last 4,096; and a row of a page tells the byte of its record. At boot nothing is there.
pub fn bytes_give_console()
    ensures console { (w : World) (n : ℕ) (xs : List Record) → HasLast w.table.devices.console
        → BytesGiveConsole w n xs }
    ensures boot { (config : Config) (services : List Service)
        → (world_at_boot config services).table.devices.console ≡ empty_console }
    ensures row { (x : Transition) → RowTellsByte x }
{}
