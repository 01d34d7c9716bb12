//! The laws of diaries. No code keeps a diary: it is what an event does to the image of one slot,
//! written down.

ghost use Rattle.std.specs.Prelude.{ℕ, List};
ghost use Rattle.mx_kcall.specs.Service.{Service};
ghost use Rattle.mx_machine.specs.declared.config.Config.{Config};
ghost use Rattle.mx_machine.specs.declared.events.Event.{Event};
ghost use Rattle.mx_machine.specs.World.{World};
ghost use Rattle.mx_laws.specs.Entries.{CopyMade};
ghost use Rattle.mx_laws.specs.DiaryLaws.{BootLoads, CopyIsThroughWindows, CopyIsWhole, HasEntries, IsSlot, IsWritten, KernelTellsImage, KernelsAgree, LifeBeginsAgain, LifeBeginsAtBoot, LifeIsWritten, LivesAgree, OthersLeaveImage, RespawnLoads, RunIsWritten};
ghost use Rattle.mx_laws.specs.Runs.{IsLife, Life};

use mx_machine::{Kernel, histories_replay};

/// Law: an accepted event does to the image of a slot, at home or on a processor, what the slot's
/// diary over it says. At boot and after a respawn the image is the service's program, loaded.
pub fn diaries_tell_images()
    ensures event { (w : World) (a : ℕ) (e : Event) (s : ℕ) → IsSlot w s → IsWritten w a e s }
    ensures respawn { (w : World) (a s : ℕ) (v : Service) → IsSlot w s → RespawnLoads w a s v }
    ensures boot { (c : Config) (vs : List Service) (s : ℕ) (v : Service) → BootLoads c vs s v }
{}

/// Law: so does a run, if it puts no new process into the slot.
pub fn diaries_tell_runs()
    ensures { (w : World) (xs : List (ℕ × Event)) (s : ℕ) → RunIsWritten w xs s }
{}

/// Law: from boot on, through any respawns, an image is what the diary of its generation makes of
/// its program. So two processes of any two machines that agree on program and diary have equal
/// images. A life begins at boot, and again after a respawn, with an empty diary.
pub fn lives_tell_images()
    ensures image { (x : Life) → LifeIsWritten x }
    ensures equal { (x y : Life) → IsLife x → IsLife y → LivesAgree x y }
    ensures boot { (c : Config) (vs : List Service) (s : ℕ) (v : Service) (xs : List (ℕ × Event))
        → LifeBeginsAtBoot c vs s v xs }
    ensures respawn { (w : World) (a s : ℕ) (v : Service) (xs : List (ℕ × Event)) → IsSlot w s
        → LifeBeginsAgain w a s v xs }
{}

/// Law: the image of each slot of a kernel, at home or on a processor, is its service's program with the
/// diary of its generation played on it. Nothing is asked of the kernel: each event of its history found a
/// sound machine.
pub fn kernels_tell_images(kernel: &Kernel)
    ensures { (s : ℕ) (v : Service) → KernelTellsImage kernel.now s v }
{
    kernel.facts();
    histories_replay();
}

/// Law: so two processes of any two kernels that agree on program and diary have equal images.
pub fn kernels_agree(first: &Kernel, second: &Kernel)
    ensures { (s t : ℕ) (v u : Service) → KernelsAgree first.now second.now s t v u }
{
    first.facts();
    second.facts();
    histories_replay();
}

/// Law: a diary holds the steps of its own process, results and messages of calls that it made or
/// waited in, and bytes of copies that were not refused: those of the copy, as many as it counts.
pub fn diaries_have_entries()
    ensures entries { (w : World) (a : ℕ) (e : Event) (s : ℕ) → IsSlot w s → HasEntries w a e s }
    ensures copies { (w : World) (a : ℕ) (e : Event) (c : CopyMade) → CopyIsWhole w a e c }
{}

/// Law: under the strict rules a copy goes through windows: of another's memory it reads only what
/// that process has open to the caller for reading, and writes only what is open to it for
/// writing.
pub fn copies_go_through_windows()
    ensures { (w : World) (a s : ℕ) (e : Event) (c : CopyMade) → CopyIsThroughWindows w a e s c }
{}

/// Law: what others do changes of a slot's image only EAX and the 36 bytes of the buffer, if the
/// process waits in a call, and the bytes that a copy puts into it. Under the strict rules these are in
/// a window that the process has open for writing. A step of theirs changes nothing; nor does all that
/// they do, if the process doesn't wait in a call and nothing is copied into it.
pub fn others_leave_images()
    ensures { (w : World) (a : ℕ) (e : Event) (s : ℕ) → IsSlot w s → OthersLeaveImage w a e s }
{}
