//! The numbers of traps, kernel calls, their results, messages and masks, by their names.

/// The trap that sends.
pub(crate) const SEND: u32 = 1;

/// The trap that receives.
pub(crate) const RECEIVE: u32 = 2;

/// The trap that sends to a process and then receives from it.
pub(crate) const SENDREC: u32 = 3;

/// The trap that notifies.
pub(crate) const NOTIFY: u32 = 4;

/// The mask of all four traps.
pub(crate) const ALL_TRAPS: u32 = 0x1E;

/// The mask of sends to every slot.
pub(crate) const ALL_SENDS: u32 = 0xFFFF_FFFF;

/// The type of a notification.
pub(crate) const NOTIFY_MESSAGE: u32 = 4096;

/// The kernel call by which the caller dies.
pub(crate) const EXIT: u32 = 0x600;

/// The kernel call that sets the caller's alarm.
pub(crate) const SETALARM: u32 = 0x602;

/// The kernel call that takes or gives up a line.
pub(crate) const IRQCTL: u32 = 0x603;

/// The kernel call that reads or writes a register of the machine.
pub(crate) const DEVIO: u32 = 0x604;

/// The kernel call that copies from one process to another.
pub(crate) const VIRCOPY: u32 = 0x605;

/// The kernel call that kills another process, or the caller.
pub(crate) const KILL: u32 = 0x606;

/// The kernel call that answers a slot's endpoint.
pub(crate) const WHOIS: u32 = 0x607;

/// The kernel call that opens a window of the caller's memory.
pub(crate) const GRANT: u32 = 0x608;

/// The mask of all kernel calls.
pub(crate) const ALL_CALLS: u32 = 0x1FF;

/// The mask of the kernel calls from EXIT to WHOIS.
pub(crate) const ALL_BUT_GRANT: u32 = 0xFF;

/// The result of a call that is done.
pub(crate) const OK: u32 = 0;

/// -1.
pub(crate) const EPERM: u32 = 0xFFFF_FFFF;

/// -14.
pub(crate) const EFAULT: u32 = 0xFFFF_FFF2;

/// -22.
pub(crate) const EINVAL: u32 = 0xFFFF_FFEA;

/// -101.
pub(crate) const ELOCKED: u32 = 0xFFFF_FF9B;

/// -103.
pub(crate) const EBADSRCDST: u32 = 0xFFFF_FF99;

/// -104.
pub(crate) const ECALLDENIED: u32 = 0xFFFF_FF98;

/// -105.
pub(crate) const EDEADDST: u32 = 0xFFFF_FF97;

/// -106.
pub(crate) const ENOTREADY: u32 = 0xFFFF_FF96;

/// -107.
pub(crate) const EBADREQUEST: u32 = 0xFFFF_FF95;
