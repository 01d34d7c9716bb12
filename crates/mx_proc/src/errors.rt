//! The errors of calls: the reasons to refuse one, as a process finds them in EAX.

ghost use Rattle.std.specs.Prelude.{◌≡◌};
ghost use Rattle.mx_proc.specs.Errors.{errno_bits};

/// Why a call is refused, with the name that C programs have for it.
#[derive(Clone, Copy, PartialEq, Eq)]
pub enum Errno {
    /// EPERM: another process has it, or it isn't the caller's own.
    NotPermitted,
    /// EFAULT: bytes that lie outside the data segment.
    BadAddress,
    /// EINVAL: a word out of range.
    Invalid,
    /// ELOCKED: the processes would wait for one another for ever.
    Locked,
    /// EBADSRCDST: the number can't be a source, or a destination, of this call.
    BadEndpoint,
    /// ECALLDENIED: the caller's masks don't allow this call or this destination.
    Denied,
    /// EDEADDST: the process is dead, or another has its slot.
    Dead,
    /// ENOTREADY: the process is on a processor.
    NotReady,
    /// EBADREQUEST: no such kernel call.
    BadRequest,
}

impl Errno {
    /// The result that a refused caller finds in EAX: the 32 bits of a negative number. EPERM is -1, so
    /// 0xFFFF_FFFF.
    pub fn bits(self) -> u32
        ensures { result ≡ errno_bits self }
    {
        match self {
            Errno::NotPermitted => 0xFFFF_FFFF,
            Errno::BadAddress => 0xFFFF_FFF2,
            Errno::Invalid => 0xFFFF_FFEA,
            Errno::Locked => 0xFFFF_FF9B,
            Errno::BadEndpoint => 0xFFFF_FF99,
            Errno::Denied => 0xFFFF_FF98,
            Errno::Dead => 0xFFFF_FF97,
            Errno::NotReady => 0xFFFF_FF96,
            Errno::BadRequest => 0xFFFF_FF95,
        }
    }
}
