//! Numbers and results.

ghost use Rattle.std.specs.Prelude.{◌≡◌, ◌≤◌, ◌==◌, ◌++◌, find, length, OnOk};
ghost use Rattle.std.specs.Option.{option_copied};
ghost use Rattle.mx_proc.specs.Errors.{errno_bits};
ghost use Rattle.mx_look.specs.Numbers.{errno_name, errno_of, spaced_numbers, used_count, result_name, result_text};

use mx_print_report::{push_number, push_signed};
use mx_proc::Errno;
use std::alloc::AllocError;

/// Appends numbers, each after a space.
pub(crate) fn push_spaced(out: &mut Vec<u8>, numbers: &[u32]) -> Result<(), AllocError>
    ensures { OnOk result (out.new.items ≡ out.old.items ++ spaced_numbers numbers.now) }
{
    for number in numbers {
        push_number(out, *number)?;
    }
    Ok(())
}

/// How many numbers there are without the zeros at the end.
pub(crate) fn used_count(numbers: &[u32]) -> usize
    ensures count { result ≡ used_count numbers.now }
    ensures within { result ≤ length numbers.now }
{
    let mut count = 0;
    for (index, number) in numbers.iter().enumerate() {
        if *number != 0 {
            count = index + 1;
        }
    }
    count
}

/// All errors.
const ERRNOS: [Errno; 9] = [
    Errno::NotPermitted,
    Errno::BadAddress,
    Errno::Invalid,
    Errno::Locked,
    Errno::BadEndpoint,
    Errno::Denied,
    Errno::Dead,
    Errno::NotReady,
    Errno::BadRequest,
];

/// The first of these errors whose number this is.
fn first_numbered<'a>(errnos: &'a [Errno], number: u32) -> Option<&'a Errno>
    ensures { option_copied result ≡ find (λ e. errno_bits e == number) errnos.now }
{
    errnos.iter().find(|errno| errno.bits() == number)
}

/// The error that a result is, or nothing if it is none.
#[tactic(auto, unfolding(crate::specs::Numbers::errno_of))]
pub(crate) fn errno_of(outcome: u32) -> Option<Errno>
    ensures { result ≡ errno_of outcome }
{
    first_numbered(&ERRNOS, outcome).copied()
}

/// The name of an error, after a space.
fn errno_name(errno: Errno) -> &'static [u8]
    ensures { result.now ≡ errno_name errno }
{
    match errno {
        Errno::NotPermitted => b" EPERM",
        Errno::BadAddress => b" EFAULT",
        Errno::Invalid => b" EINVAL",
        Errno::Locked => b" ELOCKED",
        Errno::BadEndpoint => b" EBADSRCDST",
        Errno::Denied => b" ECALLDENIED",
        Errno::Dead => b" EDEADDST",
        Errno::NotReady => b" ENOTREADY",
        Errno::BadRequest => b" EBADREQUEST",
    }
}

/// The name of a result, after a space, if it has one.
#[tactic(auto, unfolding(crate::specs::Numbers::result_name))]
fn result_name(outcome: u32) -> &'static [u8]
    ensures { result.now ≡ result_name outcome }
{
    if outcome == 0 {
        return b" OK";
    }
    match errno_of(outcome) {
        Some(errno) => errno_name(errno),
        None => b"",
    }
}

/// Appends a result with its sign, and its name.
pub fn push_result(out: &mut Vec<u8>, outcome: u32) -> Result<(), AllocError>
    ensures { OnOk result (out.new.items ≡ out.old.items ++ result_text outcome) }
{
    push_signed(out, outcome)?;
    out.extend_from_slice(result_name(outcome))
}
