//! Windows, as kernel calls open and test them: what a process lets another copy out of its memory or into
//! it.

ghost use Rattle.std.specs.Prelude.{◌≡◌};
ghost use Rattle.mx_kcall.specs.Windows.{allows, is_open, is_strict, access_of, granted};

use crate::request::WindowGrant;
use mx_proc::{Access, Rules, Window};

/// Whether these are the rules under which windows are asked for.
pub fn is_strict(rules: Rules) -> bool
    ensures { result ≡ is_strict rules }
{
    match rules {
        Rules::Lenient => false,
        Rules::Strict => true,
    }
}

/// Whether an access has in it the one that is wanted.
fn allows(wanted: Access, access: Access) -> bool
    ensures { result ≡ allows wanted access }
{
    match access {
        Access::Both => true,
        Access::Read => matches!(wanted, Access::Read),
        Access::Write => matches!(wanted, Access::Write),
    }
}

/// Whether a window is open for an access to `count` bytes from an address on: it allows that access, and the
/// whole range is inside it.
pub fn window_allows(window: Option<Window>, access: Access, at: u32, count: u32) -> bool
    ensures { result ≡ is_open (allows access) window at count }
{
    let Some(window) = window else {
        return false;
    };
    let end = u64::from(at) + u64::from(count);
    let window_end = u64::from(window.place) + u64::from(window.count);
    allows(access, window.access) && window.place <= at && end <= window_end
}

/// The access of a grant's number. 0 is no access.
fn access_of(number: u32) -> Option<Access>
    ensures { result ≡ access_of number }
{
    match number {
        1 => Some(Access::Read),
        2 => Some(Access::Write),
        3 => Some(Access::Both),
        _ => None,
    }
}

/// What a grant opens.
pub(crate) fn window_of(grant: WindowGrant) -> Option<Window>
    ensures { result ≡ granted grant.place grant.count grant.access }
{
    match access_of(grant.access) {
        Some(access) => Some(Window {
            place: grant.place,
            count: grant.count,
            access,
        }),
        None => None,
    }
}
