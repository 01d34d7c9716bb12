//! Whether bytes of a machine's memory are as a row wants them.

use mx_exec::Image;
use mx_image::Runs;

/// Whether bytes are at their addresses: each pair is an address and the byte there.
pub(crate) fn has_bytes(machine: &Image, bytes: &[(u32, u8)]) -> bool {
    for (at, byte) in bytes {
        if machine.byte(*at) != Some(*byte) {
            return false;
        }
    }
    true
}
