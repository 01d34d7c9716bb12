//! Endpoints as numbers of 32 bits: generation times 1,024, plus slot. An endpoint is no struct, since
//! registers and messages have any number for one.

ghost use Rattle.std.specs.Prelude.{◌≡◌, ◌<◌, ◌≤◌, ◌^◌};
ghost use Rattle.mx_proc.specs.EndpointNumbers.{slot_of, generation_of, endpoint_from};

/// The 32 bits of an endpoint: a generation times 1,024, plus a slot. Or HARDWARE, SYSTEM or CLOCK, which
/// are -1, -2 and -3 as signed numbers. Or ANY, which is 31438.
pub type Endpoint = u32;

/// Anybody, in RECEIVE.
pub const ANY: Endpoint = 31438;

/// The interrupt lines; as a signed number -1.
pub const HARDWARE: Endpoint = 0xFFFF_FFFF;

/// The kernel itself, which SENDREC calls; -2.
pub const SYSTEM: Endpoint = 0xFFFF_FFFE;

/// The clock; -3.
pub const CLOCK: Endpoint = 0xFFFF_FFFD;

/// From this number on endpoints are negative as signed numbers, and name no slot.
pub(crate) const FIRST_NEGATIVE: Endpoint = 0x8000_0000;

/// How far apart the endpoints of a slot's generations are.
const GENERATION_SIZE: u32 = 1024;

/// The slot that an endpoint names, whether it is used or not.
#[inline(always)]
pub fn slot_of(endpoint: Endpoint) -> u32
    ensures { result ≡ slot_of endpoint }
{
    endpoint % GENERATION_SIZE
}

/// The generation that an endpoint names.
#[inline(always)]
pub fn generation_of(endpoint: Endpoint) -> u32
    ensures { result ≡ generation_of endpoint }
{
    endpoint / GENERATION_SIZE
}

/// The endpoint of a generation of a slot.
#[inline(always)]
pub fn endpoint_from(generation: u32, slot: u32) -> Endpoint
    requires generation { generation ≤ 2 ^ 20 }
    requires slot { slot < 1024 }
    ensures { result ≡ endpoint_from generation slot }
{
    generation * GENERATION_SIZE + slot
}
