//! A law of the keyboard's protocol.

ghost use Rattle.std.specs.Prelude.{List};
ghost use Rattle.mx_typist.specs.Protocol.{Happening, IsFrontStored, after_all, first_seat};

/// Law: whatever is typed, and whenever drivers that keep the rule die, what they have stored is the front of what was
/// typed: each byte once, in order.
pub fn each_byte_is_stored_once()
    ensures { (hs : List Happening) → IsFrontStored (after_all first_seat hs) }
{}
