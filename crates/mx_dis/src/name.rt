//! A symbol's name.

ghost use Rattle.std.specs.Prelude.{◌≡◌};
ghost use Rattle.mx_dis.specs.Names.{before_zero};

/// A name's bytes up to the first zero byte, or all of them.
pub fn before_zero(name: &[u8]) -> &[u8]
    ensures { result.now ≡ before_zero name.now }
{
    let mut end = 0;
    while end < name.len() && name[end] != 0 {
        end += 1;
    }
    &name[..end]
}
