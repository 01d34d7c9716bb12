//! What a second line has after what stands in place of what was wanted.

ghost use Rattle.std.specs.Prelude.{◌≡◌};
ghost use Rattle.mx_app_explain.specs.Hints.{hint_told};

use std::fmt;

/// What is added.
#[derive(Clone, Copy)]
pub enum Hint<'a> {
    Nothing,
    Words(&'static str),
    /// The number of the mask that these names say.
    Mask(&'a str, u32),
    /// The folder that the configuration is in.
    Folder(&'a str),
}

/// As it is in a line, after a semicolon.
impl fmt::Display for Hint<'_> {
    ghost use Rattle.std.specs.Prelude.{Some};
    ghost use Rattle.mx_app_explain.specs.Hints.{hint_told};

    ghost output = { λ hint. Some (hint_told hint) };

    fn fmt<W: fmt::Write>(&self, f: &mut fmt::Formatter<W>) -> fmt::Result {
        match *self {
            Hint::Nothing => Ok(()),
            Hint::Words(words) => write!(f, "; {words}"),
            Hint::Mask(names, mask) => write!(f, "; {names} is {mask:x}"),
            Hint::Folder(folder) => write!(
                f,
                "; its name is seen from the folder that mx is called in, and CONFIG is in {folder}: cd {folder}"
            ),
        }
    }
}
