//! `mx explain`, by the name of its configuration.

ghost use Rattle.std.specs.Prelude.{◌≡◌, ◌++◌, ◌∷◌, []};
ghost use Rattle.std.specs.Io.KnownBytes.{Appends};
ghost use Rattle.mx_app_db.specs.Asked.{Asked};
ghost use Rattle.mx_app.specs.Explained.{ExplainsConfig};

use mx_app_explain::services_text;
use mx_app_failure::{Failure, print_text};
use mx_app_start::{Reader, config_of};
use std::alloc::Global;
use std::io::Write;

/// Reads a configuration, and prints what each of its services may do, one a line. The files of the
/// services aren't read.
pub fn explain_named<R: Reader, W: Write>(
    alloc: Global,
    reader: &mut R,
    config: &str,
    out: &mut W,
) -> Result<(), Failure>
    ensures { (q : Asked) × (R.asked reader.new ≡ R.asked reader.old ++ q ∷ [])
        × ExplainsConfig config.now q
        (λ text. Appends (W.contents out.old) (W.contents out.new) text) result }
{
    let config = config_of(alloc, reader, config)?;
    let text = services_text(alloc, &config)?;
    print_text(text.as_slice(), out)
}
