//! Names of services in a configuration.

ghost use Rattle.std.specs.Prelude.{◌≡◌, Some, MatchOption};
ghost use Rattle.mx_text.specs.declared.names.Name.{Name};
ghost use Rattle.mx_text.specs.Names.{name_of};
ghost use Rattle.mx_boot.specs.Names.{IsReserved};

use mx_insn_words::{register_named, size_named};
use mx_text::{Name, name_of};

/// The name of a service that a word is: a name that is no register's and no size's.
pub fn service_name(word: &[u8]) -> Option<Name>
    ensures { MatchOption result ((n : Name) → name_of word.now ≡ Some n → IsReserved word.now)
        (λ name. (name_of word.now ≡ Some name) × (IsReserved word.now → ⊥)) }
{
    if register_named(word).is_some() || size_named(word).is_some() {
        return None;
    }
    name_of(word)
}
