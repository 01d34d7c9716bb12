//! The numbers in a line of a script: actors, and all others.

ghost use Rattle.std.specs.Prelude.{◌≡◌};
ghost use Rattle.mx_text.specs.Fields.{fields};
ghost use Rattle.mx_boot.specs.Script.{actor_field, count_field, only_actor, only_count, actor_and_count};

use mx_text::{number_up_to, one_field, two_fields};

/// The number of a processor or another actor, in decimal, at most 255.
pub fn actor(word: &[u8]) -> Option<u8>
    ensures { result ≡ actor_field word.now }
{
    let number = number_up_to(word, 10, 255)?;
    Some(number as u8)
}

/// Any other number, in decimal, at most 2,147,483,647.
pub fn count(word: &[u8]) -> Option<u32>
    ensures { result ≡ count_field word.now }
{
    number_up_to(word, 10, 2_147_483_647)
}

/// The actor that is a script line's only field.
pub fn only_actor(line: &[u8]) -> Option<u8>
    ensures { result ≡ only_actor (fields line.now) }
{
    actor(one_field(line)?)
}

/// The number that is a script line's only field.
pub fn only_count(line: &[u8]) -> Option<u32>
    ensures { result ≡ only_count (fields line.now) }
{
    count(one_field(line)?)
}

/// The actor and the number that are a line's two fields.
pub fn actor_and_count(line: &[u8]) -> Option<(u8, u32)>
    ensures { result ≡ actor_and_count (fields line.now) }
{
    let (first, second) = two_fields(line)?;
    let actor = actor(first)?;
    let count = count(second)?;
    Some((actor, count))
}
