//! Positions, as they are typed.

ghost use Rattle.std.specs.Prelude.{◌≡◌, position};
ghost use Rattle.mx_app_look.specs.Requests.{is_dot, position_of_word};

use mx_boot::count;
use mx_walk::PositionWord;

/// The index of the first dot.
fn dot_in(word: &[u8]) -> Option<usize>
    ensures { result ≡ position is_dot word.now }
{
    word.iter().position(|byte| *byte == b'.')
}

/// The position that a word is: `K`, `K.J` or `end`.
#[tactic(auto, unfolding(crate::specs::Requests::position_of_word))]
pub(crate) fn position_named(word: &[u8]) -> Option<PositionWord>
    ensures { result ≡ position_of_word word.now }
{
    if word == b"end".as_slice() {
        return Some(PositionWord::End);
    }
    match dot_in(word) {
        None => Some(PositionWord::After(count(word)?, 0)),
        Some(dot) => {
            let records = count(&word[..dot])?;
            let steps = count(&word[dot + 1..])?;
            Some(PositionWord::After(records, steps))
        }
    }
}
