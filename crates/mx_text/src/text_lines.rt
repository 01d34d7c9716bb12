//! The lines of a text, one after the other.

ghost use Rattle.std.specs.Prelude.{◌≡◌, ◌∷◌, [], ◌<◌, length, MatchOption, IfSome};
ghost use Rattle.mx_text.specs.Lines.{lines};

/// The first line, without the line feed that ends it, and what follows that line feed. `None` if nothing is
/// left.
pub fn next_line(text: &[u8]) -> Option<(&[u8], &[u8])>
    ensures line { MatchOption result (lines text.now ≡ []) (λ p. lines text.now ≡ p.0.now
        ∷ lines p.1.now) }
    ensures shorter { IfSome result (λ p. length p.1.now < length text.now) }
{
    if text.is_empty() {
        return None;
    }
    let mut end = 0;
    while end < text.len() {
        if text[end] == b'\n' {
            return Some((&text[..end], &text[end + 1..]));
        }
        end += 1;
    }
    Some((text, &text[end..]))
}
