//! The fields of a line of a text: what is between spaces.

ghost use Rattle.std.specs.Prelude.{◌≡◌, ◌≢◌, ◌∷◌, [], ◌<◌, ◌≤◌, length, drop, take, slice_index, MatchOption, IfSome, None, Some};
ghost use Rattle.mx_text.specs.Fields.{fields, only, pair};

/// How many spaces are at the front.
fn spaces_at_front(line: &[u8]) -> usize
    ensures within { result ≤ length line.now }
    ensures fields { fields line.now ≡ fields (drop result line.now) }
    ensures end { result < length line.now → slice_index line.now result ≢ 32 }
{
    let mut start = 0;
    while start < line.len() && line[start] == b' ' {
        start += 1;
    }
    start
}

/// How long the field is that begins a line.
fn length_of_field(line: &[u8]) -> usize
    requires some { 0 < length line.now }
    requires begins { slice_index line.now 0 ≢ 32 }
    ensures some { 0 < result }
    ensures within { result ≤ length line.now }
    ensures fields { fields line.now ≡ take result line.now ∷ fields (drop result line.now) }
{
    let mut end = 0;
    while end < line.len() && line[end] != b' ' {
        end += 1;
    }
    end
}

/// The first field of a line, and what follows it. `None` if there is no field.
pub fn next_field(line: &[u8]) -> Option<(&[u8], &[u8])>
    ensures field { MatchOption result (fields line.now ≡ []) (λ p. fields line.now ≡ p.0.now
        ∷ fields p.1.now) }
    ensures shorter { IfSome result (λ p. length p.1.now < length line.now) }
{
    let start = spaces_at_front(line);
    let rest = &line[start..];
    if rest.is_empty() {
        return None;
    }
    let end = length_of_field(rest);
    Some((&rest[..end], &rest[end..]))
}

/// The field of a line that has exactly one field.
pub fn one_field(line: &[u8]) -> Option<&[u8]>
    ensures { MatchOption result (only (fields line.now) ≡ None) (λ f. only (fields line.now)
        ≡ Some f.now) }
{
    let (field, rest) = next_field(line)?;
    match next_field(rest) {
        None => Some(field),
        Some(_) => None,
    }
}

/// The fields of a line that has exactly two fields.
pub fn two_fields(line: &[u8]) -> Option<(&[u8], &[u8])>
    ensures { MatchOption result (pair (fields line.now) ≡ None) (λ p. pair (fields line.now)
        ≡ Some (p.0.now, p.1.now)) }
{
    let (first, rest) = next_field(line)?;
    let second = one_field(rest)?;
    Some((first, second))
}
