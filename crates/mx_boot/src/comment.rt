//! The part of a line before a byte.

ghost use Rattle.std.specs.Prelude.{◌≡◌, ◌≤◌, length, take};
ghost use Rattle.std.specs.List.{before_first};
ghost use Rattle.mx_boot.specs.Items.{is_byte};

/// The length of a line up to a byte, or to its end.
fn length_before(line: &[u8], byte: u8) -> usize
    ensures within { result ≤ length line.now }
    ensures before { take result line.now ≡ before_first (is_byte byte) line.now }
{
    let mut end = 0;
    while end < line.len() && line[end] != byte {
        end += 1;
    }
    end
}

/// A line up to the first byte that is this one, such as the one that begins a comment.
pub fn before_byte(line: &[u8], byte: u8) -> &[u8]
    ensures { result.now ≡ before_first (is_byte byte) line.now }
{
    &line[..length_before(line, byte)]
}
