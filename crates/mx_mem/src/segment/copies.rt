//! Copies bytes within a segment, copies them from one segment to another, and clears a segment.

ghost use Rattle.std.specs.Prelude.{◌≡◌, ◌+◌, ◌-◌, ◌*◌, ◌%◌, ◌^◌, ◌<◌, ◌≤◌, length, replicate};
ghost use Rattle.mx_word.specs.Word.{bytes_in, width};
ghost use Rattle.mx_mem.specs.Segment.{with_bytes_at, part, repeated, zero_page, IsPiece};

use super::page::{PAGE, Page};
use super::{Segment, piece};
use mx_word::Size;

/// How many bytes are copied at once within a segment, by `copy_piece`. More are worth little: a copy begins
/// with a buffer of this many zeros.
pub const PIECE: usize = 1024;

/// Makes every byte of the pages zero.
fn clear_pages(pages: &mut [Page])
    ensures { pages.new ≡ replicate (length pages.old) zero_page }
{
    for k in 0..pages.len() {
        pages[k].clear();
    }
}

/// How many of the `count` bytes just before `end` lie in the same page as the byte at `end - 1`: at least
/// one. For example, if `end` is 4,098 and `count` is 10, then 2.
fn piece_before(end: usize, count: usize) -> usize
    requires some { 0 < count }
    requires room { count ≤ end }
    ensures some { 0 < result }
    ensures most { result ≤ count }
    ensures page { (end - result) % 4096 + result ≤ 4096 }
{
    let room = (end - 1) % PAGE + 1;
    if count < room { count } else { room }
}

impl Segment {
    /// Copies `count` bytes from address `from` to address `to`, through a buffer. All bytes that it reads
    /// must lie in one page, and so must all bytes that it writes.
    #[inline(always)]
    fn move_piece(&mut self, from: usize, to: usize, count: usize, buffer: &mut [u8])
        requires some { 0 < count }
        requires from { from + count ≤ length self.old }
        requires to { to + count ≤ length self.old }
        requires from_page { from % 4096 + count ≤ 4096 }
        requires to_page { to % 4096 + count ≤ 4096 }
        requires buffer { count ≤ length buffer.old }
        ensures value { self.new ≡ with_bytes_at self.old to (part self.old from count) }
        ensures buffer { length buffer.new ≡ length buffer.old }
    {
        buffer[..count].copy_from_slice(self.part_of_page(from, count));
        self.put_in_page(to, &buffer[..count]);
    }

    /// Copies bytes to the same or a lower address. The lowest bytes go first, so that each is read before
    /// another is written over it.
    fn move_down(&mut self, from: u32, to: u32, count: u32)
        requires order { to ≤ from }
        requires inside { from + count ≤ length self.old }
        ensures { self.new ≡ with_bytes_at self.old to (part self.old from count) }
    {
        let from = from as usize;
        let to = to as usize;
        let count = count as usize;
        let mut buffer = [0; PAGE];
        let mut done = 0;
        while done < count {
            let there = piece(to + done, count - done);
            let both = piece(from + done, there);
            self.move_piece(from + done, to + done, both, &mut buffer[..]);
            done += both;
        }
    }

    /// Copies bytes to a higher address. The highest bytes go first, so that each is read before another is
    /// written over it.
    fn move_up(&mut self, from: u32, to: u32, count: u32)
        requires order { from < to }
        requires inside { to + count ≤ length self.old }
        ensures { self.new ≡ with_bytes_at self.old to (part self.old from count) }
    {
        let from = from as usize;
        let to = to as usize;
        let count = count as usize;
        let mut buffer = [0; PAGE];
        let mut left = count;
        while left > 0 {
            let there = piece_before(to + left, left);
            let both = piece_before(from + left, there);
            left -= both;
            self.move_piece(from + left, to + left, both, &mut buffer[..]);
        }
    }

    /// Copies `count` bytes from address `from` to address `to`. Both ranges must be inside. They may
    /// overlap: what arrives is always the bytes as they were before the call.
    pub fn copy_within(&mut self, from: u32, to: u32, count: u32)
        requires from { from + count ≤ length self.old }
        requires to { to + count ≤ length self.old }
        ensures value { self.new ≡ with_bytes_at self.old to (part self.old from count) }
        ensures limit { length self.new ≡ length self.old }
    {
        if to <= from {
            self.move_down(from, to, count);
        } else {
            self.move_up(from, to, count);
        }
    }

    /// Copies `count` bytes from address `from` of another segment to address `to` of this one. Both ranges
    /// must be inside.
    pub fn copy_from(&mut self, source: &Segment, from: u32, to: u32, count: u32)
        requires from { from + count ≤ length source.now }
        requires to { to + count ≤ length self.old }
        ensures value { self.new ≡ with_bytes_at self.old to (part source.now from count) }
        ensures limit { length self.new ≡ length self.old }
    {
        let from = from as usize;
        let to = to as usize;
        let count = count as usize;
        let mut done = 0;
        while done < count {
            let mine = piece(to + done, count - done);
            let both = piece(from + done, mine);
            self.put_in_page(to + done, source.part_of_page(from + done, both));
            done += both;
        }
    }

    /// How many numbers of a size, at most `most`, lie one after another from an address on, all of them
    /// inside and in one page. None if the first doesn't.
    #[inline(always)]
    pub fn run_of(&self, at: u32, size: Size, most: usize) -> usize
        ensures most { result ≤ most }
        ensures piece { 0 < result → IsPiece self.now at (result * bytes_in size) }
        ensures low { 0 < result → at + result * bytes_in size ≤ 4294967295 }
    {
        let at = at as usize;
        let limit = self.limit().min(u32::MAX as usize);
        let room = limit.saturating_sub(at).min(PAGE - at % PAGE);
        most.min(room / size.bytes() as usize)
    }

    /// Writes a number `count` times, one after another from an address on, lowest byte first. All of them
    /// must lie inside and in one page, as `run_of` answers.
    #[tactic(auto, unfolding(crate::specs::Segment::up_to, crate::specs::Segment::IsPaged))]
    #[inline(always)]
    pub fn fill_piece(&mut self, at: u32, size: Size, count: usize, value: u32)
        requires some { 0 < count }
        requires piece { IsPiece self.old at (count * bytes_in size) }
        requires value { value < 2 ^ width size }
        ensures { self.new ≡ with_bytes_at self.old at (repeated count (bytes_in size) value) }
    {
        let at = at as usize;
        self.pages[at / PAGE].fill(at % PAGE, size, count, value);
    }

    /// Copies `count` bytes from address `from` to address `to`: at most `PIECE`. All bytes that it reads must
    /// lie inside and in one page, and so must all that it writes, as `run_of` answers. They may overlap: what
    /// arrives is always the bytes as they were before the call.
    pub fn copy_piece(&mut self, from: u32, to: u32, count: usize)
        requires some { 0 < count }
        requires few { count ≤ 1024 }
        requires from { IsPiece self.old from count }
        requires to { IsPiece self.old to count }
        ensures { self.new ≡ with_bytes_at self.old to (part self.old from count) }
    {
        let mut buffer = [0; PIECE];
        self.move_piece(from as usize, to as usize, count, &mut buffer[..]);
    }

    /// Makes every byte of the segment zero. The limit stays, and so do the pages.
    #[tactic(auto, unfolding(crate::specs::Segment::up_to, crate::specs::Segment::IsPaged))]
    pub fn clear(&mut self)
        ensures { self.new ≡ replicate (length self.old) 0 }
    {
        clear_pages(self.pages.as_mut_slice());
    }
}
