//! A segment: bytes at the addresses from 0 up to a limit. The limit here is the number of bytes: an address
//! is inside if it is below the limit. In the 80386 manual the limit is the last address inside.
//!
//! The bytes are in pages of 4,096, each an allocation of its own: a large segment needs no large piece of memory, and
//! the segment of a dead process serves its slot's next one. An access inside one page, as nearly all are, is one
//! comparison with the limit, and a look at the page; one over two pages goes byte by byte. A contract sees a list of
//! bytes, and never a page.

ghost use Rattle.std.specs.Prelude.{◌≡◌, ◌+◌, ◌%◌, ◌^◌, ◌<◌, ◌≤◌, Ok, Err, OnOk, OnErr, IfOk, IfSome, [], length, slice_get, ℕ, slice_index, slice_set, replicate, take, drop};
ghost use Rattle.mx_word.specs.Word.{width, bytes_in, value_at};
ghost use Rattle.mx_mem.specs.Segment.{inside, read_at, with_value, bytes_after_write, bytes_after_copy, with_bytes_at, part, zero_page};

mod copies;
mod limit;
mod page;

pub use copies::PIECE;
use limit::Limit;
use mx_insn::ArrayVec;
use mx_word::{NoMemory, Size};
use page::{PAGE, Page, qword_at, value_in};
use std::alloc::Global;
use std::marker::Model;

/// The bytes of a MINIX message: its source, its type and seven words.
pub const MESSAGE_SIZE: usize = 36;

/// Why a segment refuses an access: some of its bytes aren't inside.
#[derive(Clone, Copy, Debug, PartialEq, Eq)]
pub struct OutOfLimit;

/// A segment of memory. Its limit never changes. It owns as many pages of 4,096 bytes as its limit needs:
/// `new` takes them all, and no other call takes memory.
#[derive(Drop)]
pub struct Segment {
    /// The bytes up to the limit, and then zeros up to the end of the last page.
    pages: Vec<Page>,
    limit: Limit,
}

impl Model for Segment {
    ghost use Rattle.std.specs.Prelude.{List, ℕ};
    ghost use Rattle.mx_mem.specs.Segment.{up_to, IsPaged};

    ghost Value = { List ℕ };

    ghost view = { λ s. up_to s.limit s.pages.items };

    ghost invariant = { λ s. IsPaged s.limit s.pages.items };
}

/// Makes this many pages of zeros. If there is no memory for one of them, gives back those before it and
/// answers `NoMemory`.
fn zero_pages(alloc: Global, count: usize) -> Result<Vec<Page>, NoMemory>
    ensures { IfOk result (λ pages. pages.items ≡ replicate count zero_page) }
{
    let mut pages = Vec::with_capacity(alloc, count)?;
    for _ in 0..count {
        let Ok(()) = pages.push(Page::zeros(alloc)?) else {
            return Err(NoMemory);
        };
    }
    Ok(pages)
}

/// How many of the `count` bytes from `at` on lie in the page of `at`: at least one. For example, if `at`
/// is 4,090 and `count` is 10, then 6.
fn piece(at: usize, count: usize) -> usize
    requires { 0 < count }
    ensures some { 0 < result }
    ensures most { result ≤ count }
    ensures page { at % 4096 + result ≤ 4096 }
{
    let room = PAGE - at % PAGE;
    if count < room { count } else { room }
}

impl Segment {
    /// Makes a segment of `limit` bytes, all zero. Takes memory: answers `NoMemory` if there isn't enough.
    #[tactic(auto, unfolding(crate::specs::Segment::up_to, crate::specs::Segment::IsPaged))]
    pub fn new(alloc: Global, limit: u32) -> Result<Segment, NoMemory>
        ensures { IfOk result (λ s. s ≡ replicate limit 0) }
    {
        let limit = limit as usize;
        let pages = zero_pages(alloc, (limit + (PAGE - 1)) / PAGE)?;
        Ok(Segment {
            pages,
            limit: Limit::new(limit),
        })
    }

    /// The number of bytes of the segment.
    #[tactic(auto, unfolding(crate::specs::Segment::up_to, crate::specs::Segment::IsPaged))]
    #[inline(always)]
    pub fn limit(&self) -> usize
        ensures { result ≡ length self.now }
    {
        self.limit.bytes()
    }

    /// The byte at an address, or `None` if the address isn't inside.
    pub fn get(&self, at: u32) -> Option<u8>
        ensures { result ≡ slice_get self.now at }
    {
        let at = at as usize;
        if at < self.limit() {
            Some(self.byte(at))
        } else {
            None
        }
    }

    /// The byte at an address inside.
    #[tactic(auto, unfolding(crate::specs::Segment::up_to, crate::specs::Segment::IsPaged))]
    #[inline(always)]
    fn byte(&self, at: usize) -> u8
        requires { at < length self.now }
        ensures { result ≡ slice_index self.now at }
    {
        self.pages[at / PAGE].bytes()[at % PAGE]
    }

    /// The byte at an address, or 0 if the address isn't inside.
    fn byte_or_zero(&self, at: usize) -> u8
        ensures { result ≡ slice_index self.now at }
    {
        if at < self.limit() { self.byte(at) } else { 0 }
    }

    /// Writes a byte at an address inside.
    #[tactic(auto, unfolding(crate::specs::Segment::up_to, crate::specs::Segment::IsPaged))]
    fn set_byte(&mut self, at: usize, byte: u8)
        requires { at < length self.old }
        ensures value { self.new ≡ slice_set self.old at byte }
        ensures limit { length self.new ≡ length self.old }
    {
        self.pages[at / PAGE].set(at % PAGE, byte);
    }

    /// Whether the 1, 2 or 4 bytes of this size, from an address on, are all inside.
    #[inline(always)]
    pub fn holds(&self, at: u32, size: Size) -> bool
        ensures { result ≡ inside self.now at (bytes_in size) }
    {
        self.limit.holds(at, size)
    }

    /// The number at an address. All its bytes must lie in one page.
    #[tactic(auto, unfolding(crate::specs::Segment::up_to, crate::specs::Segment::IsPaged))]
    #[inline(always)]
    fn read_in_page(&self, at: usize, size: Size) -> u32
        requires inside { at + bytes_in size ≤ length self.now }
        requires page { at % 4096 + bytes_in size ≤ 4096 }
        ensures value { result ≡ value_at self.now at (bytes_in size) }
        ensures below { result < 2 ^ width size }
    {
        value_in(self.pages[at / PAGE].bytes(), at % PAGE, size)
    }

    /// The number at an address, read byte by byte: so its bytes may lie in two pages.
    #[cold]
    #[inline(never)]
    fn read_across(&self, at: u32, size: Size) -> u32
        requires { at + bytes_in size ≤ length self.now }
        ensures value { result ≡ value_at self.now at (bytes_in size) }
        ensures below { result < 2 ^ width size }
    {
        let at = at as usize;
        match size {
            Size::Byte => u32::from(self.byte(at)),
            Size::Word => u32::from(self.byte(at)) + 0x100 * u32::from(self.byte(at + 1)),
            Size::Dword => {
                u32::from(self.byte(at))
                    + 0x100
                        * (u32::from(self.byte(at + 1))
                            + 0x100
                                * (u32::from(self.byte(at + 2))
                                    + 0x100 * u32::from(self.byte(at + 3))))
            }
        }
    }

    /// The number of this size at an address, lowest byte first. If some of its bytes aren't inside,
    /// answers `OutOfLimit`. For example, the bytes 34 12 are the word 0x1234.
    ///
    /// It is inlined, and so is `write`: a caller with a constant size then needs no test of the size.
    #[inline(always)]
    pub fn read(&self, at: u32, size: Size) -> Result<u32, OutOfLimit>
        ensures value { result ≡ read_at self.now at size }
        ensures below { IfOk result (λ v. v < 2 ^ width size) }
    {
        if !self.holds(at, size) {
            return Err(OutOfLimit);
        }
        let place = at as usize;
        Ok(if place % PAGE + size.bytes() as usize <= PAGE {
            self.read_in_page(place, size)
        } else {
            self.read_across(at, size)
        })
    }

    /// Writes a number at an address. All its bytes must lie in one page.
    #[tactic(auto, unfolding(crate::specs::Segment::up_to, crate::specs::Segment::IsPaged))]
    #[inline(always)]
    fn write_in_page(&mut self, at: usize, size: Size, value: u32)
        requires inside { at + bytes_in size ≤ length self.old }
        requires page { at % 4096 + bytes_in size ≤ 4096 }
        requires value { value < 2 ^ width size }
        ensures { self.new ≡ with_value self.old at (bytes_in size) value }
    {
        self.pages[at / PAGE].write(at % PAGE, size, value);
    }

    /// Writes a number at an address, byte by byte: so its bytes may lie in two pages.
    #[cold]
    #[inline(never)]
    fn write_across(&mut self, at: u32, size: Size, value: u32)
        requires inside { at + bytes_in size ≤ length self.old }
        requires value { value < 2 ^ width size }
        ensures { self.new ≡ with_value self.old at (bytes_in size) value }
    {
        let at = at as usize;
        self.set_byte(at, (value % 0x100) as u8);
        match size {
            Size::Byte => {}
            Size::Word => self.set_byte(at + 1, (value / 0x100) as u8),
            Size::Dword => {
                self.set_byte(at + 1, (value / 0x100 % 0x100) as u8);
                self.set_byte(at + 2, (value / 0x100 / 0x100 % 0x100) as u8);
                self.set_byte(at + 3, (value / 0x100 / 0x100 / 0x100) as u8);
            }
        }
    }

    /// Writes a number of this size at an address, lowest byte first. If some of its bytes aren't inside,
    /// answers `OutOfLimit` and changes nothing.
    #[inline(always)]
    pub fn write(&mut self, at: u32, size: Size, value: u32) -> Result<(), OutOfLimit>
        requires { value < 2 ^ width size }
        ensures ok { OnOk result (bytes_after_write self.old at size value ≡ Ok self.new) }
        ensures err { OnErr result ((bytes_after_write self.old at size value ≡ Err (record {}))
            × (self.new ≡ self.old)) }
    {
        if !self.holds(at, size) {
            return Err(OutOfLimit);
        }
        let place = at as usize;
        if place % PAGE + size.bytes() as usize <= PAGE {
            self.write_in_page(place, size, value);
        } else {
            self.write_across(at, size, value);
        }
        Ok(())
    }

    /// Writes bytes into the segment, from an address on. If they don't all fit, answers `OutOfLimit` and
    /// changes nothing. A caller who knows that they fit can call `put`.
    pub fn fill_from(&mut self, at: u32, bytes: &[u8]) -> Result<(), OutOfLimit>
        ensures ok { OnOk result (bytes_after_copy self.old at bytes.now ≡ Ok self.new) }
        ensures err { OnErr result ((bytes_after_copy self.old at bytes.now ≡ Err (record {}))
            × (self.new ≡ self.old)) }
    {
        let place = at as usize;
        if place > self.limit() || bytes.len() > self.limit() - place {
            return Err(OutOfLimit);
        }
        self.put(at, bytes);
        Ok(())
    }

    /// The `count` bytes from `at` on. All of them must lie in one page.
    #[tactic(auto, unfolding(crate::specs::Segment::up_to, crate::specs::Segment::IsPaged))]
    #[inline(always)]
    fn part_of_page(&self, at: usize, count: usize) -> &[u8]
        requires some { 0 < count }
        requires inside { at + count ≤ length self.now }
        requires page { at % 4096 + count ≤ 4096 }
        ensures { result.now ≡ part self.now at count }
    {
        let start = at % PAGE;
        &self.pages[at / PAGE].bytes()[start..start + count]
    }

    /// The bytes from an address on, without a copy: at most 15, since no instruction is longer, and fewer
    /// if the segment ends before. `None` if they lie in two pages: then call `copy_of_front`.
    #[inline(always)]
    pub fn front(&self, at: u32) -> Option<&[u8]>
        ensures { IfSome result (λ front. front.now ≡ take 15 (drop at self.now)) }
    {
        let limit = self.limit();
        let at = at as usize;
        if at >= limit {
            return Some(&[]);
        }
        let count = if limit - at < 15 { limit - at } else { 15 };
        // Rare enough that the caller copies the bytes then, and nobody else does.
        if at % PAGE + count > PAGE {
            return None;
        }
        Some(self.part_of_page(at, count))
    }

    /// The number in the eight bytes from an address on. The address must be inside, and all eight bytes must
    /// lie in one page. Bytes after the limit are taken as zeros.
    #[tactic(auto, unfolding(crate::specs::Segment::up_to, crate::specs::Segment::IsPaged))]
    #[inline(always)]
    fn qword_in_page(&self, at: usize) -> u64
        requires inside { at < length self.now }
        requires page { at % 4096 + 8 ≤ 4096 }
        ensures { result ≡ value_at self.now at 8 }
    {
        qword_at(self.pages[at / PAGE].bytes(), at % PAGE)
    }

    /// The number in the eight bytes from an address on, read byte by byte: so they may lie in two pages.
    /// Bytes that aren't inside are taken as zeros.
    #[cold]
    #[inline(never)]
    fn qword_across(&self, at: u32) -> u64
        ensures { result ≡ value_at self.now at 8 }
    {
        let at = at as usize;
        let bytes = [
            self.byte_or_zero(at),
            self.byte_or_zero(at + 1),
            self.byte_or_zero(at + 2),
            self.byte_or_zero(at + 3),
            self.byte_or_zero(at + 4),
            self.byte_or_zero(at + 5),
            self.byte_or_zero(at + 6),
            self.byte_or_zero(at + 7),
        ];
        qword_at(&bytes[..], 0)
    }

    /// Law: each byte is below 256.
    #[tactic(auto, unfolding(crate::specs::Segment::up_to, crate::specs::Segment::IsPaged))]
    #[inline(always)]
    fn are_bytes(&self)
        ensures { (i : ℕ) → slice_index self.now i < 256 }
    {
        let _limit = &self.limit;
    }

    /// The number in the eight bytes from an address on, lowest byte first. The address must be inside.
    /// Bytes after the limit are taken as zeros.
    #[inline(always)]
    pub fn qword_from(&self, at: u32) -> u64
        requires { at < length self.now }
        ensures value { result ≡ value_at self.now at 8 }
        ensures bytes { (i : ℕ) → slice_index self.now i < 256 }
    {
        self.are_bytes();
        let place = at as usize;
        if place % PAGE + 8 <= PAGE {
            self.qword_in_page(place)
        } else {
            self.qword_across(at)
        }
    }

    /// The number in the eight bytes from an address on, lowest byte first. Any address is allowed.
    /// Bytes that aren't inside are taken as zeros.
    #[inline(always)]
    pub fn padded_qword(&self, at: u32) -> u64
        ensures value { result ≡ value_at self.now at 8 }
        ensures bytes { (i : ℕ) → slice_index self.now i < 256 }
    {
        self.are_bytes();
        if at as usize >= self.limit() {
            return 0;
        }
        self.qword_from(at)
    }

    /// A copy of the bytes from an address on: at most 15, and fewer if the segment ends before.
    pub fn copy_of_front(&self, at: u32) -> ArrayVec<u8, 15>
        ensures { result.items ≡ take 15 (drop at self.now) }
    {
        let mut front = ArrayVec::new();
        for k in 0..15usize {
            let place = at as usize + k;
            if place >= self.limit() {
                break;
            }
            front.push(self.byte(place));
        }
        front
    }
}

impl Segment {
    /// Makes a segment of 0 bytes. Takes no memory.
    #[tactic(auto, unfolding(crate::specs::Segment::up_to, crate::specs::Segment::IsPaged))]
    pub fn empty(alloc: Global) -> Segment
        ensures { result ≡ [] }
    {
        Segment {
            pages: Vec::new(alloc),
            limit: Limit::new(0),
        }
    }

    /// A copy of a message's bytes, made byte by byte: so they may lie in two pages.
    #[cold]
    #[inline(never)]
    fn message_across(&self, at: u32) -> [u8; MESSAGE_SIZE]
        requires { at + 36 ≤ length self.now }
        ensures { result ≡ take 36 (drop at self.now) }
    {
        let at = at as usize;
        let mut message = [0; MESSAGE_SIZE];
        for k in 0..MESSAGE_SIZE {
            message[k] = self.byte(at + k);
        }
        message
    }

    /// A copy of a message's bytes, from an address on. All must be inside.
    pub fn message(&self, at: u32) -> [u8; MESSAGE_SIZE]
        requires { at + 36 ≤ length self.now }
        ensures { result ≡ take 36 (drop at self.now) }
    {
        let place = at as usize;
        if place % PAGE + MESSAGE_SIZE > PAGE {
            return self.message_across(at);
        }
        let mut message = [0; MESSAGE_SIZE];
        message.copy_from_slice(self.part_of_page(place, MESSAGE_SIZE));
        message
    }

    /// Writes these bytes from an address on: at least one byte, and all into one page.
    #[tactic(auto, unfolding(crate::specs::Segment::up_to, crate::specs::Segment::IsPaged))]
    fn put_in_page(&mut self, at: usize, bytes: &[u8])
        requires some { 0 < length bytes.now }
        requires inside { at + length bytes.now ≤ length self.old }
        requires page { at % 4096 + length bytes.now ≤ 4096 }
        ensures { self.new ≡ with_bytes_at self.old at bytes.now }
    {
        self.pages[at / PAGE].put(at % PAGE, bytes);
    }

    /// Writes bytes from an address on, one page after another.
    #[cold]
    #[inline(never)]
    fn put_across(&mut self, at: u32, bytes: &[u8])
        requires { at + length bytes.now ≤ length self.old }
        ensures { self.new ≡ with_bytes_at self.old at bytes.now }
    {
        let at = at as usize;
        let mut done = 0;
        while done < bytes.len() {
            let count = piece(at + done, bytes.len() - done);
            self.put_in_page(at + done, &bytes[done..done + count]);
            done += count;
        }
    }

    /// Writes bytes into the segment, from an address on. They must fit; `fill_from` checks that.
    pub fn put(&mut self, at: u32, bytes: &[u8])
        requires { at + length bytes.now ≤ length self.old }
        ensures value { self.new ≡ with_bytes_at self.old at bytes.now }
        ensures limit { length self.new ≡ length self.old }
    {
        let place = at as usize;
        if !bytes.is_empty() && bytes.len() <= PAGE - place % PAGE {
            self.put_in_page(place, bytes);
        } else {
            self.put_across(at, bytes);
        }
    }
}
