//! The sizes of operands, and words as unsigned and as signed numbers: ranges, sums, differences and signs.

ghost use Rattle.std.specs.Prelude.{◌≡◌, ◌+◌, ◌-◌, ◌^◌, ◌<◌, ◌≤◌, ◌%◌, ◌/◌, pos, ◌+ℤ◌, ◌-ℤ◌, ◌≤ℤ◌, nat_le, unsigned_abs};
ghost use Rattle.std.specs.Int.{from_bool};
ghost use Rattle.mx_word.specs.Word.{width, bytes_in, signed, modulo, leaves_unsigned, leaves_signed, has_even_ones, is_negative, IsSmall, sum_of, difference_of, differ};

/// How wide an operand is: 8, 16 or 32 bits.
#[derive(Clone, Copy, PartialEq, Eq)]
pub enum Size {
    Byte,
    Word,
    Dword,
}

impl Size {
    /// The number of bits of a byte, word or dword.
    pub fn bits(self) -> u32
        ensures { result ≡ width self }
    {
        match self {
            Size::Byte => 8,
            Size::Word => 16,
            Size::Dword => 32,
        }
    }

    /// The number of bytes of a byte, word or dword.
    pub fn bytes(self) -> u32
        ensures { result ≡ bytes_in self }
    {
        match self {
            Size::Byte => 1,
            Size::Word => 2,
            Size::Dword => 4,
        }
    }

    /// 2 to the number of bits of a size.
    pub fn modulus(self) -> i64
        ensures { result ≡ pos (2 ^ width self) }
    {
        match self {
            Size::Byte => 0x100,
            Size::Word => 0x1_0000,
            Size::Dword => 0x1_0000_0000,
        }
    }

    /// 2 to the number of bits of a size less one.
    pub fn half(self) -> i64
        ensures { result ≡ pos (2 ^ (width self - 1)) }
    {
        match self {
            Size::Byte => 0x80,
            Size::Word => 0x8000,
            Size::Dword => 0x8000_0000,
        }
    }

    /// The low byte, word or dword of a number.
    pub fn low(self, whole: u64) -> u32
        ensures value { result ≡ whole % 2 ^ width self }
        ensures below { result < 2 ^ width self }
    {
        match self {
            Size::Byte => (whole % 0x100) as u32,
            Size::Word => (whole % 0x1_0000) as u32,
            Size::Dword => (whole % 0x1_0000_0000) as u32,
        }
    }

    /// The bits above the low byte, word or dword of a number, as a number.
    pub fn high(self, whole: u64) -> u64
        ensures { result ≡ whole / 2 ^ width self }
    {
        whole >> self.bits()
    }

    /// A whole number modulo 2 to the number of bits.
    pub fn modulo(self, whole: i64) -> u32
        ensures value { result ≡ modulo (width self) whole }
        ensures below { result < 2 ^ width self }
    {
        match self {
            Size::Byte => (whole.cast_unsigned() % 0x100) as u32,
            Size::Word => (whole.cast_unsigned() % 0x1_0000) as u32,
            Size::Dword => (whole.cast_unsigned() % 0x1_0000_0000) as u32,
        }
    }

    /// Whether a number is outside the unsigned range.
    pub fn leaves_unsigned(self, whole: i64) -> bool
        ensures { result ≡ leaves_unsigned (width self) whole }
    {
        whole < 0 || whole >= self.modulus()
    }

    /// Whether a number is outside the signed range.
    pub fn leaves_signed(self, whole: i64) -> bool
        ensures { result ≡ leaves_signed (width self) whole }
    {
        whole < -self.half() || whole >= self.half()
    }

    /// Whether the top bit is one.
    pub fn is_negative(self, word: u32) -> bool
        ensures { result ≡ is_negative (width self) word }
    {
        i64::from(word) >= self.half()
    }
}

/// A word read as a signed number.
pub fn signed(size: Size, word: u32) -> i64
    requires { word < 2 ^ width size }
    ensures value { result ≡ signed (width size) word }
    ensures small { IsSmall result }
    ensures half { unsigned_abs result ≤ 2 ^ 31 }
{
    match size {
        Size::Byte => i64::from((word as u8).cast_signed()),
        Size::Word => i64::from((word as u16).cast_signed()),
        Size::Dword => i64::from(word.cast_signed()),
    }
}

/// The sum of two numbers and a carry.
pub fn sum(x: i64, y: i64, carry: bool) -> i64
    requires left { IsSmall x }
    requires right { IsSmall y }
    ensures { result ≡ x +ℤ y +ℤ pos (from_bool carry) }
{
    x + y + i64::from(carry)
}

/// The difference of two numbers and a borrow.
pub fn difference(x: i64, y: i64, borrow: bool) -> i64
    requires left { IsSmall x }
    requires right { IsSmall y }
    ensures { result ≡ x -ℤ y -ℤ pos (from_bool borrow) }
{
    x - y - i64::from(borrow)
}

/// The word that the sum of two words and a carry leaves.
pub fn add_w(size: Size, x: u32, y: u32, carry: bool) -> u32
    ensures value { result ≡ sum_of (width size) x y (from_bool carry) }
    ensures below { result < 2 ^ width size }
{
    size.modulo(sum(i64::from(x), i64::from(y), carry))
}

/// The word that the difference of two words and a borrow leaves.
pub fn sub_w(size: Size, x: u32, y: u32, borrow: bool) -> u32
    ensures value { result ≡ difference_of (width size) x y (from_bool borrow) }
    ensures below { result < 2 ^ width size }
{
    size.modulo(difference(i64::from(x), i64::from(y), borrow))
}

/// Whether the number of ones in the low byte is even.
pub fn has_even_ones(word: u32) -> bool
    ensures { result ≡ has_even_ones word }
{
    (word % 256).count_ones() % 2 == 0
}

/// Whether exactly one of two truth values is true.
pub fn differ(left: bool, right: bool) -> bool
    ensures { result ≡ differ left right }
{
    left != right
}
