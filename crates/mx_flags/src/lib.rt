//! The processor's seven `Flags` (carry, parity, auxiliary, zero, sign, direction, overflow), what operations
//! of a size make of them, and the conditions that jumps test.
//!
//! # Lazy flags
//!
//! `Flags` has the kind, the operands and the result of the last operation, and computes a flag when it is read. A flag
//! that operations can leave as it was has a field of its own: a value, or which sum or difference it comes from, whose
//! operands are still there. So a compare computes no more than its difference, AND stores its result, INC doesn't
//! compute the carry that it leaves, and a shift by two or more not the overflow. ADC with the carry set, and SBB with
//! it, compute all seven.
//!
//! Why: nearly all flags are set again before anything reads them, and a conditional jump reads one or two. A contract
//! sees `Flags` as seven truth values, those that the fields give; so no caller can tell when they were computed.
#![tactic(auto)]

ghost use Rattle.std.specs.Prelude.{ℕ, Bool, ◌≡◌, ◌≢◌, ◌+◌, ◌-◌, ◌^◌, ◌<◌, ◌%◌, ◌/◌};
ghost use Rattle.std.specs.Int.{from_bool};
ghost use Rattle.mx_word.specs.Word.{width, leaves_unsigned};
ghost use Rattle.mx_word.specs.declared.size.Size.{Size};
ghost use Rattle.mx_flags.specs.Last.{extended, carry_from, auxiliary_from, shown_from};
ghost use Rattle.mx_flags.specs.Flags.{bits_of, values_of, low_byte_flags, result_flags, arithmetic_flags, add_flags, sub_flags, increment_flags, decrement_flags, logic_flags, is_less, holds};

mod overflows;

use mx_word::{Condition, Size, add_w, differ, difference, has_even_ones, signed, sub_w, sum};
use overflows::{
    Overflow, of_decrement, of_difference, of_increment, of_sum, overflow_of, overflow_of_operands,
};
use std::marker::Model;

/// The highest bit of a dword.
const TOP_BIT: u32 = 0x8000_0000;

/// The values of the seven flags (80386 Programmer's Reference Manual, 2.3.4).
#[derive(Clone, Copy, PartialEq, Eq)]
pub struct FlagValues {
    pub carry: bool,
    pub parity: bool,
    pub auxiliary: bool,
    pub zero: bool,
    pub sign: bool,
    pub direction: bool,
    pub overflow: bool,
}

/// The last operation that changed zero, sign and parity.
#[derive(Clone, Copy, PartialEq, Eq)]
enum Kind {
    /// ADD.
    Sum,
    /// SUB, CMP and NEG.
    Difference,
    /// AND, OR, XOR and TEST.
    Logic,
    Increment,
    Decrement,
    /// A shift, a rotate or a product.
    Shift,
    /// No operation: sign and parity are values.
    Values,
}

/// Where the carry flag comes from.
#[derive(Clone, Copy, PartialEq, Eq)]
enum Carry {
    Clear,
    Set,
    /// The sum of the operands.
    Sum,
    /// Their difference.
    Difference,
}

/// Where the auxiliary carry flag comes from.
#[derive(Clone, Copy, PartialEq, Eq)]
enum Auxiliary {
    Clear,
    Set,
    /// The sum of the operands.
    Sum,
    /// Their difference.
    Difference,
    /// The operand of INC.
    Increment,
    /// The operand of DEC.
    Decrement,
}

/// The seven flags, as the last operation and what it left. A contract sees their values. The bytes stand in an order in
/// which four of them beside each other are what an operation writes, or may write, so that one store does. The fields
/// leave no gaps, since a struct with gaps is copied through the stack.
#[derive(Drop)]
pub struct Flags {
    /// The operands of the last sum or difference, as dwords of the same sign.
    left: u32,
    right: u32,
    /// The operand of the last INC or DEC.
    counter: u32,
    /// The result of the last operation, as a dword of the same sign; zero exactly if the zero flag is set.
    result: u32,
    /// The parity flag after `Values`.
    parity: bool,
    carry: Carry,
    kind: Kind,
    overflow: Overflow,
    auxiliary: Auxiliary,
    /// The sign flag after `Values`.
    sign: bool,
    direction: bool,
    /// Fills a gap.
    gap: bool,
}

impl Model for Flags {
    ghost use Rattle.std.specs.Prelude.{◌==◌};
    ghost use Rattle.mx_flags.specs.declared.FlagValues.{FlagValues};
    ghost use Rattle.mx_flags.specs.Last.{carry_from, auxiliary_from, overflow_from, sign_from, parity_from, TellsLess};

    ghost Value = { FlagValues };

    ghost view = { λ f. record {
      carry = carry_from f.carry f.left f.right;
      parity = parity_from f.kind f.result f.parity;
      auxiliary = auxiliary_from f.auxiliary f.left f.right f.counter;
      zero = f.result == 0;
      sign = sign_from f.kind f.result f.sign;
      direction = f.direction;
      overflow = overflow_from f.overflow f.left f.right f.counter;
    } };

    ghost invariant = { λ f. TellsLess f.kind f.overflow f.left f.right f.counter f.result };
}

impl Flags {
    /// The flags with these values.
    #[inline(always)]
    fn from_values(values: FlagValues) -> Flags
        ensures { result ≡ values }
    {
        Flags {
            left: 0,
            right: 0,
            counter: 0,
            // The zero flag is read from the result alone, in one comparison: for a clear one any other number will
            // do.
            result: 1 - u32::from(values.zero),
            carry: carry_of(values.carry),
            kind: Kind::Values,
            overflow: overflow_of(values.overflow),
            auxiliary: auxiliary_of(values.auxiliary),
            direction: values.direction,
            sign: values.sign,
            parity: values.parity,
            gap: false,
        }
    }

    /// The values of the flags.
    #[inline(always)]
    pub fn values(&self) -> FlagValues
        ensures { result ≡ self.now }
    {
        FlagValues {
            carry: self.carry(),
            parity: self.parity(),
            auxiliary: self.auxiliary(),
            zero: self.zero(),
            sign: self.sign(),
            direction: self.direction(),
            overflow: self.overflow(),
        }
    }

    /// The flags that a word's bits name, as POPFD takes them. Other bits don't count.
    pub fn from_bits(bits: u32) -> Flags
        ensures { result ≡ values_of bits }
    {
        Flags::from_values(values_of(bits))
    }

    /// The word that PUSHFD stores.
    #[tactic(auto, using(crate::proofs::Bits::values_of_bits_of))]
    pub fn to_bits(&self) -> u32
        ensures value { result ≡ bits_of self.now }
        ensures back { values_of result ≡ self.now }
    {
        514 + u32::from(self.carry())
            + 4 * u32::from(self.parity())
            + 16 * u32::from(self.auxiliary())
            + 64 * u32::from(self.zero())
            + 128 * u32::from(self.sign())
            + 1024 * u32::from(self.direction())
            + 2048 * u32::from(self.overflow())
    }

    /// The flags with the byte that SAHF takes from AH for their low one.
    pub fn with_low_byte(&self, byte: u8) -> Flags
        ensures { result ≡ low_byte_flags byte self.now }
    {
        Flags::from_values(FlagValues {
            direction: self.direction(),
            overflow: self.overflow(),
            ..values_of(u32::from(byte))
        })
    }

    /// The byte that LAHF loads into AH.
    pub fn low_byte(&self) -> u8
        ensures { result ≡ bits_of self.now % 256 }
    {
        (self.to_bits() % 256) as u8
    }

    /// Another value with the same seven flags as this one, since `Flags` isn't `Copy`.
    #[inline(always)]
    pub fn copy(&self) -> Flags
        ensures { result ≡ self.now }
    {
        Flags {
            left: self.left,
            right: self.right,
            counter: self.counter,
            result: self.result,
            parity: self.parity,
            carry: self.carry,
            kind: self.kind,
            overflow: self.overflow,
            auxiliary: self.auxiliary,
            sign: self.sign,
            direction: self.direction,
            gap: self.gap,
        }
    }

    /// The carry flag, CF.
    #[inline(always)]
    pub fn carry(&self) -> bool
        ensures { result ≡ self.now.carry }
    {
        match self.carry {
            // The operands were extended by their signs, which keeps what leaves a byte or a word: so no size is
            // asked for.
            Carry::Difference => self.left < self.right,
            Carry::Sum => self.left.wrapping_add(self.right) < self.right,
            Carry::Clear => false,
            Carry::Set => true,
        }
    }

    /// The parity flag, PF.
    pub fn parity(&self) -> bool
        ensures { result ≡ self.now.parity }
    {
        match self.kind {
            Kind::Values => self.parity,
            _ => has_even_ones(self.result),
        }
    }

    /// The auxiliary carry flag, AF.
    pub fn auxiliary(&self) -> bool
        ensures { result ≡ self.now.auxiliary }
    {
        match self.auxiliary {
            Auxiliary::Difference => self.left % 16 < self.right % 16,
            Auxiliary::Sum => self.left % 16 + self.right % 16 >= 16,
            Auxiliary::Increment => self.counter % 16 == 15,
            Auxiliary::Decrement => self.counter % 16 == 0,
            Auxiliary::Clear => false,
            Auxiliary::Set => true,
        }
    }

    /// The zero flag, ZF.
    #[inline(always)]
    pub fn zero(&self) -> bool
        ensures { result ≡ self.now.zero }
    {
        self.result == 0
    }

    /// The sign flag, SF.
    #[inline(always)]
    pub fn sign(&self) -> bool
        ensures { result ≡ self.now.sign }
    {
        match self.kind {
            Kind::Values => self.sign,
            _ => self.result >= TOP_BIT,
        }
    }

    /// The direction flag, DF.
    pub fn direction(&self) -> bool
        ensures { result ≡ self.now.direction }
    {
        self.direction
    }

    /// The overflow flag, OF.
    #[inline(always)]
    pub fn overflow(&self) -> bool
        ensures { result ≡ self.now.overflow }
    {
        match self.overflow {
            Overflow::Clear => false,
            Overflow::Set => true,
            source => overflow_of_operands(source, self.left, self.right, self.counter),
        }
    }

    /// Whether the flags satisfy a condition, as Jcc asks.
    pub fn cond(&self, condition: Condition) -> bool
        ensures { result ≡ holds condition self.now }
    {
        match condition {
            Condition::Overflow => self.overflow(),
            Condition::NotOverflow => !self.overflow(),
            Condition::Below => self.carry(),
            Condition::NotBelow => !self.carry(),
            Condition::Zero => self.zero(),
            Condition::NotZero => !self.zero(),
            Condition::BelowOrEqual => self.is_below_or_equal(),
            Condition::NotBelowOrEqual => !self.is_below_or_equal(),
            Condition::Sign => self.sign(),
            Condition::NotSign => !self.sign(),
            Condition::Parity => self.parity(),
            Condition::NotParity => !self.parity(),
            Condition::Less => self.is_less(),
            Condition::NotLess => !self.is_less(),
            Condition::LessOrEqual => self.is_less_or_equal(),
            Condition::NotLessOrEqual => !self.is_less_or_equal(),
        }
    }

    #[inline(always)]
    fn is_below_or_equal(&self) -> bool
        ensures { result ≡ holds Condition.BelowOrEqual self.now }
    {
        self.carry() || self.zero()
    }

    #[inline(always)]
    fn is_less(&self) -> bool
        ensures { result ≡ is_less self.now }
    {
        match self.kind {
            // After a comparison, as mostly, the operands say it themselves.
            Kind::Difference => { signed(Size::Dword, self.left) < signed(Size::Dword, self.right) }
            _ => differ(self.sign(), self.overflow()),
        }
    }

    #[inline(always)]
    fn is_less_or_equal(&self) -> bool
        ensures { result ≡ holds Condition.LessOrEqual self.now }
    {
        self.zero() || self.is_less()
    }

    /// With this carry, as after CLC, STC and CMC.
    pub fn with_carry(&self, carry: bool) -> Flags
        ensures { result ≡ record self.now { carry = carry } }
    {
        let mut flags = self.copy();
        flags.set_carry(carry);
        flags
    }

    /// With this zero flag, as after BSF and BSR. Sign and parity stay.
    pub fn with_zero(&self, zero: bool) -> Flags
        ensures { result ≡ record self.now { zero = zero } }
    {
        Flags::from_values(FlagValues {
            zero,
            ..self.values()
        })
    }

    /// With this direction, as after CLD and STD.
    pub fn with_direction(&self, direction: bool) -> Flags
        ensures { result ≡ record self.now { direction = direction } }
    {
        Flags {
            direction,
            ..self.copy()
        }
    }

    /// With this carry and overflow, as after multiplications.
    #[inline(always)]
    pub fn with_carry_and_overflow(&self, carry: bool, overflow: bool) -> Flags
        ensures { result ≡ record self.now { carry = carry; overflow = overflow } }
    {
        let mut flags = self.copy();
        flags.set_carry(carry);
        flags.set_overflow(overflow);
        flags
    }

    /// With zero, sign and parity of a result.
    #[inline(always)]
    pub fn after_result(&self, size: Size, word: u32) -> Flags
        requires { word < 2 ^ width size }
        ensures { result ≡ result_flags (width size) word self.now }
    {
        let mut flags = self.copy();
        flags.show(size, word);
        flags
    }

    /// Sets the carry.
    #[inline(always)]
    pub fn set_carry(&mut self, carry: bool)
        ensures { self.new ≡ record self.old { carry = carry } }
    {
        self.carry = carry_of(carry);
    }

    /// Sets overflow. Sign and parity show the result as before.
    #[inline(always)]
    pub fn set_overflow(&mut self, overflow: bool)
        ensures { self.new ≡ record self.old { overflow = overflow } }
    {
        self.kind = without_operands(self.kind);
        self.overflow = overflow_of(overflow);
    }

    /// Sets zero, sign and parity to those of a result.
    #[tactic(auto, using(crate::proofs::Extended::extended_negative, crate::proofs::Extended::extended_zero, crate::proofs::Extended::extended_parity))]
    #[inline(always)]
    pub fn show(&mut self, size: Size, word: u32)
        requires { word < 2 ^ width size }
        ensures { self.new ≡ result_flags (width size) word self.old }
    {
        self.result = with_sign_extended(size, word);
        self.kind = Kind::Shift;
    }

    /// After AND, OR, XOR or TEST with this result.
    #[tactic(auto, using(crate::proofs::Extended::extended_negative, crate::proofs::Extended::extended_zero, crate::proofs::Extended::extended_parity))]
    #[inline(always)]
    pub fn after_logic(&self, size: Size, word: u32) -> Flags
        requires { word < 2 ^ width size }
        ensures { result ≡ logic_flags (width size) word self.now }
    {
        Flags {
            result: with_sign_extended(size, word),
            parity: false,
            carry: Carry::Clear,
            kind: Kind::Logic,
            overflow: Overflow::Clear,
            ..self.copy()
        }
    }

    /// After the sum of two words and a carry.
    #[tactic(auto, using(crate::proofs::Extended::extended_negative, crate::proofs::Extended::extended_zero, crate::proofs::Extended::extended_parity, crate::proofs::Wholes::sum_carry, crate::proofs::Wholes::sum_digit, crate::proofs::Wholes::sum_leaves))]
    #[inline(always)]
    pub fn after_add(&self, size: Size, x: u32, y: u32, carry: bool) -> Flags
        requires left { x < 2 ^ width size }
        requires right { y < 2 ^ width size }
        ensures { result ≡ add_flags (width size) x y (from_bool carry) self.now }
    {
        // Rare. A sum of three isn't found again from two operands.
        if carry {
            return Flags::from_values(self.sum_values(size, x, y, carry));
        }
        Flags {
            left: with_sign_extended(size, x),
            right: with_sign_extended(size, y),
            result: with_sign_extended(size, add_w(size, x, y, false)),
            carry: Carry::Sum,
            kind: Kind::Sum,
            overflow: of_sum(size),
            auxiliary: Auxiliary::Sum,
            ..self.copy()
        }
    }

    /// After the difference of two words and a borrow.
    #[tactic(auto, using(crate::proofs::Extended::extended_negative, crate::proofs::Extended::extended_zero, crate::proofs::Extended::extended_parity, crate::proofs::Wholes::difference_carry, crate::proofs::Wholes::difference_digit, crate::proofs::Wholes::difference_leaves, crate::proofs::Wholes::difference_less))]
    #[inline(always)]
    pub fn after_sub(&self, size: Size, x: u32, y: u32, borrow: bool) -> Flags
        requires left { x < 2 ^ width size }
        requires right { y < 2 ^ width size }
        ensures { result ≡ sub_flags (width size) x y (from_bool borrow) self.now }
    {
        if borrow {
            return Flags::from_values(self.difference_values(size, x, y, borrow));
        }
        Flags {
            left: with_sign_extended(size, x),
            right: with_sign_extended(size, y),
            result: with_sign_extended(size, sub_w(size, x, y, false)),
            carry: Carry::Difference,
            kind: Kind::Difference,
            overflow: of_difference(size),
            auxiliary: Auxiliary::Difference,
            ..self.copy()
        }
    }

    /// After INC of a word. The carry stays.
    #[tactic(auto, using(crate::proofs::Extended::extended_negative, crate::proofs::Extended::extended_zero, crate::proofs::Extended::extended_parity, crate::proofs::Wholes::increment_digit, crate::proofs::Wholes::increment_leaves))]
    #[inline(always)]
    pub fn after_increment(&self, size: Size, x: u32) -> Flags
        requires { x < 2 ^ width size }
        ensures { result ≡ increment_flags (width size) x self.now }
    {
        Flags {
            counter: x,
            result: with_sign_extended(size, add_w(size, x, 1, false)),
            kind: Kind::Increment,
            overflow: of_increment(size),
            auxiliary: Auxiliary::Increment,
            sign: false,
            ..self.copy()
        }
    }

    /// After DEC of a word. The carry stays.
    #[tactic(auto, using(crate::proofs::Extended::extended_negative, crate::proofs::Extended::extended_zero, crate::proofs::Extended::extended_parity, crate::proofs::Wholes::decrement_digit, crate::proofs::Wholes::decrement_leaves))]
    #[inline(always)]
    pub fn after_decrement(&self, size: Size, x: u32) -> Flags
        requires { x < 2 ^ width size }
        ensures { result ≡ decrement_flags (width size) x self.now }
    {
        Flags {
            counter: x,
            result: with_sign_extended(size, sub_w(size, x, 1, false)),
            kind: Kind::Decrement,
            overflow: of_decrement(size),
            auxiliary: Auxiliary::Decrement,
            sign: false,
            ..self.copy()
        }
    }

    #[inline(always)]
    fn sum_values(&self, size: Size, x: u32, y: u32, carry: bool) -> FlagValues
        requires left { x < 2 ^ width size }
        requires right { y < 2 ^ width size }
        ensures { result ≡ add_flags (width size) x y (from_bool carry) self.now }
    {
        let whole = sum(i64::from(x), i64::from(y), carry);
        let signs = sum(signed(size, x), signed(size, y), carry);
        let low = sum(i64::from(x % 16), i64::from(y % 16), carry);
        self.arithmetic_values(size, whole, signs, low)
    }

    #[inline(always)]
    fn difference_values(&self, size: Size, x: u32, y: u32, borrow: bool) -> FlagValues
        requires left { x < 2 ^ width size }
        requires right { y < 2 ^ width size }
        ensures { result ≡ sub_flags (width size) x y (from_bool borrow) self.now }
    {
        let whole = difference(i64::from(x), i64::from(y), borrow);
        let signs = difference(signed(size, x), signed(size, y), borrow);
        let low = difference(i64::from(x % 16), i64::from(y % 16), borrow);
        self.arithmetic_values(size, whole, signs, low)
    }

    #[inline(always)]
    fn arithmetic_values(&self, size: Size, whole: i64, signs: i64, low: i64) -> FlagValues
        ensures { result ≡ arithmetic_flags (width size) whole signs low self.now }
    {
        FlagValues {
            carry: size.leaves_unsigned(whole),
            overflow: size.leaves_signed(signs),
            auxiliary: leaves_low_digit(low),
            ..self.result_values(size, size.modulo(whole))
        }
    }

    #[inline(always)]
    fn result_values(&self, size: Size, word: u32) -> FlagValues
        ensures { result ≡ result_flags (width size) word self.now }
    {
        FlagValues {
            zero: word == 0,
            sign: size.is_negative(word),
            parity: has_even_ones(word),
            ..self.values()
        }
    }
}

/// A carry that is known.
#[inline(always)]
fn carry_of(carry: bool) -> Carry
    ensures { (x y : ℕ) → carry_from result x y ≡ carry }
{
    if carry { Carry::Set } else { Carry::Clear }
}

/// An auxiliary carry that is known.
#[inline(always)]
fn auxiliary_of(auxiliary: bool) -> Auxiliary
    ensures { (x y n : ℕ) → auxiliary_from result x y n ≡ auxiliary }
{
    if auxiliary {
        Auxiliary::Set
    } else {
        Auxiliary::Clear
    }
}

/// A kind that says nothing of operands. Sign and parity are as before.
#[inline(always)]
fn without_operands(kind: Kind) -> Kind
    ensures shown { (shown given : Bool)
        → shown_from result shown given ≡ shown_from kind shown given }
    ensures other { result ≢ Kind.Difference }
{
    match kind {
        Kind::Values => Kind::Values,
        _ => Kind::Shift,
    }
}

/// A word as a dword of the same sign.
#[inline(always)]
fn with_sign_extended(size: Size, word: u32) -> u32
    requires { word < 2 ^ width size }
    ensures { result ≡ extended (width size) word }
{
    match size {
        Size::Byte => i32::from((word as u8).cast_signed()).cast_unsigned(),
        Size::Word => i32::from((word as u16).cast_signed()).cast_unsigned(),
        Size::Dword => word,
    }
}

fn values_of(bits: u32) -> FlagValues
    ensures { result ≡ values_of bits }
{
    FlagValues {
        carry: bits % 2 == 1,
        parity: bits / 4 % 2 == 1,
        auxiliary: bits / 16 % 2 == 1,
        zero: bits / 64 % 2 == 1,
        sign: bits / 128 % 2 == 1,
        direction: bits / 1024 % 2 == 1,
        overflow: bits / 2048 % 2 == 1,
    }
}

/// Whether a number is outside 0 to 15.
fn leaves_low_digit(whole: i64) -> bool
    ensures { result ≡ leaves_unsigned 4 whole }
{
    whole < 0 || whole >= 16
}
