//! Arithmetic, logic, shifts, multiplication and division of operands in whatever form.

#![tactic(auto, unfolding(crate::specs::Ending::Leads))]

ghost use Rattle.std.specs.Prelude.{◌≡◌, ℕ, Ok};
ghost use Rattle.mx_exec.specs.Accumulator.{division_of_kind, product_of_kind, upper_register};
ghost use Rattle.mx_exec.specs.Ending.{Leads};
ghost use Rattle.mx_exec.specs.Step.{after, count_of_shift, multiplied_into, operated, product_by, tested};

use crate::{Image, InsnEnd, Place, Source};
use mx_alu::{
    DivideFault, Signedness, alu, divide, multiply, multiply_low, shift, shift_in_place, unary,
};
use mx_insn::{Count, Insn, Operand, Operands, Product};
use mx_mem::DIVIDE_ERROR;
use mx_word::{Arithmetic, Register, Shift, Size, Unary};

/// An operation on two operands. The result of CMP is kept nowhere.
#[inline(always)]
pub fn operate<P: Place, S: Source>(
    image: &mut Image,
    operation: Arithmetic,
    size: Size,
    to: &P,
    from: &S,
) -> InsnEnd
    requires { S.Fits from.now size }
    ensures { (next : ℕ) → Leads next image.old
        (operated operation (P.operand to.now) size (S.read from.now image.old size) next image.old) result image.new }
{
    let (at, x, y) = match to.load_both(image, size, from) {
        Ok(values) => values,
        Err(vector) => return InsnEnd::Fault(vector),
    };
    let (value, flags) = alu(operation, size, x, y, &image.flags);
    match operation {
        Arithmetic::Cmp => {
            image.flags = flags;
            InsnEnd::Next
        }
        _ => to.store_result(image, at, size, (value, flags)),
    }
}

/// An operation on two operands, compiled for each size.
fn operate_by_size<P: Place, S: Source>(
    image: &mut Image,
    operation: Arithmetic,
    size: Size,
    to: &P,
    from: &S,
) -> InsnEnd
    requires { S.Fits from.now size }
    ensures { (next : ℕ) → Leads next image.old
        (operated operation (P.operand to.now) size (S.read from.now image.old size) next image.old) result image.new }
{
    match size {
        Size::Byte => operate(image, operation, Size::Byte, to, from),
        Size::Word => operate(image, operation, Size::Word, to, from),
        Size::Dword => operate(image, operation, Size::Dword, to, from),
    }
}

/// An operation on the two operands of a decoded instruction.
pub fn operate_on(image: &mut Image, operation: Arithmetic, operands: &Operands) -> InsnEnd
    ensures { (next : ℕ) → Leads next image.old
        (after (Insn.Arithmetic operation operands.now) next image.old) result image.new }
{
    match operands {
        Operands::ToRegister { size, to, from } => {
            operate_by_size(image, operation, *size, to, from)
        }
        Operands::ToMemory { size, to, from } => operate_by_size(image, operation, *size, to, from),
        Operands::Immediate { to, value } => {
            operate_by_size(image, operation, value.size(), to, value)
        }
    }
}

/// TEST: the flags of AND.
#[inline(always)]
pub fn test<P: Source, S: Source>(image: &mut Image, size: Size, one: &P, other: &S) -> InsnEnd
    requires one { P.Fits one.now size }
    requires other { S.Fits other.now size }
    ensures { (next : ℕ) → Leads next image.old
        (tested size (P.read one.now image.old size) (S.read other.now image.old size) next image.old) result image.new }
{
    let x = match one.value(image, size) {
        Ok(x) => x,
        Err(vector) => return InsnEnd::Fault(vector),
    };
    let y = match other.value(image, size) {
        Ok(y) => y,
        Err(vector) => return InsnEnd::Fault(vector),
    };
    let (_, flags) = alu(Arithmetic::And, size, x, y, &image.flags);
    image.flags = flags;
    InsnEnd::Next
}

/// An operation on one operand.
#[inline(always)]
pub fn operate_alone<P: Place>(image: &mut Image, operation: Unary, size: Size, to: &P) -> InsnEnd
    ensures { (next : ℕ) → Leads next image.old
        (after (Insn.Unary operation size (P.operand to.now)) next image.old) result image.new }
{
    let at = to.spot(&image.regs);
    match to.load(image, at, size) {
        Ok(x) => {
            let result = unary(operation, size, x, &image.flags);
            to.store_result(image, at, size, result)
        }
        Err(vector) => InsnEnd::Fault(vector),
    }
}

/// How far a shift goes.
#[inline(always)]
pub fn count_of(image: &Image, count: Count) -> u32
    ensures { result ≡ count_of_shift count image.now }
{
    match count {
        Count::Cl => image.regs.get(Size::Byte, Register::Ecx),
        Count::Immediate(number) => u32::from(number),
    }
}

/// A shift or a rotate.
#[inline(always)]
pub fn shift_by<P: Place>(
    image: &mut Image,
    operation: Shift,
    size: Size,
    to: &P,
    count: Count,
) -> InsnEnd
    ensures { (next : ℕ) → Leads next image.old
        (after (Insn.Shift operation size (P.operand to.now) count) next image.old) result image.new }
{
    let at = to.spot(&image.regs);
    match to.load(image, at, size) {
        Ok(x) => {
            let places = count_of(image, count);
            let result = shift(operation, size, x, places, &image.flags);
            to.store_result(image, at, size, result)
        }
        Err(vector) => InsnEnd::Fault(vector),
    }
}

/// A shift or a rotate of a register.
#[inline(always)]
pub fn shift_register(
    image: &mut Image,
    operation: Shift,
    size: Size,
    to: Register,
    count: Count,
) -> InsnEnd
    ensures { (next : ℕ) → Leads next image.old
        (after (Insn.Shift operation size (Operand.Register to) count) next image.old)
        result image.new }
{
    let x = image.regs.get(size, to);
    let places = count_of(image, count);
    let moved = shift_in_place(operation, size, x, places, &mut image.flags);
    image.regs.set(size, to, moved);
    InsnEnd::Next
}

// ---- the accumulator

/// What is above the accumulator: AH, DX or EDX. Registers of a byte are AL, CL, DL, BL, then AH, CH, DH, BH: so
/// number 4, which is ESP at the other sizes, is AH.
#[inline(always)]
fn upper_register(size: Size) -> Register
    ensures { result ≡ upper_register size }
{
    match size {
        Size::Byte => Register::Esp,
        Size::Word | Size::Dword => Register::Edx,
    }
}

/// MUL or IMUL of the accumulator.
#[inline(always)]
pub fn multiply_by<S: Source>(image: &mut Image, kind: Signedness, size: Size, by: &S) -> InsnEnd
    requires { S.Fits by.now size }
    ensures { (next : ℕ) → Leads next image.old
        (product_by (product_of_kind kind) size (S.read by.now image.old size) next image.old) result image.new }
{
    match by.value(image, size) {
        Ok(y) => {
            let x = image.regs.get(size, Register::Eax);
            let (product, flags) = multiply(kind, size, x, y, &image.flags);
            image.flags = flags;
            image.regs.set(size, Register::Eax, product.low);
            image.regs.set(size, upper_register(size), product.high);
            InsnEnd::Next
        }
        Err(vector) => InsnEnd::Fault(vector),
    }
}

/// DIV or IDIV of the accumulator.
#[inline(always)]
pub fn divide_by<S: Source>(image: &mut Image, kind: Signedness, size: Size, by: &S) -> InsnEnd
    requires { S.Fits by.now size }
    ensures { (next : ℕ) → Leads next image.old
        (product_by (division_of_kind kind) size (S.read by.now image.old size) next image.old) result image.new }
{
    let y = match by.value(image, size) {
        Ok(y) => y,
        Err(vector) => return InsnEnd::Fault(vector),
    };
    let high = image.regs.get(size, upper_register(size));
    let low = image.regs.get(size, Register::Eax);
    match divide(kind, size, high, low, y) {
        Ok(division) => {
            image.regs.set(size, Register::Eax, division.quotient);
            image
                .regs
                .set(size, upper_register(size), division.remainder);
            InsnEnd::Next
        }
        Err(DivideFault) => InsnEnd::Fault(DIVIDE_ERROR),
    }
}

/// MUL, IMUL, DIV or IDIV of the accumulator.
pub fn product<S: Source>(image: &mut Image, operation: Product, size: Size, by: &S) -> InsnEnd
    requires { S.Fits by.now size }
    ensures { (next : ℕ) → Leads next image.old
        (product_by operation size (S.read by.now image.old size) next image.old) result image.new }
{
    match operation {
        Product::Mul => multiply_by(image, Signedness::Unsigned, size, by),
        Product::Imul => multiply_by(image, Signedness::Signed, size, by),
        Product::Div => divide_by(image, Signedness::Unsigned, size, by),
        Product::Idiv => divide_by(image, Signedness::Signed, size, by),
    }
}

/// IMUL into a register.
#[inline(always)]
pub fn multiply_into<X: Source, Y: Source>(
    image: &mut Image,
    size: Size,
    to: Register,
    one: &X,
    other: &Y,
) -> InsnEnd
    requires one { X.Fits one.now size }
    requires other { Y.Fits other.now size }
    ensures { (next : ℕ) → Leads next image.old
        (multiplied_into size to (X.read one.now image.old size) (Y.read other.now image.old size) next image.old) result image.new }
{
    let y = match other.value(image, size) {
        Ok(y) => y,
        Err(vector) => return InsnEnd::Fault(vector),
    };
    let x = match one.value(image, size) {
        Ok(x) => x,
        Err(vector) => return InsnEnd::Fault(vector),
    };
    let (product, flags) = multiply_low(size, x, y, &image.flags);
    image.flags = flags;
    image.regs.set(size, to, product);
    InsnEnd::Next
}
