//! One step.

ghost use Rattle.std.specs.Prelude.{◌≡◌, ℕ, true, drop, Ok, Err};
ghost use Rattle.mx_decode.specs.Decode.{front};
ghost use Rattle.mx_insn.specs.Families.{is_calculation};
ghost use Rattle.mx_exec.specs.Families.{is_move};
ghost use Rattle.mx_exec.specs.Image.{code_bytes, Performs};
ghost use Rattle.mx_exec.specs.Ending.{Leads};
ghost use Rattle.mx_exec.specs.Lasting.{lasting};
ghost use Rattle.mx_exec.specs.Step.{after, outcome_of, one_step};
ghost use Rattle.mx_exec.specs.Text.{Fetches};

use crate::bits::Filler;
use crate::image::dword_sum;
use crate::{
    Image, InsnEnd, Outcome, Place, arithmetic, bits, jumps, moves, plain, settle, stack, strings,
};
use mx_alu::Signedness;
use mx_decode::DecodeFault;
use mx_insn::{Insn, Plain};
use mx_mem::{GENERAL_PROTECTION, INVALID_OPCODE, Vector};

/// How a step ends that performs an instruction with no fault.
pub fn outcome(insn: &Insn) -> Outcome
    ensures { result ≡ outcome_of insn.now }
{
    match insn {
        Insn::Interrupt(33) => Outcome::Trap,
        _ => Outcome::Go,
    }
}

/// Performs an instruction that moves data, and tests and calculates nothing.
fn move_data(image: &mut Image, insn: &Insn) -> InsnEnd
    requires { is_move insn.now ≡ true }
    ensures { (next : ℕ) → Leads next image.old (after insn.now next image.old) result image.new }
{
    match insn {
        Insn::Move(operands) => moves::move_operand(image, operands),
        Insn::Exchange {
            size,
            operand,
            register,
        } => moves::exchange(image, *size, operand, *register),
        Insn::LoadAddress { size, to, memory } => {
            let at = memory.spot(&image.regs);
            moves::load_address(image, size.size(), *to, at)
        }
        Insn::ZeroExtend {
            extension,
            to,
            from,
        } => moves::extend_into(image, Signedness::Unsigned, *extension, *to, from),
        Insn::SignExtend {
            extension,
            to,
            from,
        } => moves::extend_into(image, Signedness::Signed, *extension, *to, from),
        Insn::Push(operand) => stack::push_from(image, operand),
        Insn::PushImmediate(value) => stack::push(image, *value),
        Insn::Pop(register) => stack::pop(image, *register),
        Insn::ExtendAccumulator(size) => moves::extend_accumulator(image, *size),
        Insn::SpreadSign(size) => moves::spread_accumulator(image, *size),
        _ => unreachable!(),
    }
}

/// Performs an instruction that moves, tests or calculates.
fn calculate(image: &mut Image, insn: &Insn) -> InsnEnd
    requires { is_calculation insn.now ≡ true }
    ensures { (next : ℕ) → Leads next image.old (after insn.now next image.old) result image.new }
{
    match insn {
        Insn::Arithmetic {
            operation,
            operands,
        } => arithmetic::operate_on(image, *operation, operands),
        Insn::Test {
            size,
            operand,
            register,
        } => arithmetic::test(image, *size, operand, register),
        Insn::TestImmediate { operand, value } => {
            arithmetic::test(image, value.size(), operand, value)
        }
        Insn::Unary {
            operation,
            size,
            operand,
        } => arithmetic::operate_alone(image, *operation, *size, operand),
        Insn::Product {
            operation,
            size,
            operand,
        } => arithmetic::product(image, *operation, *size, operand),
        Insn::Multiply { size, to, from } => {
            arithmetic::multiply_into(image, size.size(), *to, to, from)
        }
        Insn::MultiplyImmediate { to, from, by } => {
            arithmetic::multiply_into(image, by.size(), *to, from, by)
        }
        Insn::Shift {
            operation,
            size,
            operand,
            count,
        } => arithmetic::shift_by(image, *operation, *size, operand, *count),
        Insn::DoubleShift {
            operation,
            operand,
            register,
            count,
        } => {
            let filler = Filler {
                register: *register,
                count: *count,
            };
            bits::shift_double(image, *operation, operand, filler)
        }
        Insn::BitTest {
            operation,
            operand,
            number,
        } => bits::test_bit(image, *operation, operand, u32::from(*number)),
        Insn::BitTestRegister {
            operation,
            register,
            number,
        } => {
            let number = image.register(*number);
            bits::test_bit(image, *operation, register, number)
        }
        Insn::BitScan {
            operation,
            to,
            from,
        } => bits::scan(image, *operation, *to, from),
        Insn::SetCondition { condition, operand } => {
            moves::set_condition(image, *condition, operand)
        }
        _ => move_data(image, insn),
    }
}

/// Performs an instruction, or answers its vector and changes nothing. Inlined, so that a step has
/// no registers to save.
#[inline(always)]
pub fn perform(image: &mut Image, insn: &Insn, next: u32) -> Result<(), Vector>
    ensures { Performs image.old (after insn.now next image.old) result image.new }
{
    match insn {
        Insn::JumpIf {
            condition,
            displacement,
        } => { jumps::jump_if(image, *condition, *displacement, next) }
        Insn::Jump(displacement) => image.jump(dword_sum(next, *displacement)),
        Insn::Call(displacement) => {
            let limit = image.code_limit();
            let end = jumps::call(image, dword_sum(next, *displacement), next, limit);
            settle(image, end, next)
        }
        Insn::JumpTo(operand) => {
            let end = jumps::jump_to(image, operand, image.code_limit());
            settle(image, end, next)
        }
        Insn::CallTo(operand) => {
            let limit = image.code_limit();
            let end = jumps::call_to(image, operand, next, limit);
            settle(image, end, next)
        }
        Insn::Loop {
            operation,
            displacement,
        } => { jumps::loop_to(image, *operation, *displacement, next) }
        Insn::Return(count) => {
            let limit = image.code_limit();
            let end = jumps::return_from(image, *count, limit);
            settle(image, end, next)
        }
        Insn::Interrupt(number) => jumps::interrupt(image, *number, next),
        Insn::Transfer {
            operation,
            size,
            repeated,
        } => {
            if *repeated {
                strings::repeat_transfer(image, *operation, *size, next)
            } else {
                strings::transfer(image, *operation, *size, next)
            }
        }
        Insn::Compare {
            operation,
            size,
            repeat,
        } => { strings::compare(image, *operation, *size, *repeat, next) }
        Insn::In { .. } | Insn::Out { .. } => Err(GENERAL_PROTECTION),
        Insn::Plain(operation) => plain::perform_plain(image, *operation, next),
        _ => {
            let end = calculate(image, insn);
            settle(image, end, next)
        }
    }
}

/// Performs what was fetched at EIP, or answers the fault that the fetch found.
#[inline(always)]
pub fn act(image: &mut Image, insn: &Insn, fetched: Result<u8, DecodeFault>) -> Outcome
    requires { Fetches (front (drop image.old.eip (code_bytes image.old))) fetched insn.now }
    ensures outcome { result ≡ (one_step image.old).0 }
    ensures image { image.new ≡ (one_step image.old).1 }
    ensures lasting { lasting image.new ≡ lasting image.old }
{
    match fetched {
        Ok(length) => {
            let next = dword_sum(image.eip, u32::from(length));
            match perform(image, insn, next) {
                Ok(()) => outcome(insn),
                Err(vector) => Outcome::Fault(vector),
            }
        }
        Err(DecodeFault::Short) => Outcome::Fault(GENERAL_PROTECTION),
        Err(DecodeFault::NotInTable) => Outcome::Fault(INVALID_OPCODE),
    }
}

/// One step of a process: the instruction at EIP, or one iteration of a repeated string
/// instruction. A fault changes nothing.
#[inline(always)]
pub fn step(image: &mut Image) -> Outcome
    ensures outcome { result ≡ (one_step image.old).0 }
    ensures image { image.new ≡ (one_step image.old).1 }
    ensures lasting { lasting image.new ≡ lasting image.old }
{
    let mut insn = Insn::Plain(Plain::Nop);
    let fetched = image.fetch(&mut insn);
    act(image, &insn, fetched)
}
