//! The encoding that is chosen for an instruction and its marks. The match over the instructions is in two
//! functions, since one takes too long to prove.

ghost use Rattle.std.specs.Prelude.{◌≡◌, true, Ok};
ghost use Rattle.mx_insn.specs.Families.{is_calculation};
ghost use Rattle.mx_encode.specs.Choice.{choice};
ghost use Rattle.mx_encode.specs.Given.{GivesBytes, Fits};

use crate::forms::Encoding;
use crate::{NoForm, Wide, accumulator, bits, jumps, operands, single};
use mx_insn::{Insn, Repeat};

/// The encoding that is chosen for an instruction. Only how far LOOP and JECXZ go can rule one out.
pub fn form_of(insn: Insn, wide: Wide) -> Result<Encoding, NoForm>
    ensures form { GivesBytes result (choice insn wide) }
    ensures fits { Fits insn }
{
    match insn {
        Insn::JumpIf {
            condition,
            displacement,
        } => Ok(jumps::jump_if(condition, displacement, wide.displacement_form())),
        Insn::Jump(displacement) => Ok(jumps::jump(displacement, wide.displacement_form())),
        Insn::Call(displacement) => Ok(jumps::call(displacement)),
        Insn::JumpTo(operand) => Ok(jumps::jump_to(operand)),
        Insn::CallTo(operand) => Ok(jumps::call_to(operand)),
        Insn::Loop {
            operation,
            displacement,
        } => jumps::looping(operation, displacement),
        Insn::Return(number) => Ok(jumps::returning(number)),
        Insn::Interrupt(number) => Ok(jumps::interrupt(number)),
        Insn::Transfer {
            operation,
            size,
            repeated,
        } => {
            let repeat = if repeated { Some(Repeat::Repe) } else { None };
            Ok(accumulator::transfer(operation, size, repeat))
        }
        Insn::Compare {
            operation,
            size,
            repeat,
        } => Ok(accumulator::compare(operation, size, repeat)),
        Insn::In { size, port } => Ok(accumulator::input(size, port)),
        Insn::Out { size, port } => Ok(accumulator::output(size, port)),
        Insn::Plain(operation) => Ok(accumulator::plain(operation)),
        _ => Ok(calculation_form(insn, wide)),
    }
}

/// The encoding of an instruction that `form_of` leaves: it moves, tests or calculates.
fn calculation_form(insn: Insn, wide: Wide) -> Encoding
    requires calculation { is_calculation insn ≡ true }
    ensures form { GivesBytes (Ok result) (choice insn wide) }
    ensures fits { Fits insn }
{
    match insn {
        Insn::Arithmetic {
            operation,
            operands,
        } => operands::arithmetic(operation, operands, wide.immediate_form()),
        Insn::Move(operands) => operands::movement(operands),
        Insn::Test {
            size,
            operand,
            register,
        } => operands::test(size, operand, register),
        Insn::TestImmediate { operand, value } => operands::test_immediate(operand, value),
        Insn::Exchange {
            size,
            operand,
            register,
        } => operands::exchange(size, operand, register),
        Insn::LoadAddress { size, to, memory } => operands::load_address(size, to, memory),
        Insn::Unary {
            operation,
            size,
            operand,
        } => single::unary(operation, size, operand),
        Insn::Product {
            operation,
            size,
            operand,
        } => single::product(operation, size, operand),
        Insn::Multiply { size, to, from } => operands::multiply(size, to, from),
        Insn::MultiplyImmediate { to, from, by } => {
            operands::multiply_immediate(to, from, by, wide.immediate_form())
        }
        Insn::Shift {
            operation,
            size,
            operand,
            count,
        } => single::shift(operation, size, operand, count),
        Insn::DoubleShift {
            operation,
            operand,
            register,
            count,
        } => bits::double_shift(operation, operand, register, count),
        Insn::BitTest {
            operation,
            operand,
            number,
        } => bits::bit_test(operation, operand, number),
        Insn::BitTestRegister {
            operation,
            register,
            number,
        } => bits::register_bit_test(operation, register, number),
        Insn::BitScan {
            operation,
            to,
            from,
        } => bits::bit_scan(operation, to, from),
        Insn::ZeroExtend {
            extension,
            to,
            from,
        } => operands::zero_extend(extension, to, from),
        Insn::SignExtend {
            extension,
            to,
            from,
        } => operands::sign_extend(extension, to, from),
        Insn::SetCondition { condition, operand } => single::set_condition(condition, operand),
        Insn::Push(operand) => single::push(operand),
        Insn::PushImmediate(number) => single::push_immediate(number, wide.immediate_form()),
        Insn::Pop(register) => single::pop(register),
        Insn::ExtendAccumulator(size) => accumulator::extend_accumulator(size),
        Insn::SpreadSign(size) => accumulator::spread_sign(size),
        _ => unreachable!(),
    }
}
