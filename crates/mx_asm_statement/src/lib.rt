//! A line of assembler: its tokens, the `Statement` with `Argument`s that they form, the spot of what is wrong,
//! and the instruction that it names.
//!
//! # A line means what its items say
//!
//! A line goes through four steps, each a function with its own definition: tokens become `Item`s (`sorting`), items
//! `Argument`s (`argument`: a register, a number, a place in memory), the first word chooses a form (`form`), and the
//! form makes of the arguments a `Statement`, or none. No step looks back, and none knows an address or another line. So
//! a name in place of a number stays a name: the second pass of the assembler (`mx_asm`) puts its value in.
//!
//! # Why forms, and no table
//!
//! The table of spellings (`mx_insn`) says which bytes an instruction has, and a text leaves bytes open: `add eax, 5`
//! has several. A form (`move_forms`, `stack`, `bits` and their like) makes an `Insn` of arguments, for as many
//! instructions as are written alike, and `mx_encode` chooses the bytes. Which arguments a word takes is said once, in
//! the definition of its form; all others are `Reason::NoForm`.
//!
//! # Invariant
//!
//! An `Instruction` has bytes: `Instruction::new` answers none for one that indexes by ESP. A number that has a name is
//! 0 in it and is marked wide. So neither its length nor whether it has a form depends on an address, and one layout of
//! the text is enough.
//!
//! # What it costs
//!
//! One pass over a line, and memory for its tokens and its items, which is let go with them.
#![tactic(auto)]

mod argument;
mod bits;
mod branch;
mod data;
mod form;
mod instruction;
mod item;
mod line;
mod line_laws;
mod list;
mod memory;
mod move_forms;
mod number;
mod opening;
mod operations;
mod pair;
mod sized_operand;
mod sorting;
mod stack;
mod statement;
mod statement_reading;
mod statements;
mod transfers;
mod value;
mod value_items;

pub use argument::{Argument, argument_of};
pub use branch::{Branch, JumpLength};
pub use data::data_of;
pub use form::{statement_after_prefix, statement_for};
pub use instruction::Instruction;
pub use item::{Item, is_long};
pub use line::{Line, Reason, Saying, StatementStart, refusal};
pub use line_laws::{line_or_fault, one_line};
pub use list::{arguments_of, split_at_comma};
pub use memory::{Address, address_of};
pub use move_forms::{exchange, load_address, sign_extend, zero_extend};
pub use mx_text::Name;
pub use number::{immediate_in, names_no_other, number_in, waiting};
pub use pair::{Pair, operands_of};
pub use sized_operand::{
    SizedOperand, goes, memory_named, not_byte, says, spot_beside, spot_of, spot_of_size,
};
pub use sorting::{is_dotted, item_of, items_of, token_bytes};
pub use statement::{DataValues, Section, Statement};
pub use statement_reading::read_line;
pub use transfers::{call, jump, jump_if, looping};
pub use value::Value;
pub use value_items::value_of;
