//! The eight registers of 32 bits, `Regs`, and their low halves and bytes.
#![tactic(auto)]

ghost use Rattle.std.specs.Prelude.{◌≡◌, ◌<◌, ◌^◌};
ghost use Rattle.mx_word.specs.Names.{register_number};
ghost use Rattle.mx_word.specs.Word.{width};
ghost use Rattle.mx_regs.specs.Regs.{word_of_register, with_word, register_at, with_register, byte_home, is_second_byte, no_words};

use mx_word::{Register, Size};
use std::marker::Model;

/// The eight general registers of 32 bits, with their words and bytes (80386 Programmer's
/// Reference Manual, 2.3.1).
#[derive(Drop)]
pub struct Regs {
    words: [u32; 8],
}

impl Model for Regs {
    ghost use Rattle.mx_regs.specs.RegisterValues.{RegisterValues, words_of};

    ghost Value = { RegisterValues };

    ghost view = { λ r. words_of r.words };
}

impl Regs {
    /// The eight general registers, all zero.
    pub fn new() -> Regs
        ensures { result ≡ no_words }
    {
        Regs { words: [0; 8] }
    }

    #[inline(always)]
    fn word(&self, register: Register) -> u32
        ensures { result ≡ word_of_register self.now register }
    {
        self.words[register.number() as usize]
    }

    #[inline(always)]
    fn set_word(&mut self, register: Register, word: u32)
        ensures { self.new ≡ with_word self.old register word }
    {
        self.words[register.number() as usize] = word;
    }

    /// The value of a register, byte, word or dword.
    #[inline(always)]
    pub fn get(&self, size: Size, register: Register) -> u32
        ensures value { result ≡ register_at self.now size register }
        ensures below { result < 2 ^ width size }
    {
        match size {
            Size::Byte => {
                let word = self.words[byte_home(register)];
                if is_second_byte(register) {
                    word / 0x100 % 0x100
                } else {
                    word % 0x100
                }
            }
            Size::Word => self.word(register) % 0x1_0000,
            Size::Dword => self.word(register),
        }
    }

    /// Sets the register of a size; the other bits stay.
    #[inline(always)]
    pub fn set(&mut self, size: Size, register: Register, value: u32)
        requires { value < 2 ^ width size }
        ensures { self.new ≡ with_register self.old size register value }
    {
        match size {
            Size::Byte => {
                let home = byte_home(register);
                let word = self.words[home];
                self.words[home] = if is_second_byte(register) {
                    word / 0x1_0000 * 0x1_0000 + value * 0x100 + word % 0x100
                } else {
                    word / 0x100 * 0x100 + value
                };
            }
            Size::Word => self.set_word(
                register,
                self.word(register) / 0x1_0000 * 0x1_0000 + value,
            ),
            Size::Dword => self.set_word(register, value),
        }
    }
}

/// The index of the register that has the byte: AL and AH, with the numbers 0 and 4, are in the first.
#[inline(always)]
fn byte_home(register: Register) -> usize
    ensures { result ≡ register_number (byte_home register) }
{
    (register.number() % 4) as usize
}

/// Whether the byte is the second of its register: AH, CH, DH or BH.
fn is_second_byte(register: Register) -> bool
    ensures { result ≡ is_second_byte register }
{
    register.number() >= 4
}
