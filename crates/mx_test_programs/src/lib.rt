//! Only tests: worked rows of instructions, the assembler, files, listings, and packets of gdb.
#![tactic(auto)]

#[cfg(test)]
mod aout;
#[cfg(test)]
mod around;
#[cfg(test)]
mod asm;
#[cfg(test)]
mod bytes;
#[cfg(test)]
mod compare;
#[cfg(test)]
mod dis;
#[cfg(test)]
mod encode;
#[cfg(test)]
mod form;
#[cfg(test)]
mod image;
#[cfg(test)]
mod lex;
#[cfg(test)]
mod load;
#[cfg(test)]
mod operand;
#[cfg(test)]
mod packets;
#[cfg(test)]
mod printed;
#[cfg(test)]
mod segment;
#[cfg(test)]
mod sound_lines;
#[cfg(test)]
mod statement;
#[cfg(test)]
mod statement_words;
