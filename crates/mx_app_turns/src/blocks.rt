//! How blocks are printed: positions in a row whose trials are printed alike.

ghost use Rattle.std.specs.Prelude.{◌≡◌, ◌++◌, if◌then◌else◌, IfOk, None, OnOk, Some, string_bytes};
ghost use Rattle.mx_app_turns.specs.Blocks.{block_text, head_text, mark_text, positions_of, total_text};
ghost use Rattle.mx_app_turns.specs.Tallied.{both, has_room, total_one};

use mx_turns::Findings;
use std::alloc::{AllocError, Global};

/// Positions in a row whose trials are printed alike, and how. The first of them that has another result
/// without the fault, if there is one.
#[derive(Drop)]
pub(crate) struct Block {
    pub first: usize,
    pub last: usize,
    pub text: Vec<u8>,
    pub differs: Option<usize>,
}

impl Block {
    /// The block of one position.
    pub fn one(position: usize, text: Vec<u8>, is_alike: bool) -> Self
        ensures { result ≡ record {
          first = position;
          last = position;
          text = text;
          differs = if is_alike then None else Some position;
        } }
    {
        Self {
            first: position,
            last: position,
            text,
            differs: if is_alike { None } else { Some(position) },
        }
    }
}

/// The head of a block.
fn head(alloc: Global, first: usize, last: usize) -> Result<String, AllocError>
    ensures { IfOk result (λ head. string_bytes head ≡ head_text first last) }
{
    if first == last {
        format!(in alloc; "position {first}\n")
    } else {
        let head = format!(in alloc; "positions {first} to {last}\n")?;
        Ok(head)
    }
}

/// Appends the mark of a block, if a position of it differs. It is the block's last line, with two spaces before
/// it: who reads heads, answers or the console finds them where they are without it.
fn push_mark(alloc: Global, text: &mut Vec<u8>, differs: Option<usize>) -> Result<(), AllocError>
    ensures { OnOk result (text.new.items ≡ text.old.items ++ mark_text differs) }
{
    match differs {
        None => Ok(()),
        Some(first) => {
            let mark = format!(in alloc;
                "  not as without the fault, first at position {first}\n"
            )?;
            text.extend_from_slice(mark.as_bytes())
        }
    }
}

/// Appends a block.
pub(crate) fn push_block(alloc: Global, text: &mut Vec<u8>, block: &Block) -> Result<(), AllocError>
    ensures { OnOk result (text.new.items ≡ text.old.items ++ block_text (positions_of block.now)) }
{
    let head = head(alloc, block.first, block.last)?;
    text.extend_from_slice(head.as_bytes())?;
    text.extend_from_slice(block.text.as_slice())?;
    push_mark(alloc, text, block.differs)
}

/// What is counted of positions that were swept.
#[derive(Clone, Copy)]
pub struct Total {
    pub positions: usize,
    /// How many blocks are printed: each position is one, until blocks are joined.
    pub blocks: usize,
    /// How many have the result that they have without the fault.
    pub alike: usize,
    /// How many refused each line of the fault.
    pub refused: usize,
    /// How many ended since the history was full.
    pub full: usize,
}

impl Total {
    /// The counts of no position.
    pub fn none() -> Self
        ensures { result ≡ record { positions = 0; blocks = 0; alike = 0; refused = 0; full = 0 } }
    {
        Self {
            positions: 0,
            blocks: 0,
            alike: 0,
            refused: 0,
            full: 0,
        }
    }

    /// The counts of one position, by what it tells.
    pub fn one(findings: Findings) -> Self
        ensures { result ≡ total_one findings }
    {
        Self {
            positions: 1,
            blocks: 1,
            alike: usize::from(findings.is_alike),
            refused: usize::from(findings.refusal.is_some()),
            full: usize::from(findings.is_full),
        }
    }

    /// The counts of both.
    pub fn and(self, next: Self) -> Self
        requires few { has_room self next }
        ensures { result ≡ both self next }
    {
        Self {
            positions: self.positions + next.positions,
            blocks: self.blocks + next.blocks,
            alike: self.alike + next.alike,
            refused: self.refused + next.refused,
            full: self.full + next.full,
        }
    }
}

/// The last line of a sweep.
fn total_line(alloc: Global, total: Total) -> Result<String, AllocError>
    ensures { IfOk result (λ line. string_bytes line
        ≡ total_text total.positions total.blocks total.alike) }
{
    let Total {
        positions,
        blocks,
        alike,
        ..
    } = total;
    let line = format!(in alloc;
        "{positions} positions, {blocks} blocks, {alike} as without the fault\n"
    )?;
    Ok(line)
}

/// Appends the last line of a sweep.
pub(crate) fn push_total(alloc: Global, text: &mut Vec<u8>, total: Total) -> Result<(), AllocError>
    ensures { OnOk result (text.new.items ≡ text.old.items
        ++ total_text total.positions total.blocks total.alike) }
{
    let line = total_line(alloc, total)?;
    text.extend_from_slice(line.as_bytes())
}
