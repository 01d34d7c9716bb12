//! Reads the tokens of a text from the first to the last.

ghost use Rattle.std.specs.Prelude.{IfOk, IfErr, All};
ghost use Rattle.mx_lex.specs.Tokens.{IsReadAs, IsSlice, TellsLexFault};

use crate::gaps::gap_end;
use crate::kinds::{LexError, Token};
use crate::scan::token_at;
use std::alloc::Global;

/// The tokens of bytes, or the first offset at fault.
pub fn tokens_in(alloc: Global, bytes: &[u8]) -> Result<Vec<Token>, LexError>
    ensures tokens { IfOk result (λ found. IsReadAs bytes.now found.items) }
    ensures slices { IfOk result (λ found. All (IsSlice bytes.now) found.items) }
    ensures fault { IfErr result (λ e. TellsLexFault bytes.now e) }
{
    let mut found = Vec::new(alloc);
    let mut at = gap_end(bytes, 0);
    while at < bytes.len() {
        let token = token_at(bytes, at)?;
        found.push(token)?;
        at = gap_end(bytes, token.end);
    }
    Ok(found)
}

/// The tokens of a text, or the first offset at fault. A comment may hold any characters;
/// elsewhere a byte that isn't ASCII begins no token.
pub fn tokens(alloc: Global, text: &str) -> Result<Vec<Token>, LexError>
    ensures tokens { IfOk result (λ found. IsReadAs text.now found.items) }
    ensures fault { IfErr result (λ e. TellsLexFault text.now e) }
{
    tokens_in(alloc, text.as_bytes())
}
