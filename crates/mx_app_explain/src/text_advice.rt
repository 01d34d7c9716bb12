//! What is wanted in place of a word of a text for the assembler.

ghost use Rattle.std.specs.Prelude.{◌≡◌, None, Some, MatchOption, false, option_map};
ghost use Rattle.mx_text.specs.Fields.{fields};
ghost use Rattle.mx_app_explain.specs.Details.{detail_told};
ghost use Rattle.mx_app_explain.specs.TextAdvice.{address_advice, advice_told, advised, after_first, after_label, bad_label, begins_open, bracket_wanted, byte_advice, constant_wanted, data_name, equal_name, escape_in, extra_advice, extra_word, fault_word, find_word, first_of, form_wanted, has_value, indexed_advice, indexed_in, indexed_name, indexed_wanted, is_decimal_word, is_data, is_of_386, is_other_word, is_port_word, is_prefix, is_segment_word, is_shift, is_sign, is_sought, is_star, joined_name, lacks_register, lacks_size, label_advice, labelled_advice, last_word, late_register, may_end, name_or, next_sought, number_advice, number_wanted, only_free_word, operand_advice, operand_word_advice, operator_wanted, order_name, other_form_wanted, own_name, pair_advice, plain, plain_word_wanted, pop_advice, push_advice, quoted_advice, second_address, section_advice, section_name, section_wanted, single_name, size_advice, stack_name, statement_advice, statement_form_advice, takes_one, takes_two, text_advice, together_advice, token_wanted, value_advice, value_mark, word_advice, word_wanted};
ghost use Rattle.mx_app_explain.specs.declared.text_advice.Sought.TheVariants.{FreeWord, Quoted};

use crate::detail::{Detail, Label};
use crate::found_word::{FoundWord, byte_at, found_at};
use crate::hint::Hint;
use crate::text_words::{
    bad_escape, begins_comment, begins_with_digit, has_capital, has_equals, has_quote,
    is_bad_number, is_beyond, is_close, is_constant, is_free_word, is_jump, is_long_name, is_odd,
    is_open, is_operator, is_other_size, is_prepared, is_punctuation_word, is_reserved, is_size,
    is_unpushed,
};
use crate::wanted::problem_wanted;
use mx_asm::Problem;
use mx_text::next_field;

/// What is wanted, and the word in whose place.
#[derive(Clone, Copy)]
pub(crate) struct Advice<'a> {
    wanted: &'static str,
    word: Option<&'a [u8]>,
}

impl<'a> Advice<'a> {
    /// As a second line has it.
    pub(crate) fn detail(self) -> Detail<'a>
        ensures { detail_told result
            ≡ advice_told (self.entry.wanted.now, option_map (λ w. w.now) self.entry.word) }
    {
        let found = match self.word {
            Some(_) => found_at(self.word),
            None => FoundWord::Unseen,
        };
        Detail {
            label: Label::Nowhere,
            wanted: self.wanted,
            found,
            hint: Hint::Nothing,
        }
    }
}

/// What a word may be that is sought.
#[derive(Clone, Copy)]
enum Sought {
    /// A word with a byte that no word has.
    Odd,
    /// A word with a quote.
    Quoted,
    /// A word with a byte beyond ASCII.
    Beyond,
    /// What begins a comment of other languages, or includes other lines.
    Comment,
    /// A word that begins as a number and is none.
    BadNumber,
    LongName,
    /// The bracket that opens.
    Open,
    /// The bracket that closes.
    Close,
    /// `byte`, `word`, `dword`.
    Size,
    /// What may be a name.
    FreeWord,
    /// What begins as a number.
    Number,
    /// An operator of other assemblers.
    Operator,
    /// What isn't pushed: a size or a register of fewer than 32 bits.
    Unpushed,
    /// What defines a constant in other assemblers.
    Constant,
}

impl Sought {
    /// Whether a word is so.
    fn is(self, word: &[u8]) -> bool
        ensures { result ≡ is_sought self word.now }
    {
        match self {
            Sought::Odd => is_odd(word),
            Sought::Quoted => has_quote(word),
            Sought::Beyond => is_beyond(word),
            Sought::Comment => begins_comment(word) || is_prepared(word),
            Sought::BadNumber => is_bad_number(word),
            Sought::LongName => is_long_name(word),
            Sought::Open => is_open(word),
            Sought::Close => is_close(word),
            Sought::Size => is_size(word),
            Sought::FreeWord => is_free_word(word),
            Sought::Number => begins_with_digit(word),
            Sought::Operator => is_operator(word),
            Sought::Unpushed => is_unpushed(word),
            Sought::Constant => is_constant(word),
        }
    }
}

/// The first word that is so, and what is after it.
fn next_sought(line: &[u8], sought: Sought) -> Option<(&[u8], &[u8])>
    ensures { MatchOption result (next_sought sought (fields line.now) ≡ None) (λ p.
        next_sought sought (fields line.now) ≡ Some (p.0.now, fields p.1.now)) }
{
    let mut rest = line;
    while let Some((word, more)) = next_field(rest) {
        if sought.is(word) {
            return Some((word, more));
        }
        rest = more;
    }
    None
}

/// The first word that is so.
fn find_word(line: &[u8], sought: Sought) -> Option<&[u8]>
    ensures { option_map (λ w. w.now) result ≡ find_word sought (fields line.now) }
{
    match next_sought(line, sought) {
        Some((word, _)) => Some(word),
        None => None,
    }
}

/// The first word.
fn first_of(line: &[u8]) -> Option<&[u8]>
    ensures { option_map (λ w. w.now) result ≡ first_of (fields line.now) }
{
    match next_field(line) {
        Some((word, _)) => Some(word),
        None => None,
    }
}

/// What is after the label, if there is one.
fn after_label(line: &[u8]) -> &[u8]
    ensures { fields result.now ≡ after_label (fields line.now) }
{
    let Some((_, after_word)) = next_field(line) else {
        return line;
    };
    match next_field(after_word) {
        Some((second, rest)) => if second == b":".as_slice() {
            rest
        } else {
            line
        },
        None => line,
    }
}

/// The label before a colon, if it is no name.
fn bad_label(line: &[u8]) -> Option<&[u8]>
    ensures { option_map (λ w. w.now) result ≡ bad_label (fields line.now) }
{
    let (label, rest) = next_field(line)?;
    let (second, _) = next_field(rest)?;
    if second == b":".as_slice() && !is_free_word(label) {
        Some(label)
    } else {
        None
    }
}

/// What is after the first word.
fn after_first(line: &[u8]) -> &[u8]
    ensures { fields result.now ≡ after_first (fields line.now) }
{
    match next_field(line) {
        Some((_, rest)) => rest,
        None => line,
    }
}

/// The word after the second bracket that opens.
fn second_address(line: &[u8]) -> Option<&[u8]>
    ensures { option_map (λ w. w.now) result ≡ second_address (fields line.now) }
{
    let (_, rest) = next_sought(line, Sought::Open)?;
    let (_, rest) = next_sought(rest, Sought::Open)?;
    first_of(rest)
}

/// The word that may be a name, if there is one and no other.
fn only_free_word(line: &[u8]) -> Option<&[u8]>
    ensures { option_map (λ w. w.now) result ≡ only_free_word (fields line.now) }
{
    let (word, rest) = next_sought(line, Sought::FreeWord)?;
    match find_word(rest, Sought::FreeWord) {
        None => Some(word),
        Some(_) => None,
    }
}

/// The first escape that no text has.
fn escape_in(line: &[u8]) -> Option<&[u8]>
    ensures { option_map (λ w. w.now) result ≡ escape_in (fields line.now) }
{
    let mut rest = line;
    while let Some((word, more)) = next_field(rest) {
        if let Some(escape) = bad_escape(word) {
            return Some(escape);
        }
        rest = more;
    }
    None
}

/// The last word that is no mark.
fn last_word(line: &[u8]) -> Option<&[u8]>
    ensures { option_map (λ w. w.now) result ≡ last_word None (fields line.now) }
{
    let mut found = None;
    let mut rest = line;
    while let Some((word, more)) = next_field(rest) {
        if !is_punctuation_word(word) {
            found = Some(word);
        }
        rest = more;
    }
    found
}

/// What is wanted of a bracket alone.
fn bracket_wanted(line: &[u8]) -> Option<&'static str>
    ensures { option_map (λ s. s.now) result ≡ bracket_wanted (fields line.now) }
{
    let opens = find_word(line, Sought::Open);
    let closes = find_word(line, Sought::Close);
    match (opens, closes) {
        (Some(_), None) => Some("] after the address, whose bracket is open"),
        (None, Some(_)) => Some("[ before the address, which ends with ]"),
        _ => None,
    }
}

fn is_star(word: &[u8]) -> bool
    ensures { result ≡ is_star word.now }
{
    word == b"*".as_slice()
}

fn is_sign(word: &[u8]) -> bool
    ensures { result ≡ is_sign word.now }
{
    word == b"+".as_slice() || word == b"-".as_slice()
}

/// The first mark outside of brackets that no value has: a star, or a sign after a number.
fn value_mark(line: &[u8]) -> Option<&[u8]>
    ensures { option_map (λ w. w.now) result ≡ value_mark false false (fields line.now) }
{
    let mut inside = false;
    let mut number = false;
    let mut rest = line;
    while let Some((word, more)) = next_field(rest) {
        if !inside && (is_star(word) || (number && is_sign(word))) {
            return Some(word);
        }
        inside = (inside || is_open(word)) && !is_close(word);
        number = begins_with_digit(word);
        rest = more;
    }
    None
}

/// The first name that a sign joins to a name.
fn joined_name(line: &[u8]) -> Option<&[u8]>
    ensures { option_map (λ w. w.now) result ≡ joined_name false false (fields line.now) }
{
    let mut named = false;
    let mut signed = false;
    let mut rest = line;
    while let Some((word, more)) = next_field(rest) {
        if signed && is_free_word(word) {
            return Some(word);
        }
        signed = named && is_sign(word);
        named = is_free_word(word);
        rest = more;
    }
    None
}

/// Whether the first word is a bracket that opens.
fn begins_open(line: &[u8]) -> bool
    ensures { result ≡ begins_open (fields line.now) }
{
    match next_field(line) {
        Some((word, _)) => is_open(word),
        None => false,
    }
}

/// The first name right before a bracket that opens.
fn indexed_name(line: &[u8]) -> Option<&[u8]>
    ensures { option_map (λ w. w.now) result ≡ indexed_name (fields line.now) }
{
    let mut rest = line;
    while let Some((word, more)) = next_field(rest) {
        if is_free_word(word) && begins_open(more) {
            return Some(word);
        }
        rest = more;
    }
    None
}

/// Whether there is a name or a number that isn't a scale, after this word of an operand too.
fn has_value(valued: bool, starred: bool, word: &[u8]) -> bool
    ensures { result ≡ has_value valued starred word.now }
{
    if is_punctuation_word(word) {
        valued && (is_star(word) || is_sign(word))
    } else {
        valued || !(starred || is_reserved(word))
    }
}

/// The first register after a name or a number of the same operand.
fn late_register(line: &[u8]) -> Option<&[u8]>
    ensures { option_map (λ w. w.now) result ≡ late_register false false (fields line.now) }
{
    let mut valued = false;
    let mut starred = false;
    let mut rest = line;
    while let Some((word, more)) = next_field(rest) {
        if valued && is_reserved(word) {
            return Some(word);
        }
        valued = has_value(valued, starred, word);
        starred = is_star(word);
        rest = more;
    }
    None
}

/// Whether an operand may end with a word.
fn may_end(word: &[u8]) -> bool
    ensures { result ≡ may_end word.now }
{
    is_close(word) || !(is_punctuation_word(word) || is_size(word) || word == b"short".as_slice())
}

/// The first word that follows the end of an operand without a comma.
fn extra_word(line: &[u8]) -> Option<&[u8]>
    ensures { option_map (λ w. w.now) result ≡ extra_word false (fields line.now) }
{
    let mut ended = false;
    let mut rest = line;
    while let Some((word, more)) = next_field(rest) {
        if ended && !is_punctuation_word(word) {
            return Some(word);
        }
        ended = may_end(word);
        rest = more;
    }
    None
}

/// Whether outside of brackets are only numbers and marks.
fn lacks_register(line: &[u8]) -> bool
    ensures { result ≡ lacks_register false (fields line.now) }
{
    let mut inside = false;
    let mut rest = line;
    while let Some((word, more)) = next_field(rest) {
        if !inside && !is_punctuation_word(word) && !begins_with_digit(word) {
            return false;
        }
        inside = (inside || is_open(word)) && !is_close(word);
        rest = more;
    }
    true
}

/// Whether there is an address whose size nothing says.
fn lacks_size(line: &[u8]) -> bool
    ensures { result ≡ lacks_size (fields line.now) }
{
    find_word(line, Sought::Open).is_some()
        && (find_word(line, Sought::Size).is_none() && lacks_register(line))
}

/// This assembler's name for a condition of equality or of the carry.
fn equal_name(word: &[u8]) -> Option<&'static str>
    ensures { option_map (λ s. s.now) result ≡ equal_name word.now }
{
    match word {
        b"je" => Some("jz"),
        b"jne" => Some("jnz"),
        b"jc" | b"jnae" => Some("jb"),
        b"jae" | b"jnc" => Some("jnb"),
        _ => None,
    }
}

/// This assembler's name for a condition of order.
fn order_name(word: &[u8]) -> Option<&'static str>
    ensures { option_map (λ s. s.now) result ≡ order_name word.now }
{
    match word {
        b"ja" => Some("jnbe"),
        b"jna" => Some("jbe"),
        b"jge" => Some("jnl"),
        b"jnge" => Some("jl"),
        b"jg" => Some("jnle"),
        b"jng" => Some("jle"),
        _ => None,
    }
}

/// This assembler's name for other operations.
fn single_name(word: &[u8]) -> Option<&'static str>
    ensures { option_map (λ s. s.now) result ≡ single_name word.now }
{
    match word {
        b"sal" => Some("shl"),
        b"jcxz" => Some("jecxz"),
        b"repz" => Some("repe"),
        b"repnz" => Some("repne"),
        _ => None,
    }
}

/// This assembler's name for what is pushed and popped at once.
fn stack_name(word: &[u8]) -> Option<&'static str>
    ensures { option_map (λ s. s.now) result ≡ stack_name word.now }
{
    match word {
        b"pusha" => Some("pushad"),
        b"popa" => Some("popad"),
        b"pushf" => Some("pushfd"),
        b"popf" => Some("popfd"),
        _ => None,
    }
}

/// This assembler's name for data.
fn data_name(word: &[u8]) -> Option<&'static str>
    ensures { option_map (λ s. s.now) result ≡ data_name word.now }
{
    match word {
        b"db" => Some(".data1, or .ascii for a text"),
        b"dw" => Some(".data2"),
        b"dd" => Some(".data4"),
        _ => None,
    }
}

/// This assembler's name for room and for sections.
fn section_name(word: &[u8]) -> Option<&'static str>
    ensures { option_map (λ s. s.now) result ≡ section_name word.now }
{
    if word == b"resb".as_slice() {
        Some(".space")
    } else if word == b"section".as_slice() || word == b"segment".as_slice() {
        Some(".text, .data or .bss alone")
    } else {
        None
    }
}

/// This assembler's name, or another one.
fn name_or(name: Option<&'static str>, other: Option<&'static str>) -> Option<&'static str>
    ensures { option_map (λ s. s.now) result
        ≡ name_or (option_map (λ s. s.now) name.entry) (option_map (λ s. s.now) other.entry) }
{
    match name {
        Some(name) => Some(name),
        None => other,
    }
}

/// This assembler's name for what others call so.
fn own_name(word: &[u8]) -> Option<&'static str>
    ensures { option_map (λ s. s.now) result ≡ own_name word.now }
{
    let data = name_or(data_name(word), section_name(word));
    let last = name_or(stack_name(word), data);
    let rest = name_or(order_name(word), name_or(single_name(word), last));
    name_or(equal_name(word), rest)
}

/// What is wanted in place of a name for a number.
const NUMBER_ITSELF: &str = "the number itself in each place, since there are no constants";

/// What is wanted in place of a line for a preprocessor.
const LINES_THEMSELVES: &str = "the lines themselves, since there is no preprocessor";

/// What is wanted in place of a word that is no token.
fn token_wanted(word: &[u8]) -> &'static str
    ensures { result.now ≡ token_wanted word.now }
{
    if is_constant(word) {
        NUMBER_ITSELF
    } else if is_prepared(word) {
        LINES_THEMSELVES
    } else if begins_comment(word) {
        "; before a comment"
    } else if is_beyond(word) {
        "characters of ASCII: a -, a \" or a blank beyond them looks alike and is another one"
    } else if byte_at(word, 0) == b'\'' {
        "the character's number, as 97 for a"
    } else if byte_at(word, 0) == b'%' || byte_at(word, 0) == b'$' {
        "Intel's order: the target first, registers without %, numbers without $"
    } else if has_equals(word) {
        NUMBER_ITSELF
    } else {
        "a word, a number, a text in \" or one of [ ] + - * , :"
    }
}

/// What is wanted in place of a word that begins as a number.
fn number_wanted(word: &[u8]) -> &'static str
    ensures { result.now ≡ number_wanted word.now }
{
    if byte_at(word, word.len().saturating_sub(1)) == b'h' {
        "hexadecimal after 0x and without h, as 0x21"
    } else {
        problem_wanted(Problem::BadNumber)
    }
}

/// Whether a word is a decimal instruction of the 80386, one that turns by the carry, or one of a table, that this
/// machine hasn't.
fn is_decimal_word(word: &[u8]) -> bool
    ensures { result ≡ is_decimal_word word.now }
{
    matches!(
        word,
        b"rcl" | b"rcr" | b"aaa" | b"aad" | b"aam" | b"aas" | b"daa" | b"das" | b"xlat" | b"xlatb"
    )
}

/// Whether a word is an instruction of the 80386 about segments that this machine hasn't.
fn is_segment_word(word: &[u8]) -> bool
    ensures { result ≡ is_segment_word word.now }
{
    matches!(
        word,
        b"les" | b"lds" | b"lfs" | b"lgs" | b"lss" | b"arpl" | b"lar" | b"lsl" | b"verr" | b"verw"
    )
}

/// Whether a word is an instruction of the 80386 that moves strings through ports, which this machine hasn't.
fn is_port_word(word: &[u8]) -> bool
    ensures { result ≡ is_port_word word.now }
{
    matches!(
        word,
        b"ins" | b"insb" | b"insw" | b"insd" | b"outs" | b"outsb" | b"outsw" | b"outsd"
    )
}

/// Whether a word is another instruction of the 80386 that this machine hasn't.
fn is_other_word(word: &[u8]) -> bool
    ensures { result ≡ is_other_word word.now }
{
    matches!(
        word,
        b"lock" | b"enter" | b"bound" | b"iret" | b"iretd" | b"retf" | b"wait"
    )
}

/// Whether a word is an instruction of the 80386 that this machine hasn't.
fn is_of_386(word: &[u8]) -> bool
    ensures { result ≡ is_of_386 word.now }
{
    is_decimal_word(word) || is_segment_word(word) || is_port_word(word) || is_other_word(word)
}

/// What is wanted in place of a statement's first word that is nobody's name.
fn plain_word_wanted(word: &[u8]) -> &'static str
    ensures { result.now ≡ plain_word_wanted word.now }
{
    if is_prepared(word) {
        LINES_THEMSELVES
    } else if has_capital(word) {
        "lower case"
    } else if byte_at(word, 0) == b'.' {
        ".text .data .bss .data1 .data2 .data4 .ascii .space .sep .entry or .stack"
    } else if is_of_386(word) {
        "an instruction of this machine, which hasn't all of the 80386's"
    } else {
        "an instruction or a directive, or : after a label"
    }
}

/// What is wanted in place of a statement's first word.
fn word_wanted(word: &[u8]) -> &'static str
    ensures { result.now ≡ word_wanted word.now }
{
    match own_name(word) {
        Some(own) => own,
        None => plain_word_wanted(word),
    }
}

/// Advice that is about no word.
fn plain_advice<'a>(problem: Problem) -> Advice<'a>
    ensures { (result.wanted.now, option_map (λ w. w.now) result.word)
        ≡ plain problem }
{
    Advice {
        wanted: problem_wanted(problem),
        word: None,
    }
}

/// Advice on a line with a text that has a byte at fault: an escape, or a comment or what includes other lines. A text may
/// have any bytes, so there is no advice on another word.
fn text_advice(line: &[u8]) -> Advice<'_>
    ensures { (result.wanted.now, option_map (λ w. w.now) result.word)
        ≡ text_advice (fields line.now) }
{
    if let Some(escape) = escape_in(line) {
        return Advice {
            wanted: "an escape that a text has, \\n, \\0, \\\" or \\\\",
            word: Some(escape),
        };
    }
    match find_word(line, Sought::Comment) {
        Some(word) => Advice {
            wanted: token_wanted(word),
            word: Some(word),
        },
        None => plain_advice(Problem::BadByte),
    }
}

/// Advice on a byte that begins no token.
fn byte_advice(line: &[u8]) -> Advice<'_>
    ensures { (result.wanted.now, option_map (λ w. w.now) result.word)
        ≡ byte_advice (fields line.now) }
{
    if find_word(line, Sought::Quoted).is_some() {
        return text_advice(line);
    }
    match find_word(line, Sought::Odd) {
        Some(word) => Advice {
            wanted: token_wanted(word),
            word: Some(word),
        },
        None => plain_advice(Problem::BadByte),
    }
}

/// Advice on what begins as a number and is none.
fn number_advice(line: &[u8]) -> Advice<'_>
    ensures { (result.wanted.now, option_map (λ w. w.now) result.word)
        ≡ number_advice (fields line.now) }
{
    match find_word(line, Sought::BadNumber) {
        Some(word) => Advice {
            wanted: number_wanted(word),
            word: Some(word),
        },
        None => plain_advice(Problem::BadNumber),
    }
}

/// Advice on a label that is no name, on a constant, or on a statement's first word.
fn word_advice(line: &[u8]) -> Advice<'_>
    ensures { (result.wanted.now, option_map (λ w. w.now) result.word)
        ≡ word_advice (fields line.now) }
{
    if let Some(label) = bad_label(line) {
        return label_advice(label);
    }
    if let Some(word) = find_word(line, Sought::Constant) {
        return Advice {
            wanted: NUMBER_ITSELF,
            word: Some(word),
        };
    }
    match first_of(after_label(line)) {
        Some(word) => Advice {
            wanted: word_wanted(word),
            word: Some(word),
        },
        None => plain_advice(Problem::UnknownWord),
    }
}

fn is_shift(word: &[u8]) -> bool
    ensures { result ≡ is_shift word.now }
{
    matches!(word, b"shl" | b"shr" | b"sar" | b"rol" | b"ror")
}

/// Whether an instruction takes one operand, a register or memory.
fn takes_one(word: &[u8]) -> bool
    ensures { result ≡ takes_one word.now }
{
    matches!(
        word,
        b"inc" | b"dec" | b"not" | b"neg" | b"mul" | b"div" | b"idiv"
    )
}

/// What the operands of an instruction are that takes others than any two of one size.
fn form_wanted(first: &[u8]) -> Option<&'static str>
    ensures { option_map (λ s. s.now) result ≡ form_wanted first.now }
{
    if is_shift(first) {
        Some("a register or memory, and then a number or cl")
    } else if takes_one(first) {
        Some("one operand: a register, or memory with its size before the bracket")
    } else if first == b"imul".as_slice() {
        Some("registers or memory, and a number only as the third operand, as imul eax, eax, 10")
    } else if first == b"lea".as_slice() {
        Some("a register of 16 or 32 bits, and then a bracket without a size before it")
    } else if first == b"xchg".as_slice() {
        Some("a register or memory, and then a register")
    } else if first == b"movzx".as_slice() || first == b"movsx".as_slice() {
        Some("a register, and then a smaller one, or byte or word before a bracket")
    } else {
        None
    }
}

fn is_data(word: &[u8]) -> bool
    ensures { result ≡ is_data word.now }
{
    word == b".data1".as_slice() || word == b".data2".as_slice() || word == b".data4".as_slice()
}

fn is_prefix(word: &[u8]) -> bool
    ensures { result ≡ is_prefix word.now }
{
    matches!(word, b"rep" | b"repe" | b"repne")
}

/// What is after a jump, a prefix or a directive.
fn other_form_wanted(first: &[u8]) -> Option<&'static str>
    ensures { option_map (λ s. s.now) result ≡ other_form_wanted first.now }
{
    if is_jump(first) {
        Some("a label")
    } else if first == b"jmp".as_slice() || first == b"call".as_slice() {
        Some("a label, a register of 32 bits, or dword before a bracket")
    } else if is_prefix(first) {
        Some("movs, stos or lods after rep, and cmps or scas after repe and repne, as rep movsb")
    } else if is_data(first) {
        Some("numbers or names, with commas between them")
    } else if first == b".ascii".as_slice() {
        Some("one text in quotes, and nothing after it, as .ascii \"one\\0\"")
    } else if first == b".space".as_slice() || first == b".stack".as_slice() {
        Some("a number alone")
    } else {
        None
    }
}

/// Whether an instruction takes two operands of one size.
fn takes_two(first: &[u8]) -> bool
    ensures { result ≡ takes_two first.now }
{
    matches!(
        first,
        b"mov" | b"add" | b"or" | b"adc" | b"sbb" | b"and" | b"sub" | b"xor" | b"cmp" | b"test"
    )
}

/// The word at fault of operands that a statement doesn't take: a size in LEA, or the last word.
fn fault_word<'a>(first: &[u8], line: &'a [u8]) -> Option<&'a [u8]>
    ensures { option_map (λ w. w.now) result ≡ fault_word first.now (fields line.now) }
{
    if first == b"lea".as_slice() && find_word(line, Sought::Size).is_some() {
        find_word(line, Sought::Size)
    } else {
        last_word(line)
    }
}

/// Advice on operands that don't go together.
fn together_advice(line: &[u8]) -> Advice<'_>
    ensures { (result.wanted.now, option_map (λ w. w.now) result.word)
        ≡ together_advice (fields line.now) }
{
    match last_word(line) {
        Some(word) => Advice {
            wanted: "two operands of one size, with a comma between them, and one bracket at most",
            word: Some(word),
        },
        None => plain_advice(Problem::BadOperands),
    }
}

/// Advice on operands of which no word is at fault by itself.
fn pair_advice<'a>(first: &[u8], line: &'a [u8]) -> Advice<'a>
    ensures { (result.wanted.now, option_map (λ w. w.now) result.word)
        ≡ pair_advice first.now (fields line.now) }
{
    if takes_two(first) {
        together_advice(line)
    } else {
        Advice {
            wanted: problem_wanted(Problem::BadOperands),
            word: None,
        }
    }
}

/// Advice on operands of which none is at fault by its form: a name in place of another operand; or a number.
fn operand_word_advice<'a>(first: &[u8], line: &'a [u8]) -> Advice<'a>
    ensures { (result.wanted.now, option_map (λ w. w.now) result.word)
        ≡ operand_word_advice first.now (fields line.now) }
{
    if let Some(word) = find_word(line, Sought::FreeWord) {
        return Advice {
            wanted: "a register, an address in brackets or a number of the operand's size",
            word: Some(word),
        };
    }
    match find_word(line, Sought::Number) {
        Some(word) => Advice {
            wanted: "a number that fits, or another operand that the statement takes",
            word: Some(word),
        },
        None => pair_advice(first, line),
    }
}

/// Advice on operands that a statement doesn't take, by its first word.
fn statement_form_advice<'a>(first: &[u8], line: &'a [u8]) -> Advice<'a>
    ensures { (result.wanted.now, option_map (λ w. w.now) result.word)
        ≡ statement_form_advice first.now (fields line.now) }
{
    match (
        name_or(form_wanted(first), other_form_wanted(first)),
        fault_word(first, line),
    ) {
        (Some(wanted), Some(word)) => Advice {
            wanted,
            word: Some(word),
        },
        _ => operand_word_advice(first, line),
    }
}

/// Advice on operands: an address without a size.
fn size_advice<'a>(first: &[u8], line: &'a [u8]) -> Advice<'a>
    ensures { (result.wanted.now, option_map (λ w. w.now) result.word)
        ≡ size_advice first.now (fields line.now) }
{
    if lacks_size(line) {
        Advice {
            wanted: "byte, word or dword before the bracket, since no register says the size",
            word: Some(b"["),
        }
    } else {
        statement_form_advice(first, line)
    }
}

/// Advice on operands: a mark that no value has, a second name, or a register after a name.
fn value_advice<'a>(first: &[u8], line: &'a [u8]) -> Advice<'a>
    ensures { (result.wanted.now, option_map (λ w. w.now) result.word)
        ≡ value_advice first.now (fields line.now) }
{
    if let Some(word) = value_mark(line) {
        return Advice {
            wanted: "a value: n, -n, name, name+n or name-n",
            word: Some(word),
        };
    }
    if let Some(word) = joined_name(line) {
        return Advice {
            wanted: "a value of one name at most: n, -n, name, name+n or name-n",
            word: Some(word),
        };
    }
    match late_register(line) {
        Some(word) => Advice {
            wanted: "registers before a name or a number in a bracket, as [ebx+ecx*4+name]",
            word: Some(word),
        },
        None => size_advice(first, line),
    }
}

/// Advice on operands: a word too many.
fn extra_advice<'a>(first: &[u8], line: &'a [u8]) -> Advice<'a>
    ensures { (result.wanted.now, option_map (λ w. w.now) result.word)
        ≡ extra_advice first.now (fields line.now) }
{
    match extra_word(line) {
        Some(word) => Advice {
            wanted: "a comma, the end of the line, or ; before a comment",
            word: Some(word),
        },
        None => value_advice(first, line),
    }
}

/// Advice on operands: a text where none is taken, or with something after it.
fn quoted_advice<'a>(first: &[u8], line: &'a [u8]) -> Advice<'a>
    ensures { (result.wanted.now, option_map (λ w. w.now) result.word)
        ≡ quoted_advice (find_word Quoted (fields line.now)) first.now (fields line.now) }
{
    match find_word(line, Sought::Quoted) {
        None => extra_advice(first, line),
        Some(word) => if first == b".ascii".as_slice() {
            statement_form_advice(first, line)
        } else {
            Advice {
                wanted: "a number here, as 97 for a: only .ascii has a text",
                word: Some(word),
            }
        },
    }
}

/// Advice on operands: two addresses.
fn address_advice<'a>(first: &[u8], line: &'a [u8]) -> Advice<'a>
    ensures { (result.wanted.now, option_map (λ w. w.now) result.word)
        ≡ address_advice first.now (fields line.now) }
{
    match second_address(line) {
        Some(word) => Advice {
            wanted: "a register or a number in place of the second bracket, since no \
                     instruction has two",
            word: Some(word),
        },
        None => quoted_advice(first, line),
    }
}

/// What is wanted in place of a name before its bracket, or of a size of another assembler.
fn indexed_wanted(word: &[u8]) -> &'static str
    ensures { result.now ≡ indexed_wanted word.now }
{
    if is_other_size(word) {
        "byte, word or dword before a bracket, in lower case and without PTR"
    } else {
        "the name inside its bracket, after the registers, as [ebx+ecx*4+name]"
    }
}

/// The first name before its bracket; after a prefix is an instruction, and no name.
fn indexed_in<'a>(first: &[u8], line: &'a [u8]) -> Option<&'a [u8]>
    ensures { option_map (λ w. w.now) result ≡ indexed_in first.now (fields line.now) }
{
    if is_prefix(first) {
        None
    } else {
        indexed_name(line)
    }
}

/// Advice on operands: a name before its bracket.
fn indexed_advice<'a>(first: &[u8], line: &'a [u8]) -> Advice<'a>
    ensures { (result.wanted.now, option_map (λ w. w.now) result.word)
        ≡ indexed_advice (indexed_in first.now (fields line.now)) first.now (fields line.now) }
{
    match indexed_in(first, line) {
        Some(word) => Advice {
            wanted: indexed_wanted(word),
            word: Some(word),
        },
        None => address_advice(first, line),
    }
}

/// Advice on operands: a bracket alone.
fn operand_advice<'a>(first: &[u8], line: &'a [u8]) -> Advice<'a>
    ensures { (result.wanted.now, option_map (λ w. w.now) result.word)
        ≡ operand_advice first.now (fields line.now) }
{
    match bracket_wanted(line) {
        Some(wanted) => Advice { wanted, word: None },
        None => indexed_advice(first, line),
    }
}

/// What is wanted in place of an operator of another assembler.
fn operator_wanted(word: &[u8]) -> &'static str
    ensures { result.now ≡ operator_wanted word.now }
{
    if word == b"ptr".as_slice() {
        "the size alone before the bracket, without \"ptr\""
    } else {
        "the name alone, which is its address, without \"offset\""
    }
}

/// Advice on what is popped: only a register of 32 bits is.
fn pop_advice(line: &[u8]) -> Advice<'_>
    ensures { (result.wanted.now, option_map (λ w. w.now) result.word)
        ≡ pop_advice (fields line.now) }
{
    Advice {
        wanted: "a register of 32 bits",
        word: first_of(line),
    }
}

/// Advice on what is pushed: 32 bits are.
fn push_advice(line: &[u8]) -> Advice<'_>
    ensures { (result.wanted.now, option_map (λ w. w.now) result.word)
        ≡ push_advice (fields line.now) }
{
    match find_word(line, Sought::Unpushed) {
        Some(word) => Advice {
            wanted: "32 bits: a register, a number, or dword before a bracket",
            word: Some(word),
        },
        None => operand_advice(b"push", line),
    }
}

/// Advice on a statement's operands, by its first word too: operators of other assemblers, and what is pushed or popped.
fn statement_advice<'a>(first: Option<&'a [u8]>, line: &'a [u8]) -> Advice<'a>
    ensures { (result.wanted.now, option_map (λ w. w.now) result.word)
        ≡ statement_advice (option_map (λ w. w.now) first.entry) (fields line.now) }
{
    if let Some(word) = find_word(line, Sought::Operator) {
        return Advice {
            wanted: operator_wanted(word),
            word: None,
        };
    }
    match first {
        Some(b"pop") => pop_advice(line),
        Some(b"push") => push_advice(line),
        Some(word) => operand_advice(word, line),
        None => operand_advice(b"", line),
    }
}

/// Advice on a label that is no name.
fn label_advice(label: &[u8]) -> Advice<'_>
    ensures { Some (result.wanted.now, option_map (λ w. w.now) result.word)
        ≡ label_advice (Some label.now) }
{
    Advice {
        wanted: "a label of a letter or _, and then letters, digits and _, and no register or size",
        word: Some(label),
    }
}

/// Advice on a label that is no name, or on a statement's operands.
fn labelled_advice(line: &[u8]) -> Advice<'_>
    ensures { (result.wanted.now, option_map (λ w. w.now) result.word)
        ≡ labelled_advice (fields line.now) }
{
    if let Some(label) = bad_label(line) {
        return label_advice(label);
    }
    let statement = after_label(line);
    statement_advice(first_of(statement), after_first(statement))
}

/// What is wanted in place of a statement that stands in a section of others.
fn section_wanted(word: &[u8]) -> &'static str
    ensures { result.now ≡ section_wanted word.now }
{
    if byte_at(word, 0) == b'.' {
        "a label or .space in .bss, which begins as zeros"
    } else {
        ".text above an instruction"
    }
}

/// Advice on a statement that stands in a section of others.
fn section_advice(line: &[u8]) -> Advice<'_>
    ensures { (result.wanted.now, option_map (λ w. w.now) result.word)
        ≡ section_advice (fields line.now) }
{
    match first_of(after_label(line)) {
        Some(word) => Advice {
            wanted: section_wanted(word),
            word: Some(word),
        },
        None => plain_advice(Problem::WrongSection),
    }
}

/// Advice on a line with its words between spaces, by what is wrong with it.
pub(crate) fn advice_on(line: &[u8], problem: Problem) -> Advice<'_>
    ensures { (result.wanted.now, option_map (λ w. w.now) result.word)
        ≡ advised problem (fields line.now) }
{
    match problem {
        Problem::BadByte => byte_advice(line),
        Problem::BadNumber => number_advice(line),
        Problem::UnknownWord => word_advice(line),
        Problem::BadOperands => labelled_advice(line),
        Problem::WrongSection => section_advice(line),
        Problem::LongName => Advice {
            wanted: problem_wanted(problem),
            word: find_word(line, Sought::LongName),
        },
        Problem::Undefined => Advice {
            wanted: problem_wanted(problem),
            word: only_free_word(after_first(after_label(line))),
        },
        _ => plain_advice(problem),
    }
}
