//! Operands of every shape.

use mx_asm_statement::{Argument, Item, argument_of};
use mx_insn::Scale;
use mx_lex::Punctuation;
use mx_word::{Register, Size};

const EBX: Item = Item::Register(Size::Dword, Register::Ebx);

const ESI: Item = Item::Register(Size::Dword, Register::Esi);

const OPEN: Item = Item::Punctuation(Punctuation::Open);

const CLOSE: Item = Item::Punctuation(Punctuation::Close);

const PLUS: Item = Item::Punctuation(Punctuation::Plus);

const MINUS: Item = Item::Punctuation(Punctuation::Minus);

const STAR: Item = Item::Punctuation(Punctuation::Star);

const FOUR: Item = Item::Number(4);

const BYTE: Item = Item::Size(Size::Byte);

/// What a place is made of.
#[derive(Clone, Copy, PartialEq, Eq)]
struct Shape {
    has_base: bool,
    /// The scale of its index, if it has one.
    scale: Option<Scale>,
    number: u32,
}

const NO_SHAPE: Shape = Shape {
    has_base: false,
    scale: None,
    number: 0,
};

/// Items, and the place that they are, if they are one.
struct Row {
    name: &'static str,
    items: &'static [Item],
    shape: Option<Shape>,
}

static ROWS: &[Row] = &[
    Row {
        name: "[ebx+esi*4-4]",
        items: &[OPEN, EBX, PLUS, ESI, STAR, FOUR, MINUS, FOUR, CLOSE],
        shape: Some(Shape {
            has_base: true,
            scale: Some(Scale::Four),
            number: 4,
        }),
    },
    Row {
        name: "byte [ebx+esi]",
        items: &[BYTE, OPEN, EBX, PLUS, ESI, CLOSE],
        shape: Some(Shape {
            has_base: true,
            scale: Some(Scale::One),
            number: 0,
        }),
    },
    Row {
        name: "[esi*4]",
        items: &[OPEN, ESI, STAR, FOUR, CLOSE],
        shape: Some(Shape {
            has_base: false,
            scale: Some(Scale::Four),
            number: 0,
        }),
    },
    Row {
        name: "[4]",
        items: &[OPEN, FOUR, CLOSE],
        shape: Some(Shape {
            has_base: false,
            scale: None,
            number: 4,
        }),
    },
    Row {
        name: "[]",
        items: &[OPEN, CLOSE],
        shape: None,
    },
    Row {
        name: "[4+ebx]",
        items: &[OPEN, FOUR, PLUS, EBX, CLOSE],
        shape: None,
    },
    Row {
        name: "[4*ebx]",
        items: &[OPEN, FOUR, STAR, EBX, CLOSE],
        shape: None,
    },
    Row {
        name: "[ebx+-4]",
        items: &[OPEN, EBX, PLUS, MINUS, FOUR, CLOSE],
        shape: None,
    },
    Row {
        name: "[esi*4+ebx]",
        items: &[OPEN, ESI, STAR, FOUR, PLUS, EBX, CLOSE],
        shape: None,
    },
    Row {
        name: "ebx ebx",
        items: &[EBX, EBX],
        shape: None,
    },
];

/// The shape of a place; of another operand the shape of none.
fn shape_of(items: &[Item]) -> Option<Shape> {
    match argument_of(items)? {
        Argument::Memory(_, address) => Some(Shape {
            has_base: address.base.is_some(),
            scale: address.index.map(|index| index.scale),
            number: address.value.number,
        }),
        _ => Some(NO_SHAPE),
    }
}

#[test]
fn shapes(rt: HostRuntime) {
    for row in ROWS {
        let name = row.name;
        assert!(rt; shape_of(row.items) == row.shape, "{name}");
    }
}
