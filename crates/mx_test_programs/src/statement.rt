//! The order of the reasons to refuse a statement of the assembler.

use mx_asm_statement::{Line, Reason, Saying, Section, StatementStart, Value, refusal};

/// Where an instruction is, and the reason to refuse it.
struct Row {
    name: &'static str,
    section: Section,
    /// Whether its label is above already.
    saying: Saying,
    reason: Reason,
}

static REASONS: &[Row] = &[
    Row {
        name: "its label is above already",
        section: Section::Text,
        saying: Saying::Second,
        reason: Reason::Twice,
    },
    Row {
        name: "it is in the data",
        section: Section::Data,
        saying: Saying::First,
        reason: Reason::WrongSection,
    },
    Row {
        name: "it has no form",
        section: Section::Text,
        saying: Saying::First,
        reason: Reason::NoForm,
    },
];

const LESS_TWO: Value = Value {
    name: None,
    minus: true,
    number: 2,
};

#[test]
fn reasons(rt: HostRuntime) {
    let line = Line {
        label: None,
        long: false,
        beginning: StatementStart::Instruction,
        statement: None,
    };
    for row in REASONS {
        let name = row.name;
        let reason = refusal(&line, row.section, row.saying);
        assert!(rt; reason == Some(row.reason), "{name}");
    }
    assert!(rt; Reason::NoForm.code() == 11 && LESS_TWO.whole() == -2);
}
