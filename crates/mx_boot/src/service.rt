//! A configuration's services, as the words of their lines.

use mx_proc::Masks;
use mx_text::Name;

/// The terms of a service's line, after its file. `Terms` has the same fields as this, with their
/// limits.
#[derive(Clone, Copy)]
pub struct TermWords {
    pub masks: Masks,
    pub level: u8,
    pub best: u8,
    pub quantum: u32,
    pub restarts: u32,
}

/// The words of a service's line. The file's name is a part of the line.
#[derive(Clone, Copy)]
pub struct ServiceWords<'a> {
    pub name: Name,
    pub file: &'a str,
    pub terms: TermWords,
}

/// No line's words: they are in the places of a list that no line has filled.
impl<'a> Default for ServiceWords<'a> {
    fn default() -> ServiceWords<'a> {
        let masks = Masks {
            traps: 0,
            sends: 0,
            calls: 0,
        };
        let terms = TermWords {
            masks,
            level: 0,
            best: 0,
            quantum: 1,
            restarts: 0,
        };
        ServiceWords {
            name: Name { bytes: [0; 8] },
            file: "",
            terms,
        }
    }
}
