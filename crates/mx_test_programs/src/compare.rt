//! Steps of a processor against cases, right and wrong.

use mx_vectors_compare::{CompareFailure, Tally, check_all};

/// How a comparison ends.
#[derive(Clone, Copy, PartialEq, Eq)]
enum Ending {
    /// This many of the cases go wrong.
    Wrong(u64),
    /// The line of this number is no case.
    NoCase(u64),
    /// Memory or a file fails.
    Failed,
}

/// Steps of a processor, how their comparison ends, and what it prints. Each step has a text of its own,
/// over one dword of data.
struct Row {
    name: &'static str,
    text: &'static str,
    ending: Ending,
    printed: &'static str,
}

static ROWS: &[Row] = &[
    Row {
        name: "mov eax, 0x5: right",
        text: "b8_mov | b805000000 | b805000000 | 00000000 | 0 0 0 0 4 0 0 0 | 0 | 0 | go | 5 0 0 0 4 0 0 0 | 5 | 0 | cd5 | -\n",
        ending: Ending::Wrong(0),
        printed: "1 cases, 0 wrong\n",
    },
    Row {
        name: "mov eax, 0x5: EAX, a flag and a byte after the step are wrong",
        text: "b8_mov | b805000000 | b805000000 | 00000000 | 0 0 0 0 4 0 0 0 | 0 | 0 | go | 6 0 0 0 4 0 0 0 | 5 | 1 | cd5 | 2:ff\n",
        ending: Ending::Wrong(1),
        printed: "b8_mov b805000000 EAX wanted 6 found 5\nb8_mov b805000000 flags wanted 1 found 0\nb8_mov b805000000 byte wanted ff found 0\n1 cases, 1 wrong\n",
    },
    Row {
        name: "adc dword [0x0], eax: right, 5 and 1 and the carry are 7",
        text: "11_adc | 110500000000 | 110500000000 | 05000000 | 1 0 0 0 4 0 0 0 | 0 | 41 | go | 1 0 0 0 4 0 0 0 | 6 | 0 | 8d5 | 0:07\n",
        ending: Ending::Wrong(0),
        printed: "1 cases, 0 wrong\n",
    },
    Row {
        name: "adc dword [0x0], eax: the instruction's bytes end too early",
        text: "11_adc | 1105010000 | 110500000000 | 05000000 | 1 0 0 0 4 0 0 0 | 0 | 41 | go | 1 0 0 0 4 0 0 0 | 6 | 0 | 8d5 | 0:07\n",
        ending: Ending::Wrong(1),
        printed: "11_adc 1105010000 length wanted 5 found 0\n11_adc 1105010000 spelling wanted 1 found 0\n1 cases, 1 wrong\n",
    },
    Row {
        name: "adc dword [0x0], eax: the code is add dword [0x0], eax",
        text: "11_adc | 110500000000 | 010500000000 | 05000000 | 1 0 0 0 4 0 0 0 | 0 | 41 | go | 1 0 0 0 4 0 0 0 | 6 | 0 | 8d5 | 0:07\n",
        ending: Ending::Wrong(1),
        printed: "11_adc 110500000000 flags wanted 0 found 4\n11_adc 110500000000 byte wanted 7 found 6\n1 cases, 1 wrong\n",
    },
    Row {
        name: "adc dword [0x0], eax: a byte before the step is wrong",
        text: "11_adc | 110500000000 | 110500000000 | 06000000 | 1 0 0 0 4 0 0 0 | 0 | 41 | go | 1 0 0 0 4 0 0 0 | 6 | 0 | 8d5 | 0:07\n",
        ending: Ending::Wrong(1),
        printed: "11_adc 110500000000 byte wanted 7 found 8\n1 cases, 1 wrong\n",
    },
    Row {
        name: "adc dword [0x0], eax: EAX before the step is wrong",
        text: "11_adc | 110500000000 | 110500000000 | 05000000 | 2 0 0 0 4 0 0 0 | 0 | 41 | go | 1 0 0 0 4 0 0 0 | 6 | 0 | 8d5 | 0:07\n",
        ending: Ending::Wrong(1),
        printed: "11_adc 110500000000 EAX wanted 1 found 2\n11_adc 110500000000 byte wanted 7 found 8\n1 cases, 1 wrong\n",
    },
    Row {
        name: "adc dword [0x0], eax: EIP before the step is wrong",
        text: "11_adc | 110500000000 | 110500000000 | 05000000 | 1 0 0 0 4 0 0 0 | 1 | 41 | go | 1 0 0 0 4 0 0 0 | 6 | 0 | 8d5 | 0:07\n",
        ending: Ending::Wrong(1),
        printed: "11_adc 110500000000 byte wanted 7 found 5\n1 cases, 1 wrong\n",
    },
    Row {
        name: "adc dword [0x0], eax: the carry before the step is missing",
        text: "11_adc | 110500000000 | 110500000000 | 05000000 | 1 0 0 0 4 0 0 0 | 0 | 40 | go | 1 0 0 0 4 0 0 0 | 6 | 0 | 8d5 | 0:07\n",
        ending: Ending::Wrong(1),
        printed: "11_adc 110500000000 flags wanted 0 found 4\n11_adc 110500000000 byte wanted 7 found 6\n1 cases, 1 wrong\n",
    },
    Row {
        name: "adc dword [0x0], eax: the outcome is wrong",
        text: "11_adc | 110500000000 | 110500000000 | 05000000 | 1 0 0 0 4 0 0 0 | 0 | 41 | fault-6 | 1 0 0 0 4 0 0 0 | 6 | 0 | 8d5 | 0:07\n",
        ending: Ending::Wrong(1),
        printed: "11_adc 110500000000 outcome wanted 6 found 100\n1 cases, 1 wrong\n",
    },
    Row {
        name: "adc dword [0x0], eax: EDI after the step is wrong",
        text: "11_adc | 110500000000 | 110500000000 | 05000000 | 1 0 0 0 4 0 0 0 | 0 | 41 | go | 1 0 0 0 4 0 0 1 | 6 | 0 | 8d5 | 0:07\n",
        ending: Ending::Wrong(1),
        printed: "11_adc 110500000000 EDI wanted 1 found 0\n1 cases, 1 wrong\n",
    },
    Row {
        name: "adc dword [0x0], eax: EIP after the step is wrong",
        text: "11_adc | 110500000000 | 110500000000 | 05000000 | 1 0 0 0 4 0 0 0 | 0 | 41 | go | 1 0 0 0 4 0 0 0 | 5 | 0 | 8d5 | 0:07\n",
        ending: Ending::Wrong(1),
        printed: "11_adc 110500000000 EIP wanted 5 found 6\n1 cases, 1 wrong\n",
    },
    Row {
        name: "adc dword [0x0], eax: a flag after the step is wrong",
        text: "11_adc | 110500000000 | 110500000000 | 05000000 | 1 0 0 0 4 0 0 0 | 0 | 41 | go | 1 0 0 0 4 0 0 0 | 6 | 4 | 8d5 | 0:07\n",
        ending: Ending::Wrong(1),
        printed: "11_adc 110500000000 flags wanted 4 found 0\n1 cases, 1 wrong\n",
    },
    Row {
        name: "adc dword [0x0], eax: the mask has no flags",
        text: "11_adc | 110500000000 | 110500000000 | 05000000 | 1 0 0 0 4 0 0 0 | 0 | 41 | go | 1 0 0 0 4 0 0 0 | 6 | 0 | 0 | 0:07\n",
        ending: Ending::Wrong(1),
        printed: "11_adc 110500000000 flags wanted 40 found 0\n1 cases, 1 wrong\n",
    },
    Row {
        name: "adc dword [0x0], eax: a byte after the step is wrong",
        text: "11_adc | 110500000000 | 110500000000 | 05000000 | 1 0 0 0 4 0 0 0 | 0 | 41 | go | 1 0 0 0 4 0 0 0 | 6 | 0 | 8d5 | 0:08\n",
        ending: Ending::Wrong(1),
        printed: "11_adc 110500000000 byte wanted 8 found 7\n1 cases, 1 wrong\n",
    },
    Row {
        name: "mov eax, 0x5, then an empty line",
        text: "b8_mov | b805000000 | b805000000 | 00000000 | 0 0 0 0 4 0 0 0 | 0 | 0 | go | 5 0 0 0 4 0 0 0 | 5 | 0 | cd5 | -\n\n",
        ending: Ending::NoCase(2),
        printed: "",
    },
    Row {
        name: "mov eax, 0x5, then a line of one field",
        text: "b8_mov | b805000000 | b805000000 | 00000000 | 0 0 0 0 4 0 0 0 | 0 | 0 | go | 5 0 0 0 4 0 0 0 | 5 | 0 | cd5 | -\nb8_mov\n",
        ending: Ending::NoCase(2),
        printed: "",
    },
    Row {
        name: "mov eax, 0x5, then a line of three fields",
        text: "b8_mov | b805000000 | b805000000 | 00000000 | 0 0 0 0 4 0 0 0 | 0 | 0 | go | 5 0 0 0 4 0 0 0 | 5 | 0 | cd5 | -\na | b | c\n",
        ending: Ending::NoCase(2),
        printed: "",
    },
];

fn ending_of(ended: Result<Tally, CompareFailure>) -> Ending {
    match ended {
        Ok(tally) => Ending::Wrong(tally.wrong),
        Err(CompareFailure::Line(number)) => Ending::NoCase(number),
        Err(_) => Ending::Failed,
    }
}

#[test]
fn compares(rt: HostRuntime) {
    for row in ROWS {
        let name = row.name;
        let mut out = Vec::new(rt.alloc());
        let ended = check_all(rt.alloc(), row.text.as_bytes(), &mut out);
        assert!(rt; ending_of(ended) == row.ending, "{name}: ending");
        assert!(rt; out.as_slice() == row.printed.as_bytes(), "{name}: print");
    }
}
