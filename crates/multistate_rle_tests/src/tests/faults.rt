//! What faults say of themselves.
use super::same;
use basics::Refusal;
use multistate_rle::RleFault;
use std::alloc::Global;
use std::process::Abort;

/// A fault, and what it says of itself.
struct Said {
    fault: RleFault,
    number: u8,
    place: Option<u64>,
    name: &'static str,
    text: &'static str,
}

/// Stops the test where the fault says something else of itself.
fn expect_says(rt: &impl Abort, alloc: Global, case: &Said) {
    let said = case.fault.to_string(alloc).expect(rt, "memory");
    same(rt, &case.fault.reason().number, &case.number, &case.name);
    same(rt, &case.fault.reason().name, &case.name, &case.number);
    same(rt, &case.fault.reason().place, &case.place, &case.name);
    same(rt, &said.as_str(), &case.text, &case.name);
}

const FAULTS: [Said; 7] = [
    Said {
        fault: RleFault::NoHeader,
        number: 20,
        place: None,
        name: "NoHeader",
        text: "there is no header line",
    },
    Said {
        fault: RleFault::BadHeader,
        number: 21,
        place: None,
        name: "BadHeader",
        text: "the header is not `x = m, y = n, rule = name`",
    },
    Said {
        fault: RleFault::BadRun(7),
        number: 22,
        place: Some(7),
        name: "BadRun",
        text: "offset 7: this is no state and no end of a row",
    },
    Said {
        fault: RleFault::BoundedGrid,
        number: 23,
        place: None,
        name: "BoundedGrid",
        text: "the rule is one of a bounded grid",
    },
    Said {
        fault: RleFault::TooManyLive,
        number: 24,
        place: None,
        name: "TooManyLive",
        text: "there are more than 16,777,216 live cells",
    },
    Said {
        fault: RleFault::CellOutOfRange,
        number: 41,
        place: None,
        name: "CellOutOfRange",
        text: "a cell lies outside the plane",
    },
    Said {
        fault: RleFault::NoMemory,
        number: 70,
        place: None,
        name: "NoMemory",
        text: "there is not enough memory",
    },
];

#[test]
fn faults(rt: HostRuntime) {
    let alloc = rt.alloc();
    for case in &FAULTS {
        expect_says(&rt, alloc, case);
    }
}
