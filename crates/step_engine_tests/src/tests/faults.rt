use super::same;
use basics::Refusal;
use std::alloc::{AllocError, Global};
use std::process::Abort;
use step_engine::EvolveFault;

/// Stops the test where the fault says something else of itself.
fn expect_says(
    rt: &impl Abort,
    alloc: Global,
    fault: EvolveFault,
    number: u8,
    name: &str,
    text: &str,
) {
    let said = fault.to_string(alloc).expect(rt, "memory");
    same(rt, &fault.reason().number, &number, &name);
    same(rt, &fault.reason().name, &name, &number);
    same(rt, &fault.reason().place, &None, &name);
    same(rt, &said.as_str(), &text, &name);
}

#[test]
fn names_each_fault(rt: HostRuntime) {
    let alloc = rt.alloc();
    let no_memory = EvolveFault::from(AllocError);
    expect_says(&rt, alloc, no_memory, 70, "NoMemory", "there is no memory");
    expect_says(
        &rt,
        alloc,
        EvolveFault::NoRoom,
        71,
        "NoRoom",
        "there is no room for another square",
    );
    expect_says(
        &rt,
        alloc,
        EvolveFault::Stopped,
        72,
        "Stopped",
        "the computation was stopped",
    );
}
