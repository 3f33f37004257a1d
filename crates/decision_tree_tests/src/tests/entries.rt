//! Entries, alone and in lists.
ghost use Rattle.std.specs.Prelude.{◌<◌};

use super::same;
use decision_tree::{Entries, Entry};
use std::alloc::Global;
use std::process::Abort;

// An entry has its number again, and is written as it.
fn expect_entry(rt: &impl Abort, alloc: Global, number: u32, wanted: &str)
    requires { number < 16777216 }
{
    let entry = Entry::of(number);
    same(rt, &entry, &Entry::of(entry.number()), &number);
    let text = format!(in alloc; "{entry:?}").expect(rt, "memory");
    same(rt, &text.as_str(), &wanted, &number);
}

#[test]
fn numbers_of_entries(rt: HostRuntime) {
    let alloc = rt.alloc();
    expect_entry(&rt, alloc, 0, "0");
    expect_entry(&rt, alloc, 255, "255");
    expect_entry(&rt, alloc, 256, "256");
    expect_entry(&rt, alloc, 65_535, "65535");
    expect_entry(&rt, alloc, 65_536, "65536");
    expect_entry(&rt, alloc, 4_194_303, "4194303");
    expect_entry(&rt, alloc, 16_777_215, "16777215");
}

fn pair(rt: &impl Abort, alloc: Global, first: u32, second: u32) -> Entries
    requires first { first < 16777216 }
    requires second { second < 16777216 }
{
    let list = vec![in alloc; Entry::of(first), Entry::of(second)].expect(rt, "memory");
    Entries::of(alloc, list).expect(rt, "memory")
}

// Two entries are written as their numbers, and another list of the same is equal.
fn expect_pair(rt: &impl Abort, alloc: Global, first: u32, second: u32, wanted: &str)
    requires first { first < 16777216 }
    requires second { second < 16777216 }
{
    let entries = pair(rt, alloc, first, second);
    let again = pair(rt, alloc, first, second);
    same(rt, &entries, &again, &wanted);
    let text = format!(in alloc; "{entries:?}").expect(rt, "memory");
    same(rt, &text.as_str(), &wanted, &wanted);
}

#[test]
fn lists_of_entries(rt: HostRuntime) {
    let alloc = rt.alloc();
    expect_pair(&rt, alloc, 0, 1, "[0, 1]");
    expect_pair(&rt, alloc, 65_535, 7, "[65535, 7]");
    expect_pair(&rt, alloc, 65_536, 7, "[65536, 7]");
    expect_pair(&rt, alloc, 7, 16_777_215, "[7, 16777215]");
    let narrow = pair(&rt, alloc, 7, 65_535);
    let wide = pair(&rt, alloc, 7, 65_536);
    same(&rt, &(narrow == wide), &false, &"two bytes and three");
}
