//! Lines that begin with `#`.
use super::expect_heading;

#[test]
fn names(rt: HostRuntime) {
    let alloc = rt.alloc();
    expect_heading(&rt, alloc, b"", b"", 0);
    expect_heading(&rt, alloc, b"#R X", b"X", 0);
    expect_heading(&rt, alloc, b" #R\t a b \n", b"a b", 0);
    expect_heading(&rt, alloc, b"#R A\n#R B", b"B", 0);
    expect_heading(&rt, alloc, b"#R A\n#R", b"", 0);
    expect_heading(&rt, alloc, b"#Rx:y\n#r Y\n# R Z\n#RR", b"", 0);
    expect_heading(&rt, alloc, b"1 0 0 0 1\n#R A\n2 1 0 0 0\n", b"A", 0);
}

#[test]
fn generations(rt: HostRuntime) {
    let alloc = rt.alloc();
    expect_heading(&rt, alloc, b"#G 5", b"", 5);
    expect_heading(&rt, alloc, b"#R X\r\n#G\t007\r\n", b"X", 7);
    expect_heading(&rt, alloc, b"#G 5\n#G 6", b"", 6);
    expect_heading(&rt, alloc, b"#G 5\n#G x\n#G\n#G 1 2\n#G -1\n#G7", b"", 5);
    expect_heading(&rt, alloc, b"#G 18446744073709551615", b"", u64::MAX);
    expect_heading(&rt, alloc, b"#G 18446744073709551617", b"", u64::MAX);
    expect_heading(
        &rt,
        alloc,
        b"#G 99999999999999999999999999999",
        b"",
        u64::MAX,
    );
}
