use super::Told::{Items, LeftOut, Syntax};
use super::is_told;
use std::alloc::Global;
use std::process::Abort;
use std::test::Fail;
use wd_base::{NoMemory, Seq, Units, units_of};

/// The first text so many times, then the second, and the third so many times.
fn nested(
    alloc: Global,
    opens: &str,
    inner: &str,
    closes: &str,
    times: usize,
) -> Result<Units, NoMemory> {
    let mut bytes = Seq::new(alloc);
    for _ in 0..times {
        bytes.extend(opens.as_bytes())?;
    }
    bytes.extend(inner.as_bytes())?;
    for _ in 0..times {
        bytes.extend(closes.as_bytes())?;
    }
    units_of(alloc, bytes.as_slice())
}

/// What opens, what stands innermost, what closes, how many may be open, and the place of the
/// fault where it is one more.
type Row = (&'static str, &'static str, &'static str, u8, usize);

fn check(rt: &impl Abort, alloc: Global, rows: &[Row]) -> Result<(), Fail> {
    for (opens, inner, closes, most, place) in rows {
        let times = usize::from(*most);
        let taken = nested(alloc, opens, inner, closes, times)?;
        assert!(rt;
            is_told(alloc, &taken, Items(1))?,
            "{times} {opens}{inner}{closes}"
        );
        let refused = nested(alloc, opens, inner, closes, times + 1)?;
        let expected = LeftOut(*place, "nesting");
        assert!(rt;
            is_told(alloc, &refused, expected)?,
            "{opens}{inner}{closes}: {expected:?}"
        );
    }
    Ok(())
}

#[test]
fn at_most_128_brackets(rt: HostRuntime) -> Result<(), Fail> {
    check(
        &rt,
        rt.alloc(),
        &[
            ("(", "a", ")", 128, 128),
            ("[", "", "]", 128, 128),
            ("{", "", "}", 128, 128),
            ("[{a:", "1", "}]", 64, 256),
            ("`${", "a", "}`", 128, 384),
            ("a(", "", ")", 128, 257),
            ("a[", "b", "]", 128, 257),
            ("new a(", "", ")", 128, 773),
            ("try{", "", "}finally{}", 128, 515),
            ("if(a){", "", "}", 128, 770),
            ("function f(){", "", "}", 128, 1674),
            ("a=>{", "", "}", 128, 515),
            ("(a)=>{", "", "}", 128, 768),
            ("a=>{let b=", "1", "}", 128, 1283),
        ],
    )
}

#[test]
fn at_most_128_operators(rt: HostRuntime) -> Result<(), Fail> {
    check(
        &rt,
        rt.alloc(),
        &[
            ("!", "a", "", 128, 128),
            ("- ", "a", "", 128, 256),
            ("typeof ", "a", "", 128, 896),
            ("await ", "a", "", 128, 768),
            ("a+", "a", "", 128, 257),
            ("a??", "a", "", 128, 385),
            ("a*a+", "a", "", 64, 257),
            ("a=", "a", "", 128, 257),
            ("a-=", "a", "", 128, 385),
            ("a?", "b", ":c", 128, 257),
            ("a?b:", "c", "", 128, 513),
            ("a=>", "a", "", 128, 385),
            ("async(a)=>", "a", "", 128, 1285),
        ],
    )
}

#[test]
fn at_most_128_in_a_chain(rt: HostRuntime) -> Result<(), Fail> {
    check(
        &rt,
        rt.alloc(),
        &[
            ("", "a", ".b", 128, 257),
            ("", "a", "()", 128, 257),
            ("", "a", "[0]", 128, 385),
            ("", "a", ".b()", 64, 257),
        ],
    )
}

#[test]
fn at_most_128_bodies(rt: HostRuntime) -> Result<(), Fail> {
    check(
        &rt,
        rt.alloc(),
        &[
            ("if(a)", "b", "", 128, 642),
            ("if(a);else ", ";", "", 128, 1410),
            ("while(a)", "b", "", 128, 1029),
            ("for(;;)", "b", "", 128, 899),
            ("for(let a of b)", ";", "", 128, 1923),
        ],
    )
}

// what is closed again, and an arrow whose body may be a block
#[test]
fn what_is_not_open(rt: HostRuntime) -> Result<(), Fail> {
    let rows = [
        ("(a);", 200, Items(200)),
        ("{}", 200, Items(200)),
        ("a+b;", 200, Items(200)),
        ("a=>a\n", 200, Items(200)),
        ("a=>", 129, Syntax(387)),
    ];
    let alloc = rt.alloc();
    for (text, times, expected) in rows {
        let units = nested(alloc, text, "", "", times)?;
        assert!(rt; is_told(alloc, &units, expected)?, "{text}: {expected:?}");
    }
    Ok(())
}
