//! Command lines, refusals' texts, and what is ready for a configuration. What is expected was
//! worked out by hand.

use crate::{PlanEnd, Reason, Refusal, RefusedScript, prepare};
use capnp_text::TextKind;
use std::alloc::Global;
use std::test::Fail;
use wd_base::{NoMemory, Seq};
use wd_command::{Notice, Verb};
use wd_config::{ConfigFault, ConfigKind};
use wd_graph::GraphFault;
use wd_ports::MemFiles;

const CONFIG: &[u8] = b"using W = import \"/workerd/workerd.capnp\";
const other :W.Config = ();
const main :W.Config = (
  services = [
    (name = \"a\", worker = .hello),
    (name = \"b\", worker = (modules = [(name = \"m\", esModule = embed \"bye.js\")])),
  ],
  sockets = [(name = \"http\", address = \"*:80\", service = \"a\")],
);
const hello :W.Worker = (modules = [(name = \"m\", esModule = embed \"hello.js\")]);
";

const HELLO: &[u8] = b"export default {
  async fetch(request) {
    return new Response(\"hello\\n\");
  }
};
";

const BYE: &[u8] = b"export default {
  async fetch(request) {
    return new Response(\"bye\");
  }
};
";

fn words_of(alloc: Global, words: &[&str]) -> Result<Vec<String>, NoMemory> {
    let mut list = Vec::new(alloc);
    for word in words {
        let word = String::from_str(alloc, word)?;
        if list.push(word).is_err() {
            return Err(NoMemory);
        }
    }
    Ok(list)
}

fn add_file(
    alloc: Global,
    files: &mut MemFiles,
    path: &[u8],
    bytes: &[u8],
) -> Result<(), NoMemory> {
    let path = Seq::copy(alloc, path)?;
    files.files.push((path, Seq::copy(alloc, bytes)?))
}

/// The configuration, with a script of the service `a` and one of `b`.
fn files_of(alloc: Global, first: &[u8], second: &[u8]) -> Result<MemFiles, NoMemory> {
    let mut files = MemFiles::new(alloc);
    add_file(alloc, &mut files, b"etc/config.capnp", CONFIG)?;
    add_file(alloc, &mut files, b"etc/hello.js", first)?;
    add_file(alloc, &mut files, b"etc/bye.js", second)?;
    Ok(files)
}

/// The notice that the words come to, without files.
fn notice_of(alloc: Global, words: &[&str]) -> Result<Option<Notice>, NoMemory> {
    let words = words_of(alloc, words)?;
    let mut files = MemFiles::new(alloc);
    match prepare(alloc, words.as_slice(), &mut files) {
        Err(PlanEnd::Refused(Refusal::NoCommand(notice))) => Ok(Some(notice)),
        Err(PlanEnd::NoMemory) => Err(NoMemory),
        _ => Ok(None),
    }
}

#[test]
fn words_that_are_no_command(rt: HostRuntime) -> Result<(), Fail> {
    let cases: [(&[&str], Option<Notice>); 7] = [
        (&[], Some(Notice::Fault)),
        (&["serve", "c", "--threads", "2"], Some(Notice::Fault)),
        (&["--help"], Some(Notice::Help)),
        (&["check", "--help"], Some(Notice::Help)),
        (&["--version"], Some(Notice::Version)),
        (&["serve", "c"], None),
        (&["check", "c", "main"], None),
    ];
    for (words, notice) in cases {
        assert!(rt; notice_of(rt.alloc(), words)? == notice, "{words:?}");
    }
    Ok(())
}

fn config_fault(alloc: Global, kind: ConfigKind) -> Result<Refusal, NoMemory> {
    let name = Seq::copy(alloc, b"name")?;
    Ok(Refusal::Config(ConfigFault {
        kind,
        place: 120,
        name,
    }))
}

#[test]
fn each_kind_of_fault_has_its_text(rt: HostRuntime) -> Result<(), Fail> {
    let cases: [(ConfigKind, &[u8]); 18] = [
        (
            ConfigKind::Text(TextKind::BadByte),
            b"error: config BadByte at 120: name\n",
        ),
        (
            ConfigKind::Text(TextKind::BadToken),
            b"error: config BadToken at 120: name\n",
        ),
        (
            ConfigKind::Text(TextKind::Unclosed),
            b"error: config Unclosed at 120: name\n",
        ),
        (
            ConfigKind::Text(TextKind::BadDecl),
            b"error: config BadDecl at 120: name\n",
        ),
        (
            ConfigKind::Text(TextKind::TooDeep),
            b"error: config TooDeep at 120: name\n",
        ),
        (
            ConfigKind::NoSuchConst,
            b"error: config NoSuchConst at 120: name\n",
        ),
        (
            ConfigKind::SeveralConfigs,
            b"error: config SeveralConfigs at 120: name\n",
        ),
        (
            ConfigKind::ConstLoop,
            b"error: config ConstLoop at 120: name\n",
        ),
        (
            ConfigKind::UnknownField,
            b"error: config UnknownField at 120: name\n",
        ),
        (
            ConfigKind::WrongKind,
            b"error: config WrongKind at 120: name\n",
        ),
        (ConfigKind::LeftOut, b"error: config LeftOut at 120: name\n"),
        (
            ConfigKind::DoubleName,
            b"error: config DoubleName at 120: name\n",
        ),
        (
            ConfigKind::EmbedFault,
            b"error: config EmbedFault at 120: name\n",
        ),
        (
            ConfigKind::EmbedMissing,
            b"error: config EmbedMissing at 120: name\n",
        ),
        (ConfigKind::BadJson, b"error: config BadJson at 120: name\n"),
        (
            ConfigKind::BadAddress,
            b"error: config BadAddress at 120: name\n",
        ),
        (
            ConfigKind::BadRange,
            b"error: config BadRange at 120: name\n",
        ),
        (
            ConfigKind::NoScript,
            b"error: config NoScript at 120: name\n",
        ),
    ];
    for (kind, text) in cases {
        let refusal = config_fault(rt.alloc(), kind)?;
        assert!(rt; refusal.text(rt.alloc())?.as_slice() == text);
        assert_eq!(rt; refusal.status(), 2);
    }
    Ok(())
}

#[test]
fn each_refusal_has_its_text(rt: HostRuntime) -> Result<(), Fail> {
    let alloc = rt.alloc();
    let link = GraphFault {
        from: Seq::copy(alloc, b"front")?,
        name: Seq::copy(alloc, b"back")?,
    };
    let script = RefusedScript {
        service: Seq::copy(alloc, b"main")?,
        reason: Reason::OtherForm,
    };
    let cases: [(Refusal, u8, &[u8]); 6] = [
        (
            Refusal::NoCommand(Notice::Fault),
            1,
            b"error: command line\n",
        ),
        (Refusal::NoCommand(Notice::Version), 0, b"workerd 0.1.0\n"),
        (
            Refusal::MissingFile(Seq::copy(alloc, b"a/b")?),
            5,
            b"error: file a/b\n",
        ),
        (
            Refusal::FileFault(Seq::copy(alloc, b"c.js")?),
            5,
            b"error: file c.js\n",
        ),
        (
            Refusal::Link(link),
            2,
            b"error: link UnknownService front -> back\n",
        ),
        (
            Refusal::Script(script),
            3,
            b"error: script main: LeftOut form at 0\n",
        ),
    ];
    for (refusal, status, text) in &cases {
        assert_eq!(rt; refusal.status(), *status);
        assert!(rt;
            refusal.text(alloc)?.as_slice() == *text,
            "at status {status}"
        );
    }
    Ok(())
}

#[test]
fn what_is_ready(rt: HostRuntime) -> Result<(), Fail> {
    let mut files = files_of(rt.alloc(), HELLO, BYE)?;
    let words = words_of(rt.alloc(), &["serve", "etc/config.capnp", "main"])?;
    let Ok(ready) = prepare(rt.alloc(), words.as_slice(), &mut files) else {
        return Err(Fail::new("nothing is ready"));
    };
    assert!(rt; ready.verb == Verb::Serve);
    assert_eq!(rt; ready.world.count(), 3);
    let [hello, bye] = ready.isolates.as_slice() else {
        return Err(Fail::new("nothing is ready"));
    };
    assert!(rt; hello.text.as_slice() == b"hello\n".as_slice());
    assert!(rt; bye.text.as_slice() == b"bye".as_slice());
    Ok(())
}

/// What is printed of the refusal, with `etc` holding these two scripts; nothing, where there is
/// none.
fn refused(alloc: Global, verb: &str, first: &[u8], second: &[u8]) -> Result<Vec<u8>, NoMemory> {
    let mut files = files_of(alloc, first, second)?;
    let words = words_of(alloc, &[verb, "etc/config.capnp", "main"])?;
    match prepare(alloc, words.as_slice(), &mut files) {
        Ok(_) => Ok(Vec::new(alloc)),
        Err(PlanEnd::Refused(refusal)) => refusal.text(alloc),
        Err(PlanEnd::NoMemory) => Err(NoMemory),
    }
}

#[test]
fn each_fault_of_a_script_has_its_text(rt: HostRuntime) -> Result<(), Fail> {
    // a script, and what is printed of it
    let rows: [(&[u8], &[u8]); 16] = [
        (b"export default {", b"error: script a: Syntax at 16\n"),
        (b"a b", b"error: script a: Syntax at 2\n"),
        (b"class A {}", b"error: script a: LeftOut class at 0\n"),
        (
            b"let rate = 0.5",
            b"error: script a: LeftOut number at 11\n",
        ),
        (b"f(...a)", b"error: script a: LeftOut ... at 2\n"),
        (
            b"a = /b/",
            b"error: script a: LeftOut regular expression at 4\n",
        ),
        (
            b"\xEF\xBB\xBF'\xC3\xA9' b",
            b"error: script a: Syntax at 4\n",
        ),
        (b"let a; let a;", b"error: script a: DoubleName at 11\n"),
        (b"if (a) return", b"error: script a: ReturnOutside at 7\n"),
        (b"await a", b"error: script a: AwaitOutside at 0\n"),
        (b"a => { break }", b"error: script a: BreakOutside at 7\n"),
        (b"let a; let a; a b", b"error: script a: Syntax at 16\n"),
        (b"", b"error: script a: LeftOut form at 0\n"),
        (
            b"export default {};",
            b"error: script a: LeftOut form at 0\n",
        ),
        (
            b"// hello\nexport default { async fetch(a) { return a } };",
            b"error: script a: LeftOut form at 0\n",
        ),
        (HELLO, b""),
    ];
    let alloc = rt.alloc();
    for (script, text) in rows {
        assert!(rt;
            refused(alloc, "check", script, HELLO)?.as_slice() == text,
            "{script:?}"
        );
        assert!(rt;
            refused(alloc, "serve", script, HELLO)?.as_slice() == text,
            "{script:?}"
        );
    }
    Ok(())
}

#[test]
fn scripts_are_refused_in_the_order_of_services(rt: HostRuntime) -> Result<(), Fail> {
    // the script of the first Worker, that of the second, and what is printed
    let rows: [(&[u8], &[u8], &[u8]); 4] = [
        (HELLO, b"a b", b"error: script b: Syntax at 2\n"),
        (b"break", b"a b", b"error: script a: BreakOutside at 0\n"),
        (b"", b"a b", b"error: script a: LeftOut form at 0\n"),
        (HELLO, b"", b"error: script b: LeftOut form at 0\n"),
    ];
    let alloc = rt.alloc();
    for (first, second, text) in rows {
        assert!(rt;
            refused(alloc, "check", first, second)?.as_slice() == text,
            "{second:?}"
        );
    }
    Ok(())
}
