//! Command lines. What is expected was worked out by hand.

use crate::{Asks, Verb, asks_of, serves};
use std::alloc::Global;
use std::test::Fail;
use wd_base::NoMemory;

fn words_of(alloc: Global, words: &[&str]) -> Result<Vec<String>, NoMemory> {
    let mut list = Vec::new(alloc);
    for word in words {
        let word = String::from_str(alloc, word)?;
        if list.push(word).is_err() {
            return Err(NoMemory);
        }
    }
    Ok(list)
}

#[test]
fn commands(rt: HostRuntime) -> Result<(), Fail> {
    // the words, their verb, the path of the configuration, and the name of the constant
    let cases: [(&[&str], Verb, &str, Option<&str>); 19] = [
        (&["serve", "c"], Verb::Serve, "c", None),
        (&["serve", "c", "main"], Verb::Serve, "c", Some("main")),
        (&["serve", "c", "--threads", "1"], Verb::Serve, "c", None),
        (&["serve", "c", "--threads=1"], Verb::Serve, "c", None),
        (&["serve", "--threads", "1", "c"], Verb::Serve, "c", None),
        (
            &["serve", "--threads=1", "c", "main"],
            Verb::Serve,
            "c",
            Some("main"),
        ),
        (
            &["serve", "c", "--threads", "1", "main"],
            Verb::Serve,
            "c",
            Some("main"),
        ),
        (
            &["serve", "c", "main", "--threads", "1"],
            Verb::Serve,
            "c",
            Some("main"),
        ),
        (&["serve", "-"], Verb::Serve, "-", None),
        (&["serve", "-", "-"], Verb::Serve, "-", Some("-")),
        (&["serve", "--", "-c"], Verb::Serve, "-c", None),
        (
            &["serve", "c", "--", "--help"],
            Verb::Serve,
            "c",
            Some("--help"),
        ),
        (&["serve", "--", "--"], Verb::Serve, "--", None),
        (
            &["serve", "serve", "check"],
            Verb::Serve,
            "serve",
            Some("check"),
        ),
        (&["serve", ""], Verb::Serve, "", None),
        (&["check", "c"], Verb::Check, "c", None),
        (&["check", "c", "main"], Verb::Check, "c", Some("main")),
        (&["check", "--", "c", "-m"], Verb::Check, "c", Some("-m")),
        (&["check", "-"], Verb::Check, "-", None),
    ];
    for (words, verb, config, constant) in cases {
        let list = words_of(rt.alloc(), words)?;
        let asks = asks_of(rt.alloc(), list.as_slice())?;
        match asks {
            Asks::Run(line) => {
                assert!(rt; line.verb == verb, "{words:?}");
                assert!(rt; line.config == config, "{words:?}");
                assert!(rt; line.constant == constant, "{words:?}");
            }
            Asks::Show(_) => assert!(rt; false, "{words:?}"),
        }
        assert!(rt;
            serves(rt.alloc(), list.as_slice())? == (verb == Verb::Serve),
            "{words:?}"
        );
    }
    Ok(())
}

#[test]
fn texts(rt: HostRuntime) -> Result<(), Fail> {
    // the words, the status, and how the text begins
    let cases: [(&[&str], u8, &[u8]); 38] = [
        (
            &["--help"],
            0,
            b"A server for stateless JavaScript Workers.\n\nUsage:\n",
        ),
        (&["--help", "serve"], 0, b"A server"),
        (&["serve", "--help"], 0, b"A server"),
        (&["serve", "c", "--help"], 0, b"A server"),
        (&["serve", "--threads", "2", "--help"], 0, b"A server"),
        (&["check", "--help"], 0, b"A server"),
        (&["check", "c", "main", "--help"], 0, b"A server"),
        (&["--help", "--version"], 0, b"A server"),
        (&["--version", "--help"], 0, b"A server"),
        (&["--version"], 0, b"workerd 0.1.0\n"),
        (&["--version", "serve", "c"], 0, b"workerd 0.1.0\n"),
        (&[], 1, b"error: command line\n"),
        (&[""], 1, b"error: command line\n"),
        (&["help"], 1, b"error: command line\n"),
        (&["version"], 1, b"error: command line\n"),
        (&["-h"], 1, b"error: command line\n"),
        (&["-V"], 1, b"error: command line\n"),
        (&["--help=1"], 1, b"error: command line\n"),
        (&["--help", "--help"], 1, b"error: command line\n"),
        (&["--hel"], 1, b"error: command line\n"),
        (&["serve"], 1, b"error: command line\n"),
        (&["check"], 1, b"error: command line\n"),
        (&["Serve", "c"], 1, b"error: command line\n"),
        (&["--", "serve", "c"], 1, b"error: command line\n"),
        (&["serve", "-c"], 1, b"error: command line\n"),
        (&["serve", "c", "-n"], 1, b"error: command line\n"),
        (&["serve", "c", "main", "more"], 1, b"error: command line\n"),
        (
            &["serve", "c", "--threads", "2"],
            1,
            b"error: command line\n",
        ),
        (
            &["serve", "c", "--threads", "+1"],
            1,
            b"error: command line\n",
        ),
        (&["serve", "c", "--threads="], 1, b"error: command line\n"),
        (&["serve", "c", "--threads"], 1, b"error: command line\n"),
        (
            &["serve", "c", "--threads", "-"],
            1,
            b"error: command line\n",
        ),
        (
            &["serve", "c", "--threads", "1", "--threads", "1"],
            1,
            b"error: command line\n",
        ),
        (&["serve", "c", "--version"], 1, b"error: command line\n"),
        (&["serve", "--bogus", "--help"], 1, b"error: command line\n"),
        (
            &["check", "c", "--threads", "1"],
            1,
            b"error: command line\n",
        ),
        (&["check", "c", "main", "more"], 1, b"error: command line\n"),
        (&["replay", "j", "c"], 1, b"error: command line\n"),
    ];
    for (words, status, begin) in cases {
        let list = words_of(rt.alloc(), words)?;
        let asks = asks_of(rt.alloc(), list.as_slice())?;
        match asks {
            Asks::Show(notice) => {
                assert!(rt; notice.status() == status, "{words:?}");
                assert!(rt; notice.text().starts_with(begin), "{words:?}");
            }
            Asks::Run(_) => assert!(rt; false, "{words:?}"),
        }
        assert!(rt; !serves(rt.alloc(), list.as_slice())?, "{words:?}");
    }
    Ok(())
}
