use crate::{host_and_port, parse, path_and_query, url_text};
use std::process::Abort;
use std::test::Fail;

#[test]
fn urls_have_the_parts_of_the_standard(rt: HostRuntime) -> Result<(), Fail> {
    let rows: [(&[u8], &[u8], &[u8], &[u8]); 6] = [
        (
            b"http://localhost:8080/a?b=1#c",
            b"http://localhost:8080/a?b=1#c",
            b"localhost:8080",
            b"/a?b=1",
        ),
        (
            b"http://EXAMPLE.com:80",
            b"http://example.com/",
            b"example.com",
            b"/",
        ),
        (
            b"http://u:p@a/x/../%2e/y?",
            b"http://u:p@a/y?",
            b"a",
            b"/y?",
        ),
        (b"http:///a", b"http://a/", b"a", b"/"),
        (
            b"http://[0:0::1]:81/",
            b"http://[::1]:81/",
            b"[::1]:81",
            b"/",
        ),
        (b"mailto:a@b", b"mailto:a@b", b"", b"a@b"),
    ];
    for (bytes, text, host, target) in rows {
        match url_text(rt.alloc(), bytes)? {
            Some(found) => assert!(rt; found.as_slice() == text, "{bytes:?}"),
            None => assert!(rt; false, "{bytes:?}"),
        }
        match parse(rt.alloc(), bytes)? {
            Some(url) => {
                assert!(rt; host_and_port(&url).as_bytes() == host, "{bytes:?}");
                assert!(rt; path_and_query(&url).as_bytes() == target, "{bytes:?}");
            }
            None => assert!(rt; false, "{bytes:?}"),
        }
    }
    Ok(())
}

#[test]
fn other_bytes_spell_no_url(rt: HostRuntime) -> Result<(), Fail> {
    let rows: [&[u8]; 6] = [
        b"",
        b"/a",
        b"http://",
        b"http://a b/",
        b"http://a:70000/",
        b"http://a/\xFF",
    ];
    for bytes in rows {
        assert!(rt; url_text(rt.alloc(), bytes)?.is_none(), "{bytes:?}");
        assert!(rt; parse(rt.alloc(), bytes)?.is_none(), "{bytes:?}");
    }
    Ok(())
}
