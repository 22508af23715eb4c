use crate::{ChunkReader, Chunked, Refusal};
use std::test::Fail;
use wd_base::Same;

// The first row is of RFC 9112, section 7.1, with a chunk extension and without one.
#[test]
fn bodies_by_chunks_are_read(rt: HostRuntime) -> Result<(), Fail> {
    let malformed = Chunked::Refused(Refusal::Malformed);
    let large = Chunked::Refused(Refusal::TooLarge);
    let rows: [(&[u8], Chunked, &[u8]); 10] = [
        (
            b"4\r\nWiki\r\n5;a=b\r\npedia\r\n0\r\n\r\n",
            Chunked::Whole(28),
            b"Wikipedia",
        ),
        (
            b"a\r\n0123456789\r\n0\r\nExpires: never\r\n\r\nGET",
            Chunked::Whole(36),
            b"0123456789",
        ),
        (b"0\r\n\r\n", Chunked::Whole(5), b""),
        (b"4\r\nWiki\r", Chunked::Later, b""),
        (b"4\r\nWiki\r\n5\r\nped", Chunked::Later, b"Wiki"),
        (b"4\r\nWiki\r\n0\r\nA: b\r\n", Chunked::Later, b"Wiki"),
        (b"4\r\nWikipedia", malformed, b""),
        (b"4\nWiki", malformed, b""),
        (b"0\r\nA b\r\n\r\n", malformed, b""),
        (b"1\r\na\r\n100000\r\n", large, b"a"),
    ];
    for (bytes, shown, body) in rows {
        let mut reader = ChunkReader::new(rt.alloc());
        let found = reader.advance(rt.alloc(), bytes)?;
        assert!(&rt; found == shown);
        assert!(&rt; reader.body.as_slice() == body);
    }
    Ok(())
}
