ghost use Rattle.std.specs.Prelude.{◌≤◌, length};

use mr_base::Memory;
use mr_split::{Boundary, pieces, spans};
use std::alloc::Global;
use std::test::Fail;

/// The pieces of a text, each as its bytes.
fn cut<'a>(
    alloc: Global,
    text: &'a [u8],
    chunk: u32,
    kind: Boundary,
) -> Result<Vec<&'a [u8]>, Memory>
    requires chunk { 1 ≤ chunk }
    requires length { length text.now ≤ 134217728 }
{
    let pieces = pieces(alloc, text, chunk, kind)?;
    let mut cut = Vec::new(alloc);
    for task in 0..pieces.len() {
        let piece = pieces.get(task);
        cut.push(text.get(piece.start..piece.end).unwrap_or(b"out of place"))?;
    }
    Ok(cut)
}

#[test]
fn cuts_at_boundaries(rt: HostRuntime) -> Result<(), Fail> {
    let alloc = rt.alloc();
    let table: [(&[u8], u32, Boundary, &[&[u8]]); 10] = [
        (b"", 1, Boundary::Word, &[]),
        (b"", 1, Boundary::Line, &[]),
        (b"aa bb", 1, Boundary::Word, &[b"aa", b" ", b"bb"]),
        (b"aa bb", 2, Boundary::Word, &[b"aa", b" bb"]),
        (b"aa bb", 5, Boundary::Word, &[b"aa bb"]),
        (
            b"it's  so",
            1,
            Boundary::Word,
            &[b"it's", b" ", b" ", b"so"],
        ),
        (
            "é\u{fc}1 x".as_bytes(),
            1,
            Boundary::Word,
            &["é\u{fc}1".as_bytes(), b" ", b"x"],
        ),
        (b"a\nb", 1, Boundary::Line, &[b"a\n", b"b"]),
        (b"\n\nab c\n", 3, Boundary::Line, &[b"\n\nab c\n"]),
        (
            b"\n\nab c\nd",
            2,
            Boundary::Line,
            &[b"\n\n", b"ab c\n", b"d"],
        ),
    ];
    for (text, chunk, kind, wanted) in table {
        assert!(rt; chunk >= 1 && text.len() <= 100);
        let pieces = cut(alloc, text, chunk, kind)?;
        assert!(rt; pieces.as_slice() == wanted, "chunk {chunk}");
    }
    Ok(())
}

#[test]
fn counts_spans(rt: HostRuntime) {
    for (items, chunk, number, last) in [
        (0, 1, 0, (0, 0)),
        (10, 3, 4, (9, 10)),
        (134217728, 1, 1048576, (134217600, 134217728)),
    ] {
        let spans = spans(items, chunk);
        assert_eq!(rt; spans.len(), number);
        if number > 0 {
            let span = spans.get(number - 1);
            assert_eq!(rt; (span.start, span.end), last);
        }
    }
}
