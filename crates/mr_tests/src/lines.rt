use crate::record::written;
use mr_base::Patterns;
use mr_lines::{FoldBytes, FoldNumbers, InvertedIndex, StringMatch};
use mr_split::{Boundary, pieces};
use std::test::Fail;

#[test]
fn emits_keyed_lines(rt: HostRuntime) -> Result<(), Fail> {
    let alloc = rt.alloc();
    let table: [(&str, &str, &str); 10] = [
        ("a 5\nb -2\na -5\n", "a 5/b -2/a -5/", "!0/!4/!9/"),
        ("a 1\nb x\nc\n", "a 1/!4/!8/", "!0/!4/!8/"),
        ("7 1\r\n\r\n007 2", "7 1/007 2/", "7 1/7 2/"),
        ("1 2 3\n\t 40\t -0 \n", "!0/40 0/", "!0/40 0/"),
        (
            "-1 5\n4 9223372036854775807\n",
            "-1 5/4 9223372036854775807/",
            "!0/4 9223372036854775807/",
        ),
        ("5 9223372036854775808\n\n \t\n", "!0/", "!0/"),
        (
            "9223372036854775808 1\n5 +1\n",
            "9223372036854775808 1/!22/",
            "!0/!22/",
        ),
        ("\u{dc} 1\r\r\n1\r 2\n", "!0/1\r 2/", "!0/!7/"),
        ("", "", ""),
        (
            "x 12345678\n1 -99999999\n2 123456789\n3 1234567a\n4 -\n5 /1\n",
            "x 12345678/1 -99999999/2 123456789/!35/!46/!50/",
            "!0/1 -99999999/2 123456789/!35/!46/!50/",
        ),
    ];
    for (text, by_bytes, by_numbers) in table {
        for chunk in [1, 100] {
            assert!(rt; text.len() <= 100);
            let text = text.as_bytes();
            let pieces = pieces(alloc, text, chunk, Boundary::Line)?;
            let found = written(alloc, &FoldBytes::new(text, &pieces))?;
            assert!(rt; found.as_bytes() == by_bytes.as_bytes(), "{by_bytes}");
            let numbers = written(alloc, &FoldNumbers::new(text, &pieces))?;
            assert!(rt; numbers.as_bytes() == by_numbers.as_bytes(), "{by_numbers}");
        }
    }
    Ok(())
}

#[test]
fn emits_places_of_words(rt: HostRuntime) -> Result<(), Fail> {
    let alloc = rt.alloc();
    let table: [(&str, &str); 4] = [
        ("b a\na a\n", "b 0/a 0/a 4/a 4/"),
        ("Don't\r\n\nDON'T", "don't 0/don't 8/"),
        ("\n\n.", ""),
        ("x\n\u{dc}b 1st.Z", "x 0/\u{dc}b 2/1st 2/z 2/"),
    ];
    for (text, wanted) in table {
        for chunk in [1, 100] {
            assert!(rt; text.len() <= 100);
            let text = text.as_bytes();
            let pieces = pieces(alloc, text, chunk, Boundary::Line)?;
            let found = written(alloc, &InvertedIndex::new(text, &pieces))?;
            assert!(rt; found.as_bytes() == wanted.as_bytes(), "{wanted}");
        }
    }
    Ok(())
}

#[test]
fn emits_numbers_of_patterns(rt: HostRuntime) -> Result<(), Fail> {
    let alloc = rt.alloc();
    let mut patterns = Patterns::new(alloc);
    for pattern in [
        "ab",
        "zz",
        "b",
        "b\r",
        "a\nb",
        "abababababababababababababababababab",
    ] {
        patterns.push(pattern.as_bytes())?;
    }
    let table: [(&str, &str); 6] = [
        ("abab\ncab\nb\n", "0 1/2 1/0 1/2 1/2 1/"),
        ("ab ab\nzz", "0 1/2 1/1 1/"),
        ("a\nb\r\n\n\nz\nz", "2 1/3 1/"),
        ("", ""),
        ("Ab aB\nzzz\n", "2 1/1 1/"),
        (
            "abababababababababababababababababababab\nab\n",
            "0 1/2 1/5 1/0 1/2 1/",
        ),
    ];
    for (text, wanted) in table {
        for chunk in [1, 4, 100] {
            assert!(rt; text.len() <= 100);
            let text = text.as_bytes();
            let pieces = pieces(alloc, text, chunk, Boundary::Line)?;
            let found = written(alloc, &StringMatch::new(text, &pieces, &patterns))?;
            assert!(rt; found.as_bytes() == wanted.as_bytes(), "{wanted}");
        }
    }
    Ok(())
}
