use crate::record::written;
use mr_base::{Answer, Few, NumKey, Rows};
use mr_split::{Boundary, pieces};
use mr_text::{WordCount, rows_text};
use std::test::Fail;

#[test]
fn emits_words(rt: HostRuntime) -> Result<(), Fail> {
    let alloc = rt.alloc();
    let table: [(&str, u32, &str); 7] = [
        ("The cat the Dog", 1, "the 1/cat 1/the 1/dog 1/"),
        ("The cat the Dog", 100, "the 1/cat 1/the 1/dog 1/"),
        ("", 1, ""),
        (" .\n", 1, ""),
        ("aa bb", 1, "aa 1/bb 1/"),
        ("Don't DON'T", 3, "don't 1/don't 1/"),
        ("\u{dc}b \u{fc}b 1st.Z", 2, "\u{dc}b 1/\u{fc}b 1/1st 1/z 1/"),
    ];
    for (text, chunk, wanted) in table {
        assert!(rt; chunk >= 1 && text.len() <= 100);
        let text = text.as_bytes();
        let pieces = pieces(alloc, text, chunk, Boundary::Word)?;
        let found = written(alloc, &WordCount::new(text, &pieces))?;
        assert!(rt; found.as_bytes() == wanted.as_bytes(), "{wanted}");
    }
    Ok(())
}

#[test]
fn emits_words_over_strips(rt: HostRuntime) -> Result<(), Fail> {
    // words at the end of a strip, one that is longer than a strip, and more pairs than a block holds
    let alloc = rt.alloc();
    let mut text = Vec::new(alloc);
    let mut wanted = Vec::new(alloc);
    for length in [1000, 23, 1, 3000, 1024, 1025, 7] {
        let word = vec![in alloc; b'w'; length]?;
        text.extend_from_slice(word.as_slice())?;
        text.push(b' ')?;
        wanted.extend_from_slice(word.as_slice())?;
        wanted.extend_from_slice(b" 1/")?;
    }
    for _ in 0..700 {
        text.extend_from_slice(b"i,")?;
        wanted.extend_from_slice(b"i 1/")?;
    }
    assert!(rt; text.len() <= 100000);
    let text = text.as_slice();
    let pieces = pieces(alloc, text, 100000, Boundary::Word)?;
    let found = written(alloc, &WordCount::new(text, &pieces))?;
    assert!(rt; found.as_bytes() == wanted.as_slice());
    Ok(())
}

#[test]
fn prints_rows(rt: HostRuntime) -> Result<(), Fail> {
    let alloc = rt.alloc();
    let mut rows = Rows::new(alloc);
    rows.push(NumKey(0), Answer::one(-9223372036854775807))?;
    rows.push(NumKey(16), Answer::two(5, -1))?;
    let mut numbers = Few::with_room(alloc, 3)?;
    for number in [-170141183460469231731687303715884105728, 0, 7] {
        numbers.room()?;
        numbers.push(number);
    }
    rows.push(NumKey(9223372036854775807), Answer::many(numbers))?;
    let printed = rows_text(alloc, &rows)?;
    let wanted =
        b"0 -9223372036854775807\n16 5 -1\n9223372036854775807 -170141183460469231731687303715884105728 0 7\n";
    assert!(rt; printed.as_bytes() == wanted.as_slice());
    Ok(())
}
