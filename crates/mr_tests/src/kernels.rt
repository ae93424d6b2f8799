use mr_kernels::{count_byte, field_edges, line_end, pair_sum, word_edges, word_end, word_start};
use std::test::Fail;

#[test]
fn words_between_blanks(rt: HostRuntime) -> Result<(), Fail> {
    let mut text = vec![in rt.alloc(); 32u8; 100]?;
    text.extend_from_slice(b"ab")?;
    text.extend_from_slice(vec![in rt.alloc(); 32u8; 100]?.as_slice())?;
    assert_eq!(rt; text.len(), 202);
    let cases = [
        (0, 100, 0),
        (1, 100, 1),
        (99, 100, 99),
        (100, 100, 102),
        (101, 101, 102),
        (102, 202, 102),
        (202, 202, 202),
    ];
    for (from, start, end) in cases {
        if from <= text.len() {
            assert_eq!(rt; word_start(text.as_slice(), from), start, "from {from}");
            assert_eq!(rt; word_end(text.as_slice(), from), end, "from {from}");
        }
    }
    Ok(())
}

#[test]
fn classes_of_bytes(rt: HostRuntime) -> Result<(), Fail> {
    // each byte alone, and behind sixteen of another kind
    let word = b"0189AMZamz'\x80\xff";
    let blank = b"/:@[`{&( \n\t\x00\x7f";
    for byte in word {
        let text = [
            32, 32, 32, 32, 32, 32, 32, 32, 32, 32, 32, 32, 32, 32, 32, 32, *byte,
        ];
        assert_eq!(rt; word_start(&text, 0), 16, "byte {byte}");
        assert_eq!(rt; word_end(&text, 16), 17, "byte {byte}");
    }
    for byte in blank {
        let text = [
            97, 97, 97, 97, 97, 97, 97, 97, 97, 97, 97, 97, 97, 97, 97, *byte, 97,
        ];
        assert_eq!(rt; word_end(&text, 0), 15, "byte {byte}");
        assert_eq!(rt; word_start(&text, 15), 16, "byte {byte}");
    }
    Ok(())
}

#[test]
fn counts_and_lines(rt: HostRuntime) -> Result<(), Fail> {
    let lines = vec![in rt.alloc(); 10u8; 70]?;
    assert_eq!(rt; count_byte(lines.as_slice(), 10), 70);
    assert_eq!(rt; count_byte(lines.as_slice(), 11), 0);
    assert_eq!(rt; count_byte(b"a\nb\n\n", 10), 3);
    assert_eq!(rt; count_byte(b"", 10), 0);
    assert_eq!(rt; line_end(lines.as_slice(), 69), 69);
    assert_eq!(rt; line_end(b"sixteen and more bytes\nand more", 3), 22);
    assert_eq!(rt; line_end(b"sixteen and more bytes\nand more", 23), 31);
    Ok(())
}

#[test]
fn edges_of_words_and_fields(rt: HostRuntime) -> Result<(), Fail> {
    // a word over the end of a block, and one up to the end of the text
    let mut text = vec![in rt.alloc(); b'.'; 60]?;
    text.extend_from_slice(b"It's over\t60, \x80 and")?;
    let text = text.as_slice();
    assert_eq!(rt; text.len(), 79);
    let words: [(usize, usize, &[u32]); 5] = [
        (0, 79, &[60, 64, 65, 69, 70, 72, 74, 75, 76, 79]),
        (0, 63, &[60, 63]),
        (61, 66, &[0, 3, 4, 5]),
        (0, 60, &[]),
        (79, 79, &[]),
    ];
    let mut edges = vec![in rt.alloc(); 7u32; 160]?;
    for (from, to, wanted) in words {
        if from <= to && to <= text.len() && edges.len() == 160 {
            let count = word_edges(text, from, to, &mut edges);
            assert!(rt;
                count <= 160 && &edges[..count] == wanted,
                "from {from} to {to}"
            );
        }
    }
    if text.len() >= 79 && edges.len() == 160 {
        let count = field_edges(text, 58, 76, &mut edges);
        assert!(rt; count <= 160 && &edges[..count] == [0, 6, 7, 11, 12, 15, 16, 17].as_slice());
    }
    Ok(())
}

#[test]
fn sums_of_products(rt: HostRuntime) {
    assert_eq!(rt; pair_sum(&[3, 4], &[5, 6]), Some(39));
    assert_eq!(rt; pair_sum(&[], &[]), Some(0));
    assert_eq!(rt; pair_sum(&[-3, 4], &[5, 6]), Some(9));
    let most = 2147483647;
    assert_eq!(rt; pair_sum(&[most, most, most], &[most, most, most]), None);
    assert_eq!(rt;
        pair_sum(&[most, most], &[most, most]),
        Some(9223372028264841218)
    );
    // the sum is small, and its magnitudes are not
    assert_eq!(rt;
        pair_sum(&[most, most, most], &[most, -most, 1]),
        Some(most as i64)
    );
    assert_eq!(rt; pair_sum(&[most, most, most], &[most, -most, most]), None);
}
