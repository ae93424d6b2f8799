use mr_base::Text;
use mr_generator::{generated, summary};

// The two outputs of the seed 0 are those that the authors of SplitMix64 print.
#[test]
fn words_and_summaries(rt: HostRuntime) {
    let cases: [(u64, u32, &[u8], usize, &[u8], &[u8]); 2] = [
        (
            0,
            1,
            b"w2535\n",
            1,
            b"w2535 1\n",
            b"input 6\nrows 1\noutput 8\nmark 1462\n",
        ),
        (
            0,
            2,
            b"w2535\nw700\n",
            2,
            b"w2535 1\nw700 1\n",
            b"input 11\nrows 2\noutput 15\nmark 5439\n",
        ),
    ];
    for (seed, count, words, rows, output, lines) in cases {
        let Ok(text) = generated(rt.alloc(), seed, count) else {
            assert!(rt; false);
            return;
        };
        assert!(rt; text.as_bytes() == words);
        let mut written = Text::new(rt.alloc());
        assert!(rt; written.push(output).is_ok());
        let Ok(made) = summary(rt.alloc(), text.as_bytes().len(), rows, &written) else {
            assert!(rt; false);
            return;
        };
        assert!(rt; made.as_bytes() == lines);
    }
    let long = generated(rt.alloc(), 18446744073709551615, 1000000);
    assert!(rt; matches!(&long, Ok(text) if text.as_bytes().ends_with(b"\n")));
}
