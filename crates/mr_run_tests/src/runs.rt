use crate::gates::NotingGate;
use mr_base::{Memory, Status, Text, Word};
use mr_outside::{MemoryShelf, MemorySink};
use mr_top::run;
use std::alloc::Global;
use std::test::Fail;
use std::thread::Threads;

/// The job file of word count by sums.
pub const WORDS: &str =
    "version = 1\njob = \"word_count\"\ncontainer = \"hash\"\ncapacity = 1024\ncombiner = \"sum\"\n";

// A shelf with the job file `W` and the input `in`.
fn shelf_with(alloc: Global, job: &str, input: &str) -> Result<MemoryShelf, Memory> {
    let mut shelf = MemoryShelf::new(alloc, 4)?;
    shelf.add("W", job.as_bytes())?;
    shelf.add("in", input.as_bytes())?;
    Ok(shelf)
}

fn words_of(alloc: Global, texts: &[&str]) -> Result<Vec<Word>, Memory> {
    let mut words = Vec::new(alloc);
    for text in texts {
        let word = Word::of(alloc, text)?;
        words.push(word)?;
    }
    Ok(words)
}

// Runs these words over a shelf and through a gate, with an output that has this room.
fn passed<R: Threads + Sync>(
    rt: &R,
    alloc: Global,
    texts: &[&str],
    shelf: &mut MemoryShelf,
    room: u64,
    gate: &NotingGate,
) -> Result<(Status, MemorySink, MemorySink), Memory> {
    let words = words_of(alloc, texts)?;
    let mut out = MemorySink::new(alloc, room)?;
    let mut err = MemorySink::new(alloc, 1000)?;
    let status = run(rt, alloc, &words, shelf, &mut out, &mut err, gate);
    Ok((status, out, err))
}

/// Runs these words over the job file `W` and the input `in` through a gate: the status and what both outputs hold then.
pub fn ran<R: Threads + Sync>(
    rt: &R,
    alloc: Global,
    job: &str,
    input: &str,
    texts: &[&str],
    gate: &NotingGate,
) -> Result<(Status, MemorySink, MemorySink), Memory> {
    let mut shelf = shelf_with(alloc, job, input)?;
    passed(rt, alloc, texts, &mut shelf, 1000, gate)
}

/// As `ran`, where there are two inputs, `in` and `two`.
pub fn ran_on<R: Threads + Sync>(
    rt: &R,
    alloc: Global,
    job: &str,
    inputs: (&[u8], &[u8]),
    texts: &[&str],
    gate: &NotingGate,
) -> Result<(Status, MemorySink, MemorySink), Memory> {
    let mut shelf = MemoryShelf::new(alloc, 4)?;
    shelf.add("W", job.as_bytes())?;
    shelf.add("in", inputs.0)?;
    shelf.add("two", inputs.1)?;
    passed(rt, alloc, texts, &mut shelf, 1000, gate)
}

// So many words of seven digits in their order, each of them followed by this text; and all of them so many times.
fn many_words(alloc: Global, count: u32, then: &[u8], times: u32) -> Result<Text, Memory> {
    let mut text = Text::new(alloc);
    for n in 0..count.wrapping_mul(times) {
        text.push_natural(1000000 + (n % count.max(1)) as u64)?;
        text.push(then)?;
    }
    Ok(text)
}

// So many that tables are given away before their worker ends, and that the entries of a partition are joined in parts.
#[test]
fn many_different_words(rt: HostRuntime) -> Result<(), Fail> {
    let alloc = rt.alloc();
    let input = many_words(alloc, 150000, b" ", 2)?;
    let wanted = many_words(alloc, 150000, b" 2\n", 1)?;
    let mut shelf = MemoryShelf::new(alloc, 65536)?;
    shelf.add("W", WORDS.as_bytes())?;
    shelf.add("in", input.as_bytes())?;
    let cases: [&[&str]; 3] = [
        &["mapred", "W", "in"],
        &["mapred", "--workers", "4", "W", "in"],
        &["mapred", "--workers", "4", "--report", "W", "in"],
    ];
    for words in cases {
        let gate = NotingGate::new(0);
        let (status, out, _) = passed(&rt, alloc, words, &mut shelf, 10000000, &gate)?;
        assert!(rt;
            status == Status::Done && out.bytes() == wanted.as_bytes(),
            "{words:?}"
        );
    }
    Ok(())
}

#[test]
fn words_and_their_answers(rt: HostRuntime) -> Result<(), Fail> {
    let alloc = rt.alloc();
    let cases: [(&[&str], Status, &str, &str); 10] = [
        (&["mapred"], Status::Usage, "", "fault: usage\n"),
        (
            &["mapred", "--mode", "check", "W"],
            Status::Done,
            "ok\n",
            "",
        ),
        (
            &["mapred", "--mode", "check", "--report", "W"],
            Status::Done,
            "ok\n",
            "",
        ),
        (
            &["mapred", "--workers", "32", "W", "in"],
            Status::Done,
            "cat 1\ndog 1\nthe 2\n",
            "",
        ),
        (
            &["mapred", "W"],
            Status::Input,
            "",
            "fault: inputs 0 of 1\n",
        ),
        (&["mapred", "W", ""], Status::ReadFault, "", "fault: read\n"),
        (
            &["mapred", "in", "in"],
            Status::Job,
            "",
            "fault: job not toml\n",
        ),
        (
            &["mapred", "--mode", "generate", "W", "0", "1"],
            Status::Done,
            "input 6\nrows 1\noutput 8\nmark 1462\n",
            "",
        ),
        (
            &["mapred", "--mode", "generate", "W", "0", "2"],
            Status::Done,
            "input 11\nrows 2\noutput 15\nmark 5439\n",
            "",
        ),
        (
            &["mapred", "--mode", "generate", "W", "00", "1"],
            Status::Usage,
            "",
            "fault: usage\n",
        ),
    ];
    for (words, wanted, text, line) in cases {
        let (status, out, err) = ran(
            &rt,
            alloc,
            WORDS,
            "the cat the dog",
            words,
            &NotingGate::new(0),
        )?;
        assert!(rt; status == wanted, "{words:?}");
        assert!(rt; out.bytes() == text.as_bytes(), "{words:?}");
        assert!(rt; err.bytes() == line.as_bytes(), "{words:?}");
    }
    Ok(())
}

#[test]
fn job_files_and_their_texts(rt: HostRuntime) -> Result<(), Fail> {
    let alloc = rt.alloc();
    let cases: [(&str, &str, Status, &str); 7] = [
        ("16", "sum", Status::Done, "cat 1\ndog 1\nthe 2\n"),
        ("4096", "count", Status::Done, "cat 1\ndog 1\nthe 2\n"),
        ("65536", "one", Status::Done, "cat 1\ndog 1\nthe 1\n"),
        (
            "64",
            "sum\"\npartitions = 1\nqueue = \"blocks",
            Status::Done,
            "cat 1\ndog 1\nthe 2\n",
        ),
        (
            "768",
            "sum\"\npartitions = 64\nqueue = \"blocks",
            Status::Done,
            "cat 1\ndog 1\nthe 2\n",
        ),
        ("17", "sum", Status::Job, "fault: job bad capacity\n"),
        (
            "1024",
            "sum\"\ncolor = \"red",
            Status::Job,
            "fault: job unknown color\n",
        ),
    ];
    for (capacity, combiner, wanted, text) in cases {
        let job = format!(in alloc;
            "version = 1\njob = \"word_count\"\ncontainer = \"hash\"\ncapacity = {capacity}\ncombiner = \"{combiner}\"\n"
        )?;
        let (status, out, err) = ran(
            &rt,
            alloc,
            job.as_str(),
            "the cat The dog",
            &["mapred", "W", "in"],
            &NotingGate::new(0),
        )?;
        assert!(rt; status == wanted, "{job}");
        let held = if status == Status::Done { out } else { err };
        assert!(rt; held.bytes() == text.as_bytes(), "{job}");
    }
    Ok(())
}

#[test]
fn only_words_are_generated(rt: HostRuntime) -> Result<(), Fail> {
    let job =
        "version = 1\njob = \"fold_lines\"\ncontainer = \"hash\"\ncapacity = 16\ncombiner = \"sum\"\nkeys = \"bytes\"\n";
    let words = ["mapred", "--mode", "generate", "W", "0", "1"];
    let (status, out, err) = ran(&rt, rt.alloc(), job, "", &words, &NotingGate::new(0))?;
    assert!(rt; status == Status::Job);
    assert!(rt; out.bytes().is_empty());
    assert!(rt; err.bytes() == b"fault: job pairing\n".as_slice());
    Ok(())
}

#[test]
fn job_file_that_is_too_long(rt: HostRuntime) -> Result<(), Fail> {
    let alloc = rt.alloc();
    let mut shelf = MemoryShelf::new(alloc, 65536)?;
    shelf.add_repeated("W", b' ', 65537)?;
    let (status, _, err) = passed(
        &rt,
        alloc,
        &["mapred", "W", "in"],
        &mut shelf,
        1000,
        &NotingGate::new(0),
    )?;
    assert!(rt; status == Status::Job);
    assert!(rt; err.bytes() == b"fault: job too long\n".as_slice());
    Ok(())
}

#[test]
fn calls_that_fail(rt: HostRuntime) -> Result<(), Fail> {
    let alloc = rt.alloc();
    let words = ["mapred", "W", "in"];
    let gate = NotingGate::new(0);
    for call in 1..30u64 {
        let mut shelf = shelf_with(alloc, WORDS, "the cat the dog")?;
        shelf.fail_at(call)?;
        let (status, out, err) = passed(&rt, alloc, &words, &mut shelf, 1000, &gate)?;
        assert!(rt; status == Status::ReadFault, "{call}");
        assert!(rt; out.bytes().is_empty());
        assert!(rt; err.bytes() == b"fault: read\n".as_slice());
        let (status, _, _) = passed(&rt, alloc, &words, &mut shelf, 1000, &gate)?;
        assert!(rt; status == Status::Done, "{call}");
    }
    let mut shelf = shelf_with(alloc, WORDS, "the cat the dog")?;
    let (status, out, err) = passed(&rt, alloc, &words, &mut shelf, 5, &gate)?;
    assert!(rt; status == Status::WriteFault);
    assert!(rt; out.bytes() == b"cat 1".as_slice());
    assert!(rt; err.bytes() == b"fault: write\n".as_slice());
    Ok(())
}
