use mr_base::{Stop, Word};
use mr_command::{Command, Mode, Usage, read_command};
use std::alloc::Global;
use std::test::Fail;

fn read(alloc: Global, texts: &[&str]) -> Result<Command, Stop<Usage>> {
    let mut words = Vec::new(alloc);
    for text in texts {
        let word = Word::of(alloc, text)?;
        if words.push(word).is_err() {
            return Err(Stop::Memory);
        }
    }
    read_command(alloc, &words)
}

#[test]
fn commands_in_form(rt: HostRuntime) -> Result<(), Fail> {
    let alloc = rt.alloc();
    let command = read(
        alloc,
        &["mapred", "--workers", "32", "--mode=run", "W", "in", "-"],
    )?;
    assert_eq!(rt; command.workers, 32);
    assert!(rt; command.mode == Mode::Run);
    assert_eq!(rt; command.job.as_str(), "W");
    assert_eq!(rt; command.inputs.len(), 2);
    assert_eq!(rt; command.inputs[1].as_str(), "-");
    let check = read(alloc, &["mapred", "--mode", "check", "--", "--report"])?;
    assert!(rt; check.mode == Mode::Check);
    assert!(rt; !check.report);
    assert_eq!(rt; check.job.as_str(), "--report");
    let largest = "18446744073709551615";
    let generate = read(
        alloc,
        &[
            "mapred",
            "--mode=generate",
            "--report",
            "W",
            largest,
            "1000000",
        ],
    )?;
    let (seed, count) = (u64::MAX, 1000000);
    assert!(rt; generate.mode == Mode::Generate { seed, count });
    assert!(rt; generate.report);
    Ok(())
}

#[test]
fn words_without_form(rt: HostRuntime) {
    let cases: [&[&str]; 13] = [
        &[],
        &["mapred"],
        &["mapred", "--workers", "0", "W", "in"],
        &["mapred", "--workers", "07", "W", "in"],
        &["mapred", "--workers", "33", "W", "in"],
        &["mapred", "--workers=", "W", "in"],
        &["mapred", "--mode", "fast", "W", "in"],
        &["mapred", "--mode", "check", "W", "in"],
        &["mapred", "--mode", "generate", "W", "00", "1"],
        &["mapred", "--mode", "generate", "W", "0", "0"],
        &["mapred", "--mode", "generate", "W", "0", "1000001"],
        &[
            "mapred",
            "--mode",
            "generate",
            "W",
            "18446744073709551616",
            "1",
        ],
        &["mapred", "--help"],
    ];
    for words in cases {
        assert!(rt;
            matches!(read(rt.alloc(), words), Err(Stop::Refused(Usage))),
            "{words:?}"
        );
    }
}
