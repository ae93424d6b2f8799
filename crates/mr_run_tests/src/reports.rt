use crate::gates::NotingGate;
use crate::runs::{WORDS, ran};
use mr_base::{Memory, Status, Text};
use std::alloc::Global;
use std::test::Fail;

// The report of two workers whose calls are noted, where each of the tasks 0 and 2 has a word and the other two have none.
fn noted_report(alloc: Global, gate: &NotingGate) -> Result<Text, Memory> {
    let mut lines = Text::new(alloc);
    for worker in 0..2u64 {
        let mut tasks = Text::new(alloc);
        let mut cells = 0u64;
        for call in 1..5u64 {
            if let Some(task) = gate.began(call, worker) {
                tasks.push(b" ")?;
                tasks.push_natural(task as u64)?;
                cells = if task % 2 == 0 { cells % 4 + 1 } else { cells };
            }
        }
        lines.push(b"round 1 worker ")?;
        lines.push_natural(worker)?;
        lines.push(b" cells ")?;
        lines.push_natural(cells)?;
        lines.push(b" tasks")?;
        lines.push(tasks.as_bytes())?;
        lines.push(b"\n")?;
    }
    Ok(lines)
}

#[test]
fn reports_name_what_each_worker_did(rt: HostRuntime) -> Result<(), Fail> {
    let alloc = rt.alloc();
    for (queue, held) in [("blocks", 0), ("ranges", 1), ("deques", 1)] {
        let job = format!(in alloc; "{WORDS}chunk = 1\nqueue = \"{queue}\"\n")?;
        let gate = NotingGate::new(held);
        let words = ["mapred", "--workers", "2", "--report", "W", "in"];
        let (status, _, err) = ran(&rt, alloc, job.as_str(), "a b ", &words, &gate)?;
        assert!(rt; status == Status::Done, "{queue}");
        let wanted = noted_report(alloc, &gate)?;
        assert!(rt; err.bytes() == wanted.as_bytes(), "{queue}");
        let apart = gate.note(0) % 64 != gate.note(1) % 64;
        assert!(rt; apart || held == 0, "{queue}");
        assert!(rt; gate.in_time(), "{queue}");
    }
    Ok(())
}

// Two tasks that wait for each other end where two workers run beside each other.
#[test]
fn two_tasks_at_once(rt: HostRuntime) -> Result<(), Fail> {
    let alloc = rt.alloc();
    for queue in ["blocks", "ranges", "deques"] {
        let job = format!(in alloc; "{WORDS}chunk = 1\nqueue = \"{queue}\"\n")?;
        let gate = NotingGate::new(2);
        let words = ["mapred", "--workers", "2", "W", "in"];
        let (status, out, _) = ran(&rt, alloc, job.as_str(), "a ", &words, &gate)?;
        assert!(rt; status == Status::Done, "{queue}");
        assert!(rt; out.bytes() == b"a 1\n".as_slice(), "{queue}");
        assert!(rt; gate.in_time(), "{queue}");
    }
    Ok(())
}

// Under blocks no worker takes a task of another's queue: task 0 waits in vain for the one behind it.
#[test]
fn blocks_keep_to_their_queues(rt: HostRuntime) -> Result<(), Fail> {
    let alloc = rt.alloc();
    let job = format!(in alloc; "{WORDS}chunk = 1\nqueue = \"blocks\"\n")?;
    let gate = NotingGate::new(1);
    let words = ["mapred", "--workers", "2", "W", "in"];
    let (status, out, _) = ran(&rt, alloc, job.as_str(), "a b ", &words, &gate)?;
    assert!(rt; status == Status::Done);
    assert!(rt; out.bytes() == b"a 1\nb 1\n".as_slice());
    assert!(rt; !gate.in_time());
    Ok(())
}

#[test]
fn reports_of_runs(rt: HostRuntime) -> Result<(), Fail> {
    let alloc = rt.alloc();
    let cases: [(&str, &[&str], &str); 4] = [
        (
            "aa bb",
            &["mapred", "--report", "W", "in"],
            "round 1 worker 0 cells 2 tasks 0 1 2\n",
        ),
        (
            "aa bb",
            &["mapred", "--workers", "2", "--report", "W", "in"],
            "round 1 worker 0 cells 1 tasks 0\nround 1 worker 1 cells 1 tasks 1 2\n",
        ),
        (
            "",
            &["mapred", "--workers", "2", "--report", "W", "in"],
            "round 1 worker 0 cells 0 tasks\nround 1 worker 1 cells 0 tasks\n",
        ),
        (
            "",
            &["mapred", "--report", "--mode=generate", "W", "0", "1"],
            "round 1 worker 0 cells 1 tasks 0 1\n",
        ),
    ];
    let job = format!(in alloc; "{WORDS}chunk = 1\nqueue = \"blocks\"\n")?;
    for (input, words, lines) in cases {
        let gate = NotingGate::new(0);
        let (status, _, err) = ran(&rt, alloc, job.as_str(), input, words, &gate)?;
        assert!(rt; status == Status::Done, "{words:?}");
        assert!(rt; err.bytes() == lines.as_bytes(), "{words:?}");
    }
    Ok(())
}

#[test]
fn reports_of_rounds(rt: HostRuntime) -> Result<(), Fail> {
    let alloc = rt.alloc();
    let cases: [(&str, &str, &str); 2] = [
        (
            "job = \"kmeans\"\ncontainer = \"array\"\ncapacity = 16\ncombiner = \"vecsum\"\nclusters = 2\nrounds = 9\n",
            "0\n4\n2\n",
            "round 1 worker 0 cells 2 tasks 0\nround 2 worker 0 cells 2 tasks 0\n",
        ),
        (
            "job = \"pca\"\ncontainer = \"array\"\ncapacity = 16\ncombiner = \"sum\"\nchunk = 1\n",
            "1 2\n3 6\n",
            "round 1 worker 0 cells 2 tasks 0 1\nround 2 worker 0 cells 3 tasks 0 1\n",
        ),
    ];
    for (lines, input, wanted) in cases {
        let job = format!(in alloc; "version = 1\n{lines}")?;
        let words = ["mapred", "--report", "W", "in"];
        let gate = NotingGate::new(0);
        let (status, _, err) = ran(&rt, alloc, job.as_str(), input, &words, &gate)?;
        assert!(rt; status == Status::Done, "{lines}");
        assert!(rt; err.bytes() == wanted.as_bytes(), "{lines}");
    }
    Ok(())
}

#[test]
fn long_generated_text(rt: HostRuntime) -> Result<(), Fail> {
    let alloc = rt.alloc();
    for workers in ["1", "8", "32"] {
        let words = [
            "mapred",
            "--workers",
            workers,
            "--mode",
            "generate",
            "W",
            "0",
            "1000000",
        ];
        let (status, out, _) = ran(&rt, alloc, WORDS, "", &words, &NotingGate::new(0))?;
        assert!(rt; status == Status::Done);
        let lines = b"input 5777761\nrows 5000\noutput 48890\nmark 62777834934\n";
        assert!(rt; out.bytes() == lines.as_slice(), "{workers}");
    }
    Ok(())
}
