use mr_base::{Memory, Stop};
use mr_capacity::{CombinerKind, ContainerKind, JobKind, KeyKind, QueueKind};
use mr_jobfile::{fault_text, read_job};
use std::alloc::Global;
use std::test::Fail;

const WORDS: &str =
    "version = 1\njob = \"word_count\"\ncontainer = \"hash\"\ncapacity = 1024\ncombiner = \"sum\"\n";

/// Whole files, and what their line says after `fault: job `.
const FILES: [(&str, &str); 39] = [
    ("", "missing version"),
    ("version =\n", "not toml"),
    ("version = 1\nversion = 1\n", "not toml"),
    ("version = 1\ncolor = 2\n", "unknown color"),
    ("zone = 1\ncolor = 2\n", "unknown color"),
    ("a.b = 1\n", "unknown a"),
    ("\"\" = 1\n", "unknown "),
    ("\"a b\" = 1\n", "unknown a?b"),
    ("\"é\" = 1\n", "unknown ??"),
    (
        "kkkkkkkkkkkkkkkkkkkkkkkkkkkkkkkkkkkkkkkkkkkkkkkkkkkkkkkkkkkkkkkkx = 1\n",
        "unknown kkkkkkkkkkkkkkkkkkkkkkkkkkkkkkkkkkkkkkkkkkkkkkkkkkkkkkkkkkkkkkkk",
    ),
    ("Version = 1\n", "unknown Version"),
    ("version = 1\n", "missing job"),
    ("version = 1\njob = 1\n", "missing container"),
    (
        "version = 1\njob = \"word_count\"\ncontainer = \"hash\"\ncombiner = \"sum\"\n",
        "missing capacity",
    ),
    (
        "version = 1\njob = \"word_count\"\ncontainer = \"hash\"\ncapacity = 1024\n",
        "missing combiner",
    ),
    (
        "version = \"1\"\njob = \"word_count\"\ncontainer = \"hash\"\ncapacity = 1024\ncombiner = \"sum\"\n",
        "bad version",
    ),
    (
        "version = 2\njob = \"word_count\"\ncontainer = \"hash\"\ncapacity = 1024\ncombiner = \"sum\"\n",
        "bad version",
    ),
    (
        "version = 1.0\njob = \"word_count\"\ncontainer = \"hash\"\ncapacity = 1024\ncombiner = \"sum\"\n",
        "bad version",
    ),
    (
        "version = true\njob = \"word_count\"\ncontainer = \"hash\"\ncapacity = 1024\ncombiner = \"sum\"\n",
        "bad version",
    ),
    (
        "version = 1\njob = \"wordcount\"\ncontainer = \"hash\"\ncapacity = 1024\ncombiner = \"sum\"\n",
        "bad job",
    ),
    (
        "version = 1\njob = \"fold_lines\"\ncontainer = \"hash\"\ncapacity = 1024\ncombiner = \"sum\"\n",
        "pairing",
    ),
    (
        "version = 1\njob.kind = \"word_count\"\ncontainer = \"hash\"\ncapacity = 1024\ncombiner = \"sum\"\n",
        "bad job",
    ),
    (
        "version = 1\ncontainer = \"hash\"\ncapacity = 1024\ncombiner = \"sum\"\n[job]\nkind = \"word_count\"\n",
        "bad job",
    ),
    (
        "version = 1\njob = \"word_count\"\ncontainer = \"tree\"\ncapacity = 1024\ncombiner = \"sum\"\n",
        "bad container",
    ),
    (
        "version = 1\njob = \"word_count\"\ncontainer = \"array\"\ncapacity = 1024\ncombiner = \"sum\"\n",
        "pairing",
    ),
    (
        "version = 1\njob = \"word_count\"\ncontainer = \"common\"\ncapacity = 1024\ncombiner = \"sum\"\n",
        "pairing",
    ),
    (
        "version = 1\njob = \"word_count\"\ncontainer = \"hash\"\ncapacity = 17\ncombiner = \"sum\"\n",
        "bad capacity",
    ),
    (
        "version = 1\njob = \"word_count\"\ncontainer = \"hash\"\ncapacity = -16\ncombiner = \"sum\"\n",
        "bad capacity",
    ),
    (
        "version = 1\njob = \"word_count\"\ncontainer = \"hash\"\ncapacity = 1024.0\ncombiner = \"sum\"\n",
        "bad capacity",
    ),
    (
        "version = 1\njob = \"word_count\"\ncontainer = \"hash\"\ncapacity = \"1024\"\ncombiner = \"sum\"\n",
        "bad capacity",
    ),
    (
        "version = 1\njob = \"word_count\"\ncontainer = \"hash\"\ncapacity = 4294968320\ncombiner = \"sum\"\n",
        "bad capacity",
    ),
    (
        "version = 1\njob = \"word_count\"\ncontainer = \"hash\"\ncapacity = 9223372036854775807\ncombiner = \"sum\"\n",
        "bad capacity",
    ),
    (
        "version = 1\njob = \"word_count\"\ncontainer = \"hash\"\ncapacity = 9223372036854775808\ncombiner = \"sum\"\n",
        "not toml",
    ),
    (
        "version = 1\njob = \"word_count\"\ncontainer = \"hash\"\ncapacity = 16\ncombiner = \"mean\"\n",
        "bad combiner",
    ),
    (
        "version = 1\njob = \"word_count\"\ncontainer = \"hash\"\ncapacity = 16\ncombiner = \"once\"\n",
        "pairing",
    ),
    (
        "version = 1\njob = \"word_count\"\ncontainer = \"hash\"\ncapacity = 16\ncombiner = \"min\"\n",
        "pairing",
    ),
    (
        "version = 1\njob = \"word_count\"\ncontainer = \"hash\"\ncapacity = 16\ncombiner = \"vecsum\"\n",
        "pairing",
    ),
    (
        "version = 1\njob = \"word_count\"\ncontainer = \"hash\"\ncapacity = 16\ncombiner = \"buffer\"\n",
        "pairing",
    ),
    (
        "version = 1\njob = \"word_count\"\ncontainer = \"hash\"\ncapacity = 16\ncombiner = \"buffer\"\nreducer = \"list\"\n",
        "pairing",
    ),
];

/// Lines after those of a good file.
const TAILS: [(&str, &str); 28] = [
    ("reducer = \"list\"", "pairing"),
    ("reducer = \"mean\"", "bad reducer"),
    ("keys = \"bytes\"", "pairing"),
    ("keys = \"words\"", "bad keys"),
    ("queue = \"lifo\"", "bad queue"),
    ("queue.kind = \"blocks\"", "bad queue"),
    ("partitions = 0", "bad partitions"),
    ("partitions = 65", "bad partitions"),
    ("partitions = \"16\"", "bad partitions"),
    ("chunk = 0", "bad chunk"),
    ("chunk = 16777217", "bad chunk"),
    ("chunk = 0\npartitions = 65", "bad partitions"),
    ("clusters = 2\nrounds = 1", "pairing"),
    ("clusters = 65", "bad clusters"),
    ("clusters = 0", "bad clusters"),
    ("rounds = 1001", "bad rounds"),
    ("rounds = 1000", "pairing"),
    ("patterns = [\"ab\", \"b\"]", "pairing"),
    ("patterns = []", "bad patterns"),
    ("patterns = [\"\"]", "bad patterns"),
    ("patterns = [\"ab\", 1]", "bad patterns"),
    ("patterns = \"ab\"", "bad patterns"),
    ("patterns = [\"a\\nb\"]", "bad patterns"),
    (
        "patterns = [\"pppppppppppppppppppppppppppppppppppppppppppppppppppppppppppppppp\"]",
        "pairing",
    ),
    (
        "patterns = [\"ppppppppppppppppppppppppppppppppppppppppppppppppppppppppppppppppp\"]",
        "bad patterns",
    ),
    (
        "patterns = [\"p\", \"p\", \"p\", \"p\", \"p\", \"p\", \"p\", \"p\", \"p\", \"p\", \"p\", \"p\", \"p\", \"p\", \"p\", \"p\"]",
        "pairing",
    ),
    (
        "patterns = [\"p\", \"p\", \"p\", \"p\", \"p\", \"p\", \"p\", \"p\", \
\"p\", \"p\", \"p\", \"p\", \"p\", \"p\", \"p\", \"p\", \"p\"]",
        "bad patterns",
    ),
    ("color = 2", "unknown color"),
];

/// The line that says why the file is refused, or none for a job.
fn refusal(alloc: Global, bytes: &[u8]) -> Result<Option<String>, Memory> {
    match read_job(alloc, bytes) {
        Ok(_) => Ok(None),
        Err(Stop::Memory) => Err(Memory),
        Err(Stop::Refused(fault)) => {
            let text = fault_text(alloc, &fault)?;
            Ok(Some(String::from_utf8_lossy(alloc, text.as_bytes())?))
        }
    }
}

#[test]
fn refused_files(rt: HostRuntime) -> Result<(), Fail> {
    let alloc = rt.alloc();
    for (file, says) in FILES {
        let line = format!(in alloc; "fault: job {says}\n")?;
        assert_eq!(rt; refusal(alloc, file.as_bytes())?, Some(line), "{file}");
    }
    Ok(())
}

#[test]
fn refused_lines(rt: HostRuntime) -> Result<(), Fail> {
    let alloc = rt.alloc();
    for (tail, says) in TAILS {
        let file = format!(in alloc; "{WORDS}{tail}\n")?;
        let line = format!(in alloc; "fault: job {says}\n")?;
        assert_eq!(rt; refusal(alloc, file.as_bytes())?, Some(line), "{tail}");
    }
    Ok(())
}

// The keys that a job file may have.
const KEYS: [&str; 13] = [
    "version",
    "job",
    "container",
    "capacity",
    "combiner",
    "reducer",
    "keys",
    "queue",
    "partitions",
    "chunk",
    "clusters",
    "rounds",
    "patterns",
];

#[test]
fn misspelt_keys(rt: HostRuntime) -> Result<(), Fail> {
    let alloc = rt.alloc();
    for name in KEYS {
        let file = format!(in alloc; "{WORDS}{name}s = 1\n")?;
        let line = format!(in alloc; "fault: job unknown {name}s\n")?;
        assert_eq!(rt; refusal(alloc, file.as_bytes())?, Some(line));
    }
    Ok(())
}

fn blanks(alloc: Global, count: usize) -> Result<Vec<u8>, Memory> {
    let mut bytes = Vec::new(alloc);
    for _ in 0..count {
        bytes.push(b' ')?;
    }
    Ok(bytes)
}

#[test]
fn bytes_without_a_table(rt: HostRuntime) -> Result<(), Fail> {
    let alloc = rt.alloc();
    let cases = [
        (blanks(alloc, 65536)?, "missing version"),
        (blanks(alloc, 65537)?, "too long"),
        (Vec::from_slice(alloc, &[0xff])?, "not toml"),
    ];
    for (bytes, says) in &cases {
        let line = format!(in alloc; "fault: job {says}\n")?;
        assert_eq!(rt; refusal(alloc, bytes)?, Some(line));
    }
    Ok(())
}

#[test]
fn jobs(rt: HostRuntime) -> Result<(), Fail> {
    let alloc = rt.alloc();
    let Ok(job) = read_job(alloc, WORDS.as_bytes()) else {
        return Err(Fail::from("refused"));
    };
    assert_eq!(rt; job.job, JobKind::WordCount);
    assert_eq!(rt; job.container, ContainerKind::Hash);
    assert_eq!(rt; job.capacity, 1024);
    assert_eq!(rt; job.keys, KeyKind::Bytes);
    assert_eq!(rt; job.combiner, CombinerKind::Sum);
    assert_eq!(rt; job.reducer, None);
    assert_eq!(rt; job.queue, QueueKind::Deques);
    assert_eq!(rt; job.partitions, 16);
    assert_eq!(rt; job.chunk, 65536);
    assert_eq!(rt; (job.clusters, job.rounds, job.patterns.len()), (0, 0, 0));
    let given =
        "# a job\nqueue = 'blocks'\nchunk = 16_777_216\npartitions = 0x40\ncombiner = \"one\"\ncapacity = 65536\n\
        container = \"hash\"\n\"job\" = \"word_count\"\nversion = 1";
    let Ok(job) = read_job(alloc, given.as_bytes()) else {
        return Err(Fail::from("refused"));
    };
    assert_eq!(rt; job.combiner, CombinerKind::One);
    assert_eq!(rt;
        (job.capacity, job.partitions, job.chunk),
        (65536, 64, 16777216)
    );
    Ok(())
}
