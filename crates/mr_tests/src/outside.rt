use mr_base::Stop;
use mr_outside::{
    FileShelf, Gate, MemoryShelf, MemorySink, PassGate, ReadStop, Shelf, Sink, StdSink, Taken,
    WriteFault, put_all, read_all,
};
use std::alloc::Global;
use std::io::Write;
use std::test::Fail;
use std::{env, fs, io, process};

const LIMIT: u64 = 134217728;

fn is_fault(read: &Result<Taken, Stop<ReadStop>>) -> bool {
    matches!(read, Err(Stop::Refused(ReadStop::Fault(_))))
}

fn is_too_long(read: &Result<Taken, Stop<ReadStop>>) -> bool {
    matches!(read, Err(Stop::Refused(ReadStop::TooLong)))
}

fn gives(read: &Result<Taken, Stop<ReadStop>>, bytes: &[u8]) -> bool {
    match read {
        Ok(taken) => taken.as_bytes() == bytes,
        Err(_) => false,
    }
}

#[test]
fn reads_what_was_added(rt: HostRuntime) -> Result<(), Fail> {
    let alloc = rt.alloc();
    for cut in [1, 4] {
        let mut shelf = MemoryShelf::new(alloc, cut)?;
        shelf.add("job", b"")?;
        shelf.add("in", b"the cat the dog")?;
        for limit in [15, LIMIT] {
            let read = read_all(alloc, &mut shelf, "in", limit);
            assert!(rt; gives(&read, b"the cat the dog"), "limit {limit}");
        }
        assert!(rt; is_too_long(&read_all(alloc, &mut shelf, "in", 14)));
        assert!(rt; gives(&read_all(alloc, &mut shelf, "job", 0), b""));
        assert!(rt; is_fault(&read_all(alloc, &mut shelf, "i", LIMIT)));
        assert_eq!(rt; shelf.faults(), 0);
    }
    Ok(())
}

// A shelf of eight bytes that are read in two reads, the start and the end being further calls.
fn short_shelf(alloc: Global, call: u64) -> Result<MemoryShelf, Fail> {
    let mut shelf = MemoryShelf::new(alloc, 4)?;
    shelf.add("in", b"abcdefgh")?;
    shelf.fail_at(call)?;
    Ok(shelf)
}

#[test]
fn fails_where_told(rt: HostRuntime) -> Result<(), Fail> {
    let alloc = rt.alloc();
    for call in [1, 2, 3, 4] {
        let mut shelf = short_shelf(alloc, call)?;
        assert!(rt;
            is_fault(&read_all(alloc, &mut shelf, "in", LIMIT)),
            "call {call}"
        );
        assert_eq!(rt; shelf.faults(), 1);
        assert!(rt; gives(&read_all(alloc, &mut shelf, "in", LIMIT), b"abcdefgh"));
    }
    Ok(())
}

#[test]
fn fails_in_a_later_read(rt: HostRuntime) -> Result<(), Fail> {
    let alloc = rt.alloc();
    let mut shelf = short_shelf(alloc, 5)?;
    assert!(rt; gives(&read_all(alloc, &mut shelf, "in", LIMIT), b"abcdefgh"));
    assert!(rt; is_fault(&read_all(alloc, &mut shelf, "in", LIMIT)));
    assert_eq!(rt; shelf.faults(), 1);
    Ok(())
}

#[test]
fn reads_up_to_the_limit(rt: HostRuntime) -> Result<(), Fail> {
    let alloc = rt.alloc();
    let mut shelf = MemoryShelf::new(alloc, 65536)?;
    shelf.add_repeated("longer", b' ', 134217729)?;
    shelf.add_repeated("long", b' ', 134217728)?;
    assert!(rt; is_too_long(&read_all(alloc, &mut shelf, "longer", LIMIT)));
    let Ok(taken) = read_all(alloc, &mut shelf, "long", LIMIT) else {
        assert!(rt; false);
        return Ok(());
    };
    assert_eq!(rt; taken.as_bytes().len(), 134217728);
    assert!(rt; taken.as_bytes().iter().all(|b| *b == b' '));
    Ok(())
}

#[test]
fn takes_what_it_has_room_for(rt: HostRuntime) -> Result<(), Fail> {
    let alloc = rt.alloc();
    let mut sink = MemorySink::new(alloc, 5)?;
    assert_eq!(rt; put_all(&mut sink, b"cat 1\n"), Err(WriteFault));
    assert_eq!(rt; sink.bytes(), b"cat 1".as_slice());
    assert_eq!(rt; sink.faults(), 1);
    Ok(())
}

#[test]
fn takes_nothing_where_told(rt: HostRuntime) -> Result<(), Fail> {
    let mut sink = MemorySink::new(rt.alloc(), 5)?;
    sink.fail_at(2)?;
    assert_eq!(rt; put_all(&mut sink, b"cat"), Ok(()));
    assert_eq!(rt; put_all(&mut sink, b" 1"), Err(WriteFault));
    assert_eq!(rt; put_all(&mut sink, b"\n"), Ok(()));
    assert_eq!(rt; sink.bytes(), b"cat\n".as_slice());
    assert_eq!(rt; sink.faults(), 1);
    Ok(())
}

#[test]
fn writes_and_reads_a_file(rt: HostRuntime) -> Result<(), Fail> {
    let alloc = rt.alloc();
    let folder = env::temp_dir(&rt)?;
    let path = format!(in alloc;
        "{}/mr_outside_{}",
        folder.display(),
        process::id(rt.process())
    )?;
    let path = path.as_str();
    let mut sink = StdSink::new(fs::create(&rt, path)?);
    assert_eq!(rt; put_all(&mut sink, b"the cat the dog"), Ok(()));
    assert_eq!(rt; sink.faults(), 0);

    let mut shelf = FileShelf::new(&rt);
    assert!(rt;
        gives(
            &read_all(alloc, &mut shelf, path, LIMIT),
            b"the cat the dog"
        )
    );
    assert!(rt; is_too_long(&read_all(alloc, &mut shelf, path, 14)));
    assert_eq!(rt; shelf.faults(), 0);
    fs::remove_file(&rt, path)?;

    // a name that is not there, and a folder, which can't be read
    assert!(rt; is_fault(&read_all(alloc, &mut shelf, path, LIMIT)));
    assert_eq!(rt; shelf.faults(), 1);
    assert!(rt; is_fault(&read_all(alloc, &mut shelf, folder.as_str(), LIMIT)));
    assert_eq!(rt; shelf.faults(), 2);
    Ok(())
}

// A writer that takes so many bytes, two at a time, and then no more, with an error or without one; and that flushes or doesn't.
#[derive(Drop)]
struct Narrow {
    left: usize,
    errs: bool,
    flushes: bool,
}

impl Write for Narrow {
    fn write(&mut self, buf: &[u8]) -> io::Result<usize> {
        let n = buf.len().min(2).min(self.left);
        if n == 0 && self.errs {
            return Err(io::ErrorKind::Other.into());
        }
        self.left -= n;
        Ok(n)
    }

    fn flush(&mut self) -> io::Result<()> {
        if self.flushes {
            Ok(())
        } else {
            Err(io::ErrorKind::Other.into())
        }
    }
}

#[test]
fn counts_the_faults_of_a_writer(rt: HostRuntime) {
    for errs in [false, true] {
        let mut sink = StdSink::new(Narrow {
            left: 4,
            errs,
            flushes: true,
        });
        assert_eq!(rt; put_all(&mut sink, b"abc"), Ok(()));
        assert_eq!(rt; sink.faults(), 0);
        assert_eq!(rt; put_all(&mut sink, b"def"), Err(WriteFault));
        assert_eq!(rt; sink.faults(), 1);
    }
}

#[test]
fn counts_a_flush_that_fails(rt: HostRuntime) {
    let mut sink = StdSink::new(Narrow {
        left: 4,
        errs: false,
        flushes: false,
    });
    assert_eq!(rt; put_all(&mut sink, b"a"), Err(WriteFault));
    assert_eq!(rt; sink.faults(), 1);
}

fn pass<G: Gate + Sync>(gate: &G) {
    gate.enter(0, 0);
}

#[test]
fn lets_a_task_begin(_rt: HostRuntime) {
    pass(&PassGate::new());
}
