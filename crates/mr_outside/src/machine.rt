ghost use Rattle.std.specs.Prelude.{◌≡◌, is_some, None, [], false};
ghost use Rattle.mr_outside.specs.Machine.{got_of, put_of, taken_of};

use crate::{Got, Put, Shelf, Sink, Started};
use std::fs;
use std::io::{Read, Write};
use std::rt::Files;

// What a read of a file comes to: one without a byte is at its end.
fn got<E>(read: &Result<usize, E>) -> Got
    ensures { result ≡ got_of read.now }
{
    match read {
        Ok(0) => Got::End,
        Ok(n) => Got::Bytes(*n),
        Err(_) => Got::Failed,
    }
}

// How many bytes a write took, where it took one at least.
fn taken<E>(written: &Result<usize, E>) -> Option<usize>
    ensures { result ≡ taken_of written.now }
{
    match written {
        Ok(0) | Err(_) => None,
        Ok(n) => Some(*n),
    }
}

// What a write of so many bytes comes to, which were flushed so.
fn put<E>(taken: usize, flushed: &Result<(), E>) -> Put
    ensures { result ≡ put_of taken flushed.now }
{
    match flushed {
        Ok(()) => Put::Took(taken),
        Err(_) => Put::Failed,
    }
}

/// The files of the machine, by path. It tells no contents.
#[derive(Drop)]
pub struct FileShelf<'a, R: Files> {
    rt: &'a R,
    file: Option<R::File>,
    place: u64,
    faults: u64,
}

impl<'a, R: Files> FileShelf<'a, R> {
    /// A shelf over the files that `rt` reaches, with nothing started.
    pub fn new(rt: &'a R) -> FileShelf<'a, R>
        ensures started { ⟦<FileShelf<'a, R> as Shelf>⟧.is_started result ≡ false }
        ensures count { ⟦<FileShelf<'a, R> as Shelf>⟧.count result ≡ 0 }
    {
        FileShelf {
            rt,
            file: None,
            place: 0,
            faults: 0,
        }
    }
}

impl<R: Files> Shelf for FileShelf<'_, R> {
    ghost contents = { λ s. None };

    ghost is_started = { λ s. is_some s.file };

    ghost started = { λ s. [] };

    ghost place = { λ s. s.place };

    ghost count = { λ s. s.faults };

    fn start(&mut self, name: &str) -> Started {
        self.place = 0;
        match fs::open(self.rt, name) {
            Ok(file) => {
                self.file = Some(file);
                Started::Ready
            }
            Err(_) => {
                self.file = None;
                self.faults = self.faults.saturating_add(1);
                Started::Failed
            }
        }
    }

    fn read(&mut self, buf: &mut [u8]) -> Got {
        let read = match &mut self.file {
            Some(file) => file.read(buf),
            None => unreachable!(),
        };
        let got = got(&read);
        match got {
            Got::Bytes(n) => self.place = self.place.saturating_add(n as u64),
            Got::End => {}
            Got::Failed => self.faults = self.faults.saturating_add(1),
        }
        got
    }

    fn faults(&self) -> u64 {
        self.faults
    }
}

/// A writer of std as a sink. It tells no bytes, and flushes each write.
#[derive(Drop)]
pub struct StdSink<W: Write> {
    writer: W,
    faults: u64,
}

impl<W: Write> StdSink<W> {
    /// A sink that writes to `writer`.
    pub fn new(writer: W) -> StdSink<W>
        ensures { ⟦<StdSink<W> as Sink>⟧.count result ≡ 0 }
    {
        StdSink { writer, faults: 0 }
    }
}

impl<W: Write> Sink for StdSink<W> {
    ghost held = { λ s. None };

    ghost count = { λ s. s.faults };

    fn write(&mut self, piece: &[u8]) -> Put {
        let written = self.writer.write(piece);
        let put = match taken(&written) {
            Some(n) => put(n, &self.writer.flush()),
            None => Put::Failed,
        };
        if put == Put::Failed {
            self.faults = self.faults.saturating_add(1);
        }
        put
    }

    fn faults(&self) -> u64 {
        self.faults
    }
}
