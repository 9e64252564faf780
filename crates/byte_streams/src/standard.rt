//! The standard streams, or any other of std's readers and writers, as sources and sinks. They tell no bytes.
ghost use Rattle.std.specs.Prelude.{◌≡◌, ◌<◌, ◌≤◌, length, None};
ghost use Rattle.byte_streams.specs.Faults.{faults_after};
ghost use Rattle.byte_streams.specs.Sources.{ReadOf, is_failed_read};
ghost use Rattle.byte_streams.specs.Sinks.{WriteOf, is_failed_write};
ghost use Rattle.byte_streams.specs.Standard.{ReaderRead, WriterWrote};

use crate::{Put, Sink, Source, Took};
use std::io::{Read, Write};
use std::marker::Model;

/// A reader as a source. Contracts see the reader and its count of faults, which rises at each error and stands still at the greatest
/// `u64`.
#[derive(Drop)]
pub struct StdSource<R> {
    reader: R,
    faults: u64,
}

impl<R> Model for StdSource<R> {
    ghost use Rattle.byte_streams.specs.Standard.{Adapted};

    ghost Value = { Adapted R };

    ghost view = { λ s. record { stream = s.reader; faults = s.faults } };
}

impl<R> StdSource<R> {
    pub fn new(reader: R) -> Self
        ensures { result ≡ record { stream = reader; faults = 0 } }
    {
        StdSource { reader, faults: 0 }
    }

    /// How many reads failed.
    pub fn faults(&self) -> u64
        ensures { result ≡ self.now.faults }
    {
        self.faults
    }
}

impl<R: Read> Source for StdSource<R> {
    ghost left = { λ _. None };

    ghost faults = { λ s. s.faults };

    fn read(&mut self, buf: &mut [u8]) -> Took
        requires { 0 < length buf.old }
        ensures took { ReadOf result None None buf.new }
        ensures never_falls { self.old.faults ≤ self.new.faults }
        ensures counted { self.new.faults ≡ faults_after (is_failed_read result) self.old.faults }
        ensures reader { ReaderRead result
            (R.remaining self.old.stream) (R.remaining self.new.stream) buf.new }
    {
        match self.reader.read(buf) {
            Ok(0) => Took::End,
            Ok(count) => Took::Got(count),
            Err(_) => {
                self.faults = self.faults.saturating_add(1);
                Took::Failed
            }
        }
    }
}

/// A writer as a sink, flushed in each call. Contracts see the writer and its count of faults, which rises at each error and at each
/// write of nothing, and stands still at the greatest `u64`.
#[derive(Drop)]
pub struct StdSink<W> {
    writer: W,
    faults: u64,
}

impl<W> Model for StdSink<W> {
    ghost use Rattle.byte_streams.specs.Standard.{Adapted};

    ghost Value = { Adapted W };

    ghost view = { λ s. record { stream = s.writer; faults = s.faults } };
}

impl<W> StdSink<W> {
    pub fn new(writer: W) -> Self
        ensures { result ≡ record { stream = writer; faults = 0 } }
    {
        StdSink { writer, faults: 0 }
    }

    /// How many writes failed.
    pub fn faults(&self) -> u64
        ensures { result ≡ self.now.faults }
    {
        self.faults
    }
}

impl<W: Write> Sink for StdSink<W> {
    ghost held = { λ _. None };

    ghost faults = { λ s. s.faults };

    fn write(&mut self, bytes: &[u8]) -> Put
        requires { 0 < length bytes.now }
        ensures took { WriteOf result None None bytes.now }
        ensures never_falls { self.old.faults ≤ self.new.faults }
        ensures counted { self.new.faults ≡ faults_after (is_failed_write result) self.old.faults }
        ensures writer { WriterWrote result
            (W.contents self.old.stream) (W.contents self.new.stream) bytes.now }
    {
        let count = self.writer.write(bytes).unwrap_or(0);
        if count > 0 && self.writer.flush().is_ok() {
            return Put::Took(count);
        }
        self.faults = self.faults.saturating_add(1);
        Put::Failed
    }
}
