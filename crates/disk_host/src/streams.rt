ghost use Rattle.std.specs.Prelude.{◌≡◌};

use outside::{Failed, Sink, Source};
use std::io::{Read, Write};

/// A source over a reader. It tells of the bytes that are left what the reader tells, and
/// counts the reads that failed.
#[derive(Drop)]
pub struct StdSource<R> {
    inner: R,
    failed_reads: u64,
}

impl<R: Read> StdSource<R> {
    /// A source of which no read has failed.
    pub fn new(inner: R) -> StdSource<R>
        ensures reader { result.inner ≡ inner }
        ensures faults { result.failed_reads ≡ 0 }
    {
        StdSource {
            inner,
            failed_reads: 0,
        }
    }
}

impl<R: Read> Source for StdSource<R> {
    ghost left = { λ s. R.remaining s.inner };

    ghost faults = { λ s. s.failed_reads };

    fn read(&mut self, into: &mut [u8]) -> Result<usize, Failed> {
        match self.inner.read(into) {
            Ok(count) => Ok(count),
            Err(_) => {
                self.failed_reads = self.failed_reads.saturating_add(1);
                Err(Failed)
            }
        }
    }
}

/// A sink over a writer. It tells of the bytes that were written what the writer tells, and
/// counts the writes that failed.
#[derive(Drop)]
pub struct StdSink<W> {
    inner: W,
    failed_writes: u64,
}

impl<W: Write> StdSink<W> {
    /// A sink of which no write has failed.
    pub fn new(inner: W) -> StdSink<W>
        ensures writer { result.inner ≡ inner }
        ensures faults { result.failed_writes ≡ 0 }
    {
        StdSink {
            inner,
            failed_writes: 0,
        }
    }
}

impl<W: Write> Sink for StdSink<W> {
    ghost written = { λ s. W.contents s.inner };

    ghost faults = { λ s. s.failed_writes };

    fn write(&mut self, from: &[u8]) -> Result<usize, Failed> {
        if from.is_empty() {
            return Ok(0);
        }
        match self.inner.write(from) {
            Ok(0) | Err(_) => {
                self.failed_writes = self.failed_writes.saturating_add(1);
                Err(Failed)
            }
            Ok(count) => Ok(count),
        }
    }
}
