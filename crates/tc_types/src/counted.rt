//! Readers and writers that count their reads, their faults and their ends.
ghost use Rattle.std.specs.Prelude.{◌≡◌, length};
ghost use Rattle.tc_types.specs.Counts.{counts_of, inner_of, no_counts};

use std::io;
use std::io::{Read, Write};

/// What was counted.
#[derive(Clone, Copy, Debug, Default, PartialEq, Eq)]
pub struct Counts {
    /// How many reads were made.
    pub reads: u64,
    /// How many reads and writes failed. A write that takes nothing of a buffer that is not empty is one that failed.
    pub faults: u64,
    /// How many reads gave nothing, though their buffer was not empty.
    pub ends: u64,
}

/// A reader or a writer, with its counts. They begin at 0, and only `read` and `write` of this type change them; one
/// that is at its greatest value stays there.
#[derive(Drop)]
pub struct Counted<T> {
    inner: T,
    counts: Counts,
}

impl<T> Counted<T> {
    /// Begins to count.
    pub fn new(inner: T) -> Counted<T>
        ensures begun { counts_of result ≡ no_counts }
        ensures wrapped { inner_of result ≡ inner }
    {
        Counted {
            inner,
            counts: Counts::default(),
        }
    }

    /// What was counted so far.
    pub fn counts(&self) -> Counts
        ensures { result ≡ counts_of self.now }
    {
        self.counts
    }

    /// The reader or writer, counted no longer.
    pub fn into_inner(self) -> T
        ensures { result ≡ inner_of self }
    {
        self.inner
    }
}

impl<R: Read> Read for Counted<R> {
    ghost use Rattle.std.specs.Prelude.{◌≡◌, length};
    ghost use Rattle.std.specs.Io.{ReadsAtMost};
    ghost use Rattle.std.specs.Io.KnownBytes.{ReadConsumes};
    ghost use Rattle.tc_types.specs.Counts.{CanCount, after_read, counts_of, inner_of};

    ghost remaining = { λ counted. R.remaining (inner_of counted) };

    /// Reads, and counts the read, its fault and its end.
    fn read(&mut self, buf: &mut [u8]) -> io::Result<usize>
        ensures bound { ReadsAtMost result buf.new }
        ensures bytes { ReadConsumes (R.remaining (inner_of self.old)) (R.remaining (inner_of self.new)) result buf.new }
        ensures counted { CanCount (counts_of self.old) → counts_of self.new ≡ after_read (counts_of self.old) (length buf.old) result }
    {
        let result = self.inner.read(buf);
        self.counts.reads = self.counts.reads.saturating_add(1);
        match &result {
            Ok(0) if !buf.is_empty() => self.counts.ends = self.counts.ends.saturating_add(1),
            Ok(_) => {}
            Err(_) => self.counts.faults = self.counts.faults.saturating_add(1),
        }
        result
    }
}

impl<W: Write> Write for Counted<W> {
    ghost use Rattle.std.specs.Prelude.{◌≡◌, length};
    ghost use Rattle.std.specs.Io.{WritesAtMost};
    ghost use Rattle.std.specs.Io.KnownBytes.{Keeps, WriteAppends};
    ghost use Rattle.tc_types.specs.Counts.{CanCount, after_write, counts_of, inner_of};

    ghost contents = { λ counted. W.contents (inner_of counted) };

    /// Writes, and counts the fault.
    fn write(&mut self, buf: &[u8]) -> io::Result<usize>
        ensures bound { WritesAtMost result buf.now }
        ensures bytes { WriteAppends (W.contents (inner_of self.old)) (W.contents (inner_of self.new)) result buf.now }
        ensures counted { CanCount (counts_of self.old) → counts_of self.new ≡ after_write (counts_of self.old) (length buf.now) result }
    {
        let result = self.inner.write(buf);
        match &result {
            Ok(0) if buf.is_empty() => {}
            Ok(0) | Err(_) => self.counts.faults = self.counts.faults.saturating_add(1),
            Ok(_) => {}
        }
        result
    }

    /// Hands on what the writer holds back. This is not counted.
    fn flush(&mut self) -> io::Result<()>
        ensures bytes { Keeps (W.contents (inner_of self.old)) (W.contents (inner_of self.new)) }
        ensures same { counts_of self.new ≡ counts_of self.old }
    {
        self.inner.flush()
    }
}
