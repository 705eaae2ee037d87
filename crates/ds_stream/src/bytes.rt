//! How a `Filling` takes bytes: a plain line at once, else one by one.
ghost use Rattle.std.specs.Prelude.{◌≡◌, ◌≤◌, ◌<◌, ◌+◌, ◌∷◌, [], length, true, IfOk, OnOk};
ghost use Rattle.ds_stream.specs.Filling.{EndsHere, IsLater, TakesBytes, TakesFront};
ghost use Rattle.ds_stream.specs.Plain.{IsPlainLine, HasLineRoom};

use crate::NextFault;
use crate::filling::{Filling, LONGEST};
use ds_base::Row3;
use ds_rows::{are_bits, values_of};
use std::alloc::Global;

impl Filling {
    /// Bytes are taken up to the last vector that is missing; all, where one is missing then.
    pub(crate) fn take(&mut self, alloc: Global, bytes: &[u8]) -> Result<(), NextFault>
        ensures takes { TakesBytes result self.old self.new bytes.now }
        ensures same { OnOk result (IsLater self.old self.new) }
        ensures place { OnOk result (0 < self.new.missing
            → self.new.place ≡ self.old.place + length bytes.now) }
        ensures later { OnOk result (0 < self.old.missing → 0 < length bytes.now
            → self.old.place < self.new.place) }
        ensures bounds { OnOk result (self.old.lines ≤ self.old.place + self.old.seen
            → self.new.lines ≤ self.new.place + self.new.seen) }
    {
        let mut done = 0;
        'taking: while done < bytes.len() && self.missing > 0 {
            done += self.take_some(alloc, &bytes[done..])?;
        }
        Ok(())
    }

    /// The text ends, and with it the current line.
    pub(crate) fn end(&mut self, alloc: Global) -> Result<(), NextFault>
        requires some { 0 < self.old.missing }
        requires bounds { self.old.lines ≤ self.old.place + self.old.seen }
        ensures ends { EndsHere result self.old self.new }
        ensures same { OnOk result (IsLater self.old self.new) }
    {
        self.lines += 1;
        self.take_line(alloc)
    }

    // A plain line is taken where one begins these bytes, else their first byte. Says how many
    // bytes were taken.
    fn take_some(&mut self, alloc: Global, bytes: &[u8]) -> Result<usize, NextFault>
        requires missing { 0 < self.old.missing }
        requires some { 0 < length bytes.now }
        ensures takes { TakesFront result self.old self.new bytes.now }
        ensures some { IfOk result (λ n. 0 < n) }
        ensures within { IfOk result (λ n. n ≤ length bytes.now) }
        ensures same { IfOk result (λ n. IsLater self.old self.new) }
        ensures place { IfOk result (λ n. self.new.place ≡ self.old.place + n) }
        ensures bounds { IfOk result (λ n. self.old.lines ≤ self.old.place + self.old.seen
            → self.new.lines ≤ self.new.place + self.new.seen) }
    {
        if self.is_plain(bytes) {
            self.take_plain(alloc, bytes)
        } else {
            self.take_byte(alloc, bytes[0])?;
            Ok(1)
        }
    }

    // A plain line begins these bytes, no line has begun, and one more vector is allowed.
    fn is_plain(&self, bytes: &[u8]) -> bool
        ensures { result ≡ true → IsPlainLine self.now bytes.now }
    {
        if !self.is_ready() || self.width >= bytes.len() {
            return false;
        }
        bytes[self.width] == b'\n' && are_bits(&bytes[..self.width])
    }

    // No line has begun, and there is room for a line of the width and for its vector.
    fn is_ready(&self) -> bool
        ensures { result ≡ true → HasLineRoom self.now }
    {
        if self.comment || self.joined || !self.line.is_empty() {
            return false;
        }
        self.width > 0 && self.seen < self.most && (self.width as u64) < LONGEST - self.place
    }

    // A plain line is taken with its newline. Says how many bytes they are.
    fn take_plain(&mut self, alloc: Global, bytes: &[u8]) -> Result<usize, NextFault>
        requires missing { 0 < self.old.missing }
        requires plain { IsPlainLine self.old bytes.now }
        ensures takes { TakesFront result self.old self.new bytes.now }
        ensures count { IfOk result (λ n. n ≡ self.old.width + 1) }
        ensures within { IfOk result (λ n. n ≤ length bytes.now) }
        ensures same { IfOk result (λ n. IsLater self.old self.new) }
        ensures place { IfOk result (λ n. self.new.place ≡ self.old.place + n) }
        ensures bounds { IfOk result (λ n. self.old.lines ≤ self.old.place + self.old.seen
            → self.new.lines ≤ self.new.place + self.new.seen) }
    {
        let width = self.width;
        let values = values_of(alloc, &bytes[..width])?;
        self.pass(width as u64 + 1);
        self.give(Row3::of(values))?;
        self.begin_line();
        Ok(width + 1)
    }

    // So many bytes are passed, the last of them a newline.
    fn pass(&mut self, count: u64)
        requires some { 0 < count }
        requires room { self.old.place + count ≤ 281474976710656 }
        ensures { self.new ≡ record self.old {
          place = self.old.place + count;
          lines = self.old.lines + 1;
        } }
    {
        self.place += count;
        self.lines += 1;
    }

    // A byte is taken.
    fn take_byte(&mut self, alloc: Global, byte: u8) -> Result<(), NextFault>
        requires { 0 < self.old.missing }
        ensures takes { TakesBytes result self.old self.new (byte ∷ []) }
        ensures same { OnOk result (IsLater self.old self.new) }
        ensures place { OnOk result (self.new.place ≡ self.old.place + 1) }
        ensures bounds { OnOk result (self.old.lines ≤ self.old.place + self.old.seen
            → self.new.lines ≤ self.new.place + self.new.seen) }
    {
        if self.place >= LONGEST {
            return Err(NextFault::TooLong);
        }
        if byte == b'\n' {
            return self.take_newline(alloc);
        }
        self.place += 1;
        if byte == b'#' {
            self.comment = true;
            Ok(())
        } else if self.comment {
            Ok(())
        } else {
            self.keep(byte)
        }
    }

    // The current physical line ends with a newline.
    fn take_newline(&mut self, alloc: Global) -> Result<(), NextFault>
        requires some { 0 < self.old.missing }
        requires room { self.old.place < 281474976710656 }
        ensures takes { TakesBytes result self.old self.new (10 ∷ []) }
        ensures same { OnOk result (IsLater self.old self.new) }
        ensures place { OnOk result (self.new.place ≡ self.old.place + 1) }
        ensures bounds { OnOk result (self.old.lines ≤ self.old.place + self.old.seen
            → self.new.lines ≤ self.new.place + self.new.seen) }
    {
        self.place += 1;
        self.lines += 1;
        if self.joins() {
            self.join()
        } else {
            self.take_line(alloc)
        }
    }
}
