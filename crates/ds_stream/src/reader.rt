//! Vectors without end, a window at a time.
ghost use Rattle.std.specs.Prelude.{◌≡◌, ◌≢◌, ◌≤◌, ◌<◌, ◌+◌, ℕ, List, IfOk, MatchResult, Err};
ghost use Rattle.ds_outside.specs.Fault.{Rose};
ghost use Rattle.ds_stream.specs.Next.{FitsHeld, GivesHeld, IsBehind, RefusesHeld};
ghost use Rattle.ds_stream.specs.Stream.{beginning};

use crate::NextFault;
use crate::filling::Filling;
use ds_design::Vectors;
use ds_outside::{Files, Which};
use std::alloc::Global;
use std::marker::Model;

/// Reads vectors of a width from a file, so many at a time. It shows how many it has given, the
/// place behind the line of the last of them, and how many physical lines stand before that place.
/// It keeps nothing else of the file. A reader that is refused is given up.
#[derive(Drop)]
pub struct VectorReader {
    width: usize,
    most: u64,
    given: u64,
    place: u64,
    lines: u64,
}

impl Model for VectorReader {
    ghost use Rattle.std.specs.Prelude.{◌≤◌, ◌<◌, ◌+◌};
    ghost use Rattle.ds_stream.specs.Stream.{Shown};

    ghost Value = { Shown };

    ghost view = { λ r. record {
      width = r.width;
      most = r.most;
      given = r.given;
      behind = record { place = r.place; lines = r.lines };
    } };

    ghost invariant = { λ r. (r.place ≤ 281474976710656) × (r.lines ≤ r.place + r.given)
        × (r.given ≤ r.most) × (r.most < 4294967296) };
}

impl VectorReader {
    /// Before the first vector of a file that may have so many.
    pub fn new(width: usize, most: u64) -> Self
        requires { most < 4294967296 }
        ensures value { result
            ≡ record { width = width; most = most; given = 0; behind = beginning } }
        ensures fits { (held : _) → FitsHeld held result }
    {
        VectorReader::at(width, most, 0, 0, 0)
    }

    // Behind so many vectors.
    pub(crate) fn at(width: usize, most: u64, given: u64, place: u64, lines: u64) -> Self
        requires place { place ≤ 281474976710656 }
        requires lines { lines ≤ place + given }
        requires few { given ≤ most }
        requires most { most < 4294967296 }
        ensures { result ≡ record {
          width = width;
          most = most;
          given = given;
          behind = record { place = place; lines = lines };
        } }
    {
        VectorReader {
            width,
            most,
            given,
            place,
            lines,
        }
    }

    /// How many values a vector has.
    pub fn width(&self) -> usize
        ensures { result ≡ self.now.width }
    {
        self.width
    }

    /// How many vectors the file may have.
    pub fn most(&self) -> u64
        ensures value { result ≡ self.now.most }
        ensures few { result < 4294967296 }
    {
        self.most
    }

    /// How many vectors were given.
    pub fn given(&self) -> u64
        ensures value { result ≡ self.now.given }
        ensures few { result ≤ self.now.most }
    {
        self.given
    }

    /// The place behind the line of the last vector that was given, from 0.
    pub fn place(&self) -> u64
        ensures value { result ≡ self.now.behind.place }
        ensures few { result ≤ 281474976710656 }
    {
        self.place
    }

    /// How many physical lines stand before that place.
    pub fn lines(&self) -> u64
        ensures value { result ≡ self.now.behind.lines }
        ensures few { result ≤ self.now.behind.place + self.now.given }
    {
        self.lines
    }

    /// The next so many vectors of a file, fewer only where it has no more. The first faulty line
    /// is told with its number in the file; on one line too many vectors come first, then its
    /// width, then its characters. Where all are given, no byte behind the line of the last of them
    /// is asked for; where fewer are, the file is read to its end.
    pub fn next<F: Files>(
        self,
        alloc: Global,
        files: &mut F,
        name: &str,
        count: usize,
    ) -> Result<(VectorReader, Vectors), NextFault>
        requires few { count ≤ 65536 }
        requires fits { FitsHeld (F.held files.old name.now) self }

        ensures gives { MatchResult result
            (λ r. GivesHeld (F.held files.old name.now) self count r.0 r.1.rows)
            (λ why. RefusesHeld (F.held files.old name.now) self count why) }
        ensures fits { IfOk result (λ r. FitsHeld (F.held files.new name.now) r.0) }
        ensures behind { IfOk result (λ r. IsBehind self count r.0 r.1.rows) }
        ensures width { IfOk result (λ r. r.1.width ≡ self.width) }

        ensures same_held { F.held files.new ≡ F.held files.old }
        ensures same_faults { result ≢ Err NextFault.Read
            → F.faults files.new ≡ F.faults files.old }
        ensures never_falls { (w : _) (n : List ℕ)
            → F.faults files.old w n ≤ F.faults files.new w n }
        ensures other_kinds { (w : _) (n : List ℕ) → w ≢ Which.Vectors
            → F.faults files.new w n ≡ F.faults files.old w n }
        ensures cause { result ≡ Err NextFault.Read
            → Rose (F.faults files.old Which.Vectors name.now)
            (F.faults files.new Which.Vectors name.now) }
    {
        let mut filling = Filling::begin(alloc, &self, count);
        let mut piece = [0u8; 65536];
        'reading: while filling.missing() > 0 {
            let room = filling.ask();
            let place = filling.place();
            match files.read_at(Which::Vectors, name, place, &mut piece[..room]) {
                Err(_) => return Err(NextFault::Read),
                Ok(0) => {
                    return match filling.end(alloc) {
                        Ok(()) => Ok(filling.finish()),
                        Err(why) => Err(why),
                    };
                }
                Ok(n) => {
                    match filling.take(alloc, &piece[..n]) {
                        Ok(()) => {}
                        Err(why) => return Err(why),
                    }
                }
            }
        }
        Ok(filling.finish())
    }
}
