// The outside by its contracts: what each call answers, and what its counts then say.
ghost use Rattle.std.specs.Prelude.{◌≡◌, ◌<◌, ◌≤◌, List, ℕ, Option, length, take, is_ok, IsTrue, IfOk, OnOk, OnErr};
ghost use Rattle.std.specs.Io.KnownBytes.{prepend_known, append_known, IsAtEnd};
ghost use Rattle.dps_io.specs.Counts.{counted, CountsCall, CountsFaults};
ghost use Rattle.dps_io.specs.Bytes.{TellsTheSame};
ghost use Rattle.dps_io.specs.Files.{FilesState};

/// A call on the outside failed, and the count of its kind of fault rose.
#[derive(Clone, Copy, Debug, PartialEq, Eq)]
pub struct Failed;

/// Files that are opened by name, one at a time, and read from front to end.
///
/// An object may tell its files: then its clauses speak of their bytes. No call changes which files it tells, nor
/// their bytes. Each count stays at its last value, 2^64 - 1, once it is there.
pub trait Files {
    /// What it tells of its files, how the open file stands, and its counts of calls and of faults.
    ghost state: { Self → FilesState };

    /// Opens the file of that name at its front, in place of the file that was open.
    ///
    /// # Errors
    ///
    /// `Failed` where the file could not be opened: the count of open faults rose, and no file is open.
    fn open(&mut self, name: &str) -> Result<(), Failed>
        ensures opened { (state self.new).is_open ≡ is_ok result }
        ensures left { OnOk result ((state self.new).left ≡ (state self.old).told name.now) }
        ensures taken { (state self.new).taken ≡ 0 }
        ensures same_files { TellsTheSame (state self.old).told (state self.new).told }

        // A fault is counted, as one of opening, and so is the call.
        ensures open_faults { CountsFaults (state self.old).open_faults (state self.new).open_faults result }
        ensures read_faults { (state self.new).read_faults ≡ (state self.old).read_faults }
        ensures opens { CountsCall (state self.old).opens (state self.new).opens }
        ensures calls { CountsCall (state self.old).calls (state self.new).calls };

    /// Reads the next bytes of the open file into the front of the buffer, and answers how many. The file stays open.
    /// 0 for a buffer that has room says that the file is at its end.
    ///
    /// # Errors
    ///
    /// `Failed` where the file could not be read: the count of read faults rose, and no byte was read.
    fn read(&mut self, buffer: &mut [u8]) -> Result<usize, Failed>
        requires { IsTrue (state self.old).is_open }
        ensures opened { IsTrue (state self.new).is_open }
        ensures within { IfOk result (λ count. count ≤ length buffer.new) }
        ensures bytes { IfOk result (λ count. (state self.old).left ≡ prepend_known (take count buffer.new) (state self.new).left) }
        ensures end { IfOk result (λ count. count ≡ 0 → 0 < length buffer.new → IsAtEnd (state self.new).left) }
        ensures unread { OnErr result ((state self.new).left ≡ (state self.old).left) }
        ensures taken { IfOk result (λ count. (state self.new).taken ≡ counted (state self.old).taken count) }
        ensures untaken { OnErr result ((state self.new).taken ≡ (state self.old).taken) }
        ensures same_files { TellsTheSame (state self.old).told (state self.new).told }

        // A fault is counted, as one of reading, and so is the call.
        ensures read_faults { CountsFaults (state self.old).read_faults (state self.new).read_faults result }
        ensures open_faults { (state self.new).open_faults ≡ (state self.old).open_faults }
        ensures opens { (state self.new).opens ≡ (state self.old).opens }
        ensures calls { CountsCall (state self.old).calls (state self.new).calls };
}

/// A place that bytes are written to, from front to end.
///
/// An object may tell what was written: then its clauses speak of those bytes. Its count of faults stays at its last
/// value, 2^64 - 1, once it is there.
pub trait Sink {
    /// The bytes that were written, or `None` where the object doesn't tell them.
    ghost written: { Self → Option (List ℕ) };

    /// How many calls of `write` failed.
    ghost faults: { Self → ℕ };

    /// Writes some of the bytes, from their front, and answers how many: at least one, if there is one.
    ///
    /// # Errors
    ///
    /// `Failed` where no byte could be written: the count of faults rose.
    fn write(&mut self, bytes: &[u8]) -> Result<usize, Failed>
        ensures within { IfOk result (λ count. count ≤ length bytes.now) }
        ensures some { IfOk result (λ count. 0 < length bytes.now → 0 < count) }
        ensures appended { IfOk result (λ count. written self.new ≡ append_known (written self.old) (take count bytes.now)) }
        ensures unwritten { OnErr result (written self.new ≡ written self.old) }
        ensures faults { CountsFaults (faults self.old) (faults self.new) result };
}
