// Whole files and whole texts, over any files and any sink.
ghost use Rattle.std.specs.Prelude.{List, ℕ, false, ◌≡◌, ◌+◌, ◌^◌, ◌<◌, ◌≤◌, ◌↔◌, length, vec_len, IsTrue, IfOk, IfSome, OnOk, OnErr, IsErrOf};
ghost use Rattle.std.specs.Io.KnownBytes.{append_known};
ghost use Rattle.dps_io.specs.Counts.{Rose, CountsCall, CountsFaults};
ghost use Rattle.dps_io.specs.Bytes.{TellsTheSame, HasRead, AppendsFront};
ghost use Rattle.dps_io.specs.declared.whole.ReadRefusal.TheVariants.{Memory};

use crate::{Failed, Files, Sink};
use std::alloc::{AllocError, Global};
use thiserror::Error;

// How many bytes one call reads at most.
const PIECE: usize = 4096;

/// Why a file was not read whole.
#[derive(Clone, Copy, Debug, PartialEq, Eq, Error)]
pub enum ReadRefusal {
    /// The file could not be opened.
    #[error("the file could not be opened")]
    OpenFault,
    /// The file was opened, and a read of it failed.
    #[error("the file could not be read")]
    ReadFault,
    /// The file has more bytes than the limit.
    #[error("the file is too long")]
    TooLong,
    /// There was no memory for the bytes.
    #[error("out of memory")]
    Memory,
}

impl From<AllocError> for ReadRefusal {
    ghost from_gives = { λ _ refusal. refusal ≡ Memory };

    fn from(_: AllocError) -> Self {
        ReadRefusal::Memory
    }
}

/// A write failed, and the count of the sink's faults rose.
#[derive(Clone, Copy, Debug, PartialEq, Eq, Error)]
#[error("the text could not be written")]
pub struct WriteFault;

/// All bytes of the file of that name, of which there may be as many as `limit`, a number below 2^32. The file stays
/// open.
///
/// One call opens the file, and at most `limit + 2` calls read of it. A fault is never passed over: where a count of
/// `files` rises, the answer is that fault.
///
/// # Errors
///
/// - `OpenFault`: the file could not be opened. The count of open faults rose, and no file is open.
/// - `ReadFault`: a read failed. The count of read faults rose.
/// - `TooLong`: byte `limit + 1` of the file was read, and nothing behind it.
/// - `Memory`: there was no memory for the bytes.
///
/// After all but the first the file is open, and what was read of it is a front of its bytes.
#[tactic(auto, using(crate::proofs::ReadingLemmas::for_read_all))]
pub fn read_all<F: Files>(
    alloc: Global,
    files: &mut F,
    name: &str,
    limit: usize,
) -> Result<Vec<u8>, ReadRefusal>
    requires { limit < 2 ^ 32 }

    // All bytes of the file, where they are told; and in any case all that was read.
    ensures whole { IfOk result (λ bytes. IfSome ((F.state files.old).told name.now) (λ told. bytes.items ≡ told)) }
    ensures all_taken { IfOk result (λ bytes. (F.state files.new).taken ≡ vec_len bytes) }
    ensures within { IfOk result (λ bytes. vec_len bytes ≤ limit) }

    // An open fault comes only where one was counted, and exactly where no file is open.
    ensures open_fault { IsErrOf result ReadRefusal.OpenFault → Rose (F.state files.old).open_faults (F.state files.new).open_faults }
    ensures open_counted { (F.state files.old).open_faults < (F.state files.new).open_faults → IsErrOf result ReadRefusal.OpenFault }
    ensures closed { IsErrOf result ReadRefusal.OpenFault ↔ ((F.state files.new).is_open ≡ false) }
    ensures open_faults { (F.state files.old).open_faults ≤ (F.state files.new).open_faults }

    // A read fault comes only where one was counted.
    ensures read_fault { IsErrOf result ReadRefusal.ReadFault → Rose (F.state files.old).read_faults (F.state files.new).read_faults }
    ensures read_counted { (F.state files.old).read_faults < (F.state files.new).read_faults → IsErrOf result ReadRefusal.ReadFault }
    ensures read_faults { (F.state files.old).read_faults ≤ (F.state files.new).read_faults }

    // A file is too long exactly where one byte more than the limit was read, and no more is ever read.
    ensures too_long { IsErrOf result ReadRefusal.TooLong ↔ ((F.state files.new).taken ≡ limit + 1) }
    ensures longer { IsErrOf result ReadRefusal.TooLong → IfSome ((F.state files.old).told name.now) (λ told. limit < length told) }
    ensures taken { (F.state files.new).taken ≤ limit + 1 }

    // How the files stand afterwards: what is left of the open file, what they tell, and how often they were called. One
    // call opens the file, so a fault of opening is never passed over.
    ensures left { IsTrue (F.state files.new).is_open → HasRead (F.state files.new).taken ((F.state files.old).told name.now) (F.state files.new).left }
    ensures same_files { TellsTheSame (F.state files.old).told (F.state files.new).told }
    ensures opens { CountsCall (F.state files.old).opens (F.state files.new).opens }
    ensures calls { (F.state files.new).calls ≤ (F.state files.old).calls + 1 + (limit + 2) }
    ensures counted_calls { (F.state files.old).calls ≤ (F.state files.new).calls }
{
    if files.open(name).is_err() {
        return Err(ReadRefusal::OpenFault);
    }
    let mut bytes = Vec::new(alloc);
    let mut piece = [0u8; PIECE];
    'pieces: loop {
        let room = PIECE.min(limit + 1 - bytes.len());
        match files.read(&mut piece[..room]) {
            Err(Failed) => return Err(ReadRefusal::ReadFault),
            Ok(0) => return Ok(bytes),
            Ok(count) => {
                if count > limit - bytes.len() {
                    return Err(ReadRefusal::TooLong);
                }
                bytes.extend_from_slice(&piece[..count])?;
            }
        }
    }
}

/// Writes all the bytes, in as many calls as the sink needs. It takes no memory.
///
/// # Errors
///
/// `WriteFault` where a write failed: the count of the sink's faults rose, and a front of the bytes was written, but
/// not all of them.
#[tactic(auto, using(crate::proofs::WritingLemmas::for_write_all))]
pub fn write_all<W: Sink>(sink: &mut W, bytes: &[u8]) -> Result<(), WriteFault>
    ensures all { OnOk result (W.written sink.new ≡ append_known (W.written sink.old) bytes.now) }
    ensures front { OnErr result (AppendsFront (W.written sink.old) (W.written sink.new) bytes.now) }
    ensures faults { CountsFaults (W.faults sink.old) (W.faults sink.new) result }
{
    let mut rest = bytes;
    'rest: while !rest.is_empty() {
        match sink.write(rest) {
            Err(Failed) => return Err(WriteFault),
            Ok(count) => rest = rest.split_at(count).1,
        }
    }
    Ok(())
}
