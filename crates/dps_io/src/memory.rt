// Files and a sink in memory, which tell their bytes and fail where they are told to.
ghost use Rattle.std.specs.Prelude.{◌≡◌, ◌⊎◌, ◌↔◌, ◌+◌, ◌-◌, ◌^◌, ◌<◌, ◌≤◌, ◌++◌, ℕ, List, [], Option, Some, None, false, min, length, take, is_ok, is_some, Contains, IsTrue, IsErr, IsNone, IfOk, IfSome, IfNone, OnOk, OnErr};
ghost use Rattle.std.specs.Io.KnownBytes.{prepend_known, append_known, IsAtEnd};
ghost use Rattle.dps_io.specs.Counts.{counted, CountsCall, CountsFaults};
ghost use Rattle.dps_io.specs.Bytes.{TellsTheSame};
ghost use Rattle.dps_io.specs.Held.{held, bytes_named, left_of};

use crate::{Failed, Files, Sink};
use std::alloc::{AllocError, Global};
use std::marker::Model;

/// Files in memory, which tell their bytes. Calls of `open` and `read` are numbered together from 1, and those whose
/// numbers are listed fail: the number of a call is the count of calls after it.
#[derive(Drop)]
pub struct MemFiles {
    files: Vec<(String, Vec<u8>)>,
    failing: Vec<u64>,
    // Where the open file stands among the files.
    place: Option<usize>,
    taken: usize,
    opens: u64,
    calls: u64,
    open_faults: u64,
    read_faults: u64,
}

impl Model for MemFiles {
    ghost use Rattle.std.specs.Prelude.{is_some};
    ghost use Rattle.dps_io.specs.Held.{HeldFiles, held, left_of};

    ghost Value = { HeldFiles };

    ghost view = { λ inside. record {
      files = held inside.files.items;
      failing = inside.failing.items;
      is_open = is_some inside.place;
      left = left_of inside.files.items inside.place inside.taken;
      taken = inside.taken;
      opens = inside.opens;
      calls = inside.calls;
      open_faults = inside.open_faults;
      read_faults = inside.read_faults;
    } };
}

impl MemFiles {
    /// Files of these names and bytes, of which the first of a name counts. None is open, and no call was made.
    /// `failing` lists the numbers of the calls that fail.
    pub fn new(files: Vec<(String, Vec<u8>)>, failing: Vec<u64>) -> MemFiles
        ensures { result ≡ record {
          files = held files.items;
          failing = failing.items;
          is_open = false;
          left = None;
          taken = 0;
          opens = 0;
          calls = 0;
          open_faults = 0;
          read_faults = 0;
        } }
    {
        MemFiles {
            files,
            failing,
            place: None,
            taken: 0,
            opens: 0,
            calls: 0,
            open_faults: 0,
            read_faults: 0,
        }
    }
}

impl Files for MemFiles {
    ghost state = { λ held. record {
      told = λ name. bytes_named held.files name;
      is_open = held.is_open;
      left = held.left;
      taken = held.taken;
      opens = held.opens;
      calls = held.calls;
      open_faults = held.open_faults;
      read_faults = held.read_faults;
    } };

    /// Opens the first file of that name.
    ///
    /// # Errors
    ///
    /// `Failed` exactly where the number of the call is listed, or no file has that name.
    fn open(&mut self, name: &str) -> Result<(), Failed>
        ensures fails { IsErr result ↔ (Contains self.old.failing self.new.calls ⊎ IsNone (bytes_named self.old.files name.now)) }
        ensures failing { self.new.failing ≡ self.old.failing }

        // As for any files.
        ensures opened { self.new.is_open ≡ is_ok result }
        ensures left { OnOk result (self.new.left ≡ bytes_named self.old.files name.now) }
        ensures taken { self.new.taken ≡ 0 }
        ensures same_files { self.new.files ≡ self.old.files }
        ensures open_faults { CountsFaults self.old.open_faults self.new.open_faults result }
        ensures read_faults { self.new.read_faults ≡ self.old.read_faults }
        ensures opens { CountsCall self.old.opens self.new.opens }
        ensures calls { CountsCall self.old.calls self.new.calls }
    {
        self.calls = self.calls.saturating_add(1);
        self.opens = self.opens.saturating_add(1);
        self.taken = 0;
        self.place = None;
        if !is_listed(&self.failing, self.calls) {
            if let Some(place) = place_of(&self.files, name) {
                self.place = Some(place);
                return Ok(());
            }
        }
        self.open_faults = self.open_faults.saturating_add(1);
        Err(Failed)
    }

    /// Reads the next bytes of the open file: all that are left, or as many as there is room for.
    ///
    /// # Errors
    ///
    /// `Failed` exactly where the number of the call is listed.
    fn read(&mut self, buffer: &mut [u8]) -> Result<usize, Failed>
        requires { IsTrue self.old.is_open }
        ensures fails { IsErr result ↔ Contains self.old.failing self.new.calls }
        ensures fills { IfOk result (λ count. IfSome self.old.left (λ left. count ≡ min (length left) (length buffer.new))) }
        ensures failing { self.new.failing ≡ self.old.failing }

        // As for any files.
        ensures opened { IsTrue self.new.is_open }
        ensures within { IfOk result (λ count. count ≤ length buffer.new) }
        ensures bytes { IfOk result (λ count. self.old.left ≡ prepend_known (take count buffer.new) self.new.left) }
        ensures end { IfOk result (λ count. count ≡ 0 → 0 < length buffer.new → IsAtEnd self.new.left) }
        ensures unread { OnErr result (self.new.left ≡ self.old.left) }
        ensures taken { IfOk result (λ count. self.new.taken ≡ counted self.old.taken count) }
        ensures untaken { OnErr result (self.new.taken ≡ self.old.taken) }
        ensures same_files { self.new.files ≡ self.old.files }
        ensures read_faults { CountsFaults self.old.read_faults self.new.read_faults result }
        ensures open_faults { self.new.open_faults ≡ self.old.open_faults }
        ensures opens { self.new.opens ≡ self.old.opens }
        ensures calls { CountsCall self.old.calls self.new.calls }
    {
        self.calls = self.calls.saturating_add(1);
        if is_listed(&self.failing, self.calls) {
            self.read_faults = self.read_faults.saturating_add(1);
            return Err(Failed);
        }
        let Some(place) = self.place else {
            unreachable!()
        };
        let count = copy_front(unread(&self.files, place, self.taken), buffer);
        self.taken += count;
        Ok(count)
    }
}

// Whether a call's number is among those that fail.
fn is_listed(failing: &[u64], call: u64) -> bool
    ensures { IsTrue result ↔ Contains failing.now call }
{
    failing.contains(&call)
}

// Where the first file of that name stands.
#[tactic(auto, using(crate::proofs::HeldLemmas::for_place_of))]
fn place_of(files: &[(String, Vec<u8>)], name: &str) -> Option<usize>
    ensures found { IfSome result (λ place. left_of files.now (Some place) 0 ≡ bytes_named (held files.now) name.now) }
    ensures none { IsNone result ↔ IsNone (bytes_named (held files.now) name.now) }
{
    for (place, file) in files.iter().enumerate() {
        if file.0.as_str() == name {
            return Some(place);
        }
    }
    None
}

// What was not read yet of the file that stands there.
fn unread(files: &[(String, Vec<u8>)], place: usize, taken: usize) -> &[u8]
    ensures rest { IfSome (left_of files.now (Some place) taken) (λ left. result.now ≡ left) }
    ensures bound { taken + length result.now < 2 ^ 64 }
{
    if let Some(file) = files.get(place) {
        if taken < file.1.len() {
            return file.1.split_at(taken).1;
        }
    }
    &[]
}

// Copies as many bytes as there is room for.
fn copy_front(bytes: &[u8], buffer: &mut [u8]) -> usize
    ensures count { result ≡ min (length bytes.now) (length buffer.old) }
    ensures front { take result buffer.new ≡ take result bytes.now }
{
    let count = bytes.len().min(buffer.len());
    buffer[..count].copy_from_slice(&bytes[..count]);
    count
}

/// A sink in memory, which tells what was written. It has room for so many bytes, and takes up to so many at one call.
/// Its calls are numbered from 1, and those whose numbers are listed fail: the number of a call is the count of calls
/// after it.
#[derive(Drop)]
pub struct MemSink {
    bytes: Vec<u8>,
    most: usize,
    room: usize,
    failing: Vec<u64>,
    calls: u64,
    faults: u64,
}

impl Model for MemSink {
    ghost use Rattle.std.specs.Prelude.{◌<◌, ◌≤◌, vec_len, vec_capacity};
    ghost use Rattle.dps_io.specs.Held.{HeldSink};

    ghost Value = { HeldSink };

    ghost view = { λ inside. record {
      written = inside.bytes.items;
      most = inside.most;
      room = inside.room;
      failing = inside.failing.items;
      calls = inside.calls;
      faults = inside.faults;
    } };

    ghost invariant = { λ inside. (0 < inside.most) × (vec_len inside.bytes ≤ inside.room) × (inside.room ≤ vec_capacity inside.bytes) };
}

impl MemSink {
    /// A sink that nothing was written to. It has room for `room` bytes, and takes at most `most` of them at one call,
    /// which is at least 1. `failing` lists the numbers of the calls that fail.
    ///
    /// # Errors
    ///
    /// `AllocError` where there is no memory for the room. No later call takes any.
    pub fn new(
        alloc: Global,
        most: usize,
        room: usize,
        failing: Vec<u64>,
    ) -> Result<MemSink, AllocError>
        requires { 0 < most }
        ensures { IfOk result (λ sink. sink ≡ record {
          written = [];
          most = most;
          room = room;
          failing = failing.items;
          calls = 0;
          faults = 0;
        }) }
    {
        Ok(MemSink {
            bytes: Vec::with_capacity(alloc, room)?,
            most,
            room,
            failing,
            calls: 0,
            faults: 0,
        })
    }

    /// The bytes that were written.
    pub fn written(&self) -> &[u8]
        ensures { result.now ≡ self.now.written }
    {
        &self.bytes
    }
}

impl Sink for MemSink {
    ghost written = { λ held. Some held.written };

    ghost faults = { λ held. held.faults };

    /// Writes as many of the bytes as one call takes and as there is room for.
    ///
    /// # Errors
    ///
    /// `Failed` exactly where the number of the call is listed, or the room is full.
    fn write(&mut self, bytes: &[u8]) -> Result<usize, Failed>
        ensures fails { IsErr result ↔ (Contains self.old.failing self.new.calls ⊎ (length self.old.written ≡ self.old.room)) }
        ensures fills { IfOk result (λ count. count ≡ min (min (length bytes.now) self.old.most) (self.old.room - length self.old.written)) }
        ensures failing { self.new.failing ≡ self.old.failing }
        ensures most { self.new.most ≡ self.old.most }
        ensures room { self.new.room ≡ self.old.room }
        ensures calls { self.new.calls ≡ counted self.old.calls 1 }

        // As for any sink.
        ensures within { IfOk result (λ count. count ≤ length bytes.now) }
        ensures some { IfOk result (λ count. 0 < length bytes.now → 0 < count) }
        ensures appended { IfOk result (λ count. self.new.written ≡ self.old.written ++ take count bytes.now) }
        ensures unwritten { OnErr result (self.new.written ≡ self.old.written) }
        ensures faults { CountsFaults self.old.faults self.new.faults result }
    {
        self.calls = self.calls.saturating_add(1);
        let left = self.room - self.bytes.len();
        if left == 0 || is_listed(&self.failing, self.calls) {
            self.faults = self.faults.saturating_add(1);
            return Err(Failed);
        }
        let count = bytes.len().min(self.most).min(left);
        self.bytes.extend_from_slice(&bytes[..count]).unwrap();
        Ok(count)
    }
}
