// The files and the standard output of the system: the edge where what is read and written is trusted.
ghost use Rattle.std.specs.Prelude.{◌≡◌, ℕ, List, None, false};

use crate::{Failed, Files, Sink};
use std::io::{Read, Write};
use std::marker::Model;
use std::rt;

/// The files of the system, by their paths. They tell nothing of their bytes: what the system reads is trusted.
#[derive(Drop)]
pub struct HostFiles<'a, R: rt::Files> {
    rt: &'a R,
    file: Option<R::File>,
    taken: u64,
    opens: u64,
    calls: u64,
    open_faults: u64,
    read_faults: u64,
}

impl<'a, R: rt::Files> Model for HostFiles<'a, R> {
    ghost use Rattle.std.specs.Prelude.{is_some};
    ghost use Rattle.dps_io.specs.System.{SystemFiles};

    ghost Value = { SystemFiles };

    ghost view = { λ inside. record {
      is_open = is_some inside.file;
      taken = inside.taken;
      opens = inside.opens;
      calls = inside.calls;
      open_faults = inside.open_faults;
      read_faults = inside.read_faults;
    } };
}

impl<'a, R: rt::Files> HostFiles<'a, R> {
    /// The files that the runtime reaches. None is open, and no call was made.
    pub fn new(rt: &'a R) -> Self
        ensures state { result ≡ record {
          is_open = false;
          taken = 0;
          opens = 0;
          calls = 0;
          open_faults = 0;
          read_faults = 0;
        } }
        ensures told { (name : List ℕ) → (⟦<HostFiles<'a, R> as Files>⟧.state result).told name ≡ None }
    {
        HostFiles {
            rt,
            file: None,
            taken: 0,
            opens: 0,
            calls: 0,
            open_faults: 0,
            read_faults: 0,
        }
    }
}

impl<R: rt::Files> Files for HostFiles<'_, R> {
    ghost state = { λ host. record {
      told = λ _. None;
      is_open = host.is_open;
      left = None;
      taken = host.taken;
      opens = host.opens;
      calls = host.calls;
      open_faults = host.open_faults;
      read_faults = host.read_faults;
    } };

    fn open(&mut self, name: &str) -> Result<(), Failed> {
        self.calls = self.calls.saturating_add(1);
        self.opens = self.opens.saturating_add(1);
        self.taken = 0;
        match std::fs::open(self.rt, name) {
            Ok(file) => {
                self.file = Some(file);
                Ok(())
            }
            Err(_) => {
                self.file = None;
                self.open_faults = self.open_faults.saturating_add(1);
                Err(Failed)
            }
        }
    }

    fn read(&mut self, buffer: &mut [u8]) -> Result<usize, Failed> {
        self.calls = self.calls.saturating_add(1);
        let Some(file) = &mut self.file else {
            unreachable!()
        };
        match file.read(buffer) {
            Ok(count) => {
                self.taken = self.taken.saturating_add(count as u64);
                Ok(count)
            }
            Err(_) => {
                self.read_faults = self.read_faults.saturating_add(1);
                Err(Failed)
            }
        }
    }
}

/// The standard output of the program. It tells nothing of what was written: what the system writes is trusted.
#[derive(Drop)]
pub struct HostSink<'a, R: Print> {
    rt: &'a R,
    faults: u64,
}

impl<'a, R: Print> Model for HostSink<'a, R> {
    ghost use Rattle.std.specs.Prelude.{ℕ};

    // A contract sees the count of faults.
    ghost Value = { ℕ };

    ghost view = { λ inside. inside.faults };
}

impl<'a, R: Print> HostSink<'a, R> {
    /// The output that the runtime prints to. No call has failed.
    pub fn new(rt: &'a R) -> Self
        ensures written { ⟦<HostSink<'a, R> as Sink>⟧.written result ≡ None }
        ensures faults { ⟦<HostSink<'a, R> as Sink>⟧.faults result ≡ 0 }
    {
        HostSink { rt, faults: 0 }
    }
}

impl<R: Print> Sink for HostSink<'_, R> {
    ghost written = { λ _. None };

    ghost faults = { λ faults. faults };

    // Where bytes are to be written, a call that writes none is a fault too.
    fn write(&mut self, bytes: &[u8]) -> Result<usize, Failed> {
        match std::io::writer(self.rt).write(bytes) {
            Ok(count) if count > 0 || bytes.is_empty() => Ok(count),
            _ => {
                self.faults = self.faults.saturating_add(1);
                Err(Failed)
            }
        }
    }
}
