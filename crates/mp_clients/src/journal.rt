//! The file of a pool's history.

use crate::recorded::{put_opening, put_settings};
use mp_memory::{Memory, NoMemory};
use mp_session::Settings;
use mp_text::{WriteFault, write_all};
use mp_tx::Ledger;
use std::fs::File;
use std::sync::{Condvar, Mutex, Wait};

// How far the file is.
#[derive(Drop)]
struct Progress {
    // The place of the next entry.
    next: u64,
    // `None` once a part of it is missing.
    file: Option<File>,
}

/// The file of a pool's history. It has the entries in the order of their places. If one is missing, no later one is there.
#[derive(Drop)]
pub struct Journal {
    progress: Mutex<Progress>,
    written: Condvar,
}

// Writes the text, if the file has all before it. Without a text a part is missing from then on.
fn write_next(file: &mut Option<File>, text: Option<&[u8]>) -> Result<(), WriteFault> {
    let found = match (&mut *file, text) {
        (Some(file), Some(text)) => write_all(file, text),
        _ => Err(WriteFault),
    };
    if found.is_err() {
        *file = None;
    }
    found
}

// Writes the settings, and then each output.
fn write_opening(
    memory: Memory,
    file: &mut Option<File>,
    settings: &Settings,
    ledger: &Ledger,
) -> Result<(), NoMemory> {
    let mut text = Vec::new(memory);
    put_settings(&mut text, settings)?;
    let _ = write_next(file, Some(&text));
    for (reference, output) in ledger.outputs(memory)? {
        text.clear();
        put_opening(memory, &mut text, &reference, &output)?;
        let _ = write_next(file, Some(&text));
    }
    Ok(())
}

impl Journal {
    /// The file of a pool that opens with these settings on this ledger state. If that can't be written, neither is any entry.
    pub fn begin(
        memory: Memory,
        file: File,
        settings: &Settings,
        ledger: &Ledger,
    ) -> Result<Journal, NoMemory> {
        let mut file = Some(file);
        write_opening(memory, &mut file, settings, ledger)?;
        Ok(Journal {
            progress: Mutex::new(Progress { next: 0, file }),
            written: Condvar::new(),
        })
    }

    /// Writes the text of the entry with this place, once those of all earlier entries are written. Each place is to be given once.
    /// Without a text the entry is missing.
    ///
    /// # Errors
    /// `WriteFault` if the file fails, or if this entry or an earlier one is missing.
    pub fn append(
        &self,
        rt: &impl Wait,
        place: u64,
        text: Option<&[u8]>,
    ) -> Result<(), WriteFault> {
        let before = self.progress.lock(rt);
        let mut progress = self
            .written
            .wait_while(rt, before, |progress| progress.next < place);
        let found = write_next(&mut progress.file, text);
        progress.next = place.saturating_add(1);
        drop(progress);
        self.written.notify_all();
        found
    }
}
