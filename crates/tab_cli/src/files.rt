//! Files as disks.
ghost use Rattle.std.specs.Prelude.{◌≡◌, ◌+◌, ◌^◌, ◌≤◌, length, false, IfSome, OnSome, IfOk, Some, Ok};
ghost use Rattle.std.proofs.Common.{refl};
ghost use Rattle.tab_outside.specs.Armed.{unarmed};
ghost use Rattle.tab_outside.specs.Faults.{HasCause};
ghost use Rattle.tab_cli.specs.Files.{untold};

use std::fs::{File, OpenOptions};
use std::os::unix::fs::FileExt;
use tab_outside::{Disk, Failed};

/// The furthest that a write may end.
const FURTHEST_END: u64 = 1 << 62;

/// A file as a disk. It tells nothing of its content, and has no failures or stops that can be armed. Over a file that cannot
/// be opened each call fails.
#[derive(Drop)]
pub struct FileDisk {
    file: Option<File>,
    faults: u64,
}

impl FileDisk {
    /// Opens the file, or makes it where it is not there.
    pub fn open(rt: &HostRuntime, path: &str) -> FileDisk
        ensures { ⟦<FileDisk as Disk>⟧.faults result ≡ 0 }
    {
        let mut options = OpenOptions::new();
        options.read(true).write(true).create(true);
        FileDisk {
            file: options.open(rt, path).ok(),
            faults: 0,
        }
    }

    /// Answers, and counts a fault where there is no answer.
    fn answer<T: Drop>(&mut self, answer: Option<T>) -> Result<T, Failed>
        ensures value { IfOk result (λ value. answer ≡ Some value) }
        ensures cause { HasCause self.old.faults self.new.faults result }
    {
        match answer {
            Some(value) => Ok(value),
            None => {
                self.faults = self.faults.saturating_add(1);
                Err(Failed)
            }
        }
    }
}

impl Disk for FileDisk {
    ghost faults = { λ disk. disk.faults };

    ghost tells = { ⊥ };

    ghost honest = { ⊥ };

    ghost sure = { ⊥ };

    ghost watch = { untold };

    ghost has_stops = { λ _. false };

    ghost armed = { λ _. unarmed };

    fn len(&mut self) -> Result<u64, Failed> {
        let answer = length_of(&self.file);
        self.answer(answer)
    }

    fn read_at(&mut self, at: u64, buf: &mut [u8]) -> Result<usize, Failed> {
        let answer = read_from(&self.file, at, buf);
        self.answer(answer)
    }

    fn write_at(&mut self, at: u64, piece: &[u8]) -> Result<(), Failed> {
        let answer = write_to(&self.file, at, piece);
        self.answer(answer)
    }

    fn sync(&mut self) -> Result<(), Failed> {
        let answer = synced(&self.file);
        self.answer(answer)
    }

    fn arm_fail(&mut self, _after: u64) -> bool {
        false
    }

    fn arm_stop(&mut self, _after: u64) -> bool {
        false
    }

    fn stopped(&self) -> bool {
        false
    }

    fn restart(&mut self, _pick: u64) -> bool {
        false
    }

    fn has_stops(&self) -> bool {
        false
    }

    ghost counts_now = { λ none. absurd none };

    ghost only_now = { λ none. absurd none };

    ghost reads_image = { λ none. absurd none };

    ghost never_fails = { λ none _. absurd none };

    ghost honest_tells = { λ none. none };

    ghost tells_nothing = { λ none _. absurd none };

    ghost never_armed = { λ _ _. refl };
}

/// How many bytes the file has.
fn length_of(file: &Option<File>) -> Option<u64> {
    Some(file.as_ref()?.metadata().ok()?.len())
}

/// Reads up to the end of the buffer, or of the file.
fn read_from(file: &Option<File>, at: u64, buf: &mut [u8]) -> Option<usize>
    ensures { IfSome result (λ count. count ≤ length buf.old) }
{
    let file = file.as_ref()?;
    let mut filled = 0;
    while filled < buf.len() {
        let from = at.checked_add(filled as u64)?;
        let count = file.read_at(&mut buf[filled..], from).ok()?;
        if count == 0 {
            break;
        }
        filled += count;
    }
    Some(filled)
}

/// Writes the whole piece.
fn write_to(file: &Option<File>, at: u64, piece: &[u8]) -> Option<()>
    ensures { OnSome result (at + length piece.now ≤ 2 ^ 62) }
{
    if at.saturating_add(piece.len() as u64) > FURTHEST_END {
        return None;
    }
    file.as_ref()?.write_all_at(piece, at).ok()
}

/// Has what was written outlive the program.
fn synced(file: &Option<File>) -> Option<()> {
    file.as_ref()?.sync_data().ok()
}

#[cfg(test)]
mod tests {
    use super::*;
    use std::fs;
    use std::test::Fail;

    const PATH: &str = "file_disk_of_a_test";

    #[test]
    fn a_file_is_a_disk(rt: HostRuntime) -> Result<(), Fail> {
        let mut disk = FileDisk::open(&rt, PATH);
        assert_eq!(rt; disk.len(), Ok(0));
        assert_eq!(rt; disk.write_at(2, b"abc"), Ok(()));
        assert_eq!(rt; disk.sync(), Ok(()));
        let mut again = FileDisk::open(&rt, PATH);
        let mut bytes = [7; 8];
        assert_eq!(rt; again.read_at(1, &mut bytes), Ok(4));
        assert_eq!(rt; bytes, *b"\0abc\x07\x07\x07\x07");
        assert!(rt; !again.has_stops());
        let mut none = FileDisk::open(&rt, "no_folder/disk0");
        assert_eq!(rt; none.len(), Err(Failed));
        fs::remove_file(&rt, PATH)?;
        Ok(())
    }
}
