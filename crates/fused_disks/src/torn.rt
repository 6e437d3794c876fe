//! A file in memory that remembers what was written since the last sync, so that a stop may leave a part of it.
ghost use Rattle.std.specs.Prelude.{◌≡◌, ◌∷◌, true, false, refl, length, is_ok, OnOk, OnErr};
ghost use Rattle.std.proofs.Common.{inl};
ghost use Rattle.sqlite_disk.specs.Disk.{Holds, Mixed, Cut as Cuts, CountsFault};
ghost use Rattle.sqlite_disk.specs.History.{MayLeave, wrote, resized};
ghost use Rattle.sqlite_disk.specs.Refusal.{finds_no_room};
ghost use Rattle.fused_disks.specs.Torn.{steps_of};

use sqlite_disk::{Disk, Tally, digest_of};
use std::alloc::{AllocError, Global};
use std::io;

/// What a stop keeps of the writes since the last sync.
#[derive(Clone, Copy, Debug, PartialEq, Eq)]
pub enum Kept {
    Nothing,
    All,
    /// The first half of the writes.
    FirstHalf,
    /// The last write, and none before it.
    LastAlone,
    /// All, but of the last write only its first half.
    HalfOfLast,
    /// Of each write every other sector.
    OtherSectors,
}

const SECTOR: usize = 512;

#[derive(Drop)]
enum Step {
    Wrote(usize, Vec<u8>),
    Cut(usize),
}

/// A file in memory. Where it mixes, SQLite may suppose that a torn write leaves each byte old or new.
#[derive(Drop)]
pub struct Torn {
    bytes: Vec<u8>,
    synced: Vec<u8>,
    /// The steps since the last sync.
    steps: Vec<Step>,
    is_mixing: bool,
    is_usable: bool,
    faults: u64,
    caught: u64,
}

impl Torn {
    /// A file with these bytes, all of which are synced.
    pub fn new(bytes: &[u8], alloc: Global, is_mixing: bool) -> Result<Torn, AllocError> {
        Ok(Torn {
            bytes: bytes.to_vec(alloc)?,
            synced: bytes.to_vec(alloc)?,
            steps: Vec::new(alloc),
            is_mixing,
            is_usable: true,
            faults: 0,
            caught: 0,
        })
    }

    /// The file that comes back after a stop.
    pub fn after_stop(&self, alloc: Global, kept: Kept) -> Result<Torn, AllocError> {
        let mut left = self.synced.to_vec(alloc)?;
        for (index, step) in self.steps.iter().enumerate() {
            let after = self.steps.len().saturating_sub(index).saturating_sub(1);
            match step {
                Step::Wrote(at, bytes) => {
                    let size = kept.part(index, after, bytes.len());
                    keep(&mut left, *at, bytes, size)?;
                }
                Step::Cut(len) => {
                    if kept.part(index, after, 1) > 0 {
                        left.resize(*len, 0)?;
                    }
                }
            }
        }
        Torn::new(&left, alloc, self.is_mixing)
    }
}

impl Kept {
    pub const EACH: [Kept; 6] = [
        Kept::Nothing,
        Kept::All,
        Kept::FirstHalf,
        Kept::LastAlone,
        Kept::HalfOfLast,
        Kept::OtherSectors,
    ];

    /// The length of the parts, of which every other one is kept, of a write of so many bytes, with so many before and after
    /// it. 0 is a write of which nothing is kept.
    fn part(self, before: usize, after: usize, len: usize) -> usize {
        match self {
            Kept::Nothing => 0,
            Kept::FirstHalf if before > after => 0,
            Kept::LastAlone if after > 0 => 0,
            Kept::HalfOfLast if after == 0 => len / 2,
            Kept::OtherSectors => SECTOR,
            _ => len,
        }
    }
}

/// Writes the bytes in parts of that size, of which every other one is left out.
fn keep(file: &mut Vec<u8>, at: usize, bytes: &[u8], size: usize) -> Result<(), AllocError> {
    let mut at = at;
    let mut rest = bytes;
    for _ in 0..bytes.len() {
        if size == 0 || rest.is_empty() {
            break;
        }
        let (part, others) = rest.split_at(size.min(rest.len()));
        overwrite(file, at, part)?;
        at = at.saturating_add(size).saturating_add(size);
        rest = others.get(size..).unwrap_or(&[]);
    }
    Ok(())
}

impl Disk for Torn {
    ghost seen = { λ t. t.bytes.items };

    ghost may_leave = { λ t. MayLeave t.is_mixing t.bytes.items t.synced.items (steps_of t.steps.items) };

    ghost is_usable = { λ t. t.is_usable };

    ghost faults = { λ t. t.faults };

    ghost tally_of = { λ t. record { caught = t.caught; refused = 0 } };

    ghost is_clean = { λ _. true };

    ghost key_of = { λ _. 0 };

    ghost is_fair = { λ _ _. true };

    ghost fair_if_clean = { λ _ _ _. refl };

    ghost seen_may_stay = { λ t. inl refl };

    ghost is_mixing = { λ t. t.is_mixing };

    fn mixes(&self) -> bool {
        self.is_mixing
    }

    fn key(&self) -> u64 {
        0
    }

    fn tally(&self) -> Tally {
        Tally {
            caught: self.caught,
            refused: 0,
        }
    }

    fn may_be_used(&self) -> bool {
        self.is_usable
    }

    fn len(&mut self) -> io::Result<usize> {
        Ok(self.bytes.len())
    }

    fn read_at(&mut self, at: usize, buf: &mut [u8]) -> io::Result<()> {
        if at > self.bytes.len() || buf.len() > self.bytes.len() - at {
            return Err(io::ErrorKind::UnexpectedEof.into());
        }
        buf.copy_from_slice(&self.bytes[at..at + buf.len()]);
        Ok(())
    }

    fn read_checked(&mut self, key: u64, want: u64, at: usize, buf: &mut [u8]) -> io::Result<()> {
        self.read_at(at, buf)?;
        if digest_of(key, buf) != want {
            self.faults = self.faults.saturating_add(1);
            self.caught = self.caught.saturating_add(1);
            return Err(io::ErrorKind::InvalidData.into());
        }
        Ok(())
    }

    fn write_at(&mut self, at: usize, bytes: &[u8]) -> io::Result<()> {
        count(note_write(&mut self.steps, at, bytes), &mut self.faults)?;
        count(overwrite(&mut self.bytes, at, bytes), &mut self.faults)
    }

    fn set_len(&mut self, len: usize) -> io::Result<()> {
        count(note_cut(&mut self.steps, len), &mut self.faults)?;
        count(resize(&mut self.bytes, len), &mut self.faults)
    }

    fn sync(&mut self) -> io::Result<()> {
        self.is_usable = false;
        count(replace(&mut self.synced, &self.bytes), &mut self.faults)?;
        self.steps.clear();
        self.is_usable = true;
        Ok(())
    }
}

fn count(outcome: Result<(), AllocError>, faults: &mut u64) -> io::Result<()>
    ensures variant { is_ok result ≡ is_ok outcome }
    ensures kind { finds_no_room result ≡ false }
    ensures faults { CountsFault result faults.old faults.new }
{
    if outcome.is_err() {
        *faults = faults.saturating_add(1);
        return Err(io::Error::from(io::ErrorKind::OutOfMemory));
    }
    Ok(())
}

fn note_write(steps: &mut Vec<Step>, at: usize, bytes: &[u8]) -> Result<(), AllocError>
    ensures ok { OnOk result (steps_of steps.new.items ≡ wrote at (length bytes.now) bytes.now ∷ steps_of steps.old.items) }
    ensures err { OnErr result (steps.new.items ≡ steps.old.items) }
{
    let bytes = bytes.to_vec(*steps.allocator())?;
    steps.push(Step::Wrote(at, bytes))?;
    Ok(())
}

fn note_cut(steps: &mut Vec<Step>, len: usize) -> Result<(), AllocError>
    ensures ok { OnOk result (steps_of steps.new.items ≡ resized len ∷ steps_of steps.old.items) }
    ensures err { OnErr result (steps.new.items ≡ steps.old.items) }
{
    steps.push(Step::Cut(len))?;
    Ok(())
}

fn replace(file: &mut Vec<u8>, bytes: &[u8]) -> Result<(), AllocError>
    ensures ok { OnOk result (file.new.items ≡ bytes.now) }
    ensures err { OnErr result (file.new.items ≡ file.old.items) }
{
    *file = bytes.to_vec(*file.allocator())?;
    Ok(())
}

fn resize(file: &mut Vec<u8>, len: usize) -> Result<(), AllocError>
    ensures len { OnOk result (length file.new.items ≡ len) }
    ensures others { Cuts len file.old.items file.new.items }
{
    file.resize(len, 0)
}

fn overwrite(file: &mut Vec<u8>, at: usize, bytes: &[u8]) -> Result<(), AllocError>
    ensures written { OnOk result (Holds file.new.items at bytes.now) }
    ensures others { Mixed at bytes.now file.old.items file.new.items }
{
    let end = at.checked_add(bytes.len()).ok_or(AllocError)?;
    if end > file.len() {
        resize(file, end)?;
    }
    file[at..end].copy_from_slice(bytes);
    Ok(())
}
