// A coordinator's transaction, changed in place.
ghost use Rattle.std.specs.Prelude.{◌≡◌, ◌<◌, false, [], length, is_some};
ghost use Rattle.std.specs.List.{push};
ghost use Rattle.protocol.specs.Coordinator.{line_at};
ghost use Rattle.protocol.specs.Transact.{value_of};
ghost use Rattle.directory.specs.declared.tables.Phase.TheVariants.{Idle, Open};
ghost use Rattle.directory.specs.View.{reads_of, writes_of};
ghost use Rattle.directory.specs.Access.{LooksUp, MayWrite, buffered};
ghost use Rattle.directory.specs.Work.{Leaves};

use crate::tables::{Phase, Work};
use memory::interface::Memory;
use memory::word::VERSION_END;
use protocol::call::Refusal;
use protocol::record::Line;

// A word at this version can be read, and not written.
const LAST_VERSION: u64 = VERSION_END - 1;

impl Work {
    // The value of a word that was read: the one last written, else the one read.
    pub(crate) fn value_of(&self, line: Line, address: u16) -> u64
        ensures { result ≡ value_of line (line_at address (writes_of self.now)) }
    {
        self.writes
            .find(address)
            .map_or(line.value, |written| written.value)
    }

    // A transaction begins, with nothing read or written.
    pub(crate) fn begin(&mut self)
        ensures { Leaves self.new Open self.old.next [] [] }
    {
        self.phase = Phase::Open;
        self.reads.clear();
        self.writes.clear();
    }

    // The transaction is over.
    pub(crate) fn rest(&mut self)
        ensures { Leaves self.new Idle self.old.next (reads_of self.old) (writes_of self.old) }
    {
        self.phase = Phase::Idle;
    }

    // The line of a word that was not read before, as the memory has it.
    pub(crate) fn look_up<M: Memory>(&self, memory: &M, address: u16) -> Result<Line, Refusal>
        ensures { LooksUp (reads_of self.now) (M.Memory.words memory.now) address result }
    {
        let true = self.reads.len() < 8 else {
            return Err(Refusal::TooMany);
        };
        let Some((version, _, value)) = memory.look(address as usize) else {
            return Err(Refusal::NoAddress);
        };
        Ok(Line {
            address,
            version,
            value,
        })
    }

    // One more word is read.
    pub(crate) fn note_read(&mut self, line: Line)
        requires { length (reads_of self.old) < 8 }
        ensures { Leaves self.new self.old.phase self.old.next (push (reads_of self.old) line) (writes_of self.old) }
    {
        self.reads.push(line);
    }

    // The word is among those written.
    pub(crate) fn is_written(&self, address: u16) -> bool
        ensures { result ≡ is_some (line_at address (writes_of self.now)) }
    {
        self.writes.find(address).is_some()
    }

    // The line of a word that was read, if it may be written.
    pub(crate) fn may_write(&self, address: u16) -> Result<Line, Refusal>
        ensures { MayWrite (reads_of self.now) (writes_of self.now) address result }
    {
        let Some(line) = self.reads.find(address) else {
            return Err(Refusal::NotRead);
        };
        let true = line.version != LAST_VERSION else {
            return Err(Refusal::UsedUp);
        };
        let fits = self.is_written(address) || self.writes.len() < 4;
        let true = fits else {
            return Err(Refusal::TooMany);
        };
        Ok(line)
    }

    // A word is written: again, or as one more.
    pub(crate) fn note_write(&mut self, line: Line)
        requires { is_some (line_at line.address (writes_of self.old)) ≡ false → length (writes_of self.old) < 4 }
        ensures { Leaves self.new self.old.phase self.old.next (reads_of self.old) (buffered (writes_of self.old) line) }
    {
        if self.is_written(line.address) {
            self.writes.rewrite(line.address, line.value);
        } else {
            self.writes.push(line);
        }
    }
}
