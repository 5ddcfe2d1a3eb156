use crate::call_list::{CallList, has_call};
use crate::file_list::FileList;
use crate::shelf::{Shelf, ShelfFault};
use std::alloc::{AllocError, Global};
use std::marker::Model;

/// A shelf of files in memory, of which chosen calls fail.
#[derive(Debug, Drop)]
pub struct MemoryShelf {
    files: FileList,
    failing: CallList,
    calls: u64,
    faults: u64,
    longs: u64,
}

impl Model for MemoryShelf {
    ghost use Rattle.outer_edge.specs.MemoryShelf.{Stock};

    ghost Value = { Stock };

    ghost view = { λ shelf. record {
      files = shelf.files;
      failing = shelf.failing;
      calls = shelf.calls;
      faults = shelf.faults;
      longs = shelf.longs;
    } };
}

impl MemoryShelf {
    ghost use Rattle.std.specs.Prelude.{◌≡◌, IfOk};
    ghost use Rattle.outer_edge.specs.MemoryShelf.{stock_of};

    /// A shelf of these files. Its calls are numbered from 1, and those listed fail.
    pub fn new(
        _alloc: Global,
        files: FileList,
        failing: CallList,
    ) -> Result<MemoryShelf, AllocError>
        ensures { IfOk result (λ shelf. shelf ≡ stock_of files failing) }
    {
        Ok(MemoryShelf {
            files,
            failing,
            calls: 0,
            faults: 0,
            longs: 0,
        })
    }
}

impl Shelf for MemoryShelf {
    ghost use Rattle.std.specs.Prelude.{◌≡◌, ◌≤◌, IfOk, IfErr};
    ghost use Rattle.outer_edge.specs.FileList.{file_named};
    ghost use Rattle.outer_edge.specs.MemoryShelf.{answer_of, after_read, IsFaultOf};

    ghost told = { λ shelf name. file_named shelf.files name };

    ghost faults = { λ shelf _. shelf.faults };

    ghost longs = { λ shelf _ _. shelf.longs };

    fn read(&mut self, alloc: Global, name: &str, limit: u64) -> Result<Vec<u8>, ShelfFault>
        ensures ok { IfOk result (λ bytes. answer_of self.old name.now limit ≡ Ok bytes.items) }
        ensures err { IfErr result (λ fault. IsFaultOf (answer_of self.old name.now limit) fault) }
        ensures after { self.new ≡ after_read self.old (answer_of self.old name.now limit) }

        // A count at its last value stays there.
        ensures faults_stay { self.old.faults ≤ self.new.faults }
        ensures longs_stay { self.old.longs ≤ self.new.longs }
    {
        self.calls = self.calls.saturating_add(1);
        let found = if has_call(&self.failing, self.calls) {
            None
        } else {
            self.files.named(name)
        };
        let Some(file) = found else {
            self.faults = self.faults.saturating_add(1);
            return Err(ShelfFault::Failed);
        };
        if file.len() as u64 > limit {
            self.longs = self.longs.saturating_add(1);
            return Err(ShelfFault::TooLong);
        }
        Vec::from_slice(alloc, file).map_err(|_| ShelfFault::Memory)
    }
}

#[cfg(test)]
mod tests {
    use super::*;
    use std::test::Fail;

    fn shelf_of(alloc: Global, failing: &[u32]) -> Result<MemoryShelf, AllocError> {
        let mut files = FileList::new(alloc);
        files.push("plant", b"crude")?;
        files.push("plan", b"")?;
        files.push("plant", b"given twice")?;
        MemoryShelf::new(alloc, files, CallList::new(alloc, failing)?)
    }

    #[test]
    fn answers_call_by_call(rt: HostRuntime) -> Result<(), Fail> {
        let mut shelf = shelf_of(rt.alloc(), &[2, 4, 4])?;
        for (name, limit, expected) in [
            ("plant", 5, Ok("crude")),
            ("plant", 5, Err(ShelfFault::Failed)),
            ("plant", 4, Err(ShelfFault::TooLong)),
            ("plant", 4, Err(ShelfFault::Failed)),
            ("plan", 0, Ok("")),
            ("plans", 9, Err(ShelfFault::Failed)),
            ("", 9, Err(ShelfFault::Failed)),
            ("plant", u64::MAX, Ok("crude")),
        ] {
            let answer = shelf.read(rt.alloc(), name, limit);
            match (answer, expected) {
                (Ok(bytes), Ok(text)) => assert_eq!(rt; bytes.as_slice(), text.as_bytes()),
                (Ok(_), Err(fault)) => panic!(rt; "{name} was read in place of {fault:?}"),
                (Err(fault), Ok(text)) => panic!(rt;
                    "{name} answered {fault:?} in place of {text}"
                ),
                (Err(fault), Err(due)) => assert_eq!(rt; fault, due, "at {name}, {limit}"),
            }
        }
        assert_eq!(rt; (shelf.calls, shelf.faults, shelf.longs), (8, 4, 1));
        Ok(())
    }
}
