ghost use Rattle.std.specs.Prelude.{◌≤◌, IfOk, vec_len};

use crate::read_rest::read_rest;
use crate::shelf::{Shelf, ShelfFault};
use std::alloc::Global;
use std::fs::File;
use std::rt::Files;

/// The files of the system, by their paths. It tells no content, and a fault of any name raises the
/// count of every name.
#[derive(Drop)]
pub struct DirShelf<'a, R> {
    rt: &'a R,
    faults: u64,
    longs: u64,
}

impl<'a, R: Files> DirShelf<'a, R> {
    ghost use Rattle.std.specs.Prelude.{◌≡◌, ℕ, List};

    /// Both counts begin at 0.
    pub fn new(rt: &'a R) -> DirShelf<'a, R>
        ensures faults { (name : List ℕ) → ⟦<DirShelf<'a, R> as Shelf>⟧.faults result name ≡ 0 }
        ensures longs { (name : List ℕ) (limit : ℕ) → ⟦<DirShelf<'a, R> as Shelf>⟧.longs result name limit ≡ 0 }
    {
        DirShelf {
            rt,
            faults: 0,
            longs: 0,
        }
    }
}

impl<'a, R: Files> Shelf for DirShelf<'a, R> {
    ghost use Rattle.std.specs.Prelude.{None};

    ghost told = { λ _ _. None };

    ghost faults = { λ shelf _. shelf.faults };

    ghost longs = { λ shelf _ _. shelf.longs };

    fn read(&mut self, alloc: Global, name: &str, limit: u64) -> Result<Vec<u8>, ShelfFault> {
        let answer = read_file(self.rt, alloc, name, limit);
        match answer {
            Err(ShelfFault::Failed) => self.faults = self.faults.saturating_add(1),
            Err(ShelfFault::TooLong) => self.longs = self.longs.saturating_add(1),
            Err(ShelfFault::Memory) | Ok(_) => {}
        }
        answer
    }
}

fn read_file<R: Files>(rt: &R, alloc: Global, name: &str, limit: u64) -> Result<Vec<u8>, ShelfFault>
    ensures { IfOk result (λ bytes. vec_len bytes ≤ limit) }
{
    let Ok(mut file) = File::open(rt, name) else {
        return Err(ShelfFault::Failed);
    };
    read_rest(&mut file, alloc, limit)
}

#[cfg(test)]
mod tests {
    use super::*;
    use crate::read_rest::BUFFER_LEN;
    use std::fs;
    use std::test::Fail;

    #[test]
    fn reads_back_what_was_written(rt: HostRuntime) -> Result<(), Fail> {
        let name = "outer_edge_dir_shelf.tmp";
        let text = [b'c'; 3 * BUFFER_LEN + 5];
        fs::write(&rt, name, text.as_slice())?;
        let mut shelf = DirShelf::new(&rt);
        let len = text.len() as u64;
        for limit in [len, len + 1, u64::MAX] {
            let bytes = shelf.read(rt.alloc(), name, limit);
            assert!(rt;
                bytes.is_ok_and(|bytes| bytes.as_slice() == text.as_slice()),
                "at {limit}"
            );
        }
        assert_eq!(rt; (shelf.faults, shelf.longs), (0, 0));
        for limit in [0, BUFFER_LEN as u64, len - 1] {
            let answer = shelf.read(rt.alloc(), name, limit);
            assert_eq!(rt; answer.err(), Some(ShelfFault::TooLong), "at {limit}");
        }
        fs::remove_file(&rt, name)?;
        let answer = shelf.read(rt.alloc(), name, len);
        assert_eq!(rt; answer.err(), Some(ShelfFault::Failed));
        assert_eq!(rt; (shelf.faults, shelf.longs), (1, 3));
        Ok(())
    }
}
