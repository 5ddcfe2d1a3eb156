use std::alloc::{AllocError, Global};

/// Why a read gave no bytes.
#[derive(Clone, Copy, Debug, PartialEq, Eq)]
pub enum ShelfFault {
    /// The file could not be read.
    Failed,
    /// The file has more bytes than the reader would take.
    TooLong,
    /// No memory for the bytes.
    Memory,
}

/// Where files are read by name.
pub trait Shelf {
    ghost use Rattle.std.specs.Prelude.{◌≡◌, ◌≤◌, ◌<◌, ℕ, List, Option, IfOk, IfSome, length, vec_len};
    ghost use Rattle.outer_edge.specs.Rose.{Rose};
    ghost use Rattle.outer_edge.specs.ShelfFault.{OnFailed, OnTooLong, UnlessFailed, UnlessTooLong};

    /// The bytes of the file of a name, where the shelf tells them.
    ghost told: { Self → List ℕ → Option (List ℕ) };

    /// How often reads of a name failed.
    ghost faults: { Self → List ℕ → ℕ };

    /// How often the file of a name was longer than a limit.
    ghost longs: { Self → List ℕ → ℕ → ℕ };

    /// Reads the whole file of the name, if it has at most `limit` bytes.
    fn read(&mut self, alloc: Global, name: &str, limit: u64) -> Result<Vec<u8>, ShelfFault>
        ensures within { IfOk result (λ bytes. vec_len bytes ≤ limit) }
        ensures bytes { IfOk result (λ bytes. IfSome (told self.old name.now) (λ file. bytes.items ≡ file)) }

        // Each named fault shows in a count, of that very name and limit. Want of memory shows nowhere.
        ensures failed { OnFailed result (Rose (faults self.old name.now) (faults self.new name.now)) }
        ensures too_long { OnTooLong result (Rose (longs self.old name.now limit) (longs self.new name.now limit)) }
        ensures longer { OnTooLong result (IfSome (told self.old name.now) (λ file. limit < length file)) }

        // And no fault is hidden: where the answer is another, the counts of every name are as they were.
        ensures no_failure_hidden { (other : List ℕ) →
            UnlessFailed result (faults self.new other ≡ faults self.old other) }
        ensures no_length_hidden { (other : List ℕ) (most : ℕ) →
            UnlessTooLong result (longs self.new other most ≡ longs self.old other most) }

        // Whatever the answer, what is told of any name stays, and no count falls.
        ensures told_stays { told self.new ≡ told self.old }
        ensures faults_stay { (other : List ℕ) → faults self.old other ≤ faults self.new other }
        ensures longs_stay { (other : List ℕ) (most : ℕ) → longs self.old other most ≤ longs self.new other most };
}
