use crate::call_list::{CallList, has_call};
use crate::sink::{Sink, SinkFailed};
use std::alloc::{AllocError, Global};
use std::marker::Model;

/// A sink that keeps what it takes in memory, and of which chosen calls fail.
#[derive(Debug, Drop)]
pub struct MemorySink {
    taken: Vec<u8>,
    piece: u32,
    room: u32,
    failing: CallList,
    calls: u64,
    faults: u64,
}

impl Model for MemorySink {
    ghost use Rattle.std.specs.Prelude.{◌≤◌, length, vec_capacity};
    ghost use Rattle.outer_edge.specs.MemorySink.{Basin};

    ghost Value = { Basin };

    ghost view = { λ sink. record {
      taken = sink.taken.items;
      piece = sink.piece;
      room = sink.room;
      failing = sink.failing;
      calls = sink.calls;
      faults = sink.faults;
    } };

    ghost invariant = { λ sink. record {
      takes_some : 1 ≤ sink.piece;
      within : length sink.taken.items ≤ sink.room;
      holds : sink.room ≤ vec_capacity sink.taken;
    } };
}

impl MemorySink {
    ghost use Rattle.std.specs.Prelude.{◌≡◌, ◌≤◌, IfOk};
    ghost use Rattle.outer_edge.specs.MemorySink.{basin_of};

    /// A sink that takes at most `piece` bytes at a time, and `room` bytes in all, for which it takes
    /// the memory at once. Its calls are numbered from 1, and those listed fail.
    pub fn new(
        alloc: Global,
        piece: u32,
        room: u32,
        failing: CallList,
    ) -> Result<MemorySink, AllocError>
        requires { 1 ≤ piece }
        ensures { IfOk result (λ sink. sink ≡ basin_of piece room failing) }
    {
        Ok(MemorySink {
            taken: Vec::with_capacity(alloc, room as usize)?,
            piece,
            room,
            failing,
            calls: 0,
            faults: 0,
        })
    }

    /// The bytes taken so far.
    pub fn as_slice(&self) -> &[u8]
        ensures { result.now ≡ self.now.taken }
    {
        self.taken.as_slice()
    }
}

impl Sink for MemorySink {
    ghost use Rattle.std.specs.Prelude.{◌≡◌, ◌≤◌, ◌<◌, Some, IfOk, is_err, length};
    ghost use Rattle.outer_edge.specs.MemorySink.{next_piece, write_fails, after_write};

    ghost taken = { λ sink. Some sink.taken };

    ghost faults = { λ sink. sink.faults };

    fn write(&mut self, bytes: &[u8]) -> Result<usize, SinkFailed>
        requires { 0 < length bytes.now }
        ensures err { is_err result ≡ write_fails self.old bytes.now }
        ensures count { IfOk result (λ count. count ≡ length (next_piece self.old bytes.now)) }
        ensures after { self.new ≡ after_write self.old bytes.now }
        ensures some { IfOk result (λ count. 1 ≤ count) }

        // A count at its last value stays there.
        ensures faults_stay { self.old.faults ≤ self.new.faults }
    {
        self.calls = self.calls.saturating_add(1);
        let count = bytes.len().min(self.piece as usize);
        let left = self.room as usize - self.taken.len();
        if has_call(&self.failing, self.calls) || count > left {
            self.faults = self.faults.saturating_add(1);
            return Err(SinkFailed);
        }
        self.taken.extend_from_slice(&bytes[..count]).unwrap();
        Ok(count)
    }
}

#[cfg(test)]
mod tests {
    use super::*;
    use crate::sink::write_all;
    use std::test::Fail;

    #[test]
    fn takes_pieces_within_its_room(rt: HostRuntime) -> Result<(), Fail> {
        let failing = CallList::new(rt.alloc(), &[2])?;
        let mut sink = MemorySink::new(rt.alloc(), 3, 6, failing)?;
        for (text, expected, taken) in [
            ("crude", Ok(3), "cru"),
            ("de", Err(SinkFailed), "cru"),
            ("de", Ok(2), "crude"),
            ("oil", Err(SinkFailed), "crude"),
            ("s", Ok(1), "crudes"),
            (".", Err(SinkFailed), "crudes"),
        ] {
            assert_eq!(rt; text.is_empty(), false);
            assert_eq!(rt; sink.write(text.as_bytes()), expected, "at {text}");
            assert_eq!(rt; sink.as_slice(), taken.as_bytes());
        }
        assert_eq!(rt; (sink.calls, sink.faults), (6, 3));
        Ok(())
    }

    #[test]
    fn a_text_is_written_up_to_the_failing_call(rt: HostRuntime) -> Result<(), Fail> {
        for (piece, fails_at, expected, taken) in [
            (1, 10, Ok(()), "crude oil"),
            (1, 1, Err(SinkFailed), ""),
            (1, 4, Err(SinkFailed), "cru"),
            (4, 3, Err(SinkFailed), "crude oi"),
            (100, 2, Ok(()), "crude oil"),
        ] {
            let failing = CallList::new(rt.alloc(), &[fails_at])?;
            let mut sink = MemorySink::new(rt.alloc(), piece, 100, failing)?;
            assert_eq!(rt; write_all(&mut sink, b""), Ok(()));
            assert_eq!(rt;
                write_all(&mut sink, b"crude oil"),
                expected,
                "at {piece}, {fails_at}"
            );
            assert_eq!(rt; sink.as_slice(), taken.as_bytes());
        }
        Ok(())
    }
}
