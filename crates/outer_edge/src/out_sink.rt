use crate::sink::{Sink, SinkFailed};
use crate::write_some::write_some;
use std::io;
use std::io::Print;

/// The standard output. It tells no content.
#[derive(Drop)]
pub struct OutSink<'a, R> {
    rt: &'a R,
    faults: u64,
}

impl<'a, R: Print> OutSink<'a, R> {
    ghost use Rattle.std.specs.Prelude.{◌≡◌};

    /// The count begins at 0.
    pub fn new(rt: &'a R) -> OutSink<'a, R>
        ensures { ⟦<OutSink<'a, R> as Sink>⟧.faults result ≡ 0 }
    {
        OutSink { rt, faults: 0 }
    }
}

impl<'a, R: Print> Sink for OutSink<'a, R> {
    ghost use Rattle.std.specs.Prelude.{None};

    ghost taken = { λ _. None };

    ghost faults = { λ sink. sink.faults };

    fn write(&mut self, bytes: &[u8]) -> Result<usize, SinkFailed> {
        let Some(count) = write_some(&mut io::writer(self.rt), bytes) else {
            self.faults = self.faults.saturating_add(1);
            return Err(SinkFailed);
        };
        Ok(count)
    }
}

#[cfg(test)]
mod tests {
    use super::*;
    use crate::sink::write_all;
    use std::fmt::Display;
    use std::io::ErrorKind;

    // An output that takes nothing more, or a byte at a time.
    #[derive(Drop)]
    enum Stuck {
        Full,
        Closed,
        Slow,
    }

    impl Print for Stuck {
        fn print<D: Display + Drop>(&self, _value: D) -> io::Result<()> {
            self.write_all(b"")
        }

        fn println<D: Display + Drop>(&self, _value: D) -> io::Result<()> {
            self.write_all(b"")
        }

        fn write_all(&self, _bytes: &[u8]) -> io::Result<()> {
            Err(io::Error::from(ErrorKind::BrokenPipe))
        }

        fn write_some(&self, bytes: &[u8]) -> io::Result<usize> {
            match self {
                Stuck::Full => Ok(0),
                Stuck::Slow => Ok(bytes.len().min(1)),
                Stuck::Closed => {
                    self.write_all(bytes)?;
                    Ok(bytes.len())
                }
            }
        }
    }

    #[test]
    fn writes_to_the_standard_output(rt: HostRuntime) {
        let mut sink = OutSink::new(&rt);
        assert_eq!(rt; sink.write(b"crude "), Ok(6));
        assert_eq!(rt; write_all(&mut sink, b"oil\n"), Ok(()));
        assert_eq!(rt; sink.faults, 0);
    }

    #[test]
    fn counts_what_is_not_taken(rt: HostRuntime) {
        for output in [Stuck::Full, Stuck::Closed] {
            let mut sink = OutSink::new(&output);
            assert_eq!(rt; sink.write(b"crude"), Err(SinkFailed));
            assert_eq!(rt; write_all(&mut sink, b"oil"), Err(SinkFailed));
            assert_eq!(rt; sink.faults, 2);
        }
    }

    // No clause says of the standard output which bytes it took.
    #[test]
    fn tells_how_many_were_taken(rt: HostRuntime) {
        let mut sink = OutSink::new(&Stuck::Slow);
        assert_eq!(rt; sink.write(b"crude"), Ok(1));
        assert_eq!(rt; sink.faults, 0);
    }
}
