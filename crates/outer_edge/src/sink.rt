ghost use Rattle.std.specs.Prelude.{◌≡◌, ◌≤◌, ◌<◌, ℕ, List, [], Option, IfOk, IsOk, OnOk, OnErr, take, length};
ghost use Rattle.outer_edge.specs.Rose.{Rose};
ghost use Rattle.outer_edge.specs.Takes.{Takes, TakesPart};

/// The sink could not take the bytes.
#[derive(Clone, Copy, Debug, PartialEq, Eq)]
pub struct SinkFailed;

/// Where text is written.
pub trait Sink {
    /// The bytes taken so far, where the sink tells them.
    ghost taken: { Self → Option (List ℕ) };

    /// How often a write failed.
    ghost faults: { Self → ℕ };

    /// Takes the first of the bytes, one at least, and answers how many; or fails, and takes none.
    fn write(&mut self, bytes: &[u8]) -> Result<usize, SinkFailed>
        requires { 0 < length bytes.now }
        ensures some { IfOk result (λ count. 1 ≤ count) }
        ensures within { IfOk result (λ count. count ≤ length bytes.now) }
        ensures takes { IfOk result (λ count. Takes (taken self.old) (taken self.new) (take count bytes.now)) }
        ensures takes_none { OnErr result (Takes (taken self.old) (taken self.new) []) }
        ensures failed { OnErr result (Rose (faults self.old) (faults self.new)) }
        ensures no_failure_hidden { OnOk result (faults self.new ≡ faults self.old) }
        ensures faults_stay { faults self.old ≤ faults self.new };
}

/// Writes the whole text, piece by piece, or a first part of it up to a failure.
pub fn write_all<K: Sink>(out: &mut K, text: &[u8]) -> Result<(), SinkFailed>
    ensures whole { OnOk result (Takes (K.taken out.old) (K.taken out.new) text.now) }
    ensures part { OnErr result (TakesPart (K.taken out.old) (K.taken out.new) text.now) }
    ensures failed { OnErr result (Rose (K.faults out.old) (K.faults out.new)) }
    ensures no_failure_hidden { OnOk result (K.faults out.new ≡ K.faults out.old) }
    ensures faults_stay { K.faults out.old ≤ K.faults out.new }

    // With nothing to write it calls nothing.
    ensures empty { text.now ≡ [] → IsOk result }
    ensures untouched { text.now ≡ [] → out.new ≡ out.old }
{
    let mut done = 0;
    while done < text.len() {
        done += out.write(&text[done..])?;
    }
    Ok(())
}
