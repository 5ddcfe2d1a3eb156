use std::marker::Sync;

/// Who holds back a worker before it draws a ticket.
pub trait Gate: Sync {
    /// Called by the worker of that number before each ticket, with how many it has drawn so far. It
    /// may take its time, but it returns.
    fn ticket(&self, worker: u32, drawn: u32);
}

/// Holds nobody back.
#[derive(Clone, Copy, Debug)]
pub struct FreeGate;

impl Gate for FreeGate {
    fn ticket(&self, _worker: u32, _drawn: u32) {}
}

#[cfg(test)]
mod tests {
    use super::*;

    #[test]
    fn a_free_gate_lets_pass(_rt: HostRuntime) {
        FreeGate.ticket(0, 7);
    }
}
