ghost use Rattle.std.specs.Prelude.{◌≡◌, ℕ, ◌+◌, ◌*◌, ◌^◌, ◌<◌, ◌≤◌, MatchOption, IsBitSet, ◌↔◌};
ghost use Rattle.slot_box.specs.Slots.{size_of, operations_of, has_zeros, live_of, IsLive, IsFixedTo, fixed_of, ways_of, IsSlot};

/// The bit of idle in a set of entries.
pub const IDLE: u64 = 1 << 63;

/// The whole numbers from `lo` to `hi`, both among them.
#[derive(Clone, Copy, Debug, PartialEq, Eq)]
pub struct Span {
    pub lo: u32,
    pub hi: u32,
}

/// What a box allows in one slot.
#[derive(Clone, Copy, Debug, PartialEq, Eq)]
pub struct Slot {
    /// The set of entries: bit `v` for operation `v`, bit 63 for idle.
    pub ops: u64,
    /// In volume units.
    pub volume: Span,
    /// In minutes, as `end`.
    pub start: Span,
    pub end: Span,
}

impl Span {
    fn size(self) -> u128
        requires { self.lo ≤ self.hi }
        ensures value { result ≡ size_of self }
        ensures most { result ≤ 2 ^ 32 }
    {
        u128::from(self.hi - self.lo) + 1
    }
}

impl Slot {
    pub(crate) fn operations(self) -> u64
        ensures { result ≡ operations_of self }
    {
        self.ops & !IDLE
    }

    pub(crate) fn has_zeros(self) -> bool
        ensures { result ≡ has_zeros self }
    {
        self.volume.lo == 0 && self.start.lo == 0 && self.end.lo == 0
    }

    pub(crate) fn live(self) -> u64
        ensures { result ≡ live_of self }
    {
        if self.has_zeros() {
            self.ops
        } else {
            self.operations()
        }
    }

    pub(crate) fn fixed(self) -> Option<u8>
        ensures { result ≡ fixed_of self }
    {
        let live = self.live();
        if live.is_power_of_two() && live < IDLE {
            Some(live.trailing_zeros() as u8)
        } else {
            None
        }
    }

    /// In how many ways the slot can be filled.
    pub(crate) fn ways(self) -> u128
        requires { IsSlot self }
        ensures value { result ≡ ways_of self }
    {
        let runs = u128::from(self.operations().count_ones())
            * self.volume.size()
            * self.start.size()
            * self.end.size();
        if self.live() >= IDLE { runs + 1 } else { runs }
    }
}
