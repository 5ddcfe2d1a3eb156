// Sets of at most 64 operations as masks.
ghost use Rattle.std.specs.Prelude.{◌≡◌, ◌-◌, ◌^◌, ◌<◌, ◌↔◌, IsTrue, IsBitSet};

pub(crate) fn contains(mask: u64, op: u8) -> bool
    requires { op < 64 }
    ensures { IsTrue result ↔ IsBitSet mask op }
{
    mask & (1 << op) != 0
}

/// All operations less than this one.
pub(crate) fn below(op: u8) -> u64
    requires { op < 64 }
    ensures { result ≡ 2 ^ op - 1 }
{
    (1 << op) - 1
}
