ghost use Rattle.std.specs.Prelude.{◌≡◌, ◌^◌, ◌<◌};
ghost use Rattle.overlap_graph.specs.Sets.{with_member, is_within};

/// The set with one more member.
pub(crate) fn with_member(set: u64, v: u8) -> u64
    requires { v < 64 }
    ensures { result ≡ with_member set v }
{
    set | (1 << v)
}

/// Whether each member of the first is one of the second.
pub(crate) fn is_within(set: u64, other: u64) -> bool
    ensures { result ≡ is_within set other }
{
    set & other == set
}
