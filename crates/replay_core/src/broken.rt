/// A rule that a plan breaks, and where: for rules 1 to 11 the place of the operation in the plan,
/// from 1 on; for rules 12 to 14 the number of the vessel, tank or unit.
#[derive(Clone, Copy, Debug, PartialEq, Eq)]
pub struct Broken {
    pub rule: u8,
    pub at: u32,
}
