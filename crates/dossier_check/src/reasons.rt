//! The numbers of the reasons for which a dossier is not accepted, as they are told.

/// A line has not its form.
pub(crate) const FORM: u8 = 1;
/// A line names too many of something.
pub(crate) const TOO_MANY: u8 = 2;
/// There are no slots, or too many.
pub(crate) const SLOTS: u8 = 3;
/// A ticket is none of those that there are, or is held before.
pub(crate) const TICKET: u8 = 4;
/// No node before gives the node its box.
pub(crate) const PARENT: u8 = 5;
/// A split does not divide its box.
pub(crate) const SPLIT: u8 = 6;
/// A node is not shown to be dead.
pub(crate) const DEAD: u8 = 7;
/// A box has more than one point.
pub(crate) const POINT: u8 = 8;
/// A denominator or a multiplier is outside its limits.
pub(crate) const LIMITS: u8 = 9;
/// The plant has no such row.
pub(crate) const ROW: u8 = 10;
/// The dossier has no such cut.
pub(crate) const CUT: u8 = 11;
/// A cut is not valid.
pub(crate) const INVALID_CUT: u8 = 12;
/// The cut has no such row.
pub(crate) const CUT_ROW: u8 = 13;
/// A box is not shown to have no plan.
pub(crate) const VOID: u8 = 14;
/// The bound is not the greatest value of a leaf.
pub(crate) const BOUND: u8 = 15;
/// What is given does not fit the answer.
pub(crate) const ANSWER: u8 = 16;
/// The plan is too long, or breaks a rule.
pub(crate) const PLAN: u8 = 17;
/// The margin is not what the plan earns.
pub(crate) const MARGIN: u8 = 18;
