/// The number of a command's plant file.
pub(crate) const PLANT_FILE: u64 = 1;
/// The number of its second file, a dossier or a plan.
pub(crate) const SECOND_FILE: u64 = 2;
