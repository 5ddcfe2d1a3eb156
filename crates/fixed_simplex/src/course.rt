/// How the simplex goes about its work.
#[derive(Clone, Copy, Debug)]
pub struct Course<'a> {
    /// How many of the rows it looks at, stage by stage: it goes on with more once it has done with fewer.
    pub stages: &'a [usize],
    /// How many pivots it makes at most, in all stages together.
    pub pivots: u32,
    /// A value of the objective that is small enough: it may stop where it has come down to that.
    pub enough: Option<i64>,
}
