//! A flash, and the plan of the records that it keeps.
use layout::plan::Plan;

/// Records are kept in a flash under a plan: the two, looked at together.
#[derive(Drop)]
pub struct Store<'a, F> {
    pub flash: &'a F,
    pub plan: &'a Plan,
}
