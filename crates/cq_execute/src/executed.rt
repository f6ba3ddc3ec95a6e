// What the execution of a goal comes to.

use cq_machine::Step;

/// What the execution of a goal comes to, and the text that it shows, which is empty for most.
#[derive(Drop)]
pub struct Executed {
    pub step: Step,
    pub output: Vec<u8>,
}
