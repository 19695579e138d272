/// What the options of a run bound: whether it waits for goals, after how many seconds it is late, and how many seconds a stop
/// waits in place of what each slot says.
#[derive(Debug, Clone, Copy, PartialEq, Eq)]
pub struct RunOptions {
    pub wait: bool,
    pub wait_seconds: Option<u32>,
    pub stop_seconds: Option<u32>,
}
