/// What an ask is answered, before its request is made.
#[derive(Clone, Copy, PartialEq, Eq)]
pub(crate) enum Step {
    Full,
    Go,
    Take(u32),
    Look(u32),
    Pause,
}
