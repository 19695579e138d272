use tree_base::Env;

/// The variables that lines of an env file gave, and how many bytes all values have that these lines gave.
#[derive(Drop)]
pub struct Given {
    pub env: Env,
    pub size: usize,
}
