//! What the Docker Engine API v1.43 answers in JSON: the reply that a response's status and body are, for each request. The
//! contract of `reply_of` says that it is exactly the one that `response_rules` defines, and that a body which has another form
//! is refused, as is one of too many values. Of what it reads bodies with it gives out the parts that a stream of lines of JSON is
//! read with: `json_of`, `text_at` and `is_blank`.
#![tactic(auto)]

mod fields;
mod parsing;
mod pulls;
mod replies;
mod reports;
mod rows;
mod values;
mod words;

pub use fields::text_at;
pub use parsing::json_of;
pub use pulls::is_blank;
pub use replies::{ReplyRefusal, reply_of};
