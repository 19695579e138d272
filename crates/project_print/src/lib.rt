//! How pages are printed, as YAML and as compact JSON.
//!
//! A `Node` is what a page shows. The contracts say its text exactly, by definitions on the node: `node_page`
//! gives its lines with the words quoted where they have to be, `node_page_json` the same as JSON. A page can also be
//! put together of parts, without a node of the whole: `put_key`, and `put_node` or `put_text` below it. A law says that each
//! word of a page reads back, by the profile of YAML, as the text that it stands for.
#![tactic(auto)]

mod block_layout;
mod compact_json;
mod laws;
mod node;
mod scalar;

pub use block_layout::{deeper, node_page, put_gap, put_key, put_node, put_text};
pub use compact_json::{Dollars, json_text, node_page_json};
pub use laws::{dollars_read_back, scalars_read_back};
pub use node::Node;
