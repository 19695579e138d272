//! Lines and scalars of a profile of YAML.
//!
//! `scan` cuts bytes into lines or refuses them at the first place that is no text. A line is read as a
//! `Row`, a list of its characters, and what stands at a character of it is a plain, a quoted or a block
//! scalar. Each call gives exactly what its definition spells, with where it ends, or the exact place of
//! its refusal; only want of memory is left open.
#![tactic(auto)]

mod blank;
mod block_style;
mod escape;
mod laws;
mod lines;
mod plain;
mod quotes;
mod refusal;
mod row;

pub use blank::{blanks, is_blank, is_rest_blank, is_white, spaces, tab_indent};
pub use block_style::{Chomp, block, block_len, block_of_rows};
pub use escape::escaped_char;
pub use laws::{double_quotes_read_back, lines_are_the_text, places_count_characters};
pub use lines::{Line, Lines, scan};
pub use plain::{
    Context, begins_plain, is_colon, is_space_or_end, plain_len, plain_scalar, text_of,
};
pub use quotes::{quoted, quoted_scalar};
pub use refusal::{YamlFault, YamlRefusal};
pub use row::{Row, place_in, row_of, rows_of, text_at};
