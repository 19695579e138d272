//! Laws, which run nothing.

use compose_config::{
    empty_projects_have_two_lines, pages_have_their_lines, plain_pages_are_files,
};

#[test]
fn laws_run_nothing() {
    pages_have_their_lines();
    empty_projects_have_two_lines();
    plain_pages_are_files();
}
