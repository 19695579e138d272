//! Laws, which run nothing.

use event_watch::{bad_lines_stay, empty_object_is_bad, events_are_told, events_stay};
use log_frames::{
    entries_give_the_lines, lines_join_to_their_bytes, parts_are_the_frames, parts_give_the_lines,
    reply_is_read_one_way, sent_frames_are_read,
};

#[test]
fn laws_run_nothing() {
    sent_frames_are_read();
    reply_is_read_one_way();
    lines_join_to_their_bytes();
    parts_give_the_lines();
    entries_give_the_lines();
    parts_are_the_frames();
    bad_lines_stay();
    events_stay();
    empty_object_is_bad();
    events_are_told();
}
