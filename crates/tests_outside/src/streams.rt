//! Streams that are written to.

use outside_files::{OutSink, Sink, SinkAnswer};

#[test]
fn a_stream_is_written_to(rt: HostRuntime) {
    let mut sink = OutSink::new(Vec::new(rt.alloc()));
    assert_eq!(rt; sink.write(b"abc"), SinkAnswer::Took(3));
}
