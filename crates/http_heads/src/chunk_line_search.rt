ghost use Rattle.std.specs.Prelude.{◌≡◌, [], ◌≤◌, length};
ghost use Rattle.response_rules.specs.Lines.{before_line_feed, chunk_line_part};
ghost use Rattle.http_heads.specs.Feeds.{HasNoFeed};
ghost use Rattle.http_heads.specs.Searches.{part_told};

use crate::line_search::SearchAnswer;
use tree_base::limits::MOST_HEAD_BYTES;

/// A search for the line feed that ends a chunk line (RFC 9112, section 7.1). Each byte is looked at once, however the
/// bytes are cut.
#[derive(Drop)]
pub struct ChunkLineSearch {
    /// How many bytes were looked at.
    at: usize,
}

impl ChunkLineSearch {
    /// A search that looked at nothing yet. No memory.
    pub fn new() -> ChunkLineSearch
        ensures { HasNoFeed result [] }
    {
        ChunkLineSearch { at: 0 }
    }

    /// The chunk line that the bytes begin with, at most 65,536 bytes. The bytes begin with those of the call before. No
    /// memory.
    pub fn part(&mut self, bytes: &[u8]) -> SearchAnswer
        requires { HasNoFeed self.old bytes.now }
        ensures exact { part_told result ≡ chunk_line_part bytes.now }
        ensures followed { result ≡ SearchAnswer.Unfinished → HasNoFeed self.new bytes.now }
    {
        self.follow(bytes);
        if self.at < bytes.len() && self.at < MOST_HEAD_BYTES {
            SearchAnswer::Ends(self.at + 1)
        } else if bytes.len() > MOST_HEAD_BYTES {
            SearchAnswer::Passed
        } else {
            SearchAnswer::Unfinished
        }
    }

    /// Looks at the next bytes up to the line feed.
    fn follow(&mut self, bytes: &[u8])
        requires { HasNoFeed self.old bytes.now }
        ensures at { self.new.at ≡ before_line_feed bytes.now }
        ensures within { self.new.at ≤ length bytes.now }
    {
        let mut at = self.at;
        while at < bytes.len() {
            if bytes[at] == b'\n' {
                self.at = at;
                return;
            }
            at += 1;
        }
        self.at = at;
    }
}
