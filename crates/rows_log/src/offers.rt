//! The pending area, asked line by line, and its rows.

use pl_pending::Pending;
use std::alloc::Global;
use transcripts::answer::push_word;
use transcripts::block_text::{block_of, push_block};
use transcripts::transcript::{Stop, Subject, plays};

/// The pending area of a transcript.
#[derive(Drop)]
struct Area {
    alloc: Global,
    pending: Pending,
}

impl Subject for Area {
    fn new(alloc: Global) -> Area {
        Area {
            alloc,
            pending: Pending::new(alloc),
        }
    }

    fn answer(
        &mut self,
        words: &[&str],
        out: &mut String,
        _refused: &mut bool,
    ) -> Result<(), Stop> {
        match words {
            ["put", block] => {
                self.pending.put(block_of(self.alloc, block)?)?;
                push_word(out, "Ok")
            }
            ["get", lsn] => match self.pending.get(lsn.parse()?) {
                Some(block) => push_block(out, block),
                None => push_word(out, "none"),
            },
            ["take", lsn] => match self.pending.take(lsn.parse()?) {
                Some(block) => push_block(out, &block),
                None => push_word(out, "none"),
            },
            ["clear"] => {
                self.pending.clear();
                push_word(out, "Ok")
            }
            _ => Err(Stop::Unread),
        }
    }
}

const OFFERED_BLOCKS_ARE_FOUND_BY_LSN: &str = "\
get 7       = none
put 7:aa    = Ok
put 3:bb    = Ok
put 9:      = Ok
get 7       = 7:aa
get 3       = 3:bb
get 8       = none
# A later block of an LSN takes the place of the earlier one.
put 3:cc    = Ok
get 3       = 3:cc
take 7      = 7:aa
take 7      = none
get 9       = 9:
get 3       = 3:cc
clear       = Ok
get 3       = none
get 9       = none
put 3:dd    = Ok
get 3       = 3:dd
";

#[test]
fn offered_blocks_are_found_by_lsn(rt: HostRuntime) {
    assert!(rt; plays::<Area>(&rt, OFFERED_BLOCKS_ARE_FOUND_BY_LSN));
}
