//! Trails that are of an audit list.

use crate::trails::Trails;
use transcripts::transcript::plays;

const WHOLE_LISTS: &str = "\
# no request was asked
trail start 2 65536 = Agrees 0 0
# a block is written, hardened and pulled; each operation that brings nothing
trail start 2 65536 1/1/2/primary/1/write/1/0/allowed+1:aa 2/1/2/primary/1/write/1/1/allowed+1:aa \
3/1/2/primary/1/report/1/0/allowed 4/7/3/secondary/1/pull/1/65535/allowed \
5/1/2/primary/1/get/1/0/allowed 6/1/1/operator/1/audit/1/10/allowed 7/1/1/operator/1/status/0/0/allowed \
8/1/1/operator/1/tidy/0/0/allowed 9/2/4/page_server/1/advance/0/16/allowed = Agrees 0 1
# denials of each section, with the blocks that they were for
trail start 2 65536 1/1/2/primary/1/offer/1/0/allowed+1:aa 2/1/2/primary/1/write/1/0/C4:0+1:bb \
3/1/2/primary/1/report/1/0/C6:0 4/3/3/secondary/1/get/0/458752/B3:0 5/3/3/secondary/1/tidy/0/0/A5:0 \
6/1/2/primary/1/write/66/0/C3:0+66: 7/1/2/primary/2/write/1/0/A3:1+1:aa = Agrees 0 0
# six copies from the next epoch on
trail start 2 65536 1/1/1/operator/1/set_table/683/0/allowed+six_copies \
2/1/2/primary/1/write/1/3/C5:0+1:aa 3/1/1/operator/1/failover/2/0/allowed \
4/1/2/primary/2/write/1/5/allowed+1:aa 5/1/2/primary/2/write/1/6/C5:0+1:aa = Agrees 0 0
# a principal has another token after the second line
trail start 2 65536 1/1/3/secondary/1/status/0/0/allowed 2/1/1/operator/1/set_table/279/0/allowed+another_token \
3/1/3/secondary/1/status/0/0/allowed = Agrees 0 0
";

#[test]
fn whole_lists(rt: HostRuntime) {
    assert!(rt; plays::<Trails>(&rt, WHOLE_LISTS));
}

const LISTS_WITH_BLOCKS_LEFT_OUT: &str = "\
# the writes of a primary whose epoch is over, and of one that was none
trail start 2 65536 1/1/2/primary/1/write/1/0/allowed+1:aa 2/1/2/primary/1/write/1/1/allowed+1:aa \
3/1/1/operator/1/failover/5/0/allowed 4/1/2/primary/1/write/2/0/A2:2 5/1/2/primary/2/write/2/0/A4:0 \
6/2/5/primary/2/write/2/0/allowed+2:bb 7/2/5/primary/2/report/2/0/C6:1 = Agrees 2 1
# a write that the failover annulled
trail start 2 65536 1/1/2/primary/1/write/2/0/allowed 2/1/1/operator/1/failover/5/0/allowed \
3/2/5/primary/2/write/1/0/allowed+1:aa = Agrees 1 0
# a write that a row denies by its partition, and an offer that is denied by its block
trail start 2 65536 1/1/1/operator/1/set_table/508/0/allowed+denies_writes 2/1/2/primary/1/write/1/0/B1:0 \
3/1/2/primary/1/offer/1/0/allowed+1:aa 4/1/2/primary/1/offer/1/0/C4:0 = Agrees 2 0
# the same with the block of the write, and of a table that was denied the text
trail start 2 65536 1/1/1/operator/1/set_table/508/0/allowed+denies_writes \
2/1/2/primary/1/write/1/0/B1:0+1:aa@131072 3/1/1/operator/1/set_table/1/0/C7:1 = Agrees 1 0
# a stand-in is denied above hardened blocks, too
trail start 2 65536 1/1/2/primary/1/write/1/0/allowed+1:aa 2/1/2/primary/1/write/1/1/allowed+1:aa \
3/1/2/primary/1/report/1/0/allowed 4/1/2/primary/1/write/2/0/allowed 5/1/2/primary/1/write/2/1/C4:0 = Agrees 2 1
";

#[test]
fn lists_with_blocks_left_out(rt: HostRuntime) {
    assert!(rt; plays::<Trails>(&rt, LISTS_WITH_BLOCKS_LEFT_OUT));
}
