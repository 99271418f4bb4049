//! Trails that differ, each at its line.

use crate::trails::Trails;
use transcripts::transcript::plays;

const LINES_THAT_NO_REQUEST_HAS: &str = "\
# another number than the next
trail start 2 65536 2/1/1/operator/1/status/0/0/allowed = Differs 1
trail start 2 65536 0/1/1/operator/1/status/0/0/allowed = Differs 1
trail start 2 65536 1/1/1/operator/1/status/0/0/allowed 1/1/1/operator/1/status/0/0/allowed = Differs 2
# a principal that is not listed
trail start 2 65536 1/1/9/operator/1/status/0/0/allowed = Differs 1
trail start 2 65536 1/1/9/primary/1/write/1/0/A4:0 = Differs 1
# numbers out of their ranges
trail start 2 65536 1/1/2/primary/1/report/281474976710657/0/C6:0 = Differs 1
trail start 2 65536 1/1/2/primary/1/write/1/256/C5:0+1:aa = Differs 1
trail start 2 65536 1/1/2/primary/1/get/0/4294967296/allowed = Differs 1
trail start 2 65536 1/1/3/secondary/1/pull/1/65536/C1:0 = Differs 1
trail start 2 65536 1/1/4/page_server/1/advance/0/0/allowed = Differs 1
trail start 2 65536 1/1/1/operator/1/audit/0/1/allowed = Differs 1
trail start 2 65536 1/1/1/operator/1/status/1/0/allowed = Differs 1
# a block of another LSN, a block or a text of another operation, a text of another length
trail start 2 65536 1/1/2/primary/1/write/2/0/allowed+1:aa = Differs 1
trail start 2 65536 1/1/1/operator/1/status/0/0/allowed+1:aa = Differs 1
trail start 2 65536 1/1/2/primary/1/write/1/0/allowed+x = Differs 1
trail start 2 65536 1/1/1/operator/1/set_table/2/0/C7:1+x = Differs 1
# more entries than the list may have
trail start 2 2 1/1/1/operator/1/status/0/0/allowed 2/1/1/operator/1/status/0/0/allowed \
3/1/1/operator/1/status/0/0/allowed = Differs 3
# a primary that the table does not list
trail start 9 65536 1/1/1/operator/1/status/0/0/allowed = NotListed
";

#[test]
fn lines_that_no_request_has(rt: HostRuntime) {
    assert!(rt; plays::<Trails>(&rt, LINES_THAT_NO_REQUEST_HAS));
}

const OTHER_VERDICTS: &str = "\
# denied, and no row denies it; allowed, and a row does
trail start 2 65536 1/1/1/operator/1/status/0/0/B0:0 = Differs 1
trail start 2 65536 1/3/3/secondary/1/get/0/458752/allowed = Differs 1
trail start 2 65536 1/1/2/primary/1/write/1/0/allowed+1:aa 2/1/2/primary/1/report/1/0/allowed = Differs 2
trail start 2 65536 1/1/2/primary/1/write/1/0/allowed+1:aa 2/1/2/primary/1/write/1/1/allowed+1:bb = Differs 2
# another value, and another row
trail start 2 65536 1/1/2/primary/1/report/1/0/C6:1 = Differs 1
trail start 2 65536 1/1/2/primary/1/write/66/0/C2:0+66: = Differs 1
# an epoch that is over
trail start 2 65536 1/1/1/operator/1/failover/5/0/allowed 2/1/1/operator/1/status/0/0/allowed = Differs 2
# a table that is no more in force
trail start 2 65536 1/1/1/operator/1/set_table/508/0/allowed+denies_writes \
2/1/2/primary/1/write/1/0/allowed+1:aa@131072 = Differs 2
trail start 2 65536 1/1/1/operator/1/set_table/508/0/allowed+denies_writes 2/1/5/primary/1/status/0/0/A4:0 \
3/1/4/page_server/1/status/0/0/allowed = Differs 3
# blocks that are left out: who may write is asked all the same
trail start 2 65536 1/1/1/operator/1/failover/5/0/allowed 2/1/2/primary/1/write/1/0/A2:3 = Differs 2
trail start 2 65536 1/1/3/secondary/1/write/1/0/allowed = Differs 1
trail start 2 65536 1/1/2/primary/1/write/1/0/A4:0 = Differs 1
# a hardened block is left out, so that nothing can be hardened
trail start 2 65536 1/1/2/primary/1/write/1/0/allowed 2/1/2/primary/1/write/1/1/allowed+1:aa \
3/1/2/primary/1/report/1/0/allowed = Differs 3
";

#[test]
fn other_verdicts(rt: HostRuntime) {
    assert!(rt; plays::<Trails>(&rt, OTHER_VERDICTS));
}
