//! The worked rows of one database.
//!
//! Each begins with the start table. 1 asks as operator, 2 and 5 as primary, 3 as secondary and 4 as
//! page server.

use crate::database::Database;
use transcripts::transcript::plays;

const WRITE_HARDEN_PULL: &str = "\
open start 2 65536                 = Ok
2 22 primary 1 write 1:aa 0        = Done
2 22 primary 1 write 1:aa 1        = Done
2 22 primary 1 report 1            = Done
3 33 secondary 1 pull 0 65535 1 16 = Blocks 2 1:aa
audit                              = 4
hard                               = 1
epochs                             = 1 2
log                                = 1 3 0 1
";

#[test]
fn write_harden_pull(rt: HostRuntime) {
    assert!(rt; plays::<Database>(&rt, WRITE_HARDEN_PULL));
}

// The bytes of `write_harden_pull`: the bodies of its requests, and after `=` those of the replies.
const STORED_RUN: &str = "\
open start 2 65536 = Ok
bytes 00000002 22222222222222222222222222222222 01 00000000 00000001 01 \
00 0000000000000001 0001 0000 0001 01 00000000 0000 0001 aa \
= 00
bytes 00000002 22222222222222222222222222222222 01 00000000 00000001 01 \
01 0000000000000001 0001 0000 0001 01 00000000 0000 0001 aa \
= 00
bytes 00000002 22222222222222222222222222222222 01 00000000 00000001 03 0000000000000001 \
= 00
bytes 00000003 33333333333333333333333333333333 02 00000000 00000001 05 \
0000 ffff 0000000000000001 0010 \
= 0100000000000000020001000000180000000000000001000100000001010000000000000001aa
";

#[test]
fn stored_run(rt: HostRuntime) {
    assert!(rt; plays::<Database>(&rt, STORED_RUN));
}

const PULL_FROM_EMPTY_LOG: &str = "\
open start 2 65536                 = Ok
3 33 secondary 1 pull 0 65535 1 16 = Denied C1 0
audit                              = 1
";

#[test]
fn pull_from_empty_log(rt: HostRuntime) {
    assert!(rt; plays::<Database>(&rt, PULL_FROM_EMPTY_LOG));
}

const REPORT_BELOW_QUORUM: &str = "\
open start 2 65536          = Ok
2 22 primary 1 write 1:aa 0 = Done
2 22 primary 1 report 1     = Denied C6 0
hard                        = 0
";

#[test]
fn report_below_quorum(rt: HostRuntime) {
    assert!(rt; plays::<Database>(&rt, REPORT_BELOW_QUORUM));
}

const BLOCKS_IN_ANY_ORDER: &str = "\
open start 2 65536          = Ok
2 22 primary 1 write 2:bb 0 = Done
2 22 primary 1 write 2:bb 1 = Done
2 22 primary 1 write 1:aa 0 = Done
2 22 primary 1 write 1:aa 1 = Done
2 22 primary 1 report 2     = Done
2 22 primary 1 status       = Status 1 2 2 0 2
hard                        = 2
";

#[test]
fn blocks_in_any_order(rt: HostRuntime) {
    assert!(rt; plays::<Database>(&rt, BLOCKS_IN_ANY_ORDER));
}

const WINDOW_OF_SIXTY_FOUR: &str = "\
open start 2 65536           = Ok
2 22 primary 1 write 64:aa 0 = Done
2 22 primary 1 write 65:aa 0 = Denied C3 0
";

#[test]
fn window_of_sixty_four(rt: HostRuntime) {
    assert!(rt; plays::<Database>(&rt, WINDOW_OF_SIXTY_FOUR));
}

const CONTENT_IS_FIXED: &str = "\
open start 2 65536          = Ok
2 22 primary 1 write 1:aa 0 = Done
2 22 primary 1 write 1:aa 0 = Done
2 22 primary 1 write 1:ab 0 = Denied C4 0
2 22 primary 1 write 1:aa 3 = Denied C5 0
";

#[test]
fn content_is_fixed(rt: HostRuntime) {
    assert!(rt; plays::<Database>(&rt, CONTENT_IS_FIXED));
}

const TOKEN_THEN_EPOCH: &str = "\
open start 2 65536    = Ok
2 11 primary 1 status = Denied A1 0
2 11 primary 0 status = Denied A1 0
9 99 primary 1 status = Denied A1 0
# An unknown principal makes no entry.
audit                 = 0
2 22 primary 0 status = Denied A2 1
audit                 = 1
2 22 primary 2 status = Denied A3 1
audit                 = 2
";

#[test]
fn token_then_epoch(rt: HostRuntime) {
    assert!(rt; plays::<Database>(&rt, TOKEN_THEN_EPOCH));
}

const NO_ROW_MATCHES: &str = "\
open start 2 65536               = Ok
4 44 page_server 1 pull 4 4 1 16 = Denied B0 0
";

#[test]
fn no_row_matches(rt: HostRuntime) {
    assert!(rt; plays::<Database>(&rt, NO_ROW_MATCHES));
}

const PULL_IN_PARTS: &str = "\
open start 2 65536                  = Ok
2 22 primary 1 fill 1 20 0          = Done
2 22 primary 1 fill 1 20 1          = Done
2 22 primary 1 report 7             = Done
2 22 primary 1 report 20            = Done
3 33 secondary 1 pull 0 65535 1 16  = Blocks 17 \
1:01 2:02 3:03 4:04 5:05 6:06 7:07 8:08 9:09 10:0a 11:0b 12:0c 13:0d 14:0e 15:0f 16:10
3 33 secondary 1 pull 0 65535 17 16 = Blocks 21 17:11 18:12 19:13 20:14
3 33 secondary 1 pull 0 65535 21 16 = Denied C1 20
2 22 primary 1 write 20:14 0        = Denied C2 20
2 22 primary 1 report 7             = Done
hard                                = 20
";

#[test]
fn pull_in_parts(rt: HostRuntime) {
    assert!(rt; plays::<Database>(&rt, PULL_IN_PARTS));
}

const BLOCK_WITHOUT_RECORDS: &str = "\
open start 2 65536                 = Ok
2 22 primary 1 write 1: 0          = Done
2 22 primary 1 write 1: 1          = Done
2 22 primary 1 report 1            = Done
3 33 secondary 1 pull 0 65535 1 16 = Blocks 2
";

#[test]
fn block_without_records(rt: HostRuntime) {
    assert!(rt; plays::<Database>(&rt, BLOCK_WITHOUT_RECORDS));
}

const ROLES_AND_PRIMARIES: &str = "\
open start 2 65536                 = Ok
3 33 secondary 1 write 1:aa 0      = Denied A5 0
5 55 primary 1 status              = Denied A4 0
5 55 primary 1 pull 0 65535 1 16   = Denied A4 0
5 55 primary 1 report 0            = Denied A4 0
2 22 primary 1 pull 0 65535 1 16   = Denied A5 0
1 11 operator 1 pull 0 65535 1 16  = Denied A5 0
5 55 primary 1 set_table other     = Denied A4 0
4 44 secondary 1 pull 0 65535 1 16 = Denied B0 0
1 11 operator 1 failover 9         = Denied C8 0
2 22 primary 1 failover 5          = Denied A5 0
5 55 operator 1 failover 5         = Denied B0 0
# No denied failover raises the epoch.
epochs                             = 1 2
";

#[test]
fn roles_and_primaries(rt: HostRuntime) {
    assert!(rt; plays::<Database>(&rt, ROLES_AND_PRIMARIES));
}

const AUDIT_LIST_FILLS: &str = "\
open start 2 2                  = Ok
2 22 primary 1 status           = Status 1 2 0 0 0
2 22 primary 1 status           = Status 1 2 0 0 0
2 22 primary 1 status           = AuditFull
2 11 primary 1 status           = AuditFull
1 11 operator 1 set_table other = AuditFull
2 22 primary 1 offer 1:aa       = AuditFull
3 33 secondary 1 get 0 0        = AuditFull
4 44 page_server 1 advance 0 1  = AuditFull
1 11 operator 1 audit 1 10      = AuditFull
1 11 operator 1 tidy            = AuditFull
audit                           = 2
";

#[test]
fn audit_list_fills(rt: HostRuntime) {
    assert!(rt; plays::<Database>(&rt, AUDIT_LIST_FILLS));
}

const PRIMARY_NOT_LISTED: &str = "\
open start 9 65536 = NotListed
open start 5 65536 = Ok
epochs             = 1 5
";

#[test]
fn primary_not_listed(rt: HostRuntime) {
    assert!(rt; plays::<Database>(&rt, PRIMARY_NOT_LISTED));
}

const REPORTS_ABOVE_THE_WINDOW: &str = "\
open start 2 65536                    = Ok
2 22 primary 1 report 65              = Denied C6 0
2 22 primary 1 report 281474976710656 = Denied C6 0
2 22 primary 1 report 0               = Done
hard                                  = 0
";

#[test]
fn reports_above_the_window(rt: HostRuntime) {
    assert!(rt; plays::<Database>(&rt, REPORTS_ABOVE_THE_WINDOW));
}
