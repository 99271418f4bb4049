//! Rows of one database to which blocks are offered.

use crate::database::Database;
use transcripts::transcript::plays;

const OFFERED_AND_LANDED: &str = "\
open start 2 65536                    = Ok
2 22 primary 1 offer 1:aa             = Done
2 22 primary 1 write 1:aa 0           = Done
2 22 primary 1 write 1:aa 1           = Done
2 22 primary 1 write 2:bb 0           = Done
2 22 primary 1 write 2:bb 1           = Done
2 22 primary 1 report 2               = Done
2 22 primary 1 status                 = Status 1 2 2 1 1
log                                   = 2 3 1 1
3 33 secondary 1 pull 0 65535 1 16    = Blocks 3 1:aa 2:bb
";

#[test]
fn offered_and_landed(rt: HostRuntime) {
    assert!(rt; plays::<Database>(&rt, OFFERED_AND_LANDED));
}

const OFFERS_END_WITH_EPOCH: &str = "\
open start 2 65536                    = Ok
2 22 primary 0 offer 1:01             = Denied A2 1
2 22 primary 1 offer 1:02             = Done
2 22 primary 1 write 1:01 0           = Denied C4 0
2 22 primary 1 report 1               = Denied C6 0
1 11 operator 1 failover 2            = Done
annulled 1 1                          = 1:02
2 22 primary 1 offer 1:02             = Denied A2 2
2 22 primary 2 write 1:01 0           = Done
2 22 primary 2 write 1:01 1           = Done
2 22 primary 2 report 1               = Done
2 22 primary 2 status                 = Status 2 2 1 0 1
";

#[test]
fn offers_end_with_epoch(rt: HostRuntime) {
    assert!(rt; plays::<Database>(&rt, OFFERS_END_WITH_EPOCH));
}

const OFFERED_THEN_RECOVERED: &str = "\
open start 2 65536                    = Ok
2 22 primary 1 offer 1:01             = Done
2 22 primary 1 write 1:01 0           = Done
2 22 primary 1 write 1:01 1           = Done
1 11 operator 1 failover 2            = Done
2 22 primary 2 status                 = Status 2 2 1 1 0
annulled 1 1                          = none
";

#[test]
fn offered_then_recovered(rt: HostRuntime) {
    assert!(rt; plays::<Database>(&rt, OFFERED_THEN_RECOVERED));
}

const OFFERS_FIX_THE_CONTENT: &str = "\
open start 2 65536                    = Ok
2 22 primary 1 offer 1:aa             = Done
2 22 primary 1 offer 1:aa             = Done
2 22 primary 1 offer 1:ab             = Denied C4 0
2 22 primary 1 write 2:bb 1           = Done
2 22 primary 1 offer 2:bc             = Denied C4 0
2 22 primary 1 offer 2:bb             = Done
# An offer is in no copy, also where the same block is in one.
2 22 primary 1 report 2               = Denied C6 0
2 22 primary 1 offer 64:cc            = Done
2 22 primary 1 offer 65:cc            = Denied C3 0
2 22 primary 1 write 1:aa 0           = Done
2 22 primary 1 write 1:aa 2           = Done
2 22 primary 1 write 2:bb 2           = Done
2 22 primary 1 report 2               = Done
2 22 primary 1 status                 = Status 1 2 2 2 0
2 22 primary 1 offer 2:bb             = Denied C2 2
2 22 primary 1 offer 66:dd            = Done
3 33 secondary 1 offer 3:dd           = Denied A5 0
";

#[test]
fn offers_fix_the_content(rt: HostRuntime) {
    assert!(rt; plays::<Database>(&rt, OFFERS_FIX_THE_CONTENT));
}

// A write that is denied leaves no content.
const DENIED_OFFERS_LEAVE_NOTHING: &str = "\
open start 2 65536                    = Ok
2 22 primary 0 write 1:01 0           = Denied A2 1
2 22 primary 1 write 1:02 3           = Denied C5 0
5 55 primary 1 offer 1:03             = Denied A4 0
2 22 primary 1 offer 1:04             = Done
2 22 primary 1 offer 1:01             = Denied C4 0
2 22 primary 1 write 1:04 0           = Done
";

#[test]
fn denied_offers_leave_nothing(rt: HostRuntime) {
    assert!(rt; plays::<Database>(&rt, DENIED_OFFERS_LEAVE_NOTHING));
}

// 64 blocks are offered. Of these ten are hardened by a report, twenty by a failover, and the others
// are annulled, each under its number.
const WINDOW_OF_OFFERS: &str = "\
open start 2 65536                    = Ok
2 22 primary 1 fill 1 30 0            = Done
2 22 primary 1 offers 1 64            = Done
2 22 primary 1 fill 1 30 1            = Done
2 22 primary 1 report 10              = Done
2 22 primary 1 status                 = Status 1 2 10 10 0
1 11 operator 1 failover 5            = Done
1 11 operator 2 status                = Status 2 5 30 30 0
annulled 1 30                         = none
annulled 1 31                         = 31:1f
annulled 1 64                         = 64:40
5 55 primary 2 fill 31 40 0           = Done
5 55 primary 2 fill 31 40 1           = Done
5 55 primary 2 report 40              = Done
1 11 operator 2 status                = Status 2 5 40 30 10
";

#[test]
fn window_of_offers(rt: HostRuntime) {
    assert!(rt; plays::<Database>(&rt, WINDOW_OF_OFFERS));
}
