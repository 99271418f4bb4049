//! Rows of one database with failovers.

use crate::database::Database;
use transcripts::transcript::plays;

const FAILOVER_HARDENS_QUORUM_RUN: &str = "\
open start 2 65536                 = Ok
2 22 primary 1 write 1:01 0        = Done
2 22 primary 1 write 1:01 1        = Done
2 22 primary 1 write 2:02 0        = Done
2 22 primary 1 write 2:02 1        = Done
2 22 primary 1 write 3:03 0        = Done
1 11 operator 1 failover 5         = Done
1 11 operator 2 status             = Status 2 5 2 0 2
5 55 primary 2 write 3:33 0        = Done
5 55 primary 2 write 3:33 1        = Done
2 22 primary 1 write 3:03 0        = Denied A2 2
2 22 primary 2 write 3:03 0        = Denied A4 0
5 55 primary 2 report 3            = Done
3 33 secondary 1 pull 0 65535 3 16 = Denied A2 2
3 33 secondary 2 pull 0 65535 3 16 = Blocks 4 3:33
audit                              = 14
hard                               = 3
epochs                             = 2 5
annulled 1 3                       = 3:03
annulled 1 2                       = none
annulled 2 3                       = none
";

#[test]
fn failover_hardens_quorum_run(rt: HostRuntime) {
    assert!(rt; plays::<Database>(&rt, FAILOVER_HARDENS_QUORUM_RUN));
}

const FAILOVER_STOPS_AT_GAP: &str = "\
open start 2 65536                 = Ok
2 22 primary 1 write 1:01 0        = Done
2 22 primary 1 write 1:01 1        = Done
2 22 primary 1 write 3:03 0        = Done
2 22 primary 1 write 3:03 1        = Done
2 22 primary 1 write 2:02 2        = Done
1 11 operator 1 failover 2         = Done
2 22 primary 2 status              = Status 2 2 1 0 1
2 22 primary 2 write 2:02 0        = Done
2 22 primary 2 write 2:02 1        = Done
2 22 primary 2 write 3:44 0        = Done
2 22 primary 2 write 3:44 1        = Done
2 22 primary 2 report 3            = Done
3 33 secondary 2 pull 0 65535 1 16 = Blocks 4 1:01 2:02 3:44
annulled 1 2                       = 2:02
annulled 1 3                       = 3:03
";

#[test]
fn failover_stops_at_gap(rt: HostRuntime) {
    assert!(rt; plays::<Database>(&rt, FAILOVER_STOPS_AT_GAP));
}

// What was written before a failover and not hardened is annulled, even if it is written again:
// the copies of the old epoch count no more.
const OLD_COPIES_COUNT_NO_MORE: &str = "\
open start 2 65536          = Ok
2 22 primary 1 write 1:01 0 = Done
1 11 operator 1 failover 2  = Done
2 22 primary 2 write 1:01 1 = Done
2 22 primary 2 report 1     = Denied C6 0
1 11 operator 2 failover 2  = Done
2 22 primary 3 status       = Status 3 2 0 0 0
2 22 primary 1 write 1:01 1 = Denied A2 3
annulled 1 1                = 1:01
annulled 2 1                = 1:01
";

#[test]
fn old_copies_count_no_more(rt: HostRuntime) {
    assert!(rt; plays::<Database>(&rt, OLD_COPIES_COUNT_NO_MORE));
}

// Ten contents are in two copies, and twenty in one, which are annulled.
const FAILOVER_OVER_THIRTY_CONTENTS: &str = "\
open start 2 65536                  = Ok
2 22 primary 1 fill 1 10 0          = Done
2 22 primary 1 fill 1 10 2          = Done
2 22 primary 1 fill 11 30 1         = Done
1 11 operator 1 failover 5          = Done
1 11 operator 2 status              = Status 2 5 10 0 10
annulled 1 10                       = none
annulled 1 11                       = 11:0b
annulled 1 21                       = 21:15
annulled 1 30                       = 30:1e
annulled 1 31                       = none
5 55 primary 2 fill 11 30 0         = Done
5 55 primary 2 report 30            = Denied C6 10
5 55 primary 2 fill 11 30 1         = Done
5 55 primary 2 report 30            = Done
3 33 secondary 2 pull 0 65535 29 16 = Blocks 31 29:1d 30:1e
";

#[test]
fn failover_over_thirty_contents(rt: HostRuntime) {
    assert!(rt; plays::<Database>(&rt, FAILOVER_OVER_THIRTY_CONTENTS));
}

// The table of six copies is in force at once, and its copies from the next failover on.
const SIX_COPIES_AFTER_FAILOVER: &str = "\
open start 2 65536                   = Ok
1 11 operator 1 set_table six_copies = Done
2 22 primary 1 write 1:01 3          = Denied C5 0
2 22 primary 1 fill 1 2 0            = Done
2 22 primary 1 fill 1 2 1            = Done
1 11 operator 1 failover 2           = Done
2 22 primary 2 status                = Status 2 2 2 0 2
2 22 primary 2 write 3:03 0          = Done
2 22 primary 2 write 3:03 1          = Done
2 22 primary 2 write 3:03 5          = Done
2 22 primary 2 report 3              = Denied C6 2
2 22 primary 2 write 3:03 3          = Done
2 22 primary 2 report 3              = Done
2 22 primary 2 write 4:04 6          = Denied C5 0
2 22 primary 2 write 4:04 0          = Done
2 22 primary 2 write 4:04 1          = Done
2 22 primary 2 write 4:04 2          = Done
1 11 operator 2 failover 2           = Done
2 22 primary 3 status                = Status 3 2 3 0 3
";

#[test]
fn six_copies_after_failover(rt: HostRuntime) {
    assert!(rt; plays::<Database>(&rt, SIX_COPIES_AFTER_FAILOVER));
}

const COPIES_OF_START_TABLE: &str = "\
open six_copies 2 65536         = Ok
2 22 primary 1 write 1:01 5     = Done
1 11 operator 1 set_table start = Done
2 22 primary 1 write 1:01 4     = Done
";

#[test]
fn copies_of_start_table(rt: HostRuntime) {
    assert!(rt; plays::<Database>(&rt, COPIES_OF_START_TABLE));
}
