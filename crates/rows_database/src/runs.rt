//! Runs: many requests in one call, each answered as in a step of its own.

use crate::database::Database;
use transcripts::transcript::plays;

const RUN_OF_TWO: &str = "\
open start 2 65536                = Ok
queue 2 22 primary 1 write 1:aa 0 = 1
queue 2 22 primary 1 report 1     = 2
run                               = Done; Denied C6 0;
audit                             = 2
hard                              = 0
";

#[test]
fn run_of_two(rt: HostRuntime) {
    assert!(rt; plays::<Database>(&rt, RUN_OF_TWO));
}

const RUN_OF_NONE: &str = "\
open start 2 65536 = Ok
run                =
audit              = 0
";

#[test]
fn run_of_none(rt: HostRuntime) {
    assert!(rt; plays::<Database>(&rt, RUN_OF_NONE));
}

const RUN_OF_THREE: &str = "\
open start 2 65536                  = Ok
queue 2 22 primary 1 write 1:aa 0   = 1
queue 2 22 primary 1 write 1:aa 1   = 2
queue 2 22 primary 1 report 1       = 3
run                                 = Done; Done; Done;
hard                                = 1
queue 9 99 primary 1 status         = 1
queue 2 22 primary 1 status         = 2
queue 3 33 secondary 1 pull 0 0 1 1 = 3
run                                 = Denied A1 0; Status 1 2 1 0 1; Blocks 2 1:aa;
audit                               = 5
";

#[test]
fn run_of_three(rt: HostRuntime) {
    assert!(rt; plays::<Database>(&rt, RUN_OF_THREE));
}

const RUN_OF_THIRTY: &str = "\
open start 2 65536                 = Ok
queue 2 22 primary 1 write 1:01 0  = 1
queue 2 22 primary 1 write 1:01 1  = 2
queue 2 22 primary 1 write 2:02 0  = 3
queue 2 22 primary 1 write 2:02 1  = 4
queue 2 22 primary 1 write 3:03 0  = 5
queue 2 22 primary 1 write 3:03 1  = 6
queue 2 22 primary 1 write 4:04 0  = 7
queue 2 22 primary 1 write 4:04 1  = 8
queue 2 22 primary 1 write 5:05 0  = 9
queue 2 22 primary 1 write 5:05 1  = 10
queue 2 22 primary 1 write 6:06 0  = 11
queue 2 22 primary 1 write 6:06 1  = 12
queue 2 22 primary 1 write 7:07 0  = 13
queue 2 22 primary 1 write 7:07 1  = 14
queue 2 22 primary 1 write 8:08 0  = 15
queue 2 22 primary 1 write 8:08 1  = 16
queue 2 22 primary 1 write 9:09 0  = 17
queue 2 22 primary 1 write 9:09 1  = 18
queue 2 22 primary 1 write 10:0a 0 = 19
queue 2 22 primary 1 write 10:0a 1 = 20
queue 2 22 primary 1 write 11:0b 0 = 21
queue 2 22 primary 1 write 11:0b 1 = 22
queue 2 22 primary 1 write 12:0c 0 = 23
queue 2 22 primary 1 write 12:0c 1 = 24
queue 2 22 primary 1 write 13:0d 0 = 25
queue 2 22 primary 1 write 13:0d 1 = 26
queue 2 22 primary 1 report 13     = 27
queue 1 11 operator 1 failover 5   = 28
queue 2 22 primary 2 status        = 29
queue 5 55 primary 2 status        = 30
run                                = \
Done; Done; Done; Done; Done; Done; Done; Done; Done; Done; Done; Done; Done; Done; \
Done; Done; Done; Done; Done; Done; Done; Done; Done; Done; Done; Done; Done; Done; \
Denied A4 0; Status 2 5 13 0 13;
audit                              = 30
hard                               = 13
";

#[test]
fn run_of_thirty(rt: HostRuntime) {
    assert!(rt; plays::<Database>(&rt, RUN_OF_THIRTY));
}
