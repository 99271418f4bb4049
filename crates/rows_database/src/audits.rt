//! Rows of one database whose audit list is read.
//!
//! The passes of the requests are 1, 0 and 18446744073709551615, in turn.

use crate::database::Database;
use transcripts::transcript::plays;

const AUDIT_OF_A_DENIAL: &str = "\
open start 2 65536                    = Ok
2 22 primary 0 status                 = Denied A2 1
1 11 operator 1 audit 1 10            = Entries 1/1/2/primary/0/status/0/0/A2:1
1 11 operator 1 audit 9 10            = Entries
audit                                 = 3
";

#[test]
fn audit_of_a_denial(rt: HostRuntime) {
    assert!(rt; plays::<Database>(&rt, AUDIT_OF_A_DENIAL));
}

// The same as bytes, under pass 1.
const AUDIT_OF_A_DENIAL_AS_BYTES: &str = "\
open start 2 65536                    = Ok
bytes 00000002 22222222222222222222222222222222 01 00000000 00000000 07 \
= 050100020000000000000001
bytes 00000001 11111111111111111111111111111111 04 00000000 00000001 0a 0000000000000001 000a \
= 0300010000000000000001000000000000000100000002010000000007000000000000000000000000000000000100020000000000000001
bytes 00000001 11111111111111111111111111111111 04 00000000 00000001 0a 0000000000000009 000a \
= 030000
";

#[test]
fn audit_of_a_denial_as_bytes(rt: HostRuntime) {
    assert!(rt; plays::<Database>(&rt, AUDIT_OF_A_DENIAL_AS_BYTES));
}

const LINES_OF_EACH_OPERATION: &str = "\
open start 2 65536                    = Ok
2 22 primary 1 write 1:aa 2           = Done
2 22 primary 1 offer 2:bb             = Done
2 22 primary 1 report 1               = Denied C6 0
2 22 primary 1 get 7 0                = Page 0
3 33 secondary 1 pull 2 9 1 16        = Denied C1 0
4 44 page_server 1 advance 3 1024     = Done
3 33 secondary 1 status               = Status 1 2 0 0 0
1 11 operator 1 tidy                  = Done
1 11 operator 1 set_table start       = Done
1 11 operator 1 set_table x_is_1      = Denied C7 2
1 11 operator 1 failover 5            = Done
1 11 operator 2 audit 1 1024          = Entries \
1/1/2/primary/1/write/1/2/allowed \
2/0/2/primary/1/offer/2/0/allowed \
3/18446744073709551615/2/primary/1/report/1/0/C6:0 \
4/1/2/primary/1/get/0/7/allowed \
5/0/3/secondary/1/pull/1/131081/C1:0 \
6/18446744073709551615/4/page_server/1/advance/3/1024/allowed \
7/1/3/secondary/1/status/0/0/allowed \
8/0/1/operator/1/tidy/0/0/allowed \
9/18446744073709551615/1/operator/1/set_table/661/0/allowed \
10/1/1/operator/1/set_table/5/0/C7:2 \
11/0/1/operator/1/failover/5/0/allowed
1 11 operator 2 audit 11 2            = Entries \
11/0/1/operator/1/failover/5/0/allowed 12/18446744073709551615/1/operator/2/audit/1/1024/allowed
1 11 operator 2 audit 13 1            = Entries 13/1/1/operator/2/audit/11/2/allowed
1 11 operator 2 audit 16 1            = Entries
1 11 operator 2 audit 3 1             = Entries 3/18446744073709551615/2/primary/1/report/1/0/C6:0
1 11 operator 2 audit 18446744073709551615 1024 = Entries
";

#[test]
fn lines_of_each_operation(rt: HostRuntime) {
    assert!(rt; plays::<Database>(&rt, LINES_OF_EACH_OPERATION));
}

// An unknown principal makes no entry. Reading the list makes one.
const AUDITS_ARE_ENTERED: &str = "\
open start 2 65536                    = Ok
1 11 operator 1 audit 1 10            = Entries
2 11 primary 1 offer 1:aa             = Denied A1 0
1 11 operator 1 audit 1 1             = Entries 1/1/1/operator/1/audit/1/10/allowed
2 22 primary 1 audit 1 1              = Denied A5 0
3 33 operator 1 tidy                  = Denied B0 0
1 11 operator 1 tidy                  = Done
audit                                 = 5
hard                                  = 0
epochs                                = 1 2
";

#[test]
fn audits_are_entered(rt: HostRuntime) {
    assert!(rt; plays::<Database>(&rt, AUDITS_ARE_ENTERED));
}

const AUDIT_OF_1024_LINES: &str = "\
open start 2 65536                    = Ok
2 22 primary 1 statuses 1030          = 1030
1 11 operator 1 lines 1 1024          = 1024
1 11 operator 1 lines 8 1024          = 1024
1 11 operator 1 lines 9 1024          = 1024
1 11 operator 1 lines 10 1024         = 1024
1 11 operator 1 lines 12 1024         = 1023
1 11 operator 1 lines 1 1023          = 1023
";

#[test]
fn audit_of_1024_lines(rt: HostRuntime) {
    assert!(rt; plays::<Database>(&rt, AUDIT_OF_1024_LINES));
}
