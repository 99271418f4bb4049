//! Rows of one database whose table changes.

use crate::database::Database;
use transcripts::transcript::plays;

const NEW_TABLE_IN_FORCE: &str = "\
open start 2 65536                 = Ok
2 22 primary 1 write 1:aa 0        = Done
2 22 primary 1 write 1:aa 1        = Done
2 22 primary 1 report 1            = Done
1 11 operator 1 set_table other    = Done
3 33 secondary 1 pull 0 65535 1 16 = Denied B1 0
3 33 secondary 1 pull 4 4 1 16     = Blocks 2
3 33 secondary 1 pull 0 0 1 16     = Blocks 2 1:aa
audit                              = 7
";

#[test]
fn new_table_in_force(rt: HostRuntime) {
    assert!(rt; plays::<Database>(&rt, NEW_TABLE_IN_FORCE));
}

const FIRST_TABLE_SET_AGAIN: &str = "\
open start 2 65536                 = Ok
2 22 primary 1 write 1:aa 0        = Done
2 22 primary 1 write 1:aa 1        = Done
2 22 primary 1 report 1            = Done
1 11 operator 1 set_table other    = Done
4 44 page_server 1 pull 0 0 1 16   = Denied B0 0
3 33 secondary 1 pull 0 65535 1 16 = Denied B1 0
1 11 operator 1 set_table start    = Done
4 44 page_server 1 pull 0 0 1 16   = Blocks 2 1:aa
3 33 secondary 1 pull 0 65535 1 16 = Blocks 2 1:aa
";

#[test]
fn first_table_set_again(rt: HostRuntime) {
    assert!(rt; plays::<Database>(&rt, FIRST_TABLE_SET_AGAIN));
}

const TOKEN_OF_A_NEW_TABLE: &str = "\
open start 2 65536                      = Ok
3 66 secondary 1 pull 0 65535 1 16      = Denied A1 0
3 33 secondary 1 pull 0 65535 1 16      = Denied C1 0
1 11 operator 1 set_table another_token = Done
3 33 secondary 1 pull 0 65535 1 16      = Denied A1 0
3 66 secondary 1 pull 0 65535 1 16      = Denied C1 0
5 55 primary 1 status                   = Denied A1 0
1 11 operator 1 set_table other         = Done
3 66 secondary 1 pull 0 65535 1 16      = Denied A1 0
3 33 secondary 1 pull 0 65535 1 16      = Denied B1 0
5 55 primary 1 status                   = Denied A4 0
audit                                   = 6
";

#[test]
fn token_of_a_new_table(rt: HostRuntime) {
    assert!(rt; plays::<Database>(&rt, TOKEN_OF_A_NEW_TABLE));
}

const FAULTY_TABLES_CHANGE_NOTHING: &str = "\
open start 2 65536                         = Ok
1 11 operator 1 set_table without_operator = Denied C7 12
1 11 operator 1 set_table x                = Denied C7 1
1 11 operator 1 set_table x_is_1           = Denied C7 2
1 11 operator 1 set_table empty            = Denied C7 3
1 11 operator 1 status                     = Status 1 2 0 0 0
2 22 primary 1 set_table x                 = Denied A5 0
3 33 operator 1 set_table x                = Denied B0 0
3 33 operator 1 set_table other            = Denied B0 0
3 33 secondary 1 pull 0 65535 1 16         = Denied C1 0
1 11 operator 1 set_table other            = Done
1 11 operator 1 set_table without_operator = Denied C7 12
3 33 secondary 1 pull 0 65535 1 16         = Denied B1 0
audit                                      = 12
";

#[test]
fn faulty_tables_change_nothing(rt: HostRuntime) {
    assert!(rt; plays::<Database>(&rt, FAULTY_TABLES_CHANGE_NOTHING));
}

// Rows of new tables that deny writes of partition 2, and pulls of partition 6. Page 131072 is the
// first of partition 2.
const PARTITIONS_OF_A_NEW_TABLE: &str = "\
open start 2 65536                      = Ok
1 11 operator 1 set_table denies_writes = Done
2 22 primary 1 write 1:aa@131072 0      = Denied B1 0
2 22 primary 1 write 1:aa@131071 0      = Done
2 22 primary 1 write 2: 0               = Denied B1 0
4 44 page_server 1 status               = Denied B0 0
1 11 operator 1 set_table denies_pulls  = Done
2 22 primary 1 write 2:aa@131072 0      = Done
2 22 primary 1 write 1:aa@131071 1      = Done
2 22 primary 1 report 1                 = Done
3 33 secondary 1 pull 5 6 1 16          = Denied B2 0
3 33 secondary 1 pull 1 5 1 16          = Blocks 2 1:aa@131071
4 44 page_server 1 pull 0 3 1 16        = Blocks 2 1:aa@131071
4 44 page_server 1 pull 6 6 1 16        = Denied B2 0
1 11 operator 1 set_table denies_writes = Done
2 22 primary 1 write 3:aa@131072 0      = Denied B1 0
";

#[test]
fn partitions_of_a_new_table(rt: HostRuntime) {
    assert!(rt; plays::<Database>(&rt, PARTITIONS_OF_A_NEW_TABLE));
}

const ROWS_END_AT_A_NUMBER: &str = "\
open start 2 65536                    = Ok
2 22 primary 1 fill 1 5 0             = Done
2 22 primary 1 fill 1 5 1             = Done
2 22 primary 1 report 5               = Done
4 44 page_server 1 advance 0 16       = Done
1 11 operator 1 set_table ends_at_two = Done
3 33 secondary 1 pull 0 65535 1 16    = Blocks 3 1:01 2:02
3 33 secondary 1 pull 0 65535 3 16    = Denied B0 0
3 33 secondary 1 pull 0 65535 6 16    = Denied B0 0
3 33 secondary 1 get 0 1              = Page 1 01+0
3 33 secondary 1 get 0 3              = Denied B0 0
2 22 primary 1 get 0 1                = Page 5 05+0
";

#[test]
fn rows_end_at_a_number(rt: HostRuntime) {
    assert!(rt; plays::<Database>(&rt, ROWS_END_AT_A_NUMBER));
}

const DENY_ABOVE_A_NUMBER: &str = "\
open start 2 65536                           = Ok
2 22 primary 1 fill 1 5 0                    = Done
2 22 primary 1 fill 1 5 1                    = Done
2 22 primary 1 report 5                      = Done
4 44 page_server 1 advance 0 16              = Done
1 11 operator 1 set_table denies_above_three = Done
3 33 secondary 1 pull 0 65535 1 16           = Blocks 4 1:01 2:02 3:03
3 33 secondary 1 pull 0 65535 4 16           = Denied B3 0
";

#[test]
fn deny_above_a_number(rt: HostRuntime) {
    assert!(rt; plays::<Database>(&rt, DENY_ABOVE_A_NUMBER));
}
