//! Rows of one database whose pages are read.
//!
//! A page is its LSN, and each byte that is not 0 with its offset.

use crate::database::Database;
use transcripts::transcript::plays;

const PAGE_OF_EMPTY_LOG: &str = "\
open start 2 65536                    = Ok
3 33 secondary 1 get 9 0              = Page 0
3 33 secondary 1 get 9 0 exact        = Page 0
2 22 primary 1 get 4294967295 0       = Page 0
2 22 primary 1 get 9 0 exact          = Page 0
audit                                 = 4
";

#[test]
fn page_of_empty_log(rt: HostRuntime) {
    assert!(rt; plays::<Database>(&rt, PAGE_OF_EMPTY_LOG));
}

// Page 458752 is the first of partition 7, which row 3 of the table denies to 3.
const TABLE_BEFORE_NUMBER: &str = "\
open start 2 65536                    = Ok
3 33 secondary 1 get 458752 1         = Denied B3 0
3 33 secondary 1 get 458752 0         = Denied B3 0
3 33 secondary 1 get 524287 1 exact   = Denied B3 0
3 33 secondary 1 get 458751 1         = Denied C1 0
3 33 secondary 1 get 524288 1         = Denied C1 0
2 22 primary 1 get 458752 1           = Denied C1 0
4 44 page_server 1 get 0 0            = Denied A5 0
4 44 secondary 1 get 0 0              = Denied B0 0
";

#[test]
fn table_before_number(rt: HostRuntime) {
    assert!(rt; plays::<Database>(&rt, TABLE_BEFORE_NUMBER));
}

const ADVANCE_THEN_GET: &str = "\
open start 2 65536                    = Ok
2 22 primary 1 fill 1 5 0             = Done
2 22 primary 1 fill 1 5 1             = Done
2 22 primary 1 report 5               = Done
4 44 page_server 1 advance 0 16       = Done
applied 0                             = 5
3 33 secondary 1 get 0 3              = Page 5 05+0
3 33 secondary 1 get 0 3 exact        = Page 3 03+0
3 33 secondary 1 get 0 5              = Page 5 05+0
3 33 secondary 1 get 0 6              = Denied C1 5
3 33 secondary 1 get 0 6 exact        = Denied C1 5
3 33 secondary 1 get 1 0              = Page 5
";

#[test]
fn advance_then_get(rt: HostRuntime) {
    assert!(rt; plays::<Database>(&rt, ADVANCE_THEN_GET));
}

const RECORDS_OF_TWO_PARTITIONS: &str = "\
open start 2 65536                              = Ok
2 22 primary 1 write 1:aa,ee@65536+8191 0       = Done
2 22 primary 1 write 1:aa,ee@65536+8191 1       = Done
2 22 primary 1 write 2:zero 0                   = Done
2 22 primary 1 write 2:zero 2                   = Done
2 22 primary 1 report 2                         = Done
3 33 secondary 1 get 0 1 exact                  = Page 1 aa+0
3 33 secondary 1 get 0 2 exact                  = Page 2
3 33 secondary 1 get 65536 1 exact              = Page 1 ee+8191
3 33 secondary 1 get 65536 2 exact              = Page 2 ee+8191
3 33 secondary 1 pull 1 1 1 16                  = Blocks 3 1:aa,ee@65536+8191
3 33 secondary 1 pull 0 0 2 16                  = Blocks 3 2:zero
";

#[test]
fn records_of_two_partitions(rt: HostRuntime) {
    assert!(rt; plays::<Database>(&rt, RECORDS_OF_TWO_PARTITIONS));
}

const GET_AT_APPLIED_NUMBER: &str = "\
open start 2 65536                    = Ok
2 22 primary 1 fill 1 5 0             = Done
2 22 primary 1 fill 1 5 1             = Done
2 22 primary 1 report 5               = Done
4 44 page_server 1 advance 0 2        = Done
3 33 secondary 1 get 0 1              = Page 2 02+0
3 33 secondary 1 get 0 2              = Page 2 02+0
3 33 secondary 1 get 0 3              = Page 3 03+0
3 33 secondary 1 get 0 0              = Page 2 02+0
3 33 secondary 1 get 0 0 exact        = Page 0
3 33 secondary 1 get 65536 1          = Page 1
4 44 page_server 1 advance 4 1        = Denied B0 0
4 44 page_server 1 advance 3 1024     = Done
applied 0                             = 2
applied 1                             = 0
applied 3                             = 5
applied 4                             = 0
";

#[test]
fn get_at_applied_number(rt: HostRuntime) {
    assert!(rt; plays::<Database>(&rt, GET_AT_APPLIED_NUMBER));
}

// The blocks 3 to 5 are in one copy: the failover annuls them, and no page has shown them.
const PAGES_OF_HARDENED_BLOCKS: &str = "\
open start 2 65536                    = Ok
2 22 primary 1 fill 1 5 0             = Done
2 22 primary 1 fill 1 2 1             = Done
2 22 primary 1 report 1               = Done
4 44 page_server 1 advance 0 16       = Done
3 33 secondary 1 get 0 0              = Page 1 01+0
1 11 operator 1 failover 5            = Done
applied 0                             = 1
3 33 secondary 1 get 0 0              = Denied A2 2
3 33 secondary 2 get 0 0              = Page 1 01+0
3 33 secondary 2 get 0 2              = Page 2 02+0
3 33 secondary 2 get 0 3              = Denied C1 2
5 55 primary 2 write 3:330044@0+1 0     = Done
5 55 primary 2 write 3:330044@0+1 1     = Done
5 55 primary 2 report 3               = Done
4 44 page_server 2 advance 0 16       = Done
5 55 primary 2 get 0 0                = Page 3 02+0 33+1 44+3
2 22 primary 2 get 0 0                = Denied A4 0
";

#[test]
fn pages_of_hardened_blocks(rt: HostRuntime) {
    assert!(rt; plays::<Database>(&rt, PAGES_OF_HARDENED_BLOCKS));
}
