//! Tables that texts write down, and the first row of each that matches a request.

use crate::rules::Rules;
use transcripts::transcript::plays;

const TEXT_OF_START_TABLE: &str = "\
table start  = Ok
principals   = 1 2 3 4 5
token 0      = none
token 1      = 11111111111111111111111111111111
token 2      = 22222222222222222222222222222222
token 3      = 33333333333333333333333333333333
token 4      = 44444444444444444444444444444444
token 5      = 55555555555555555555555555555555
token 6      = none
rows         = 6
row 1        = allow who 1 role operator
row 2        = allow who 2 role primary
row 3        = deny who 3 op get partitions 7 7
row 4        = allow who 3 role secondary
row 5        = allow who 4 role page_server partitions 0 3
row 6        = allow who 5 role primary
";

#[test]
fn text_of_start_table(rt: HostRuntime) {
    assert!(rt; plays::<Rules>(&rt, TEXT_OF_START_TABLE));
}

const TEXT_WITH_ITS_READING: &str = "\
text start           = Ok
principals           = 1 2 3 4 5
token 3              = 33333333333333333333333333333333
rows                 = 6
row 3                = deny who 3 op get partitions 7 7
row 5                = allow who 4 role page_server partitions 0 3
text x               = fault 1
text empty           = fault 3
text without_token   = fault 5
text without_operator = fault 12
# The table that was taken first.
rows                 = 6
";

#[test]
fn text_with_its_reading(rt: HostRuntime) {
    assert!(rt; plays::<Rules>(&rt, TEXT_WITH_ITS_READING));
}

const COPY_OF_A_TABLE: &str = "\
table start  = Ok
copy         = Ok
principals   = 1 2 3 4 5
token 3      = 33333333333333333333333333333333
rows         = 6
row 1        = allow who 1 role operator
row 2        = allow who 2 role primary
row 3        = deny who 3 op get partitions 7 7
row 4        = allow who 3 role secondary
row 5        = allow who 4 role page_server partitions 0 3
row 6        = allow who 5 role primary
";

#[test]
fn copy_of_a_table(rt: HostRuntime) {
    assert!(rt; plays::<Rules>(&rt, COPY_OF_A_TABLE));
}

const TEXT_OF_OTHER_TABLE: &str = "\
table other  = Ok
principals   = 1 2 3 4 5
rows         = 4
row 1        = deny who 3 op pull partitions 5 5
row 2        = allow who 3
row 3        = allow who 1 role operator
row 4        = allow who 2 role primary
";

#[test]
fn text_of_other_table(rt: HostRuntime) {
    assert!(rt; plays::<Rules>(&rt, TEXT_OF_OTHER_TABLE));
}

const INLINE_TABLES: &str = "\
table inline      = Ok
principals        = 4294967295
token 4294967295  = aabbccddeeff00112233445566778899
rows              = 1
row 1             = allow op tidy set_table tidy
";

#[test]
fn inline_tables(rt: HostRuntime) {
    assert!(rt; plays::<Rules>(&rt, INLINE_TABLES));
}

const FIRST_MATCH_OF_START_TABLE: &str = "\
table start                                  = Ok
first 3 00 secondary   1 pull 0 65535 1 16   = 4 allow
first 3 00 page_server 1 pull 0 65535 1 16   = none
first 4 00 page_server 1 pull 0 3 1 16       = 5 allow
first 4 00 page_server 1 pull 4 4 1 16       = none
first 4 00 page_server 1 pull 3 4 1 16       = none
first 1 00 operator    1 pull 0 0 1 16       = 1 allow
first 9 00 secondary   1 pull 0 0 1 16       = none
first 2 00 primary     1 report 0            = 2 allow
first 4 00 page_server 1 report 0            = 5 allow
first 5 00 primary     1 report 0            = 6 allow
first 5 00 secondary   1 report 0            = none
# 2 writes a block of partition 7 as primary.
first 2 00 primary     1 write 1:aa@458752 0 = 2 allow
# Row 3 lists get alone.
candidates 3 00 page_server 1 get 7 0        = 2
candidates 3 00 secondary 1 pull 7 7 1 16    = 1
candidates 2 00 operator  1 status           = 1
candidates 9 00 operator  1 status           = 0
";

#[test]
fn first_match_of_start_table(rt: HostRuntime) {
    assert!(rt; plays::<Rules>(&rt, FIRST_MATCH_OF_START_TABLE));
}

const A_ROW_THAT_DENIES_ONE_PARTITION: &str = "\
table other                                  = Ok
first 3 00 secondary 1 pull 0 65535 1 16     = 1 deny
first 3 00 secondary 1 pull 4 4 1 16         = 2 allow
first 3 00 secondary 1 pull 0 0 1 16         = 2 allow
first 3 00 secondary 1 pull 5 9 1 16         = 1 deny
first 3 00 secondary 1 pull 0 5 1 16         = 1 deny
first 3 00 secondary 1 pull 6 9 1 16         = 2 allow
# The row lists no report.
first 3 00 secondary 1 report 0              = 2 allow
";

#[test]
fn a_row_that_denies_one_partition(rt: HostRuntime) {
    assert!(rt; plays::<Rules>(&rt, A_ROW_THAT_DENIES_ONE_PARTITION));
}

// Row 1 denies a write or a status that touches partition 5, row 2 allows all within 0 to 5. The
// pages 262144, 327680 and 393216 are the first of the partitions 4, 5 and 6.
const ROWS_AGAINST_WRITES: &str = "\
table ranges                                      = Ok
first 3 00 primary 1 write 1:aa,aa@327680 0       = 1 deny
first 3 00 primary 1 write 1:aa@327680 0          = 1 deny
first 3 00 primary 1 write 1: 0                   = 1 deny
first 3 00 primary 1 write 1:aa 0                 = 2 allow
first 3 00 primary 1 write 1:aa,aa@262144 0       = 2 allow
first 3 00 primary 1 write 1:aa,aa@393216 0       = none
first 3 00 primary 1 write 1:aa@393216 0          = none
";

#[test]
fn rows_against_writes(rt: HostRuntime) {
    assert!(rt; plays::<Rules>(&rt, ROWS_AGAINST_WRITES));
}

// A request names no partition if its act does not: then each range matches.
const RANGES_AGAINST_REQUESTS_WITHOUT_PARTITIONS: &str = "\
table ranges                                      = Ok
first 1 00 primary   1 status                     = 1 deny
first 1 00 operator  1 set_table spaces 1         = 2 allow
first 1 00 operator  1 failover 1                 = 2 allow
first 1 00 primary   1 report 0                   = 2 allow
first 1 00 secondary 1 pull 5 5 1 1               = 2 allow
first 1 00 secondary 1 pull 6 6 1 1               = none
";

#[test]
fn ranges_against_requests_without_partitions(rt: HostRuntime) {
    assert!(rt; plays::<Rules>(&rt, RANGES_AGAINST_REQUESTS_WITHOUT_PARTITIONS));
}

// Row 1 of the second table lists write and status alone.
const RANGES_AGAINST_PAGES_AND_OFFERS: &str = "\
table start                                       = Ok
first 3 00 secondary   1 get 458751 9             = 4 allow
first 3 00 secondary   1 get 458752 9             = 3 deny
first 3 00 page_server 1 get 524287 9 exact       = 3 deny
first 3 00 page_server 1 get 524288 9             = none
first 4 00 page_server 1 get 0 9                  = 5 allow
first 4 00 page_server 1 advance 3 1              = 5 allow
first 4 00 page_server 1 advance 4 1              = none
first 4 00 page_server 1 offer 1:aa,aa@196608     = 5 allow
first 4 00 page_server 1 offer 1:aa,aa@262144     = none
first 4 00 page_server 1 offer 1:                 = 5 allow
first 4 00 page_server 1 audit 1 1                = 5 allow
first 4 00 page_server 1 tidy                     = 5 allow
first 4 00 operator    1 tidy                     = none
table ranges                                      = Ok
first 1 00 primary     1 offer 1:aa@327680        = 2 allow
first 1 00 primary     1 offer 1:aa,aa@393216     = none
first 1 00 primary     1 get 327680 0             = 2 allow
first 1 00 primary     1 get 393216 0             = none
first 1 00 page_server 1 advance 5 1              = 2 allow
first 1 00 page_server 1 advance 6 1              = none
first 1 00 operator    1 audit 1 1                = 2 allow
first 1 00 operator    1 tidy                     = 2 allow
";

#[test]
fn ranges_against_pages_and_offers(rt: HostRuntime) {
    assert!(rt; plays::<Rules>(&rt, RANGES_AGAINST_PAGES_AND_OFFERS));
}

const STATUS_AND_SET_TABLE_BY_START_TABLE: &str = "\
table start                                       = Ok
first 1 00 operator    1 status                   = 1 allow
first 1 00 primary     1 status                   = none
first 3 00 secondary   1 status                   = 4 allow
first 4 00 page_server 1 status                   = 5 allow
first 4 00 operator    1 status                   = none
first 1 00 operator    1 set_table spaces 1       = 1 allow
first 1 00 primary     1 set_table spaces 1       = none
first 3 00 secondary   1 set_table spaces 1       = 4 allow
first 4 00 page_server 1 set_table spaces 1       = 5 allow
first 4 00 operator    1 set_table spaces 1       = none
";

#[test]
fn status_and_set_table_by_start_table(rt: HostRuntime) {
    assert!(rt; plays::<Rules>(&rt, STATUS_AND_SET_TABLE_BY_START_TABLE));
}

const BOUNDS_OF_REQUESTS: &str = "\
request 3 00 secondary 1 report 0                          = made
request 3 00 secondary 1 report 281474976710656            = made
request 3 00 secondary 1 report 281474976710657            = out of range
# Pulls of one partition, of all and of none.
request 3 00 secondary 1 pull 7 7 1 1                      = made
request 3 00 secondary 1 pull 0 65535 281474976710656 16   = made
request 3 00 secondary 1 pull 8 7 1 1                      = out of range
# Pulls from 0 and from above 2^48, of no block and of 17.
request 3 00 secondary 1 pull 7 7 0 1                      = out of range
request 3 00 secondary 1 pull 7 7 281474976710657 1        = out of range
request 3 00 secondary 1 pull 7 7 1 0                      = out of range
request 3 00 secondary 1 pull 7 7 1 17                     = out of range
request 3 00 secondary 1 status                            = made
request 3 00 secondary 1 failover 4294967295               = made
request 3 00 secondary 1 write 281474976710656: 255        = made
request 3 00 secondary 1 set_table empty                   = made
request 3 00 secondary 1 set_table spaces 65506            = made
request 3 00 secondary 1 set_table spaces 65507            = out of range
request 3 00 secondary 1 offer 281474976710656:            = made
request 3 00 secondary 1 tidy                              = made
# Gets at 0, 2^48 and 2^48 + 1.
request 3 00 secondary 1 get 4294967295 0                  = made
request 3 00 secondary 1 get 0 281474976710656 exact       = made
request 3 00 secondary 1 get 0 281474976710657             = out of range
# Advances by no step, 1, 1,024 and 1,025.
request 3 00 secondary 1 advance 65535 0                   = out of range
request 3 00 secondary 1 advance 65535 1                   = made
request 3 00 secondary 1 advance 0 1024                    = made
request 3 00 secondary 1 advance 0 1025                    = out of range
# Audits from 0, of no entry, of 1,024 and of 1,025.
request 3 00 secondary 1 audit 0 1                         = out of range
request 3 00 secondary 1 audit 1 0                         = out of range
request 3 00 secondary 1 audit 1 1                         = made
request 3 00 secondary 1 audit 18446744073709551615 1024   = made
request 3 00 secondary 1 audit 1 1025                      = out of range
";

#[test]
fn bounds_of_requests(rt: HostRuntime) {
    assert!(rt; plays::<Rules>(&rt, BOUNDS_OF_REQUESTS));
}
