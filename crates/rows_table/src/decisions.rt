//! Rows of the written order: epoch 7 of primary 2, and a log of 5 blocks.

use crate::rules::Rules;
use transcripts::transcript::plays;

const KNOWN_BY_ID_AND_TOKEN: &str = "\
table start                                                 = Ok
2 22 primary 7 status                                       = Allowed
2 22222222222222222222222222222222 primary 7 status         = Allowed
# Another token, the token of another, and an id that is not listed.
2 22222222222222222222222222222223 primary 7 status         = Denied A1 0
2 32222222222222222222222222222222 primary 7 status         = Denied A1 0
5 22 primary 7 status                                       = Denied A1 0
9 22 primary 7 status                                       = Denied A1 0
9 99 primary 7 status                                       = Denied A1 0
";

#[test]
fn known_by_id_and_token(rt: HostRuntime) {
    assert!(rt; plays::<Rules>(&rt, KNOWN_BY_ID_AND_TOKEN));
}

const ROWS_OF_SECTION_A: &str = "\
table start                        = Ok
2 22 primary   7 status            = Allowed
2 22 primary   6 status            = Denied A2 7
2 22 primary   8 status            = Denied A3 7
5 55 primary   7 status            = Denied A4 0
5 55 primary   6 status            = Denied A2 7
5 55 primary   7 pull 0 0 6 16     = Denied A4 0
2 22 primary   7 pull 0 0 6 16     = Denied A5 0
3 33 secondary 7 write 5: 0        = Denied A5 0
";

#[test]
fn rows_of_section_a(rt: HostRuntime) {
    assert!(rt; plays::<Rules>(&rt, ROWS_OF_SECTION_A));
}

const ROWS_OF_THE_TABLE: &str = "\
table start                        = Ok
4 44 page_server 7 pull 4 4 6 16   = Denied B0 0
4 44 page_server 7 pull 0 3 6 16   = Denied C1 5
3 33 operator    7 set_table x     = Denied B0 0
5 55 secondary   7 status          = Denied B0 0
";

#[test]
fn rows_of_the_table(rt: HostRuntime) {
    assert!(rt; plays::<Rules>(&rt, ROWS_OF_THE_TABLE));
}

const LAST_EPOCH: &str = "\
table start                          = Ok
epochs 4294967295 2                  = Ok
1 11 operator 4294967295 failover 5  = Denied C9 0
1 11 operator 4294967295 failover 9  = Denied C8 0
epochs 4294967294 2                  = Ok
1 11 operator 4294967294 failover 5  = Allowed
";

#[test]
fn last_epoch(rt: HostRuntime) {
    assert!(rt; plays::<Rules>(&rt, LAST_EPOCH));
}

// A view gives how many blocks are hardened, whether a write agrees with the content of its number,
// how many copies there are, and whether a report may harden.
const ROWS_OF_SECTION_C: &str = "\
table start                            = Ok
3 33 secondary 7 pull 0 9 5 16         = Allowed
3 33 secondary 7 pull 0 9 6 16         = Denied C1 5
2 22 primary   7 write 6: 2            = Allowed
view 5 false 3 true                    = Ok
2 22 primary   7 write 5: 2            = Denied C2 5
2 22 primary   7 write 70: 3           = Denied C3 5
2 22 primary   7 write 6: 3            = Denied C4 0
view 5 true 3 true                     = Ok
2 22 primary   7 write 69: 0           = Allowed
2 22 primary   7 write 6: 3            = Denied C5 0
2 22 primary   7 report 6              = Allowed
view 5 true 3 false                    = Ok
2 22 primary   7 report 6              = Denied C6 5
1 11 operator  7 status                = Allowed
view 5 true 3 true                     = Ok
1 11 operator  7 set_table two_principals = Allowed
1 11 operator  7 set_table x           = Denied C7 1
1 11 operator  7 set_table x_is_1      = Denied C7 2
1 11 operator  7 set_table empty       = Denied C7 3
1 11 operator  7 failover 5            = Allowed
1 11 operator  7 failover 2            = Allowed
1 11 operator  7 failover 9            = Denied C8 0
";

#[test]
fn rows_of_section_c(rt: HostRuntime) {
    assert!(rt; plays::<Rules>(&rt, ROWS_OF_SECTION_C));
}

// C2 to C4 are asked of a write and of an offer, C5 of a write alone; C1 of a pull and of a get.
const ROWS_OF_READS_AND_OFFERS: &str = "\
table start                            = Ok
3 33 secondary   7 get 9 5             = Allowed
3 33 secondary   7 get 9 0 exact       = Allowed
3 33 secondary   7 get 9 6             = Denied C1 5
3 33 secondary   7 get 9 6 exact       = Denied C1 5
2 22 primary     7 get 458752 6        = Denied C1 5
3 33 secondary   7 get 458752 6        = Denied B3 0
4 44 page_server 7 get 9 0             = Denied A5 0
2 22 primary     7 offer 6:            = Allowed
2 22 primary     7 offer 69:           = Allowed
2 22 primary     7 offer 5:            = Denied C2 5
2 22 primary     7 offer 70:           = Denied C3 5
view 5 false 0 false                   = Ok
2 22 primary     7 offer 5:            = Denied C2 5
2 22 primary     7 offer 70:           = Denied C3 5
2 22 primary     7 offer 6:            = Denied C4 0
view 5 true 0 false                    = Ok
2 22 primary     7 offer 6:            = Allowed
2 22 primary     6 offer 6:            = Denied A2 7
5 55 primary     7 offer 6:            = Denied A4 0
3 33 secondary   7 offer 6:            = Denied A5 0
4 44 page_server 7 advance 3 1024      = Allowed
4 44 page_server 7 advance 4 1         = Denied B0 0
3 33 secondary   7 advance 3 1         = Denied A5 0
1 11 operator    7 audit 1 1024        = Allowed
1 11 operator    7 tidy                = Allowed
2 22 primary     7 audit 1 1           = Denied A5 0
3 33 operator    7 tidy                = Denied B0 0
";

#[test]
fn rows_of_reads_and_offers(rt: HostRuntime) {
    assert!(rt; plays::<Rules>(&rt, ROWS_OF_READS_AND_OFFERS));
}

const ANOTHER_TABLE: &str = "\
table start                            = Ok
3 33 secondary   7 pull 4 6 6 16       = Denied C1 5
table two_principals                   = Ok
3 33 secondary   7 pull 4 6 6 16       = Denied B2 0
3 33 secondary   7 pull 6 6 6 16       = Denied B4 0
3 33 secondary   7 pull 7 9 6 16       = Denied C1 5
3 33 secondary   7 status              = Allowed
3 33 page_server 7 pull 6 7 1 16       = Denied B4 0
2 22 primary     7 status              = Denied A1 0
";

#[test]
fn another_table(rt: HostRuntime) {
    assert!(rt; plays::<Rules>(&rt, ANOTHER_TABLE));
}
