//! Cases of the bodies of requests, spelled by hand from the format.
//!
//! `act ROLE OP ARGUMENTS..` is a body of principal 2, by the numbers of its role and operation.

use crate::wire::Wire;
use transcripts::transcript::plays;

const FAULTS_OF_THE_BODY: &str = "\
# No bytes, and 29 bytes.
body                                               = fault 1
body 00000002 22222222222222222222222222222222 01 00000000 00000001 = fault 1
# The roles 0 and 5.
act 0 1 00 0000000000000001 0001 0000 0001 01 00000000 0000 0001 aa = fault 2
act 5 1 00 0000000000000001 0001 0000 0001 01 00000000 0000 0001 aa = fault 2
# The operations 0, 12 and 255.
act 1 0                                            = fault 3
act 1 12                                           = fault 3
act 1 255                                          = fault 3
# A write without copy, a report of 7 bytes, a pull without its max, a failover of 3 bytes.
act 1 1                                            = fault 4
act 1 3 00000000000001                             = fault 4
act 2 5 0000 ffff 0000000000000001                 = fault 4
act 4 8 000002                                     = fault 4
# A get without its exact, an advance without its steps, an audit of 9 bytes.
act 2 4 00000000 0000000000000000                  = fault 4
act 3 6 0000                                       = fault 4
act 4 10 0000000000000001 00                       = fault 4
# A byte more.
act 4 8 00000002 00                                = fault 5
act 1 3 0000000000000001 00                        = fault 5
act 2 5 0000 ffff 0000000000000001 0010 00         = fault 5
act 4 7 00                                         = fault 5
act 2 4 00000000 0000000000000000 00 00            = fault 5
act 3 6 0000 0001 00                               = fault 5
act 4 10 0000000000000001 0001 00                  = fault 5
act 4 11 00                                        = fault 5
# A report of 2^48 + 1; pulls from 2 to 1, from number 0 and 2^48 + 1, of no and 17 blocks.
act 1 3 0001000000000001                           = fault 6
act 2 5 0002 0001 0000000000000001 0010            = fault 6
act 2 5 0000 0001 0000000000000000 0010            = fault 6
act 2 5 0000 0001 0001000000000001 0010            = fault 6
act 2 5 0000 0001 0000000000000001 0000            = fault 6
act 2 5 0000 0001 0000000000000001 0011            = fault 6
# A get at 2^48 + 1, and two that are neither exact nor not; advances by 0 and 1,025; audits from 0, of 0 and of 1,025.
act 2 4 00000000 0001000000000001 00               = fault 6
act 2 4 00000000 0000000000000000 02               = fault 6
act 2 4 00000000 0000000000000000 ff               = fault 6
act 3 6 0000 0000                                  = fault 6
act 3 6 0000 0401                                  = fault 6
act 4 10 0000000000000000 0001                     = fault 6
act 4 10 0000000000000001 0000                     = fault 6
act 4 10 0000000000000001 0401                     = fault 6
# Requests.
act 4 7                                            = status
act 4 8 00000002                                   = failover 2
act 1 3 0000000000000000                           = report 0
act 1 3 0001000000000000                           = report 281474976710656
act 2 5 0000 ffff 0000000000000001 0010            = pull 0 65535 1 16
act 2 4 ffffffff 0001000000000000 01               = get 4294967295 281474976710656 exact
act 2 4 00000009 0000000000000000 00               = get 9 0
act 3 6 0003 0400                                  = advance 3 1024
act 3 6 ffff 0001                                  = advance 65535 1
act 4 10 ffffffffffffffff 0400                     = audit 18446744073709551615 1024
act 4 10 0000000000000001 0001                     = audit 1 1
act 4 11                                           = tidy
";

#[test]
fn faults_of_the_body(rt: HostRuntime) {
    assert!(rt; plays::<Wire>(&rt, FAULTS_OF_THE_BODY));
}

// The first byte is the copy.
const FAULTS_OF_THE_BLOCK: &str = "\
# No block, and number 0.
act 1 1 00                                              = fault 7
act 1 1 00 0000000000000000                             = fault 8
# Partition 5 twice, kind 9, a Put of no and of 8,193 bytes.
act 1 1 00 0000000000000001 0002 0005 0005              = fault 9
act 1 1 00 0000000000000001 0000 0001 09 00000000       = fault 10
act 1 1 00 0000000000000001 0000 0001 01 00000000 0000 0000 = fault 11
act 1 1 00 0000000000000001 0000 0001 01 00000000 0000 2001 = fault 12
# A byte more, an annotation without a record, and 32,769 bytes of 0.
act 1 1 00 0000000000000001 0000 0000 00                = fault 13
act 1 1 00 0000000000000001 0001 0000 0000              = fault 14
act 1 1 32770*00                                        = fault 15
# An offer's block is all that follows the head.
act 1 2                                                 = fault 7
act 1 2 0000000000000000                                = fault 8
act 1 2 0000000000000001 0002 0005 0005                 = fault 9
act 1 2 0000000000000001 0000 0001 03 00000000          = fault 10
act 1 2 0000000000000001 0000 0001 02 000000            = fault 7
act 1 2 0000000000000001 0000 0001 02 00000000          = fault 14
act 1 2 0000000000000001 0000 0000 00                   = fault 13
act 1 2 32769*00                                        = fault 15
# Copy 255 is a request.
act 1 1 ff 0000000000000001 0000 0000                   = write 1: 255
";

#[test]
fn faults_of_the_block(rt: HostRuntime) {
    assert!(rt; plays::<Wire>(&rt, FAULTS_OF_THE_BLOCK));
}

const LEAST_CODE_IS_TOLD: &str = "\
# 1 before 2.
body 00000002 22222222222222222222222222222222 00 00000000 00000001 = fault 1
act 0 0                                                 = fault 2
act 1 12                                                = fault 3
# 4 before 6, and 5 before 6 in a pull and a report.
act 2 5 0002 0001 0000000000000000                      = fault 4
act 2 5 0000 0001 0000000000000000 0010 00              = fault 5
act 1 3 ffffffffffffffff 00                             = fault 5
# 8 before the block ends.
act 1 1 00 0000000000000000 00                          = fault 8
";

#[test]
fn least_code_is_reported(rt: HostRuntime) {
    assert!(rt; plays::<Wire>(&rt, LEAST_CODE_IS_TOLD));
}

// Principal, token, role, database, epoch and operation; partitions, number and at most.
const FIELDS_AT_THEIR_PLACES: &str = "\
body a1a2a3a4 000102030405060708090a0b0c0d0e0f 03 b1b2b3b4 c1c2c3c4 05 \
d1d2 e1e2 0000f1f2f3f4f5f6 0007 \
= 2711790500 000102030405060708090a0b0c0d0e0f page_server 2981278644 3250766788 \
pull 53714 57826 266025777296886 7
";

#[test]
fn fields_at_their_places(rt: HostRuntime) {
    assert!(rt; plays::<Wire>(&rt, FIELDS_AT_THEIR_PLACES));
}

// Block 1 in two copies, hardened, and pulled by another principal; each also cut by its last byte.
const RUN_IS_READ: &str = "\
body 00000002 22222222222222222222222222222222 01 00000000 00000001 01 \
00 0000000000000001 0001 0000 0001 01 00000000 0000 0001 aa \
= 2 22222222222222222222222222222222 primary 0 1 write 1:aa 0
body 00000002 22222222222222222222222222222222 01 00000000 00000001 01 \
00 0000000000000001 0001 0000 0001 01 00000000 0000 0001 = fault 7
body 00000002 22222222222222222222222222222222 01 00000000 00000001 01 \
01 0000000000000001 0001 0000 0001 01 00000000 0000 0001 aa \
= 2 22222222222222222222222222222222 primary 0 1 write 1:aa 1
body 00000002 22222222222222222222222222222222 01 00000000 00000001 01 \
01 0000000000000001 0001 0000 0001 01 00000000 0000 0001 = fault 7
body 00000002 22222222222222222222222222222222 01 00000000 00000001 03 \
0000000000000001 = 2 22222222222222222222222222222222 primary 0 1 report 1
body 00000002 22222222222222222222222222222222 01 00000000 00000001 03 \
00000000000000 = fault 4
body 00000003 33333333333333333333333333333333 02 00000000 00000001 05 \
0000 ffff 0000000000000001 0010 \
= 3 33333333333333333333333333333333 secondary 0 1 pull 0 65535 1 16
body 00000003 33333333333333333333333333333333 02 00000000 00000001 05 \
0000 ffff 0000000000000001 00 = fault 4
";

#[test]
fn run_is_read(rt: HostRuntime) {
    assert!(rt; plays::<Wire>(&rt, RUN_IS_READ));
}

const OFFER_HAS_ITS_BLOCK: &str = "\
act 1 2 0000000000000001 0001 0000 0001 01 00000000 0000 0001 aa = offer 1:aa
act 1 2 0000000000000007 0001 0001 0002 02 00010002 01 00010002 0003 0002 0a0b \
 = offer 7:zero@65538,0a0b@65538+3
act 1 2 0001000000000000 0000 0000                      = offer 281474976710656:
";

#[test]
fn offer_has_its_block(rt: HostRuntime) {
    assert!(rt; plays::<Wire>(&rt, OFFER_HAS_ITS_BLOCK));
}

// Of database 7: principal, token, role, database, epoch, operation, and the arguments.
const REQUESTS_AS_BYTES: &str = "\
request 2 22 primary 1 write 1:aa 2 = 000000022222222222222222222222222222222201000000070000000101\
020000000000000001000100000001010000000000000001aa
request 2 22 primary 1 offer 1: = 000000022222222222222222222222222222222201000000070000000102\
000000000000000100000000
request 2 22 primary 1 report 5 = 000000022222222222222222222222222222222201000000070000000103\
0000000000000005
request 3 33 secondary 2 get 65537 9 exact = 000000033333333333333333333333333333333302000000070000000204\
00010001000000000000000901
request 3 33 secondary 2 get 0 0 = 000000033333333333333333333333333333333302000000070000000204\
00000000000000000000000000
request 3 33 secondary 2 pull 1 2 3 4 = 000000033333333333333333333333333333333302000000070000000205\
0001000200000000000000030004
request 4 44 page_server 2 advance 3 1024 = 000000044444444444444444444444444444444403000000070000000206\
00030400
request 1 11 operator 2 status = 000000011111111111111111111111111111111104000000070000000207
request 1 11 operator 2 failover 5 = 000000011111111111111111111111111111111104000000070000000208\
00000005
request 1 11 operator 2 set_table x_is_1 = 000000011111111111111111111111111111111104000000070000000209\
78203d2031
request 1 11 operator 2 audit 258 1024 = 00000001111111111111111111111111111111110400000007000000020a\
00000000000001020400
request 1 11 operator 2 tidy = 00000001111111111111111111111111111111110400000007000000020b
";

#[test]
fn requests_as_bytes(rt: HostRuntime) {
    assert!(rt; plays::<Wire>(&rt, REQUESTS_AS_BYTES));
}

const WRITE_HAS_ITS_COPY_AND_BLOCK: &str = "\
act 1 1 02 0000000000000001 0001 0000 0001 01 00000000 0000 0001 aa = write 1:aa 2
act 1 1 00 0000000000000007 0001 0001 0001 01 00010002 0003 0002 0a0b = write 7:0a0b@65538+3 0
";

#[test]
fn write_has_its_copy_and_block(rt: HostRuntime) {
    assert!(rt; plays::<Wire>(&rt, WRITE_HAS_ITS_COPY_AND_BLOCK));
}

// A text is kept as it came, here its length, with the table that it writes down, here the count of
// its rows, or the code of its first fault.
const TEXTS_ARE_READ: &str = "\
act 4 9 text start              = set_table 661 rows 6
act 4 9 ff                      = set_table 1 fault 1
act 4 9                         = set_table 0 fault 3
act 4 9 text without_operator   = set_table 609 fault 12
";

#[test]
fn texts_are_read(rt: HostRuntime) {
    assert!(rt; plays::<Wire>(&rt, TEXTS_ARE_READ));
}

// A frame holds at most 65,536 bytes, of which the head takes 30.
const LONGEST_TEXT: &str = "\
act 4 9 65506*20                = set_table 65506 fault 3
act 4 9 65507*20                = fault 6
";

#[test]
fn longest_text(rt: HostRuntime) {
    assert!(rt; plays::<Wire>(&rt, LONGEST_TEXT));
}

// No UTF-8: a byte that is none, a wrong second byte, and half of a character.
const BYTES_THAT_ARE_NO_TEXT: &str = "\
act 4 9 ff                      = set_table 1 fault 1
act 4 9 2320 c328 0a            = set_table 5 fault 1
act 4 9 2320 c3                 = set_table 3 fault 1
act 4 9 2320 c3a9 0a            = set_table 5 fault 3
";

#[test]
fn bytes_that_are_no_text(rt: HostRuntime) {
    assert!(rt; plays::<Wire>(&rt, BYTES_THAT_ARE_NO_TEXT));
}

// The head that a request lends is the one that it gives up.
const PARTS_OF_A_REQUEST: &str = "\
body 00000003 00000000000000000000000000000000 02 00000000 00000001 05 \
0001 0002 0000000000000003 0004 \
= 3 00000000000000000000000000000000 secondary 0 1 pull 1 2 3 4
";

#[test]
fn parts_of_a_request(rt: HostRuntime) {
    assert!(rt; plays::<Wire>(&rt, PARTS_OF_A_REQUEST));
}
