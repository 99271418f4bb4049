//! Conversations of each operation, of many frames and of long ones.

use crate::talking::{PIECES, converses_as};

/// Each of the eleven operations, and bodies in between that are none.
pub(crate) const ALL_OPERATIONS: &str = "\
2 22 primary 1 offer 1:aa                  = Done
2 22 primary 1 write 1:aa 0                = Done
2 22 primary 1 write 1:aa 2                = Done
2..3 | 2 22 primary 1 write BLOCK 0        = Done
2..3 | 2 22 primary 1 write BLOCK 1        = Done
# No byte; the roles 0 and 5; the operation 12; a report of seven bytes.
body                                       = Malformed 1
body 00000002 16*22 00 00000000 00000001 07 = Malformed 2
body 00000002 16*22 05 00000000 00000001 07 = Malformed 2
body 00000002 16*22 01 00000000 00000001 0c = Malformed 3
body 00000002 16*22 01 00000000 00000001 03 00000000000003 = Malformed 4
2 22 primary 1 report 3                    = Done
2 22 primary 1 status                      = Status 1 2 3 1 2
4 44 page_server 1 advance 0 2             = Done
# Below the applied LSN, at it, above it, and above the end.
3 33 secondary 1 get 0 1                   = Page 2 02+0
3 33 secondary 1 get 0 1 exact             = Page 1 aa+0
2 22 primary 1 get 0 2                     = Page 2 02+0
2 22 primary 1 get 0 3                     = Page 3 03+0
3 33 secondary 1 get 0 4                   = Denied C1 3
3 33 secondary 1 pull 0 65535 1 16         = Blocks 4 1:aa 2:02 3:03
4 44 page_server 1 pull 0 3 2 1            = Blocks 3 2:02
4 44 page_server 1 pull 0 4 2 1            = Denied B0 0
# A byte more.
body 00000001 16*11 04 00000000 00000001 0b 00 = Malformed 5
1 11 operator 1 tidy                       = Done
2 11 primary 1 status                      = Denied A1 0
1 11 operator 1 failover 5                 = Done
2 22 primary 1 status                      = Denied A2 2
1 11 operator 2 set_table x                = Denied C7 1
1 11 operator 2 set_table other            = Done
3 33 secondary 2 pull 0 65535 1 16         = Denied B1 0
database 1 1 11 operator 2 status          = NoDatabase
# What was denied A1, or is of no database, has no entry.
1 11 operator 2 audit 9 2                  = \
 Entries 9/1/2/primary/1/status/0/0/allowed 10/1/4/page_server/1/advance/0/2/allowed
1 11 operator 2 audit 20 3                 = \
 Entries 20/1/1/operator/1/failover/5/0/allowed 21/1/2/primary/1/status/0/0/A2:2 \
 22/1/1/operator/2/set_table/1/0/C7:1
1 11 operator 2 audit 26 2                 = \
 Entries 26/1/1/operator/2/audit/20/3/allowed
";

/// Each of the eleven operations over a connection, and bodies in between that are none; a get below
/// the applied LSN is answered at that one.
#[test]
fn all_operations(rt: HostRuntime) {
    assert!(&rt; converses_as(rt, ALL_OPERATIONS, &PIECES));
}

const THOUSAND_FRAMES: &str = "\
1..64 | 2 22 primary 1 write BLOCK 0       = Done
1..64 | 2 22 primary 1 write BLOCK 1       = Done
2 22 primary 1 report 64                   = Done
1..500 | 3 33 secondary 1 pull 0 65535 64 1 = Blocks 65 64:40
1..9 | body 07                             = Malformed 1
1..500 | 2 22 primary 1 status             = Status 1 2 64 0 64
1..100 | 4 44 page_server 1 advance 3 1    = Done
3 33 secondary 1 get 196608 1              = Page 64
1 11 operator 1 audit 1229 2               = \
 Entries 1229/1/4/page_server/1/advance/3/1/allowed 1230/1/3/secondary/1/get/1/196608/allowed
";

/// A conversation of 1,240 frames.
#[test]
fn thousand_frames(rt: HostRuntime) {
    assert!(&rt; converses_as(rt, THOUSAND_FRAMES, &PIECES));
}

const BURST_OF_2000: &str = "\
1..2000 | 2 22 primary 1 status            = Status 1 2 0 0 0
";

/// Two thousand small requests that are all there at once, so that their replies wait together.
#[test]
fn burst_of_2000(rt: HostRuntime) {
    assert!(&rt; converses_as(rt, BURST_OF_2000, &[usize::MAX]));
}

const PAGES_AT_HAND: &str = "\
1..2 | 2 22 primary 1 write BLOCK 0        = Done
1..2 | 2 22 primary 1 write BLOCK 1        = Done
2 22 primary 1 report 2                    = Done
1..70 | 3 33 secondary 1 get 0 1 exact     = Page 1 01+0
1..3 | 2 22 primary 1 status               = Status 1 2 2 0 2
";

/// Seventy gets that are all there at once: more than twice 256 KiB of replies.
#[test]
fn buffered_pages(rt: HostRuntime) {
    assert!(&rt; converses_as(rt, PAGES_AT_HAND, &[65_540, usize::MAX]));
}

const LARGE_REPLIES: &str = "\
1..1024 | 2 22 primary 1 status            = Status 1 2 0 0 0
1 11 operator 1 audit 1 1024               = Statuses 1024
1..16 | 2 22 primary 1 write LARGE 0       = Done
1..16 | 2 22 primary 1 write LARGE 1       = Done
2 22 primary 1 write 17:0a@1,ee@1+8191 0   = Done
2 22 primary 1 write 17:0a@1,ee@1+8191 2   = Done
2 22 primary 1 report 17                   = Done
3 33 secondary 1 pull 0 65535 1 16         = Blocks 17 \
 1:8192*01,8192*01,8192*01,8142*01 2:8192*02,8192*02,8192*02,8142*02 \
 3:8192*03,8192*03,8192*03,8142*03 4:8192*04,8192*04,8192*04,8142*04 \
 5:8192*05,8192*05,8192*05,8142*05 6:8192*06,8192*06,8192*06,8142*06 \
 7:8192*07,8192*07,8192*07,8142*07 8:8192*08,8192*08,8192*08,8142*08 \
 9:8192*09,8192*09,8192*09,8142*09 10:8192*0a,8192*0a,8192*0a,8142*0a \
 11:8192*0b,8192*0b,8192*0b,8142*0b 12:8192*0c,8192*0c,8192*0c,8142*0c \
 13:8192*0d,8192*0d,8192*0d,8142*0d 14:8192*0e,8192*0e,8192*0e,8142*0e \
 15:8192*0f,8192*0f,8192*0f,8142*0f 16:8192*10,8192*10,8192*10,8142*10
3 33 secondary 1 get 1 17                  = Page 17 0a+0 ee+8191
";

/// The longest list of lines, the longest list of the longest blocks, and a page.
#[test]
fn large_replies(rt: HostRuntime) {
    assert!(&rt; converses_as(rt, LARGE_REPLIES, &[4_096, usize::MAX]));
}

const LARGEST_BLOCK_AND_TEXT: &str = "\
# The block of 32,768 bytes, and the same bytes again; and one byte more in its last Put.
2 22 primary 1 write 1:8192*aa,8192*aa,8192*aa,8142*aa 0 = Done
body 00000002 16*22 01 00000000 00000001 01 00 0000000000000001 0001 0000 0004 \
 01 00000000 0000 2000 8192*aa 01 00000000 0000 2000 8192*aa 01 00000000 0000 2000 8192*aa \
 01 00000000 0000 1fce 8142*aa = Done
body 00000002 16*22 01 00000000 00000001 01 00 0000000000000001 0001 0000 0004 \
 01 00000000 0000 2000 8192*aa 01 00000000 0000 2000 8192*aa 01 00000000 0000 2000 8192*aa \
 01 00000000 0000 1fcf 8143*aa = Malformed 15
# A block of as many bytes, in an offer.
2 22 primary 1 offer 2:8192*bb,8192*bb,8192*bb,8142*bb = Done
# The longest body, a text that is no table.
1 11 operator 1 set_table spaces 65506     = Denied C7 3
# The bodies of the stored run without their last bytes.
body 00000002 16*22 01 00000000 00000001 01 00 0000000000000001 0001 0000 0001 \
 01 00000000 0000 0001 = Malformed 7
body 00000002 16*22 01 00000000 00000001 01 01 0000000000000001 0001 0000 0001 \
 01 00000000 0000 0001 = Malformed 7
body 00000002 16*22 01 00000000 00000001 03 00000000000000 = Malformed 4
body 00000003 16*33 02 00000000 00000001 05 0000 ffff 0000000000000001 00 = Malformed 4
1 11 operator 1 audit 1 16                 = \
 Entries 1/1/2/primary/1/write/1/0/allowed 2/1/2/primary/1/write/1/0/allowed \
 3/1/2/primary/1/offer/2/0/allowed 4/1/1/operator/1/set_table/65506/0/C7:3
";

/// The largest block, one byte more, the largest block in an offer, the longest text, and bodies without their last byte.
#[test]
fn largest_block_and_text(rt: HostRuntime) {
    assert!(&rt; converses_as(rt, LARGEST_BLOCK_AND_TEXT, &PIECES));
}
