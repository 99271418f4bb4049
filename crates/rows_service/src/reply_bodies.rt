//! Cases of the bodies of replies, spelled by hand from the format.

use crate::wire::Wire;
use transcripts::transcript::plays;

// Of a status: epoch and primary, hard, pending and landing.
const REPLIES_AS_BYTES: &str = "\
reply Done                                   = 00
reply Status 16909060 286397204 2387509390608836392 3544952156018063160 4702394921427289928 \
 = 040102030411121314212223242526272831323334353637384142434445464748
reply Denied C1 0                            = 050300010000000000000000
reply Denied A258 217304205466536202         = 05010102030405060708090a
reply NoMemory                               = 06
reply AuditFull                              = 07
reply Spent                                  = 08
reply NoDatabase                             = 09
reply Malformed 1                            = 0a01
reply Malformed 15                           = 0a0f
reply Malformed 0                            = does not fit
reply Malformed 16                           = does not fit
";

#[test]
fn replies_as_bytes(rt: HostRuntime) {
    assert!(rt; plays::<Wire>(&rt, REPLIES_AS_BYTES));
}

// The LSN, and 8,192 bytes.
const PAGES_AS_BYTES: &str = "\
reply Page 0                                 = 02 8200*00
reply Page 72623859790382856 aa+0            = 020102030405060708aa 8191*00
reply Page 5 0a+1 ee+8191                    = 020000000000000005000a 8189*00 ee
size Page 5 0a+1 ee+8191                     = 8201
size Page 5 of 8192                          = 8201
size Page 5 of 8191                          = does not fit
size Page 5 of 8193                          = does not fit
size Page 5 of 0                             = does not fit
";

#[test]
fn pages_as_bytes(rt: HostRuntime) {
    assert!(rt; plays::<Wire>(&rt, PAGES_AS_BYTES));
}

// A count; of each line number, pass, principal, role, epoch, operation, a, b, section, row and value.
const ENTRIES_AS_BYTES: &str = "\
reply Entries                                = 030000
reply Entries 1/1/2/primary/0/status/0/0/A2:1 = 030001\
00000000000000010000000000000001000000020100000000070000000000000000000000000000000001\
00020000000000000001
reply Entries 72623859790382856/1230066625199609624/555885348/page_server/825373492/tidy/\
4702394921427289928/5859837686836516696/C24930:8174723217654970232 \
1/0/4294967295/operator/1/audit/2/3/allowed = 030002\
010203040506070811121314151617182122232403313233340b4142434445464748515253545556575803\
61627172737475767778\
00000000000000010000000000000000ffffffff04000000010a0000000000000002000000000000000300\
00000000000000000000
size Entries times 1024 1/1/2/primary/0/status/0/0/A2:1 = 54275
size Entries times 1025 1/1/2/primary/0/status/0/0/A2:1 = does not fit
";

#[test]
fn entries_as_bytes(rt: HostRuntime) {
    assert!(rt; plays::<Wire>(&rt, ENTRIES_AS_BYTES));
}

// Next and count; then each block's length and its bytes.
const BLOCKS_AS_BYTES: &str = "\
reply Blocks 72623859790382856               = 0101020304050607080000
reply Blocks 2 1:aa 1:aa                     = 0100000000000000020002\
000000180000000000000001000100000001010000000000000001aa\
000000180000000000000001000100000001010000000000000001aa
reply Blocks 3 2:                            = 0100000000000000030001\
0000000c000000000000000200000000
";

#[test]
fn blocks_as_bytes(rt: HostRuntime) {
    assert!(rt; plays::<Wire>(&rt, BLOCKS_AS_BYTES));
}

// 11 bytes, and 28 for each block.
const REPLY_OF_SIXTEEN_BLOCKS: &str = "\
reply Blocks 17 1:01 2:02 3:03 4:04 5:05 6:06 7:07 8:08 \
9:09 10:0a 11:0b 12:0c 13:0d 14:0e 15:0f 16:10 \
= 0100000000000000110010\
00000018000000000000000100010000000101000000000000000101\
00000018000000000000000200010000000101000000000000000102\
00000018000000000000000300010000000101000000000000000103\
00000018000000000000000400010000000101000000000000000104\
00000018000000000000000500010000000101000000000000000105\
00000018000000000000000600010000000101000000000000000106\
00000018000000000000000700010000000101000000000000000107\
00000018000000000000000800010000000101000000000000000108\
00000018000000000000000900010000000101000000000000000109\
00000018000000000000000a0001000000010100000000000000010a\
00000018000000000000000b0001000000010100000000000000010b\
00000018000000000000000c0001000000010100000000000000010c\
00000018000000000000000d0001000000010100000000000000010d\
00000018000000000000000e0001000000010100000000000000010e\
00000018000000000000000f0001000000010100000000000000010f\
00000018000000000000001000010000000101000000000000000110
reply Blocks 18 1:01 2:02 3:03 4:04 5:05 6:06 7:07 8:08 \
9:09 10:0a 11:0b 12:0c 13:0d 14:0e 15:0f 16:10 17:11 = does not fit
";

#[test]
fn reply_of_sixteen_blocks(rt: HostRuntime) {
    assert!(rt; plays::<Wire>(&rt, REPLY_OF_SIXTEEN_BLOCKS));
}
