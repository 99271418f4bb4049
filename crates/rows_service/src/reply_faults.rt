//! Cases of the bodies of replies that are read, spelled by hand from the format.

use crate::wire::Wire;
use transcripts::transcript::plays;

const REPLIES_ARE_READ: &str = "\
answer 00                                               = Done
answer 01 0102030405060708 0000                         = Blocks 72623859790382856
answer 01 0000000000000002 0001 00000018 \
0000000000000001 0001 0000 0001 01 00000000 0000 0001 aa = Blocks 2 1:aa
answer 02 0000000000000005 05 8190*00 ee                = Page 5 05+0 ee+8191
answer 02 8200*00                                       = Page 0
answer 03 0000                                          = Entries
answer 03 0001 0000000000000001 0000000000000001 00000002 01 00000000 07 \
0000000000000000 0000000000000000 01 0002 0000000000000001 \
 = Entries 1/1/2/primary/0/status/0/0/A2:1
answer 04 01020304 11121314 2122232425262728 3132333435363738 4142434445464748 \
 = Status 16909060 286397204 2387509390608836392 3544952156018063160 4702394921427289928
# A row number is not compared with its section.
answer 05 01 ffff 0000000000000000                      = Denied A65535 0
answer 05 02 0000 ffffffffffffffff                      = Denied B0 18446744073709551615
answer 06                                               = NoMemory
answer 07                                               = AuditFull
answer 08                                               = Spent
answer 09                                               = NoDatabase
answer 0a 01                                            = Malformed 1
answer 0a 0f                                            = Malformed 15
";

#[test]
fn replies_are_read(rt: HostRuntime) {
    assert!(rt; plays::<Wire>(&rt, REPLIES_ARE_READ));
}

const FAULTS_OF_REPLIES: &str = "\
answer                                                  = fault 1
answer 0b                                               = fault 3
answer ff 00                                            = fault 3
# Cut in a field, and a byte more.
answer 01 0102030405060708 00                           = fault 4
answer 02 8199*00                                       = fault 4
answer 02 8201*00                                       = fault 5
answer 03 00                                            = fault 4
answer 03 0001                                          = fault 4
answer 04 00000001 00000001                             = fault 4
answer 05 01 0001 00000000000000                        = fault 4
answer 0a                                               = fault 4
answer 00 00                                            = fault 5
answer 03 0000 00                                       = fault 5
answer 05 01 0001 0000000000000000 00                   = fault 5
answer 0a 01 00                                         = fault 5
# Of 17 blocks and 1,025 lines, though they are missed; the sections 0 and 4, the codes 0 and 16.
answer 01 0000000000000001 0011                         = fault 6
answer 03 0401                                          = fault 6
answer 05 00 0001                                       = fault 6
answer 05 04 0001 0000000000000000                      = fault 6
answer 0a 00                                            = fault 6
answer 0a 10 00                                         = fault 6
";

#[test]
fn faults_of_replies(rt: HostRuntime) {
    assert!(rt; plays::<Wire>(&rt, FAULTS_OF_REPLIES));
}

const FAULTS_OF_SERVED_BLOCKS: &str = "\
# A length of 32,769, of 32,768 without bytes, and of one byte more than the block has.
answer 01 0000000000000002 0001 00008001                = fault 15
answer 01 0000000000000002 0001 00008000                = fault 4
answer 01 0000000000000002 0001 0000000d 0000000000000001 0000 0000 00 = fault 13
# A length of 0, LSN 0, kind 3, a block that is cut, and one without its annotation.
answer 01 0000000000000002 0001 00000000                = fault 7
answer 01 0000000000000002 0001 00000008 0000000000000000 = fault 8
answer 01 0000000000000002 0001 0000000d 0000000000000001 0000 0001 03 = fault 10
answer 01 0000000000000002 0001 0000000b 0000000000000001 0000 00 = fault 7
answer 01 0000000000000002 0001 00000011 0000000000000001 0000 0001 02 00000000 = fault 14
# The first of two blocks, before a second that is missed, and before a byte too many.
answer 01 0000000000000002 0002 00000008 0000000000000000 = fault 8
answer 01 0000000000000002 0001 00000008 0000000000000000 00 = fault 8
answer 01 0000000000000002 0002 0000000c 0000000000000001 0000 0000 = fault 4
";

#[test]
fn faults_of_served_blocks(rt: HostRuntime) {
    assert!(rt; plays::<Wire>(&rt, FAULTS_OF_SERVED_BLOCKS));
}

// A field's fault comes before what follows is missed, that of a verdict once its value is whole.
const FAULTS_OF_LINES: &str = "\
answer 03 0001 0000000000000001 0000000000000001 00000002 00 = fault 2
answer 03 0001 0000000000000001 0000000000000001 00000002 05 = fault 2
answer 03 0001 0000000000000001 0000000000000001 00000002 = fault 4
answer 03 0001 0000000000000001 0000000000000001 00000002 04 ffffffff 00 = fault 3
answer 03 0001 0000000000000001 0000000000000001 00000002 04 ffffffff 0c = fault 3
answer 03 0001 0000000000000001 0000000000000001 00000002 04 ffffffff 0b 16*00 04 = fault 6
answer 03 0001 0000000000000001 0000000000000001 00000002 04 ffffffff 0b 16*00 00 0001 = fault 4
answer 03 0001 0000000000000001 0000000000000001 00000002 04 ffffffff 0b 16*00 00 0001 8*00 = fault 6
answer 03 0001 0000000000000001 0000000000000001 00000002 04 ffffffff 0b 16*00 00 0000 7*00 01 = fault 6
answer 03 0001 0000000000000001 0000000000000001 00000002 04 ffffffff 0b 16*00 03 0000 8*00 \
 = Entries 1/1/2/operator/4294967295/tidy/0/0/C0:0
answer 03 0001 0000000000000001 0000000000000001 00000002 04 ffffffff 0b 16*00 00 0000 8*00 \
 = Entries 1/1/2/operator/4294967295/tidy/0/0/allowed
answer 03 0001 0000000000000001 0000000000000001 00000002 04 ffffffff 0b 16*00 00 0000 9*00 = fault 5
";

#[test]
fn faults_of_lines(rt: HostRuntime) {
    assert!(rt; plays::<Wire>(&rt, FAULTS_OF_LINES));
}
