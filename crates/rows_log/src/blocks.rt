//! Cases of the block codec: bytes spelled by hand from the format, and blocks made of records.

use transcripts::codec::Codec;
use transcripts::transcript::plays;

const EACH_FAULT_HAS_ITS_CODE: &str = "\
# Cut in the number.
decode 00000000000001                                                   = fault 1
# The numbers 0, 2^48 + 1 and 2^48.
decode 0000000000000000                                                 = fault 2
decode 0001000000000001                                                 = fault 2
decode 0001000000000000 0000 0000                                       = 281474976710656:
# Partition 5 twice.
decode 0000000000000001 0002 0005 0005                                  = fault 3
# The kinds 0 and 3.
decode 0000000000000001 0001 0000 0001 00 00000000                      = fault 4
decode 0000000000000001 0001 0000 0001 03 00000000                      = fault 4
# A Zero that is cut in its page.
decode 0000000000000001 0001 0000 0001 02 000000                        = fault 1
# A Put of no bytes, and one of 8,193 bytes.
decode 0000000000000001 0001 0000 0001 01 00000000 0000 0000            = fault 5
decode 0000000000000001 0001 0000 0001 01 00000000 0000 2001            = fault 6
# A byte more.
decode 0000000000000001 0000 0000 00                                    = fault 7
# An annotation without a record, and page 65536 annotated as partition 0 or not at all.
decode 0000000000000001 0001 0000 0000                                  = fault 8
decode 0000000000000001 0001 0000 0001 01 00010000 0000 0001 aa         = fault 8
decode 0000000000000001 0001 0000 0001 02 00010000                      = fault 8
decode 0000000000000001 0000 0001 02 00010000                           = fault 8
# Bytes of 0, which are too many or have the number 0.
decode zeros 32769                                                      = fault 9
decode zeros 32768                                                      = fault 2
";

#[test]
fn each_fault_has_its_code(rt: HostRuntime) {
    assert!(rt; plays::<Codec>(&rt, EACH_FAULT_HAS_ITS_CODE));
}

const FIRST_FAULT_IS_TOLD: &str = "\
# 2 before a cut.
decode 0000000000000000 00                                              = fault 2
# 3 before the list is missed.
decode 0000000000000001 0009 0005 0004                                  = fault 3
# 4 before the page is missed.
decode 0000000000000001 0000 0001 03                                    = fault 4
# 5 before 6.
decode 0000000000000001 0000 0001 01 00000000 2001 0000                 = fault 5
# 6 before the bytes are missed.
decode 0000000000000001 0000 0001 01 00000000 ffff ffff                 = fault 6
# The bytes are missed before 8.
decode 0000000000000001 0000 0001 01 00000000 0000 0002 aa              = fault 1
# 7 before 8.
decode 0000000000000001 0001 0000 0000 00                               = fault 7
";

#[test]
fn first_fault_is_reported(rt: HostRuntime) {
    assert!(rt; plays::<Codec>(&rt, FIRST_FAULT_IS_TOLD));
}

const PUT_AT_PAGE_END: &str = "\
decode 0000000000000001 0001 0000 0001 01 00000000 1fff 0001 aa         = 1:aa@0+8191
decode 0000000000000001 0001 0000 0001 01 00000000 1fff 0002 aabb       = fault 6
decode 0000000000000001 0001 0000 0001 01 00000000 1fff 0000            = fault 5
";

#[test]
fn put_at_page_end(rt: HostRuntime) {
    assert!(rt; plays::<Codec>(&rt, PUT_AT_PAGE_END));
}

const READS_AND_WRITES_THE_BYTES: &str = "\
decode 0000000000000001 0001 0000 0001 01 00000000 0000 0001 aa         = 1:aa
encode 1:aa                   = 0000000000000001000100000001010000000000000001aa
decode 0000000000000001 0000 0000                                       = 1:
encode 1:                     = 000000000000000100000000
decode 0000000000000007 0002 0001 ffff 0002 \
 01 ffffffff 0102 0002 0a0b 01 00010000 0000 0001 0c = 7:0a0b@4294967295+258,0c@65536
encode 7:0a0b@4294967295+258,0c@65536 \
 = 000000000000000700020001ffff000201ffffffff010200020a0b0100010000000000010c
decode 0000000000000001 0001 0000 0001 02 00000000                      = 1:zero
encode 1:zero                 = 00000000000000010001000000010200000000
decode 0000000000000002 0002 0000 ffff 0003 \
 02 ffffffff 01 00000001 0000 0001 aa 02 00000001 = 2:zero@4294967295,aa@1,zero@1
encode 2:zero@4294967295,aa@1,zero@1 \
 = 000000000000000200020000ffff000302ffffffff010000000100000001aa0200000001
";

#[test]
fn reads_and_writes_the_bytes(rt: HostRuntime) {
    assert!(rt; plays::<Codec>(&rt, READS_AND_WRITES_THE_BYTES));
}

const WRITES_BEHIND_WHAT_STANDS: &str = "\
block 1:aa                    = 24 bytes
block 1:                      = 12 bytes
onto 1:                       = 000000000000000100000000
onto 1:aa                     = 000000000000000100000000\
0000000000000001000100000001010000000000000001aa
";

#[test]
fn block_is_appended(rt: HostRuntime) {
    assert!(rt; plays::<Codec>(&rt, WRITES_BEHIND_WHAT_STANDS));
}

const MAKING_TELLS_THE_FIRST_FAULT: &str = "\
# 2 before 5, and above 2^48.
block 0:0*aa,2*aa@0+8191                         = fault 2
block 281474976710657:aa,aa                      = fault 2
# The first faulty record.
block 1:0*aa,2*aa@0+8191                         = fault 5
block 1:2*aa@0+8191,0*aa                         = fault 6
block 281474976710656:aa@0+8191,8192*aa          = 8225 bytes
block 1:zero,2*aa@0+8191,0*aa                    = fault 6
block 1:zero,zero@4294967295                     = 26 bytes
";

#[test]
fn making_reports_the_first_fault(rt: HostRuntime) {
    assert!(rt; plays::<Codec>(&rt, MAKING_TELLS_THE_FIRST_FAULT));
}

const LARGEST_BLOCK: &str = "\
block 1:8192*aa,8192*aa,8192*aa,8142*aa          = 32768 bytes
block 1:8192*aa,8192*aa,8192*aa,8143*aa          = fault 9
";

#[test]
fn largest_block(rt: HostRuntime) {
    assert!(rt; plays::<Codec>(&rt, LARGEST_BLOCK));
}

const BLOCK_OF_20000_BYTES: &str = "\
block 5:8192*01,8192*02@70000,3571*03@4294967295 = 20000 bytes
";

#[test]
fn block_of_20000_bytes(rt: HostRuntime) {
    assert!(rt; plays::<Codec>(&rt, BLOCK_OF_20000_BYTES));
}

// 12 bytes, 2 for the one partition, and 10 for each record.
const BLOCK_OF_2700_RECORDS: &str = "\
records 2700                                     = 27014 bytes
records 3275                                     = 32764 bytes
records 3276                                     = fault 9
";

#[test]
fn block_of_2700_records(rt: HostRuntime) {
    assert!(rt; plays::<Codec>(&rt, BLOCK_OF_2700_RECORDS));
}

const TELLS_ITS_PARTITIONS: &str = "\
partitions 7:aa@65536,aa,aa@131071,aa@4294967295 = 0 1 65535
touches 7:aa@65536,aa,aa@131071,aa@4294967295 1  = true
touches 7:aa@65536,aa,aa@131071,aa@4294967295 2  = false
partitions 7:                                    =
same 7:aa@65536,aa,aa@131071 7:aa@65536,aa,aa@131071 = true
same 7:aa@65536,aa,aa@131071 7:aa@65536,aa       = false
same 7:aa@65536,aa 7:aa@65536,ab                 = false
same 7:aa@65536 7:aa@65536+1                     = false
same 7:aa 1:aa                                   = false
partitions 7:zero@65536,aa,zero@4294967295       = 0 1 65535
touches 7:zero@65536 1                           = true
touches 7:zero@65536 0                           = false
same 7:zero@65536 7:zero@65536                   = true
same 7:zero@65536 7:zero@65537                   = false
same 7:zero 7:00                                 = false
# Bytes of less than a run of 32, of one, of one and a byte, and of two that overlap: equal, and different in one byte.
same 7:31*aa \
 7:aaaaaaaaaaaaaaaaaaaaaaaaaaaaaaaaaaaaaaaaaaaaaaaaaaaaaaaaaaaaaa = true
same 7:31*aa \
 7:abaaaaaaaaaaaaaaaaaaaaaaaaaaaaaaaaaaaaaaaaaaaaaaaaaaaaaaaaaaaa = false
same 7:31*aa \
 7:aaaaaaaaaaaaaaaaaaaaaaaaaaaaaaaaaaaaaaaaaaaaaaaaaaaaaaaaaaaaab = false
same 7:32*aa \
 7:aaaaaaaaaaaaaaaaaaaaaaaaaaaaaaaaaaaaaaaaaaaaaaaaaaaaaaaaaaaaaaaa = true
same 7:32*aa \
 7:abaaaaaaaaaaaaaaaaaaaaaaaaaaaaaaaaaaaaaaaaaaaaaaaaaaaaaaaaaaaaaa = false
same 7:32*aa \
 7:aaaaaaaaaaaaaaaaaaaaaaaaaaaaaaaaaaaaaaaaaaaaaaaaaaaaaaaaaaaaaaab = false
same 7:33*aa \
 7:aaaaaaaaaaaaaaaaaaaaaaaaaaaaaaaaaaaaaaaaaaaaaaaaaaaaaaaaaaaaaaaaaa = true
same 7:33*aa \
 7:abaaaaaaaaaaaaaaaaaaaaaaaaaaaaaaaaaaaaaaaaaaaaaaaaaaaaaaaaaaaaaaaa = false
same 7:33*aa \
 7:aaaaaaaaaaaaaaaaaaaaaaaaaaaaaaaaaaaaaaaaaaaaaaaaaaaaaaaaaaaaaaabaa = false
same 7:33*aa \
 7:aaaaaaaaaaaaaaaaaaaaaaaaaaaaaaaaaaaaaaaaaaaaaaaaaaaaaaaaaaaaaaaaab = false
same 7:60*aa \
 7:aaaaaaaaaaaaaaaaaaaaaaaaaaaaaaaaaaaaaaaaaaaaaaaaaaaaaaaaaaaaaaaaaaaaaaaaaaaaaaaaaaaaaaaaaaaaaaaaaaaaaaaaaaaaaaaaaaaaaaaa = true
same 7:60*aa \
 7:abaaaaaaaaaaaaaaaaaaaaaaaaaaaaaaaaaaaaaaaaaaaaaaaaaaaaaaaaaaaaaaaaaaaaaaaaaaaaaaaaaaaaaaaaaaaaaaaaaaaaaaaaaaaaaaaaaaaaaa = false
same 7:60*aa \
 7:aaaaaaaaaaaaaaaaaaaaaaaaaaaaaaaaaaaaaaaaaaaaaaaaaaaaaaabaaaaaaaaaaaaaaaaaaaaaaaaaaaaaaaaaaaaaaaaaaaaaaaaaaaaaaaaaaaaaaaa = false
same 7:60*aa \
 7:aaaaaaaaaaaaaaaaaaaaaaaaaaaaaaaaaaaaaaaaaaaaaaaaaaaaaaaaabaaaaaaaaaaaaaaaaaaaaaaaaaaaaaaaaaaaaaaaaaaaaaaaaaaaaaaaaaaaaaa = false
same 7:60*aa \
 7:aaaaaaaaaaaaaaaaaaaaaaaaaaaaaaaaaaaaaaaaaaaaaaaaaaaaaaaaaaaaaaabaaaaaaaaaaaaaaaaaaaaaaaaaaaaaaaaaaaaaaaaaaaaaaaaaaaaaaaa = false
same 7:60*aa \
 7:aaaaaaaaaaaaaaaaaaaaaaaaaaaaaaaaaaaaaaaaaaaaaaaaaaaaaaaaaaaaaaaaabaaaaaaaaaaaaaaaaaaaaaaaaaaaaaaaaaaaaaaaaaaaaaaaaaaaaaa = false
same 7:60*aa \
 7:aaaaaaaaaaaaaaaaaaaaaaaaaaaaaaaaaaaaaaaaaaaaaaaaaaaaaaaaaaaaaaaaaaaaaaaaaaaaaaaaaaaaaaaaaaaaaaaaaaaaaaaaaaaaaaaaaaaaaaab = false
same 7:8192*aa 7:8192*aa                         = true
same 7:8192*aa 7:8191*aa                         = false
";

#[test]
fn tells_its_partitions(rt: HostRuntime) {
    assert!(rt; plays::<Codec>(&rt, TELLS_ITS_PARTITIONS));
}
