//! Rows of a log on its own: what is served of its hardened blocks.

use crate::log::Log;
use transcripts::transcript::plays;

// Partition 0, partition 7, partition 0, none, partitions 7 and 0; then lo, hi, from, max and reach.
const PULL_IN_PARTS: &str = "\
log 3 2                  = Ok
write 1:aa 0             = Ok
write 1:aa 1             = Ok
write 2:aa@458752 0      = Ok
write 2:aa@458752 1      = Ok
write 3:aa@65535 0       = Ok
write 3:aa@65535 1       = Ok
write 4: 0               = Ok
write 4: 1               = Ok
write 5:aa@458752,aa 0   = Ok
write 5:aa@458752,aa 1   = Ok
report 5                 = Ok
pull 0 65535 1 16 5      = 6 1:aa 2:aa@458752 3:aa@65535 5:aa@458752,aa
pull 0 65535 1 4 5       = 6 1:aa 2:aa@458752 3:aa@65535 5:aa@458752,aa
pull 0 0 1 2 5           = 4 1:aa 3:aa@65535
pull 0 0 4 2 5           = 6 5:aa@458752,aa
pull 1 7 1 1 5           = 3 2:aa@458752
pull 1 6 1 16 5          = 6
pull 0 65535 2 16 3      = 4 2:aa@458752 3:aa@65535
pull 0 65535 6 16 5      = 6
pull 0 65535 9 16 5      = 6
pull 0 65535 0 1 5       = 2 1:aa
pull 7 1 1 16 5          = 6
pull 0 65535 1 16 0      = 1
";

#[test]
fn pull_in_parts(rt: HostRuntime) {
    assert!(rt; plays::<Log>(&rt, PULL_IN_PARTS));
}

const READ_FROM_BOTH_STORES: &str = "\
log 3 2                = Ok
in_broker              = 0
tidy                   = Ok
in_broker              = 0
harden 1 256           = Ok
in_broker              = 256
harden 257 300         = Ok
hard                   = 300
in_broker              = 256
read 1                 = 1:01
read 44                = 44:2c
read 45                = 45:2d
read 300               = 300:2c
pull 0 65535 43 4 300  = 47 43:2b 44:2c 45:2d 46:2e
tidy                   = Ok
in_broker              = 64
hard                   = 300
counts                 = 0 300
pull 0 65535 236 2 300 = 238 236:ec 237:ed
read 236               = 236:ec
read 237               = 237:ed
tidy                   = Ok
in_broker              = 64
pull 1 65535 1 16 300  = 301
pull 0 0 299 16 300    = 301 299:2b 300:2c
harden 301 301         = Ok
in_broker              = 65
read 44                = 44:2c
read 301               = 301:2d
write 302:aa 0         = Ok
write 302:aa 2         = Ok
write 304:bb 0         = Ok
recover                = 1
hard                   = 302
in_broker              = 66
read 302               = 302:aa
annulled 1 304         = 304:bb
";

#[test]
fn read_from_both_stores(rt: HostRuntime) {
    assert!(rt; plays::<Log>(&rt, READ_FROM_BOTH_STORES));
}
