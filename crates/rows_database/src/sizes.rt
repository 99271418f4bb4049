//! Rows of one database at the sizes that users have.

use crate::database::Database;
use transcripts::transcript::plays;

const THREE_HUNDRED_BLOCKS: &str = "\
open start 2 65536                   = Ok
2 22 primary 1 fill 1 50 0           = Done
2 22 primary 1 fill 1 50 2           = Done
2 22 primary 1 report 50             = Done
2 22 primary 1 fill 51 100 0         = Done
2 22 primary 1 fill 51 100 2         = Done
2 22 primary 1 report 100            = Done
2 22 primary 1 fill 101 150 0        = Done
2 22 primary 1 fill 101 150 2        = Done
2 22 primary 1 report 150            = Done
2 22 primary 1 fill 151 200 0        = Done
2 22 primary 1 fill 151 200 2        = Done
2 22 primary 1 report 200            = Done
2 22 primary 1 fill 201 250 0        = Done
2 22 primary 1 fill 201 250 2        = Done
2 22 primary 1 report 250            = Done
2 22 primary 1 fill 251 300 0        = Done
2 22 primary 1 fill 251 300 2        = Done
2 22 primary 1 report 300            = Done
in_broker                            = 256
1 11 operator 1 tidy                 = Done
in_broker                            = 64
2 22 primary 1 status                = Status 1 2 300 0 300
3 33 secondary 1 pull 0 65535 1 1    = Blocks 2 1:01
3 33 secondary 1 get 0 300 exact     = Page 300 2c+0
3 33 secondary 1 get 0 255 exact     = Page 255 ff+0
3 33 secondary 1 get 0 256 exact     = Page 256
4 44 page_server 1 advance 0 1024    = Done
3 33 secondary 1 get 0 1             = Page 300 2c+0
3 33 secondary 1 pull 0 65535 256 2  = Blocks 258 256:00 257:01
3 33 secondary 1 pull 0 65535 300 16 = Blocks 301 300:2c
3 33 secondary 1 pull 0 65535 301 16 = Denied C1 300
2 22 primary 1 write 300:2c 0        = Denied C2 300
2 22 primary 1 write 365:6d 0        = Denied C3 300
";

#[test]
fn three_hundred_blocks(rt: HostRuntime) {
    assert!(rt; plays::<Database>(&rt, THREE_HUNDRED_BLOCKS));
}

const FIVE_THOUSAND_BLOCKS: &str = "\
open start 2 65536                    = Ok
2 22 primary 1 windows 79             = Done
hard                                  = 5056
in_broker                             = 256
2 22 primary 1 status                 = Status 1 2 5056 0 5056
1 11 operator 1 tidy                  = Done
in_broker                             = 64
3 33 secondary 1 pull 0 65535 1 2     = Blocks 3 1:01 2:02
3 33 secondary 1 pull 0 65535 4095 4  = Blocks 4099 4095:ff 4096:00 4097:01 4098:02
3 33 secondary 1 pull 0 65535 4352 2  = Blocks 4354 4352:00 4353:01
3 33 secondary 1 pull 0 65535 4991 2  = Blocks 4993 4991:7f 4992:80
3 33 secondary 1 pull 0 65535 5055 16 = Blocks 5057 5055:bf 5056:c0
3 33 secondary 1 get 0 4097 exact     = Page 4097 01+0
3 33 secondary 1 get 0 4095 exact     = Page 4095 ff+0
3 33 secondary 1 get 0 5056 exact     = Page 5056 c0+0
3 33 secondary 1 get 0 5057 exact     = Denied C1 5056
4 44 page_server 1 advance 0 1024     = Done
3 33 secondary 1 get 0 1              = Page 1024
3 33 secondary 1 get 0 1025           = Page 1025 01+0
audit                                 = 10205
";

/// More hardened blocks than the first chunk of the index of destaged blocks has, read back.
#[test]
fn five_thousand_blocks(rt: HostRuntime) {
    assert!(rt; plays::<Database>(&rt, FIVE_THOUSAND_BLOCKS));
}

const WINDOW_FILLED_THREE_TIMES: &str = "\
open start 2 65536            = Ok
2 22 primary 1 fill 1 64 0    = Done
2 22 primary 1 write 65:aa 0  = Denied C3 0
2 22 primary 1 fill 1 64 1    = Done
2 22 primary 1 report 64      = Done
log                           = 64 3 0 64
2 22 primary 1 fill 65 128 0  = Done
2 22 primary 1 write 129:aa 0 = Denied C3 64
2 22 primary 1 fill 65 128 1  = Done
2 22 primary 1 report 128     = Done
log                           = 128 3 0 128
2 22 primary 1 fill 129 192 0 = Done
2 22 primary 1 write 193:aa 0 = Denied C3 128
2 22 primary 1 fill 129 192 1 = Done
2 22 primary 1 report 192     = Done
log                           = 192 3 0 192
audit                         = 390
";

#[test]
fn window_filled_three_times(rt: HostRuntime) {
    assert!(rt; plays::<Database>(&rt, WINDOW_FILLED_THREE_TIMES));
}

const AUDIT_LIST_OF_65536: &str = "\
open start 2 65536            = Ok
2 22 primary 1 statuses 70000 = 65536
2 22 primary 1 status         = AuditFull
2 22 primary 1 write 1:aa 0   = AuditFull
2 11 primary 1 status         = AuditFull
audit                         = 65536
";

#[test]
fn audit_list_of_65536(rt: HostRuntime) {
    assert!(rt; plays::<Database>(&rt, AUDIT_LIST_OF_65536));
}
