//! Rows of a log on its own: what is written, hardened and annulled.

use crate::log::Log;
use transcripts::transcript::plays;

const WRITTEN_HARDENED_READ: &str = "\
log 3 2          = Ok
hard             = 0
copies           = 3
counts           = 0 0
write 1:aa 0     = Ok
can_harden 1     = false
write 1:aa 0     = Ok
write 1:aa 1     = Ok
can_harden 0     = true
can_harden 1     = true
can_harden 2     = false
hard             = 0
counts           = 0 0
report 1         = Ok
hard             = 1
copies           = 3
counts           = 0 1
read 1           = 1:aa
report 1         = Ok
report 0         = Ok
hard             = 1
counts           = 0 1
";

#[test]
fn written_hardened_read(rt: HostRuntime) {
    assert!(rt; plays::<Log>(&rt, WRITTEN_HARDENED_READ));
}

const WINDOW_OF_SIXTY_FOUR: &str = "\
log 3 2          = Ok
in_window 0      = false
in_window 1      = true
in_window 64     = true
in_window 65     = false
write 1:aa 1     = Ok
write 1:aa 2     = Ok
write 64:bb 0    = Ok
write 64:bb 2    = Ok
can_harden 1     = true
can_harden 64    = false
can_harden 65    = false
can_harden 281474976710656 = false
report 1         = Ok
in_window 1      = false
in_window 2      = true
in_window 65     = true
in_window 66     = false
";

#[test]
fn window_of_sixty_four(rt: HostRuntime) {
    assert!(rt; plays::<Log>(&rt, WINDOW_OF_SIXTY_FOUR));
}

const CONTENT_IS_FIXED: &str = "\
log 3 2          = Ok
write 1:aa 0     = Ok
agrees 1:aa      = true
agrees 1:ab      = false
agrees 2:ab      = true
";

#[test]
fn content_is_fixed(rt: HostRuntime) {
    assert!(rt; plays::<Log>(&rt, CONTENT_IS_FIXED));
}

const FAILOVER_HARDENS_QUORUM_RUN: &str = "\
log 3 2          = Ok
write 1:01 0     = Ok
write 1:01 1     = Ok
write 2:02 1     = Ok
write 2:02 2     = Ok
write 3:03 0     = Ok
write 5:05 0     = Ok
write 5:05 1     = Ok
write 5:05 2     = Ok
recover          = 2
hard             = 2
counts           = 0 2
read 1           = 1:01
read 2           = 2:02
annulled 1 1     = none
annulled 1 2     = none
annulled 1 3     = 3:03
annulled 1 4     = none
annulled 1 5     = 5:05
annulled 2 3     = none
# The window is empty: another content fits, and is in no copy yet.
write 3:33 1     = Ok
can_harden 3     = false
";

#[test]
fn failover_hardens_quorum_run(rt: HostRuntime) {
    assert!(rt; plays::<Log>(&rt, FAILOVER_HARDENS_QUORUM_RUN));
}

const FAILOVER_STOPS_AT_GAP: &str = "\
log 3 2          = Ok
write 1:01 0     = Ok
write 1:01 1     = Ok
write 3:03 0     = Ok
write 3:03 1     = Ok
write 2:02 2     = Ok
recover          = 1
hard             = 1
counts           = 0 1
write 2:02 0     = Ok
write 2:02 1     = Ok
write 3:44 0     = Ok
write 3:44 1     = Ok
report 3         = Ok
read 1           = 1:01
read 2           = 2:02
read 3           = 3:44
annulled 1 2     = 2:02
annulled 1 3     = 3:03
";

#[test]
fn failover_stops_at_gap(rt: HostRuntime) {
    assert!(rt; plays::<Log>(&rt, FAILOVER_STOPS_AT_GAP));
}

const TWO_FAILOVERS: &str = "\
log 3 2          = Ok
write 1:11 0     = Ok
write 2:12 0     = Ok
write 2:12 1     = Ok
recover          = 0
write 64:21 2    = Ok
write 1:22 2     = Ok
recover          = 0
recover          = 0
hard             = 0
counts           = 0 0
annulled 1 1     = 1:11
annulled 1 2     = 2:12
annulled 1 64    = none
annulled 2 1     = 1:22
annulled 2 2     = none
annulled 2 64    = 64:21
annulled 3 1     = none
annulled 0 1     = none
";

#[test]
fn two_failovers(rt: HostRuntime) {
    assert!(rt; plays::<Log>(&rt, TWO_FAILOVERS));
}

// 1 and 3 are offered, 1 before it is written and 3 after it; 5 is in no copy.
const OFFERS_ARE_COUNTED: &str = "\
log 3 2          = Ok
offer 1:01       = Ok
offer 1:01       = Ok
agrees 1:01      = true
agrees 1:02      = false
can_harden 1     = false
write 1:01 0     = Ok
write 1:01 1     = Ok
write 2:02 0     = Ok
write 2:02 2     = Ok
report 2         = Ok
counts           = 1 1
write 3:03 0     = Ok
write 3:03 1     = Ok
offer 3:03       = Ok
write 4:04 1     = Ok
write 4:04 2     = Ok
offer 5:05       = Ok
counts           = 1 1
recover          = 2
counts           = 2 2
hard             = 4
read 3           = 3:03
annulled 1 3     = none
annulled 1 5     = 5:05
# The offers of the epoch before are gone.
offer 5:55       = Ok
agrees 5:05      = false
write 5:55 0     = Ok
write 5:55 1     = Ok
write 6:06 0     = Ok
write 6:06 1     = Ok
report 6         = Ok
counts           = 3 3
recover          = 0
annulled 2 5     = none
";

#[test]
fn offers_are_counted(rt: HostRuntime) {
    assert!(rt; plays::<Log>(&rt, OFFERS_ARE_COUNTED));
}

const OTHER_COPIES_AND_QUORUMS: &str = "\
log 1 1          = Ok
write 1:aa 0     = Ok
report 1         = Ok
hard             = 1
copies           = 1
counts           = 0 1
log 3 3          = Ok
write 1:aa 0     = Ok
write 1:aa 2     = Ok
can_harden 1     = false
recover          = 0
annulled 1 1     = 1:aa
log 6 4          = Ok
copies           = 6
write 1:aa 5     = Ok
write 1:aa 4     = Ok
write 1:aa 5     = Ok
write 1:aa 0     = Ok
can_harden 1     = false
write 1:aa 2     = Ok
can_harden 1     = true
report 1         = Ok
counts           = 0 1
";

#[test]
fn other_copies_and_quorums(rt: HostRuntime) {
    assert!(rt; plays::<Log>(&rt, OTHER_COPIES_AND_QUORUMS));
}

// By the zone of the epoch that ends: two of three harden 1, three of six do not harden 3.
const FAILOVERS_CHANGE_THE_ZONE: &str = "\
log 3 2          = Ok
write 1:01 0     = Ok
write 1:01 1     = Ok
write 2:02 2     = Ok
recover 6 4      = 1
copies           = 6
annulled 1 2     = 2:02
write 2:22 0     = Ok
write 2:22 1     = Ok
write 2:22 2     = Ok
can_harden 2     = false
write 2:22 5     = Ok
can_harden 2     = true
write 3:03 3     = Ok
write 3:03 4     = Ok
write 3:03 5     = Ok
recover 3 2      = 1
hard             = 2
copies           = 3
read 2           = 2:22
annulled 2 3     = 3:03
write 3:33 0     = Ok
can_harden 3     = false
write 3:33 2     = Ok
recover          = 1
copies           = 3
read 3           = 3:33
counts           = 0 3
";

#[test]
fn failovers_change_the_zone(rt: HostRuntime) {
    assert!(rt; plays::<Log>(&rt, FAILOVERS_CHANGE_THE_ZONE));
}

const WINDOW_IN_FOUR_OF_SIX: &str = "\
log 6 4          = Ok
land 1 64 5      = Ok
land 1 64 0      = Ok
land 1 64 3      = Ok
can_harden 1     = false
land 1 63 1      = Ok
can_harden 63    = true
can_harden 64    = false
land 64 64 4     = Ok
can_harden 64    = true
report 64        = Ok
in_window 128    = true
land 65 127 1    = Ok
land 65 127 2    = Ok
land 65 128 4    = Ok
land 65 127 5    = Ok
recover 6 4      = 63
hard             = 127
read 64          = 64:40
annulled 1 128   = 128:80
";

#[test]
fn window_in_four_of_six(rt: HostRuntime) {
    assert!(rt; plays::<Log>(&rt, WINDOW_IN_FOUR_OF_SIX));
}

const EACH_GROWTH_ALONE: &str = "\
log 3 2          = Ok
write 1:aa 0     = Ok
write 1:aa 1     = Ok
write 2: 0       = Ok
recover          = 1
annulled 1 2     = 2:
annulled 1 1     = none
pull 0 0 1 1 1   = 2 1:aa
log 3 2          = Ok
write 1: 0       = Ok
write 1: 1       = Ok
report 1         = Ok
hard             = 1
counts           = 0 1
read 1           = 1:
";

#[test]
fn each_growth_alone(rt: HostRuntime) {
    assert!(rt; plays::<Log>(&rt, EACH_GROWTH_ALONE));
}
