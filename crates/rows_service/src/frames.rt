//! Frames: read in any pieces, written and read again, and their faults.

use crate::framing::Frames;
use transcripts::transcript::plays;

// The bodies, why there are no more frames, and how many bytes are left unread.
const FRAMES_IN_ANY_PIECES: &str = "\
frames 65536                            = end 0
frames 65536 00000000                   = empty end 0
frames 65536 00000002aabb               = aabb end 0
frames 65536 00000001aa 00000000        = aa empty end 0
frames 65536 00000001aa 0000000401020304 00000001bb = aa 01020304 bb end 0
head 65536 0000000701                   = 7 1
head 65536                              = end 0
body 3 010203 04                        = 010203 1
body 0 01                               = empty 1
";

#[test]
fn frames_in_any_pieces(rt: HostRuntime) {
    assert!(rt; plays::<Frames>(&rt, FRAMES_IN_ANY_PIECES));
}

const FAULTS_OF_FRAMES: &str = "\
# The input ends inside a length, after one, and inside a body.
frames 65536 00                         = Short 0
frames 65536 000000                     = Short 0
frames 65536 00000001                   = Short 0
frames 65536 00000001aa 0000            = aa Short 0
frames 65536 0000000301 02              = Short 0
head 65536 000000                       = Short 0
body 3 0102                             = Short 0
# The length is above the limit, and what follows it is left.
frames 2 00000002aabb 00000003aabbcc    = aabb TooLong 3
frames 65536 00010001 00                = TooLong 1
frames 65536 01000000 00                = TooLong 1
frames 65536 ffffffff                   = TooLong 0
frames 0 00000000 00000001aa            = empty TooLong 1
head 65536 00010001                     = TooLong 0
# A read fails.
failing frames 65536                    = Io 0
failing frames 65536 000000             = Io 0
failing frames 65536 00000001aa         = aa Io 0
failing frames 65536 00000003 0102      = Io 0
failing head 65536 00                   = Io 0
failing body 1                          = Io 0
failing body 0                          = empty 0
";

#[test]
fn faults_of_frames(rt: HostRuntime) {
    assert!(rt; plays::<Frames>(&rt, FAULTS_OF_FRAMES));
}

// A read is interrupted after this many bytes, and those after it would bring the others: the frame
// ends there, as when any other read fails.
const INTERRUPTED_FRAMES: &str = "\
interrupted 0 frames 65536 00000001aa   = Io 5
interrupted 2 frames 65536 00000001aa   = Io 3
interrupted 4 frames 65536 00000001aa   = Io 1
interrupted 5 frames 65536 00000001aa 00000001bb = aa Io 5
interrupted 5 frames 65536 00000001aa   = aa Io 0
interrupted 7 frames 65536 00000003 010203 = 010203 Io 0
interrupted 6 frames 65536 00000003 010203 = Io 1
interrupted 3 head 65536 00000001       = Io 1
interrupted 4 head 65536 00000001       = 1 0
interrupted 1 body 3 010203             = Io 2
interrupted 0 body 0 01                 = empty 1
interrupted 0 replies 0000000100        = Io 5
interrupted 4 replies 0000000100        = Io 1
interrupted 5 replies 0000000100 0000000106 = Done Io 5
";

#[test]
fn interrupted_frames(rt: HostRuntime) {
    assert!(rt; plays::<Frames>(&rt, INTERRUPTED_FRAMES));
}

// The reads of a reader that gives one byte at once: one for each byte, and one that finds the end.
const READS_OF_A_FRAME: &str = "\
reads head 65536                        = 1
reads head 65536 000000                 = 4
reads head 65536 00000007 01            = 4
reads head 65536 00010001 01            = 4
reads body 3 010203 04                  = 3
reads body 3 0102                       = 3
reads body 0 01                         = 0
reads frames 65536                      = 1
reads frames 65536 00000000             = 5
reads frames 65536 00000001aa           = 6
reads frames 65536 00000001aa 00000002bbbb = 12
reads frames 65536 00000003 0102        = 7
reads frames 2 00000002aabb 00000003aabbcc = 10
reads frames 65536 00010000 65536*ab    = 65541
reads replies 0000000100 0000000106     = 11
";

#[test]
fn reads_of_a_frame(rt: HostRuntime) {
    assert!(rt; plays::<Frames>(&rt, READS_OF_A_FRAME));
}

const LONGEST_FRAMES: &str = "\
frames 65536 00010000 65536*ab 01       = 65536*ab  Short 0
frames 65536 00010000 65535*ab          = Short 0
body 65536 65536*ab                     = 65536*ab  0
";

#[test]
fn longest_frames(rt: HostRuntime) {
    assert!(rt; plays::<Frames>(&rt, LONGEST_FRAMES));
}

const WRITTEN_FRAMES_ARE_READ_AGAIN: &str = "\
send reply Done                         = 5
send reply Malformed 15                 = 6
send reply Denied C1 0                  = 16
send reply Blocks 2 1:aa                = 43
send reply Page 5 0a+1 ee+8191          = 8205
send reply Status 1 2 3 4 5             = 37
sent replies                            = \
 Done Malformed 15 Denied C1 0 Blocks 2 1:aa Page 5 0a+1 ee+8191 Status 1 2 3 4 5 Ended 0
failing sent replies                    = \
 Done Malformed 15 Denied C1 0 Blocks 2 1:aa Page 5 0a+1 ee+8191 Status 1 2 3 4 5 Io 0
";

#[test]
fn written_frames_are_read_again(rt: HostRuntime) {
    assert!(rt; plays::<Frames>(&rt, WRITTEN_FRAMES_ARE_READ_AGAIN));
}

const REQUESTS_IN_FRAMES: &str = "\
send request 2 22 primary 1 status      = 34
send request 3 33 secondary 1 report 9  = 42
sent frames 65536                       = \
 000000022222222222222222222222222222222201000000070000000107 \
 0000000333333333333333333333333333333333020000000700000001030000000000000009 end 0
";

#[test]
fn requests_in_frames(rt: HostRuntime) {
    assert!(rt; plays::<Frames>(&rt, REQUESTS_IN_FRAMES));
}

const REPLIES_FROM_FRAMES: &str = "\
replies                                 = Ended 0
replies 0000000100                      = Done Ended 0
replies 0000000106 00                   = NoMemory Short 0
replies 00000001                        = Short 0
replies 00100001 00                     = TooLong 1
failing replies 000000                  = Io 0
# A body that is no reply: its frame is read, and what follows it is left.
replies 00000000 01                     = fault 1 1
replies 000000010b 01                   = fault 3 1
replies 000000020000 01                 = fault 5 1
replies 000000020a10 01                 = fault 6 1
";

#[test]
fn replies_from_frames(rt: HostRuntime) {
    assert!(rt; plays::<Frames>(&rt, REPLIES_FROM_FRAMES));
}

const WRITERS_THAT_STOP: &str = "\
room 0 reply Malformed 7                = empty Io
room 1 reply Malformed 7                = 00 Io
room 2 reply Malformed 7                = 0000 Io
room 3 reply Malformed 7                = 000000 Io
room 4 reply Malformed 7                = 00000002 Io
room 5 reply Malformed 7                = 000000020a Io
room 6 reply Malformed 7                = 000000020a07 whole
room 7 reply Malformed 7                = 000000020a07 whole
room 6 request 2 22 primary 1 status    = 0000001e0000 Io
room 33 request 2 22 primary 1 status   = 0000001e0000000222222222222222222222222222222222010000000700000001 Io
";

#[test]
fn writers_that_stop(rt: HostRuntime) {
    assert!(rt; plays::<Frames>(&rt, WRITERS_THAT_STOP));
}
