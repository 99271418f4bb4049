//! Requests and replies as bytes, both ways, and the frames that carry them on a connection.
//!
//! Each request, and each reply that fits, has one spelling. What is read is the request or the reply
//! of its spelling. Of bytes that spell no request the fault of the least code is reported; of bytes
//! that spell no reply, the fault that is met first. A frame is a length in four bytes, the high one
//! first, and a body of this many bytes: [`read_frame`] and [`read_reply`] take one from a reader,
//! [`body_in`] finds one where it lies, [`write_request`] and [`write_reply`] write one. [`put_answer`] writes the
//! reply of a [`Gate`] to what was read of a body.
#![tactic(auto)]

mod answer;
mod fault;
mod fields;
mod frame_in_place;
mod frame_reading;
mod frame_writing;
mod gate;
mod kind;
mod latest;
pub mod laws;
mod reply_reading;
mod reply_writing;
mod request_reading;
mod request_writing;
mod seen;

pub use answer::{put_answer, refusal};
pub use fault::{BodyFault, WireFault};
pub use frame_in_place::{body_in, is_cut};
pub use frame_reading::{
    FrameFault, LENGTH_BYTES, LONGEST_REPLY, LONGEST_REQUEST, ReplyFault, read_body, read_frame,
    read_head, read_reply,
};
pub use frame_writing::{
    LARGEST_REPLY_FRAME, Unwritten, WriteFault, put_reply, write_bytes, write_reply, write_request,
};
pub use gate::Gate;
pub use kind::ReplyKind;
pub use latest::Latest;
pub use reply_reading::decode_reply;
pub use reply_writing::encode_reply;
pub use request_reading::{decode_request, decode_request_after};
pub use request_writing::encode_request;
