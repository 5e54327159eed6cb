//! The auditor of recordings of an XG-PON optical line terminal (upstream bandwidth assignment, ITU-T G.987.3) for a host
//! without files and threads, such as a web page.
//!
//! Each export takes bytes, and hands the bytes of its answer to the room that the host gives, if they fit, and their
//! number. If they do not fit, the host makes more room and asks again. Nothing is kept between two calls.
#![tactic(auto)]

mod asked;
mod checking;
mod frames;
mod handing;
mod judging;
mod picture;
mod planning;
mod status;
mod views;
